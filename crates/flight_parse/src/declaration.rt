ghost use Rattle.std.specs.Prelude.{◌≡◌, map};
ghost use Rattle.flight_syntax.specs.Lexicon.{component_of, lower_of};
ghost use Rattle.flight_syntax.specs.Tree as tree;
ghost use Rattle.flight_grammar.specs.Reading.{want, both, made, many, more, first_and, next_is};
ghost use Rattle.flight_grammar.specs.Reader as reader;
ghost use Rattle.flight_parse.specs.Code.{words, placed, tree_of, Gives};
ghost use Rattle.flight_parse.specs.Values.{json_of};
ghost use Rattle.flight_parse.specs.Declarations.{declaration_of};

use crate::expression::expression;
use crate::json_value::Json;
use crate::lexeme::{Lexeme, Name};
use crate::stop::{Stop, unexpected};
use crate::terminal::{behind_mark, component, ended, lower, mark};
use crate::tree::Tree;
use crate::values::value;
use flight_syntax::{Keyword, Punctuator};
use sqlite_items::Items;
use std::alloc::Global;

/// A declaration as it is written.
#[derive(Drop)]
pub enum Declaration {
    Server {
        name: Name,
        params: Items<Name>,
        body: Tree,
    },
    Client {
        name: Name,
        import: Json,
    },
    Action {
        name: Name,
        params: Items<Name>,
        body: Tree,
    },
}

/// The declarations of a whole program.
pub fn program(alloc: Global, lexemes: &[Lexeme]) -> Result<Vec<Declaration>, Stop>
    ensures { Gives (λ x. map declaration_of x.items) result (reader.program (words lexemes.now)) }
{
    let (declarations, rest) = declarations(alloc, lexemes)?;
    match rest {
        [] => Ok(declarations),
        [_, ..] => Err(unexpected(rest)),
    }
}

/// Declarations, one after another.
fn declarations(alloc: Global, lexemes: &[Lexeme]) -> Result<(Vec<Declaration>, &[Lexeme]), Stop>
    ensures { Gives (λ x. (map declaration_of x.0.items, words x.1.now)) result
        (many reader.starts_declaration reader.declaration (words lexemes.now)) }
{
    let mut declarations = Vec::new(alloc);
    let mut rest = lexemes;
    for _ in 0..lexemes.len() {
        if !starts_declaration(rest) {
            return Ok((declarations, rest));
        }
        let (declaration, after) = declared(alloc, rest)?;
        declarations.push(declaration)?;
        rest = after;
    }
    Ok((declarations, rest))
}

/// Whether a declaration is next.
fn starts_declaration(lexemes: &[Lexeme]) -> bool
    ensures { result ≡ next_is reader.starts_declaration (words lexemes.now) }
{
    match lexemes {
        [
            Lexeme::Key(Keyword::Server | Keyword::Client | Keyword::Action, _),
            ..
        ] => true,
        _ => false,
    }
}

/// A declaration.
fn declared(alloc: Global, lexemes: &[Lexeme]) -> Result<(Declaration, &[Lexeme]), Stop>
    ensures { Gives (λ x. (declaration_of x.0, words x.1.now)) result (reader.declaration (words lexemes.now)) }
{
    match lexemes {
        [Lexeme::Key(Keyword::Server, _), rest @ ..] => server(alloc, rest),
        [Lexeme::Key(Keyword::Client, _), rest @ ..] => client(alloc, rest),
        [Lexeme::Key(Keyword::Action, _), rest @ ..] => action(alloc, rest),
        _ => Err(unexpected(lexemes)),
    }
}

/// Behind `server`.
fn server(alloc: Global, lexemes: &[Lexeme]) -> Result<(Declaration, &[Lexeme]), Stop>
    ensures { Gives (λ x. (declaration_of x.0, words x.1.now)) result
        (made (λ p. tree.server p.0 p.1.0 p.1.1) (both (want component_of) (λ n. both reader.parameters (λ ps. reader.body))) (words lexemes.now)) }
{
    let (name, rest) = component(lexemes)?;
    let (params, rest) = parameters(alloc, rest)?;
    let (body, rest) = body(alloc, rest)?;
    Ok((Declaration::Server { name, params, body }, rest))
}

/// Behind `client`.
fn client(alloc: Global, lexemes: &[Lexeme]) -> Result<(Declaration, &[Lexeme]), Stop>
    ensures { Gives (λ x. (declaration_of x.0, words x.1.now)) result
        (made (λ p. tree.client_is p.0 p.1) (both (want component_of) (λ n. reader.import)) (words lexemes.now)) }
{
    let (name, rest) = component(lexemes)?;
    let (import, rest) = import(alloc, rest)?;
    Ok((Declaration::Client { name, import }, rest))
}

/// Behind `action`.
fn action(alloc: Global, lexemes: &[Lexeme]) -> Result<(Declaration, &[Lexeme]), Stop>
    ensures { Gives (λ x. (declaration_of x.0, words x.1.now)) result
        (made (λ p. tree.action_is p.0 p.1.0 p.1.1) (both (want lower_of) (λ n. both reader.parameters (λ ps. reader.body))) (words lexemes.now)) }
{
    let (name, rest) = lower(lexemes)?;
    let (params, rest) = parameters(alloc, rest)?;
    let (body, rest) = body(alloc, rest)?;
    Ok((Declaration::Action { name, params, body }, rest))
}

/// `= expression ;`.
fn body(alloc: Global, lexemes: &[Lexeme]) -> Result<(Tree, &[Lexeme]), Stop>
    ensures { Gives (λ x. (tree_of x.0, words x.1.now)) result (reader.body (words lexemes.now)) }
{
    let rest = mark(Punctuator::Assign, lexemes)?;
    let (body, rest) = expression(alloc, rest)?;
    ended(body, Punctuator::Semicolon, rest)
}

/// `= value ;`.
fn import(alloc: Global, lexemes: &[Lexeme]) -> Result<(Json, &[Lexeme]), Stop>
    ensures { Gives (λ x. (json_of x.0, words x.1.now)) result (reader.import (words lexemes.now)) }
{
    let rest = mark(Punctuator::Assign, lexemes)?;
    let (import, rest) = value(alloc, rest)?;
    ended(import, Punctuator::Semicolon, rest)
}

/// Names in parentheses, with commas between.
fn parameters(alloc: Global, lexemes: &[Lexeme]) -> Result<(Items<Name>, &[Lexeme]), Stop>
    ensures { Gives (λ x. (map placed x.0, words x.1.now)) result (reader.parameters (words lexemes.now)) }
{
    let rest = mark(Punctuator::OpenParen, lexemes)?;
    if let Some(rest) = behind_mark(Punctuator::CloseParen, rest) {
        return Ok((Items::new(alloc), rest));
    }
    let (params, rest) = some_parameters(alloc, rest)?;
    ended(params, Punctuator::CloseParen, rest)
}

/// One or more names with commas between.
fn some_parameters(alloc: Global, lexemes: &[Lexeme]) -> Result<(Items<Name>, &[Lexeme]), Stop>
    ensures { Gives (λ x. (map placed x.0, words x.1.now)) result
        (made first_and (both (want lower_of) (λ a. more (want lower_of))) (words lexemes.now)) }
{
    let (first, mut rest) = lower(lexemes)?;
    let mut params = Items::new(alloc);
    params.push(first)?;
    for _ in 0..rest.len() {
        let Some(after) = behind_mark(Punctuator::Comma, rest) else {
            return Ok((params, rest));
        };
        let (param, after) = lower(after)?;
        params.push(param)?;
        rest = after;
    }
    Ok((params, rest))
}
