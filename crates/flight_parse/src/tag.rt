ghost use Rattle.std.specs.Prelude.{◌≡◌, IfOk, map};
ghost use Rattle.flight_syntax.specs.Lexicon.{is_mark, is_plain, name_of, text_of};
ghost use Rattle.flight_syntax.specs.Tree.{joined};
ghost use Rattle.flight_syntax.specs.declared.word.Punctuator.TheVariants.{LessSlash, Greater};
ghost use Rattle.flight_grammar.specs.Reading.{want, at, made, next_is, by_word};
ghost use Rattle.flight_grammar.specs.Reader as reader;
ghost use Rattle.flight_parse.specs.Code.{words, placed, tree_of, Fails, Gives};

use crate::lexeme::{Lexeme, Name};
use crate::stop::{Stop, too_deep, unexpected};
use crate::terminal::{any_name, behind_mark, mark, same, text};
use crate::tree::Tree;
use flight_syntax::Punctuator;
use flight_value::{Atom, Memory, Text};
use std::alloc::Global;

/// Whether a name is next, keywords included.
pub fn starts_name(lexemes: &[Lexeme]) -> bool
    ensures { result ≡ next_is (at name_of) (words lexemes.now) }
{
    match lexemes {
        [Lexeme::Lower(_) | Lexeme::Upper(_) | Lexeme::Key(_, _), ..] => true,
        _ => false,
    }
}

/// Whether a postfix is next.
pub fn starts_post(lexemes: &[Lexeme]) -> bool
    ensures { result ≡ next_is reader.starts_post (words lexemes.now) }
{
    match lexemes {
        [Lexeme::Mark(Punctuator::Dot | Punctuator::OpenBracket), ..] => true,
        _ => false,
    }
}

/// Whether a text or an expression in braces is next.
pub fn starts_given(lexemes: &[Lexeme]) -> bool
    ensures { result ≡ next_is reader.starts_given (words lexemes.now) }
{
    match lexemes {
        [Lexeme::Literal(_) | Lexeme::Mark(Punctuator::OpenBrace), ..] => true,
        _ => false,
    }
}

/// Whether a text is next.
pub fn starts_text(lexemes: &[Lexeme]) -> bool
    ensures { result ≡ next_is (at text_of) (words lexemes.now) }
{
    match lexemes {
        [Lexeme::Literal(_), ..] => true,
        _ => false,
    }
}

/// A text as an expression.
pub fn bare(lexemes: &[Lexeme]) -> Result<(Tree, &[Lexeme]), Stop>
    ensures { Gives (λ x. (tree_of x.0, words x.1.now)) result (made reader.bare (want text_of) (words lexemes.now)) }
{
    let (value, rest) = text(lexemes)?;
    Ok((Tree::Atom(Atom::Text(value.bytes)), rest))
}

/// Whether a child is next.
pub fn starts_child(lexemes: &[Lexeme]) -> bool
    ensures { result ≡ next_is reader.starts_child (words lexemes.now) }
{
    match lexemes {
        [
            Lexeme::Literal(_) | Lexeme::Mark(Punctuator::OpenBrace | Punctuator::Less),
            ..
        ] => true,
        _ => false,
    }
}

/// Where no child element may begin any more.
pub fn no_child(lexemes: &[Lexeme]) -> Stop
    ensures { Fails result (by_word reader.no_element_arm (words lexemes.now)) }
{
    match lexemes {
        [Lexeme::Mark(Punctuator::Less), ..] => too_deep(lexemes),
        _ => unexpected(lexemes),
    }
}

/// The closing tag of an element.
pub fn closing<'a>(tag: &Name, lexemes: &'a [Lexeme]) -> Result<&'a [Lexeme], Stop>
    ensures { Gives (λ x. (tt, words x.now)) result (reader.closing (placed tag.now) (words lexemes.now)) }
{
    let rest = mark(Punctuator::LessSlash, lexemes)?;
    let rest = same(tag.bytes.as_str(), rest)?;
    mark(Punctuator::Greater, rest)
}

/// The parts of an attribute's name behind the first, each behind a `-`.
pub fn more_parts(alloc: Global, lexemes: &[Lexeme]) -> Result<(Vec<Name>, &[Lexeme]), Stop>
    ensures { Gives (λ x. (map placed x.0.items, words x.1.now)) result (reader.more_parts (words lexemes.now)) }
{
    let mut parts = Vec::new(alloc);
    let mut rest = lexemes;
    for _ in 0..lexemes.len() {
        let Some(after) = behind_mark(Punctuator::Minus, rest) else {
            return Ok((parts, rest));
        };
        let (part, after) = any_name(alloc, after)?;
        parts.push(part)?;
        rest = after;
    }
    Ok((parts, rest))
}

/// The name of an attribute, its parts joined by `-`.
pub fn joined(alloc: Global, first: &Name, parts: &[Name]) -> Result<Name, Memory>
    ensures { IfOk result (λ name. placed name ≡ joined (placed first.now) (map placed parts.now)) }
{
    let mut bytes = String::from_str(alloc, first.bytes.as_str())?;
    for part in parts {
        bytes.push_str("-")?;
        bytes.push_str(part.bytes.as_str())?;
    }
    let bytes = Text::from_string(bytes)?;
    let at = first.at;
    Ok(Name { bytes, at })
}
