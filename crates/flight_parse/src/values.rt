ghost use Rattle.std.specs.Prelude.{◌≡◌, suc, map, option_map};
ghost use Rattle.std.specs.Fmt.{signed_decimal};
ghost use Rattle.json.specs.Json as json;
ghost use Rattle.flight_syntax.specs.Lexicon.{is_mark, negative_json_of};
ghost use Rattle.flight_syntax.specs.Lexicon as lexicon;
ghost use Rattle.flight_grammar.specs.Reading.{want, by_word, both, made, more, first_and, list_until};
ghost use Rattle.flight_syntax.specs.declared.word.Punctuator.TheVariants.{CloseBracket, CloseBrace};
ghost use Rattle.flight_grammar.specs.Reader as reader;
ghost use Rattle.flight_syntax.specs.Tree.{json_items_of, json_members_of};
ghost use Rattle.flight_parse.specs.Code.{words, Fails, Gives};
ghost use Rattle.flight_parse.specs.Values.{json_of, member_of};

use crate::json_value::{Json, Member};
use crate::lexeme::Lexeme;
use crate::numeral::Numeral;
use crate::stop::{Stop, too_deep, unexpected};
use crate::terminal::{behind_mark, mark, text};
use flight_syntax::{Keyword, Punctuator};
use sqlite_items::Items;
use std::alloc::Global;

/// A JSON value of at most 100 levels.
pub fn value(alloc: Global, lexemes: &[Lexeme]) -> Result<(Json, &[Lexeme]), Stop>
    ensures { Gives (λ x. (json_of x.0, words x.1.now)) result (reader.json_value 100 (words lexemes.now)) }
{
    value_at(alloc, 100, lexemes)
}

/// A JSON value of at most so many levels. What the level below reads is given to the functions for one level
/// as a closure.
#[cycle(values)]
fn value_at(alloc: Global, depth: u32, lexemes: &[Lexeme]) -> Result<(Json, &[Lexeme]), Stop>
    ensures { Gives (λ x. (json_of x.0, words x.1.now)) result (reader.json_value depth (words lexemes.now)) }
{
    if depth == 0 {
        return Err(none_left(lexemes));
    }
    let below = depth - 1;
    nested(
        alloc,
        below,
        move |lexemes|
            ensures { Gives (λ x. (json_of x.0, words x.1.now)) result (reader.json_value below (words lexemes.now)) }
        { value_at(alloc, below, lexemes) },
        lexemes,
    )
}

/// Where no level is left.
fn none_left(lexemes: &[Lexeme]) -> Stop
    ensures { Fails result (reader.json_value 0 (words lexemes.now)) }
{
    too_deep(lexemes)
}

/// A JSON value of the level below.
fn value_below<'a, F: Fn(&'a [Lexeme]) -> Result<(Json, &'a [Lexeme]), Stop>>(
    below: u32,
    read: &F,
    lexemes: &'a [Lexeme],
) -> Result<(Json, &'a [Lexeme]), Stop>
    requires callable { F.IsAlwaysCallable read.now }
    requires reads { (ls : _) (r : _) → F.post read.now ls r → Gives (λ x. (json_of x.0, words x.1.now)) r (reader.json_value below (words ls.now)) }
    ensures { Gives (λ x. (json_of x.0, words x.1.now)) result (reader.json_value below (words lexemes.now)) }
{
    read(lexemes)
}

/// A JSON value, where so many levels are left below it.
#[tactic(auto, unfolding(flight_grammar::specs::Reader::json_value))]
fn nested<'a, F: Fn(&'a [Lexeme]) -> Result<(Json, &'a [Lexeme]), Stop>>(
    alloc: Global,
    below: u32,
    read: F,
    lexemes: &'a [Lexeme],
) -> Result<(Json, &'a [Lexeme]), Stop>
    requires callable { F.IsAlwaysCallable read }
    requires reads { (ls : _) (r : _) → F.post read ls r → Gives (λ x. (json_of x.0, words x.1.now)) r (reader.json_value below (words ls.now)) }
    ensures { Gives (λ x. (json_of x.0, words x.1.now)) result (reader.json_value (suc below) (words lexemes.now)) }
{
    match lexemes {
        [Lexeme::Mark(Punctuator::Minus), rest @ ..] => negative(rest),
        [Lexeme::Mark(Punctuator::OpenBracket), rest @ ..] => array(alloc, below, &read, rest),
        [Lexeme::Mark(Punctuator::OpenBrace), rest @ ..] => object(alloc, below, &read, rest),
        _ => scalar(lexemes),
    }
}

/// A JSON value of one token.
fn scalar(lexemes: &[Lexeme]) -> Result<(Json, &[Lexeme]), Stop>
    ensures { Gives (λ x. (json_of x.0, words x.1.now)) result (by_word (λ word. reader.scalar_arm (lexicon.json_of word)) (words lexemes.now)) }
{
    match lexemes {
        [Lexeme::Key(Keyword::Null, _), rest @ ..] => Ok((Json::Null, rest)),
        [Lexeme::Key(Keyword::True, _), rest @ ..] => Ok((Json::Boolean(true), rest)),
        [Lexeme::Key(Keyword::False, _), rest @ ..] => Ok((Json::Boolean(false), rest)),
        [Lexeme::Number(numeral), rest @ ..] => Ok((Json::Number(numeral.value), rest)),
        [Lexeme::Literal(value), rest @ ..] => Ok((Json::String(value.bytes.clone()?), rest)),
        _ => Err(unexpected(lexemes)),
    }
}

/// Behind a minus, a number that is not 0.
fn negative(lexemes: &[Lexeme]) -> Result<(Json, &[Lexeme]), Stop>
    ensures { Gives (λ x. (json_of x.0, words x.1.now)) result (want negative_json_of (words lexemes.now)) }
{
    match lexemes {
        [Lexeme::Number(numeral), rest @ ..] => match negated(numeral) {
            Some(number) => Ok((Json::Number(number), rest)),
            None => Err(unexpected(lexemes)),
        },
        _ => Err(unexpected(lexemes)),
    }
}

/// A number below zero, if the number is not 0.
#[tactic(auto, using(crate::proofs::Numbers::no_minus_zero))]
fn negated(numeral: &Numeral) -> Option<i64>
    ensures { option_map (λ number. json.number (signed_decimal number)) result ≡ negative_json_of (lexicon.number numeral.now.digits) }
{
    if numeral.value == 0 {
        None
    } else {
        Some(-numeral.value)
    }
}

/// Behind `[`.
fn array<'a, F: Fn(&'a [Lexeme]) -> Result<(Json, &'a [Lexeme]), Stop>>(
    alloc: Global,
    below: u32,
    read: &F,
    lexemes: &'a [Lexeme],
) -> Result<(Json, &'a [Lexeme]), Stop>
    requires callable { F.IsAlwaysCallable read.now }
    requires reads { (ls : _) (r : _) → F.post read.now ls r → Gives (λ x. (json_of x.0, words x.1.now)) r (reader.json_value below (words ls.now)) }
    ensures { Gives (λ x. (json_of x.0, words x.1.now)) result
        (made (λ js. json.array (json_items_of js)) (list_until (is_mark CloseBracket) (reader.json_value below)) (words lexemes.now)) }
{
    if let Some(rest) = behind_mark(Punctuator::CloseBracket, lexemes) {
        return Ok((Json::Array(Items::new(alloc)), rest));
    }
    let (items, rest) = some_values(alloc, below, read, lexemes)?;
    let rest = mark(Punctuator::CloseBracket, rest)?;
    Ok((Json::Array(items), rest))
}

/// One or more values with commas between.
fn some_values<'a, F: Fn(&'a [Lexeme]) -> Result<(Json, &'a [Lexeme]), Stop>>(
    alloc: Global,
    below: u32,
    read: &F,
    lexemes: &'a [Lexeme],
) -> Result<(Items<Json>, &'a [Lexeme]), Stop>
    requires callable { F.IsAlwaysCallable read.now }
    requires reads { (ls : _) (r : _) → F.post read.now ls r → Gives (λ x. (json_of x.0, words x.1.now)) r (reader.json_value below (words ls.now)) }
    ensures { Gives (λ x. (map json_of x.0, words x.1.now)) result
        (made first_and (both (reader.json_value below) (λ a. more (reader.json_value below))) (words lexemes.now)) }
{
    let (first, mut rest) = value_below(below, read, lexemes)?;
    let mut values = Items::new(alloc);
    values.push(first)?;
    for _ in 0..rest.len() {
        let Some(after) = behind_mark(Punctuator::Comma, rest) else {
            return Ok((values, rest));
        };
        let (value, after) = value_below(below, read, after)?;
        values.push(value)?;
        rest = after;
    }
    Ok((values, rest))
}

/// Behind `{`.
fn object<'a, F: Fn(&'a [Lexeme]) -> Result<(Json, &'a [Lexeme]), Stop>>(
    alloc: Global,
    below: u32,
    read: &F,
    lexemes: &'a [Lexeme],
) -> Result<(Json, &'a [Lexeme]), Stop>
    requires callable { F.IsAlwaysCallable read.now }
    requires reads { (ls : _) (r : _) → F.post read.now ls r → Gives (λ x. (json_of x.0, words x.1.now)) r (reader.json_value below (words ls.now)) }
    ensures { Gives (λ x. (json_of x.0, words x.1.now)) result
        (made (λ ms. json.object (json_members_of ms)) (list_until (is_mark CloseBrace) (reader.json_key (reader.json_value below))) (words lexemes.now)) }
{
    if let Some(rest) = behind_mark(Punctuator::CloseBrace, lexemes) {
        return Ok((Json::Object(Items::new(alloc)), rest));
    }
    let (members, rest) = some_members(alloc, below, read, lexemes)?;
    let rest = mark(Punctuator::CloseBrace, rest)?;
    Ok((Json::Object(members), rest))
}

/// One or more members with commas between.
fn some_members<'a, F: Fn(&'a [Lexeme]) -> Result<(Json, &'a [Lexeme]), Stop>>(
    alloc: Global,
    below: u32,
    read: &F,
    lexemes: &'a [Lexeme],
) -> Result<(Items<Member>, &'a [Lexeme]), Stop>
    requires callable { F.IsAlwaysCallable read.now }
    requires reads { (ls : _) (r : _) → F.post read.now ls r → Gives (λ x. (json_of x.0, words x.1.now)) r (reader.json_value below (words ls.now)) }
    ensures { Gives (λ x. (map member_of x.0, words x.1.now)) result
        (made first_and (both (reader.json_key (reader.json_value below)) (λ a. more (reader.json_key (reader.json_value below)))) (words lexemes.now)) }
{
    let (first, mut rest) = member(alloc, below, read, lexemes)?;
    let mut members = Items::new(alloc);
    members.push(first)?;
    for _ in 0..rest.len() {
        let Some(after) = behind_mark(Punctuator::Comma, rest) else {
            return Ok((members, rest));
        };
        let (member, after) = member(alloc, below, read, after)?;
        members.push(member)?;
        rest = after;
    }
    Ok((members, rest))
}

/// A member.
fn member<'a, F: Fn(&'a [Lexeme]) -> Result<(Json, &'a [Lexeme]), Stop>>(
    alloc: Global,
    below: u32,
    read: &F,
    lexemes: &'a [Lexeme],
) -> Result<(Member, &'a [Lexeme]), Stop>
    requires callable { F.IsAlwaysCallable read.now }
    requires reads { (ls : _) (r : _) → F.post read.now ls r → Gives (λ x. (json_of x.0, words x.1.now)) r (reader.json_value below (words ls.now)) }
    ensures { Gives (λ x. (member_of x.0, words x.1.now)) result
        (reader.json_key (reader.json_value below) (words lexemes.now)) }
{
    let (name, rest) = text(lexemes)?;
    let rest = mark(Punctuator::Colon, rest)?;
    let (value, rest) = value_below(below, read, rest)?;
    Ok((Member { name, value }, rest))
}
