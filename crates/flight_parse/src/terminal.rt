ghost use Rattle.std.specs.Prelude.{◌≡◌, ℕ, true, false, IfOk, IfSome, IfNone, Ok};
ghost use Rattle.flight_syntax.specs.Pieces.{decimal};
ghost use Rattle.flight_syntax.specs.Lexicon as lexicon;
ghost use Rattle.flight_syntax.specs.Lexicon.{is_key, is_mark, name_of, lower_of, plain_of, is_plain, component_of, text_of, property_of, negative_of, date_of, symbol_of, operator_of};
ghost use Rattle.flight_grammar.specs.Reading.{want, at, next_is};
ghost use Rattle.flight_parse.specs.Code.{words, placed, Gives};

use crate::lexeme::{Lexeme, Name};
use crate::numeral::Numeral;
use crate::stop::{Stop, unexpected};
use crate::word::{key_number, sign_number, spelled};
use flight_syntax::{Keyword, Op, Punctuator};
use flight_value::{Atom, Constant, Memory, Text, Wide, is_date};
use std::alloc::Global;

/// A mark.
pub fn mark(sign: Punctuator, lexemes: &[Lexeme]) -> Result<&[Lexeme], Stop>
    ensures { Gives (λ x. (tt, words x.now)) result (want (is_mark sign) (words lexemes.now)) }
{
    match lexemes {
        [Lexeme::Mark(other), rest @ ..] if sign_number(*other) == sign_number(sign) => Ok(rest),
        _ => Err(unexpected(lexemes)),
    }
}

/// A mark after what was read.
pub fn ended<T: Drop>(
    value: T,
    sign: Punctuator,
    lexemes: &[Lexeme],
) -> Result<(T, &[Lexeme]), Stop>
    ensures value { IfOk result (λ x. x.0 ≡ value) }
    ensures read { Gives (λ x. (tt, words x.1.now)) result (want (is_mark sign) (words lexemes.now)) }
{
    let rest = mark(sign, lexemes)?;
    Ok((value, rest))
}

/// A keyword.
pub fn key(keyword: Keyword, lexemes: &[Lexeme]) -> Result<&[Lexeme], Stop>
    ensures { Gives (λ x. (tt, words x.now)) result (want (is_key keyword) (words lexemes.now)) }
{
    match lexemes {
        [Lexeme::Key(other, _), rest @ ..] if key_number(*other) == key_number(keyword) => Ok(rest),
        _ => Err(unexpected(lexemes)),
    }
}

/// What stands behind a mark, if it is next.
pub fn behind_mark(sign: Punctuator, lexemes: &[Lexeme]) -> Option<&[Lexeme]>
    ensures some { IfSome result (λ rest. next_is (at (is_mark sign)) (words lexemes.now) ≡ true) }
    ensures rest { IfSome result (λ rest. want (is_mark sign) (words lexemes.now) ≡ Ok (tt, words rest.now)) }
    ensures none { IfNone result (next_is (at (is_mark sign)) (words lexemes.now) ≡ false) }
{
    match lexemes {
        [Lexeme::Mark(other), rest @ ..] if sign_number(*other) == sign_number(sign) => Some(rest),
        _ => None,
    }
}

/// What stands behind a keyword, if it is next.
pub fn behind_key(keyword: Keyword, lexemes: &[Lexeme]) -> Option<&[Lexeme]>
    ensures some { IfSome result (λ rest. next_is (at (is_key keyword)) (words lexemes.now) ≡ true) }
    ensures rest { IfSome result (λ rest. want (is_key keyword) (words lexemes.now) ≡ Ok (tt, words rest.now)) }
    ensures none { IfNone result (next_is (at (is_key keyword)) (words lexemes.now) ≡ false) }
{
    match lexemes {
        [Lexeme::Key(other, _), rest @ ..] if key_number(*other) == key_number(keyword) => Some(
            rest,
        ),
        _ => None,
    }
}

/// A lower name.
pub fn lower(lexemes: &[Lexeme]) -> Result<(Name, &[Lexeme]), Stop>
    ensures { Gives (λ x. (placed x.0, words x.1.now)) result (want lower_of (words lexemes.now)) }
{
    match lexemes {
        [Lexeme::Lower(name), rest @ ..] => Ok((name.copy()?, rest)),
        _ => Err(unexpected(lexemes)),
    }
}

/// A name that is no keyword.
pub fn plain(lexemes: &[Lexeme]) -> Result<(Name, &[Lexeme]), Stop>
    ensures { Gives (λ x. (placed x.0, words x.1.now)) result (want plain_of (words lexemes.now)) }
{
    match lexemes {
        [Lexeme::Lower(name) | Lexeme::Upper(name), rest @ ..] => Ok((name.copy()?, rest)),
        _ => Err(unexpected(lexemes)),
    }
}

/// A name that is no keyword, with these bytes.
pub fn same<'a>(name: &str, lexemes: &'a [Lexeme]) -> Result<&'a [Lexeme], Stop>
    ensures { Gives (λ x. (tt, words x.now)) result (want (is_plain name.now) (words lexemes.now)) }
{
    match lexemes {
        [Lexeme::Lower(other) | Lexeme::Upper(other), rest @ ..] if other.bytes.as_str() == name =>
            { Ok(rest) }
        _ => Err(unexpected(lexemes)),
    }
}

/// An Upper name that a component may have.
pub fn component(lexemes: &[Lexeme]) -> Result<(Name, &[Lexeme]), Stop>
    ensures { Gives (λ x. (placed x.0, words x.1.now)) result (want component_of (words lexemes.now)) }
{
    match lexemes {
        [Lexeme::Upper(name), rest @ ..] if name.bytes.as_str() != "Suspense" => {
            Ok((name.copy()?, rest))
        }
        _ => Err(unexpected(lexemes)),
    }
}

/// Any name, keywords included.
pub fn any_name(alloc: Global, lexemes: &[Lexeme]) -> Result<(Name, &[Lexeme]), Stop>
    ensures { Gives (λ x. (placed x.0, words x.1.now)) result (want name_of (words lexemes.now)) }
{
    match lexemes {
        [Lexeme::Lower(name) | Lexeme::Upper(name), rest @ ..] => Ok((name.copy()?, rest)),
        [Lexeme::Key(keyword, at), rest @ ..] => Ok((keyword_name(alloc, *keyword, *at)?, rest)),
        _ => Err(unexpected(lexemes)),
    }
}

/// The name of a property: any name, or a text.
pub fn property_name(alloc: Global, lexemes: &[Lexeme]) -> Result<(Name, &[Lexeme]), Stop>
    ensures { Gives (λ x. (placed x.0, words x.1.now)) result (want property_of (words lexemes.now)) }
{
    match lexemes {
        [
            Lexeme::Lower(name) | Lexeme::Upper(name) | Lexeme::Literal(name),
            rest @ ..,
        ] => { Ok((name.copy()?, rest)) }
        [Lexeme::Key(keyword, at), rest @ ..] => Ok((keyword_name(alloc, *keyword, *at)?, rest)),
        _ => Err(unexpected(lexemes)),
    }
}

/// A keyword as a name.
fn keyword_name(alloc: Global, keyword: Keyword, at: u32) -> Result<Name, Memory>
    ensures { IfOk result (λ name. placed name ≡ record { bytes = lexicon.spelled keyword; at = at }) }
{
    let bytes = Text::new(alloc, spelled(keyword))?;
    Ok(Name { bytes, at })
}

/// A text.
pub fn text(lexemes: &[Lexeme]) -> Result<(Name, &[Lexeme]), Stop>
    ensures { Gives (λ x. (placed x.0, words x.1.now)) result (want text_of (words lexemes.now)) }
{
    match lexemes {
        [Lexeme::Literal(value), rest @ ..] => Ok((value.copy()?, rest)),
        _ => Err(unexpected(lexemes)),
    }
}

/// Behind a minus, the number below zero that it makes.
pub fn negative(lexemes: &[Lexeme]) -> Result<(Atom, &[Lexeme]), Stop>
    ensures { Gives (λ x. (x.0, words x.1.now)) result (want negative_of (words lexemes.now)) }
{
    match lexemes {
        [Lexeme::Key(Keyword::Infinity, _), rest @ ..] => {
            Ok((Atom::Constant(Constant::MinusInfinity), rest))
        }
        [Lexeme::Number(numeral), rest @ ..] => Ok((minus(numeral), rest)),
        [Lexeme::Big(numeral), rest @ ..] => Ok((Atom::Big(Wide::new(-numeral.value)), rest)),
        _ => Err(unexpected(lexemes)),
    }
}

/// A number below zero. 0 with a minus is a constant of its own.
fn minus(numeral: &Numeral) -> Atom
    ensures { result ≡ lexicon.minus (decimal numeral.now.digits) }
{
    if numeral.value == 0 {
        Atom::Constant(Constant::MinusZero)
    } else {
        Atom::Whole(-numeral.value)
    }
}

/// Behind `date`, the date.
pub fn date(lexemes: &[Lexeme]) -> Result<(Atom, &[Lexeme]), Stop>
    ensures { Gives (λ x. (x.0, words x.1.now)) result (want date_of (words lexemes.now)) }
{
    match lexemes {
        [Lexeme::Literal(value), rest @ ..] if has_date_form(value.bytes.as_str()) => {
            Ok((Atom::Date(value.bytes.clone()?), rest))
        }
        _ => Err(unexpected(lexemes)),
    }
}

/// Whether a text has the form of a date.
fn has_date_form(text: &str) -> bool
    ensures { result ≡ lexicon.is_date text.now }
{
    is_date(text)
}

/// Behind `symbol`, the symbol.
pub fn symbol(lexemes: &[Lexeme]) -> Result<(Atom, &[Lexeme]), Stop>
    ensures { Gives (λ x. (x.0, words x.1.now)) result (want symbol_of (words lexemes.now)) }
{
    match lexemes {
        [Lexeme::Literal(value), rest @ ..] => Ok((Atom::Symbol(value.bytes.clone()?), rest)),
        _ => Err(unexpected(lexemes)),
    }
}

/// An operator.
pub fn operator(lexemes: &[Lexeme]) -> Result<(Op, &[Lexeme]), Stop>
    ensures { Gives (λ x. (x.0, words x.1.now)) result (want operator_of (words lexemes.now)) }
{
    match lexemes {
        [Lexeme::Mark(sign), rest @ ..] => match operator_from(*sign) {
            Some(op) => Ok((op, rest)),
            None => Err(unexpected(lexemes)),
        },
        _ => Err(unexpected(lexemes)),
    }
}

/// The operator that a mark is, if it is one.
fn operator_from(sign: Punctuator) -> Option<Op>
    ensures { result ≡ operator_of (lexicon.mark sign) }
{
    match sign {
        Punctuator::Plus => Some(Op::Plus),
        Punctuator::Minus => Some(Op::Minus),
        Punctuator::Times => Some(Op::Times),
        Punctuator::Equal => Some(Op::Equal),
        Punctuator::Less => Some(Op::Less),
        Punctuator::And => Some(Op::And),
        Punctuator::Or => Some(Op::Or),
        _ => None,
    }
}

/// The constant that a keyword is, if it is one.
pub fn key_constant(keyword: Keyword) -> Option<Atom>
    ensures { (at : ℕ) → result ≡ lexicon.constant_of (lexicon.key keyword at) }
{
    match keyword {
        Keyword::Null => Some(Atom::Null),
        Keyword::Undefined => Some(Atom::Undefined),
        Keyword::True => Some(Atom::Bool(true)),
        Keyword::False => Some(Atom::Bool(false)),
        Keyword::NotANumber => Some(Atom::Constant(Constant::NotANumber)),
        Keyword::Infinity => Some(Atom::Constant(Constant::Infinity)),
        _ => None,
    }
}
