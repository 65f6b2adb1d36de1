ghost use Rattle.std.specs.Prelude.{◌≡◌, SomeIff, FitsSigned, ◌-ℤ◌, ◌*ℤ◌, ℤ, ◌++◌, IfOk, string_bytes};
ghost use Rattle.std.specs.Int.{w64, w128};
ghost use Rattle.std.specs.Fmt.{signed_decimal};
ghost use Rattle.flight_render.specs.Run.{gave};
ghost use Rattle.flight_value.specs.declared.graph.Atom.TheVariants.{Text as text_atom};
ghost use Rattle.flight_render.specs.Operators.{is_safe, whole, big, added, counted, same_plain, is_plain, equal, less, operate, operated, key_of, thrown};
ghost use Rattle.flight_eval.specs.Gives.{Comes, Throws};

use crate::stop::Stop;
use flight_syntax::Op;
use flight_value::{Atom, Memory, Text, Tree, Wide};
use std::alloc::Global;

/// The stop that a digest is thrown with.
pub fn throws(alloc: Global, digest: &str) -> Stop
    ensures { Throws digest.now result }
{
    match Text::new(alloc, digest) {
        Ok(digest) => Stop::Threw(digest),
        Err(_) => Stop::Memory,
    }
}

/// Whether a number is within 53 bits.
fn is_safe(number: i64) -> bool
    ensures { result ≡ is_safe number }
{
    -9_007_199_254_740_991 <= number && number <= 9_007_199_254_740_991
}

/// A whole number, where there is one within 53 bits.
fn whole(alloc: Global, number: Option<i64>) -> Result<Atom, Stop>
    ensures { (z : ℤ) → SomeIff number (FitsSigned w64 z) z → Comes (whole z) result }
{
    match number {
        Some(number) if is_safe(number) => Ok(Atom::Whole(number)),
        _ => Err(throws(alloc, "range")),
    }
}

/// A big number, where there is one within 128 bits with its sign.
fn big(alloc: Global, number: Option<i128>) -> Result<Atom, Stop>
    ensures { (z : ℤ) → SomeIff number (FitsSigned w128 z) z → Comes (big z) result }
{
    match number {
        Some(number) => Ok(Atom::Big(Wide::new(number))),
        None => Err(throws(alloc, "range")),
    }
}

/// Two texts joined.
fn joined(alloc: Global, x: &str, y: &str) -> Result<Atom, Stop>
    ensures { Comes (gave (text_atom (x.now ++ y.now))) result }
{
    let mut text = String::from_str(alloc, x)?;
    text.push_str(y)?;
    Ok(Atom::Text(Text::from_string(text)?))
}

/// A text and the digits of a number.
fn with_digits(alloc: Global, text: &str, number: i64) -> Result<String, Memory>
    ensures { IfOk result (λ out. string_bytes out ≡ text.now ++ signed_decimal number) }
{
    Ok(format!(in alloc; "{text}{number}")?)
}

/// A text with a whole's digits behind it.
fn joined_digits(alloc: Global, x: &str, y: i64) -> Result<Atom, Stop>
    ensures { Comes (gave (text_atom (x.now ++ signed_decimal y))) result }
{
    let text = with_digits(alloc, x, y)?;
    Ok(Atom::Text(Text::from_string(text)?))
}

fn plus(alloc: Global, x: &Atom, y: &Atom) -> Result<Atom, Stop>
    ensures { Comes (added x.now y.now) result }
{
    match (x, y) {
        (Atom::Text(x), Atom::Text(y)) => joined(alloc, x.as_str(), y.as_str()),
        (Atom::Text(x), Atom::Whole(y)) => joined_digits(alloc, x.as_str(), *y),
        (Atom::Whole(x), Atom::Whole(y)) => whole(alloc, x.checked_add(*y)),
        (Atom::Big(x), Atom::Big(y)) => big(alloc, x.get().checked_add(y.get())),
        _ => Err(throws(alloc, "type")),
    }
}

fn minus(alloc: Global, x: &Atom, y: &Atom) -> Result<Atom, Stop>
    ensures { Comes (counted ◌-ℤ◌ x.now y.now) result }
{
    match (x, y) {
        (Atom::Whole(x), Atom::Whole(y)) => whole(alloc, x.checked_sub(*y)),
        (Atom::Big(x), Atom::Big(y)) => big(alloc, x.get().checked_sub(y.get())),
        _ => Err(throws(alloc, "type")),
    }
}

fn times(alloc: Global, x: &Atom, y: &Atom) -> Result<Atom, Stop>
    ensures { Comes (counted ◌*ℤ◌ x.now y.now) result }
{
    match (x, y) {
        (Atom::Whole(x), Atom::Whole(y)) => whole(alloc, x.checked_mul(*y)),
        (Atom::Big(x), Atom::Big(y)) => big(alloc, x.get().checked_mul(y.get())),
        _ => Err(throws(alloc, "type")),
    }
}

/// Whether an atom is what `==` compares.
fn is_plain(atom: &Atom) -> bool
    ensures { result ≡ is_plain atom.now }
{
    matches!(
        atom,
        Atom::Null
            | Atom::Undefined
            | Atom::Bool(_)
            | Atom::Whole(_)
            | Atom::Big(_)
            | Atom::Text(_)
            | Atom::Date(_)
            | Atom::Symbol(_)
    )
}

/// Whether two plain atoms are equal: different kinds are not.
fn same_plain(x: &Atom, y: &Atom) -> bool
    ensures { result ≡ same_plain x.now y.now }
{
    match (x, y) {
        (Atom::Null, Atom::Null) => true,
        (Atom::Undefined, Atom::Undefined) => true,
        (Atom::Bool(x), Atom::Bool(y)) => *x == *y,
        (Atom::Whole(x), Atom::Whole(y)) => *x == *y,
        (Atom::Big(x), Atom::Big(y)) => x.get() == y.get(),
        (Atom::Text(x), Atom::Text(y)) => x.as_str() == y.as_str(),
        (Atom::Date(x), Atom::Date(y)) => x.as_str() == y.as_str(),
        (Atom::Symbol(x), Atom::Symbol(y)) => x.as_str() == y.as_str(),
        _ => false,
    }
}

fn equal(alloc: Global, x: &Atom, y: &Atom) -> Result<Atom, Stop>
    ensures { Comes (equal x.now y.now) result }
{
    if is_plain(x) && is_plain(y) {
        return Ok(Atom::Bool(same_plain(x, y)));
    }
    Err(throws(alloc, "type"))
}

fn less(alloc: Global, x: &Atom, y: &Atom) -> Result<Atom, Stop>
    ensures { Comes (less x.now y.now) result }
{
    match (x, y) {
        (Atom::Whole(x), Atom::Whole(y)) => Ok(Atom::Bool(*x < *y)),
        (Atom::Big(x), Atom::Big(y)) => Ok(Atom::Bool(x.get() < y.get())),
        (Atom::Text(x), Atom::Text(y)) => Ok(Atom::Bool(x.as_str() < y.as_str())),
        _ => Err(throws(alloc, "type")),
    }
}

/// An operator other than `&&` and `||` on two atoms.
fn operate(alloc: Global, op: Op, x: &Atom, y: &Atom) -> Result<Atom, Stop>
    ensures { Comes (operate op x.now y.now) result }
{
    match op {
        Op::Plus => plus(alloc, x, y),
        Op::Minus => minus(alloc, x, y),
        Op::Times => times(alloc, x, y),
        Op::Equal => equal(alloc, x, y),
        Op::Less => less(alloc, x, y),
        Op::And | Op::Or => Err(throws(alloc, "type")),
    }
}

/// An operator other than `&&` and `||` on two values: what is no atom is of no operator's kind.
pub fn operated(alloc: Global, op: Op, x: &Tree, y: &Tree) -> Result<Atom, Stop>
    ensures { Comes (operated op x.now y.now) result }
{
    match (x, y) {
        (Tree::Atom(x), Tree::Atom(y)) => operate(alloc, op, x, y),
        _ => Err(throws(alloc, "type")),
    }
}

/// A key: a text, or a whole's digits.
pub fn key_of(alloc: Global, value: Tree) -> Result<Atom, Stop>
    ensures { Comes (key_of value) result }
{
    match value {
        Tree::Atom(Atom::Text(text)) => Ok(Atom::Text(text)),
        Tree::Atom(Atom::Whole(number)) => joined_digits(alloc, "", number),
        _ => Err(throws(alloc, "type")),
    }
}

/// The digest that a thrown value is.
pub fn thrown(alloc: Global, value: Tree) -> Result<Text, Memory>
    ensures { IfOk result (λ digest. digest ≡ thrown value) }
{
    match value {
        Tree::Atom(Atom::Text(text)) => Ok(text),
        _ => Text::new(alloc, "type"),
    }
}
