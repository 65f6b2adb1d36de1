ghost use Rattle.std.specs.Prelude.{map};
ghost use Rattle.flight_syntax.specs.Lexicon.{is_mark};
ghost use Rattle.flight_syntax.specs.declared.word.Punctuator.TheVariants.{OpenBracket, CloseBracket, CloseBrace, Comma};
ghost use Rattle.flight_grammar.specs.Reading.{both, made, behind, closed, more, first_and};
ghost use Rattle.flight_grammar.specs.Reader as reader;
ghost use Rattle.flight_parse.specs.Code.{words, tree_of, property_of, entry_of, at_level, Gives};

use crate::below::{boxed_below, closed_expression, expression_below};
use crate::lexeme::Lexeme;
use crate::stop::Stop;
use crate::terminal::{behind_mark, ended, mark, property_name};
use crate::tree::{Entry, Property, Tree};
use flight_syntax::Punctuator;
use sqlite_items::Items;
use std::alloc::Global;

/// Expressions with commas between, up to `]`.
pub fn items<'a, F: Fn(bool, &'a [Lexeme]) -> Result<(Tree, &'a [Lexeme]), Stop>>(
    alloc: Global,
    below: u32,
    read: &F,
    lexemes: &'a [Lexeme],
) -> Result<(Items<Tree>, &'a [Lexeme]), Stop>
    requires callable { F.IsAlwaysCallable read.now }
    requires reads { (child : _) (ls : _) (r : _) → F.post read.now child ls r → Gives (λ x. (tree_of x.0, words x.1.now)) r (at_level child below (words ls.now)) }
    ensures { Gives (λ x. (map tree_of x.0, words x.1.now)) result
        (reader.items (reader.expression below) (words lexemes.now)) }
{
    if let Some(rest) = behind_mark(Punctuator::CloseBracket, lexemes) {
        return Ok((Items::new(alloc), rest));
    }
    let (items, rest) = some_items(alloc, below, read, lexemes)?;
    ended(items, Punctuator::CloseBracket, rest)
}

/// One or more expressions with commas between.
fn some_items<'a, F: Fn(bool, &'a [Lexeme]) -> Result<(Tree, &'a [Lexeme]), Stop>>(
    alloc: Global,
    below: u32,
    read: &F,
    lexemes: &'a [Lexeme],
) -> Result<(Items<Tree>, &'a [Lexeme]), Stop>
    requires callable { F.IsAlwaysCallable read.now }
    requires reads { (child : _) (ls : _) (r : _) → F.post read.now child ls r → Gives (λ x. (tree_of x.0, words x.1.now)) r (at_level child below (words ls.now)) }
    ensures { Gives (λ x. (map tree_of x.0, words x.1.now)) result
        (made first_and (both (reader.expression below) (λ a. more (reader.expression below))) (words lexemes.now)) }
{
    let (first, mut rest) = expression_below(below, read, lexemes)?;
    let mut items = Items::new(alloc);
    items.push(first)?;
    for _ in 0..rest.len() {
        let Some(after) = behind_mark(Punctuator::Comma, rest) else {
            return Ok((items, rest));
        };
        let (item, after) = expression_below(below, read, after)?;
        items.push(item)?;
        rest = after;
    }
    Ok((items, rest))
}

/// Properties with commas between, up to `}`.
pub fn properties<'a, F: Fn(bool, &'a [Lexeme]) -> Result<(Tree, &'a [Lexeme]), Stop>>(
    alloc: Global,
    below: u32,
    read: &F,
    lexemes: &'a [Lexeme],
) -> Result<(Items<Property>, &'a [Lexeme]), Stop>
    requires callable { F.IsAlwaysCallable read.now }
    requires reads { (child : _) (ls : _) (r : _) → F.post read.now child ls r → Gives (λ x. (tree_of x.0, words x.1.now)) r (at_level child below (words ls.now)) }
    ensures { Gives (λ x. (map property_of x.0, words x.1.now)) result
        (reader.properties (reader.expression below) (words lexemes.now)) }
{
    if let Some(rest) = behind_mark(Punctuator::CloseBrace, lexemes) {
        return Ok((Items::new(alloc), rest));
    }
    let (properties, rest) = some_properties(alloc, below, read, lexemes)?;
    ended(properties, Punctuator::CloseBrace, rest)
}

/// One or more properties with commas between.
fn some_properties<'a, F: Fn(bool, &'a [Lexeme]) -> Result<(Tree, &'a [Lexeme]), Stop>>(
    alloc: Global,
    below: u32,
    read: &F,
    lexemes: &'a [Lexeme],
) -> Result<(Items<Property>, &'a [Lexeme]), Stop>
    requires callable { F.IsAlwaysCallable read.now }
    requires reads { (child : _) (ls : _) (r : _) → F.post read.now child ls r → Gives (λ x. (tree_of x.0, words x.1.now)) r (at_level child below (words ls.now)) }
    ensures { Gives (λ x. (map property_of x.0, words x.1.now)) result
        (made first_and (both (reader.property (reader.expression below)) (λ a. more (reader.property (reader.expression below)))) (words lexemes.now)) }
{
    let (first, mut rest) = property(alloc, below, read, lexemes)?;
    let mut properties = Items::new(alloc);
    properties.push(first)?;
    for _ in 0..rest.len() {
        let Some(after) = behind_mark(Punctuator::Comma, rest) else {
            return Ok((properties, rest));
        };
        let (property, after) = property(alloc, below, read, after)?;
        properties.push(property)?;
        rest = after;
    }
    Ok((properties, rest))
}

/// A property.
fn property<'a, F: Fn(bool, &'a [Lexeme]) -> Result<(Tree, &'a [Lexeme]), Stop>>(
    alloc: Global,
    below: u32,
    read: &F,
    lexemes: &'a [Lexeme],
) -> Result<(Property, &'a [Lexeme]), Stop>
    requires callable { F.IsAlwaysCallable read.now }
    requires reads { (child : _) (ls : _) (r : _) → F.post read.now child ls r → Gives (λ x. (tree_of x.0, words x.1.now)) r (at_level child below (words ls.now)) }
    ensures { Gives (λ x. (property_of x.0, words x.1.now)) result
        (reader.property (reader.expression below) (words lexemes.now)) }
{
    let (name, rest) = property_name(alloc, lexemes)?;
    let rest = mark(Punctuator::Colon, rest)?;
    let (value, rest) = expression_below(below, read, rest)?;
    Ok((Property { name, value }, rest))
}

/// Entries with commas between, up to `]`.
pub fn entries<'a, F: Fn(bool, &'a [Lexeme]) -> Result<(Tree, &'a [Lexeme]), Stop>>(
    alloc: Global,
    below: u32,
    read: &F,
    lexemes: &'a [Lexeme],
) -> Result<(Items<Entry>, &'a [Lexeme]), Stop>
    requires callable { F.IsAlwaysCallable read.now }
    requires reads { (child : _) (ls : _) (r : _) → F.post read.now child ls r → Gives (λ x. (tree_of x.0, words x.1.now)) r (at_level child below (words ls.now)) }
    ensures { Gives (λ x. (map entry_of x.0, words x.1.now)) result
        (reader.entries (reader.expression below) (words lexemes.now)) }
{
    if let Some(rest) = behind_mark(Punctuator::CloseBracket, lexemes) {
        return Ok((Items::new(alloc), rest));
    }
    let (entries, rest) = some_entries(alloc, below, read, lexemes)?;
    ended(entries, Punctuator::CloseBracket, rest)
}

/// One or more entries with commas between.
fn some_entries<'a, F: Fn(bool, &'a [Lexeme]) -> Result<(Tree, &'a [Lexeme]), Stop>>(
    alloc: Global,
    below: u32,
    read: &F,
    lexemes: &'a [Lexeme],
) -> Result<(Items<Entry>, &'a [Lexeme]), Stop>
    requires callable { F.IsAlwaysCallable read.now }
    requires reads { (child : _) (ls : _) (r : _) → F.post read.now child ls r → Gives (λ x. (tree_of x.0, words x.1.now)) r (at_level child below (words ls.now)) }
    ensures { Gives (λ x. (map entry_of x.0, words x.1.now)) result
        (made first_and (both (reader.entry (reader.expression below)) (λ a. more (reader.entry (reader.expression below)))) (words lexemes.now)) }
{
    let (first, mut rest) = entry(alloc, below, read, lexemes)?;
    let mut entries = Items::new(alloc);
    entries.push(first)?;
    for _ in 0..rest.len() {
        let Some(after) = behind_mark(Punctuator::Comma, rest) else {
            return Ok((entries, rest));
        };
        let (entry, after) = entry(alloc, below, read, after)?;
        entries.push(entry)?;
        rest = after;
    }
    Ok((entries, rest))
}

/// An entry.
fn entry<'a, F: Fn(bool, &'a [Lexeme]) -> Result<(Tree, &'a [Lexeme]), Stop>>(
    alloc: Global,
    below: u32,
    read: &F,
    lexemes: &'a [Lexeme],
) -> Result<(Entry, &'a [Lexeme]), Stop>
    requires callable { F.IsAlwaysCallable read.now }
    requires reads { (child : _) (ls : _) (r : _) → F.post read.now child ls r → Gives (λ x. (tree_of x.0, words x.1.now)) r (at_level child below (words ls.now)) }
    ensures { Gives (λ x. (entry_of x.0, words x.1.now)) result
        (reader.entry (reader.expression below) (words lexemes.now)) }
{
    let rest = mark(Punctuator::OpenBracket, lexemes)?;
    let (key, rest) = boxed_below(alloc, below, read, rest)?;
    let (value, rest) = entry_value(below, read, rest)?;
    Ok((Entry { key, value }, rest))
}

/// `, value]`.
fn entry_value<'a, F: Fn(bool, &'a [Lexeme]) -> Result<(Tree, &'a [Lexeme]), Stop>>(
    below: u32,
    read: &F,
    lexemes: &'a [Lexeme],
) -> Result<(Tree, &'a [Lexeme]), Stop>
    requires callable { F.IsAlwaysCallable read.now }
    requires reads { (child : _) (ls : _) (r : _) → F.post read.now child ls r → Gives (λ x. (tree_of x.0, words x.1.now)) r (at_level child below (words ls.now)) }
    ensures { Gives (λ x. (tree_of x.0, words x.1.now)) result
        (behind (is_mark Comma) (closed (reader.expression below) (is_mark CloseBracket)) (words lexemes.now)) }
{
    let rest = mark(Punctuator::Comma, lexemes)?;
    closed_expression(below, read, Punctuator::CloseBracket, rest)
}
