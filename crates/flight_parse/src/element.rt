ghost use Rattle.std.specs.Prelude.{map};
ghost use Rattle.flight_syntax.specs.Lexicon.{is_mark};
ghost use Rattle.flight_syntax.specs.declared.word.Punctuator.TheVariants.{OpenBrace, CloseBrace, Assign, Greater};
ghost use Rattle.flight_grammar.specs.Reading.{both, made, behind, closed};
ghost use Rattle.flight_grammar.specs.Reader as reader;
ghost use Rattle.flight_parse.specs.Code.{words, placed, tree_of, property_of, at_level, Gives};

use crate::below::{child_below, closed_expression};
use crate::lexeme::{Lexeme, Name};
use crate::stop::Stop;
use crate::tag::{
    bare, closing, joined, more_parts, starts_child, starts_given, starts_name, starts_text,
};
use crate::terminal::{any_name, behind_mark, mark, plain};
use crate::tree::{Property, Tree};
use flight_syntax::Punctuator;
use sqlite_items::Items;
use std::alloc::Global;

/// Behind `<`, an element.
pub fn element_rest<'a, F: Fn(bool, &'a [Lexeme]) -> Result<(Tree, &'a [Lexeme]), Stop>>(
    alloc: Global,
    below: u32,
    read: &F,
    lexemes: &'a [Lexeme],
) -> Result<(Tree, &'a [Lexeme]), Stop>
    requires callable { F.IsAlwaysCallable read.now }
    requires reads { (child : _) (ls : _) (r : _) → F.post read.now child ls r → Gives (λ x. (tree_of x.0, words x.1.now)) r (at_level child below (words ls.now)) }
    ensures { Gives (λ x. (tree_of x.0, words x.1.now)) result
        (made reader.element_of (reader.element_rest (reader.expression below) (reader.child_element below)) (words lexemes.now)) }
{
    let (tag, rest) = plain(lexemes)?;
    let (attributes, rest) = attributes(alloc, below, read, rest)?;
    let (children, rest) = inside(alloc, below, read, &tag, rest)?;
    Ok((
        Tree::Element {
            tag,
            attributes,
            children,
        },
        rest,
    ))
}

/// Attributes, one after another.
fn attributes<'a, F: Fn(bool, &'a [Lexeme]) -> Result<(Tree, &'a [Lexeme]), Stop>>(
    alloc: Global,
    below: u32,
    read: &F,
    lexemes: &'a [Lexeme],
) -> Result<(Items<Property>, &'a [Lexeme]), Stop>
    requires callable { F.IsAlwaysCallable read.now }
    requires reads { (child : _) (ls : _) (r : _) → F.post read.now child ls r → Gives (λ x. (tree_of x.0, words x.1.now)) r (at_level child below (words ls.now)) }
    ensures { Gives (λ x. (map property_of x.0, words x.1.now)) result
        (reader.attributes (reader.expression below) (words lexemes.now)) }
{
    let mut attributes = Items::new(alloc);
    let mut rest = lexemes;
    for _ in 0..lexemes.len() {
        if !starts_name(rest) {
            return Ok((attributes, rest));
        }
        let (attribute, after) = attribute(alloc, below, read, rest)?;
        attributes.push(attribute)?;
        rest = after;
    }
    Ok((attributes, rest))
}

/// An attribute.
fn attribute<'a, F: Fn(bool, &'a [Lexeme]) -> Result<(Tree, &'a [Lexeme]), Stop>>(
    alloc: Global,
    below: u32,
    read: &F,
    lexemes: &'a [Lexeme],
) -> Result<(Property, &'a [Lexeme]), Stop>
    requires callable { F.IsAlwaysCallable read.now }
    requires reads { (child : _) (ls : _) (r : _) → F.post read.now child ls r → Gives (λ x. (tree_of x.0, words x.1.now)) r (at_level child below (words ls.now)) }
    ensures { Gives (λ x. (property_of x.0, words x.1.now)) result
        (reader.attribute (reader.expression below) (words lexemes.now)) }
{
    let (first, rest) = any_name(alloc, lexemes)?;
    let (parts, rest) = more_parts(alloc, rest)?;
    let name = joined(alloc, &first, parts.as_slice())?;
    let (value, rest) = attribute_value(below, read, rest)?;
    Ok((Property { name, value }, rest))
}

/// `=` and the value of an attribute.
fn attribute_value<'a, F: Fn(bool, &'a [Lexeme]) -> Result<(Tree, &'a [Lexeme]), Stop>>(
    below: u32,
    read: &F,
    lexemes: &'a [Lexeme],
) -> Result<(Tree, &'a [Lexeme]), Stop>
    requires callable { F.IsAlwaysCallable read.now }
    requires reads { (child : _) (ls : _) (r : _) → F.post read.now child ls r → Gives (λ x. (tree_of x.0, words x.1.now)) r (at_level child below (words ls.now)) }
    ensures { Gives (λ x. (tree_of x.0, words x.1.now)) result
        (behind (is_mark Assign) (reader.given (reader.expression below)) (words lexemes.now)) }
{
    let rest = mark(Punctuator::Assign, lexemes)?;
    given(below, read, rest)
}

/// A text or an expression in braces.
fn given<'a, F: Fn(bool, &'a [Lexeme]) -> Result<(Tree, &'a [Lexeme]), Stop>>(
    below: u32,
    read: &F,
    lexemes: &'a [Lexeme],
) -> Result<(Tree, &'a [Lexeme]), Stop>
    requires callable { F.IsAlwaysCallable read.now }
    requires reads { (child : _) (ls : _) (r : _) → F.post read.now child ls r → Gives (λ x. (tree_of x.0, words x.1.now)) r (at_level child below (words ls.now)) }
    ensures { Gives (λ x. (tree_of x.0, words x.1.now)) result
        (reader.given (reader.expression below) (words lexemes.now)) }
{
    if starts_text(lexemes) {
        bare(lexemes)
    } else {
        braces(below, read, lexemes)
    }
}

/// An expression in braces.
fn braces<'a, F: Fn(bool, &'a [Lexeme]) -> Result<(Tree, &'a [Lexeme]), Stop>>(
    below: u32,
    read: &F,
    lexemes: &'a [Lexeme],
) -> Result<(Tree, &'a [Lexeme]), Stop>
    requires callable { F.IsAlwaysCallable read.now }
    requires reads { (child : _) (ls : _) (r : _) → F.post read.now child ls r → Gives (λ x. (tree_of x.0, words x.1.now)) r (at_level child below (words ls.now)) }
    ensures { Gives (λ x. (tree_of x.0, words x.1.now)) result
        (behind (is_mark OpenBrace) (closed (reader.expression below) (is_mark CloseBrace)) (words lexemes.now)) }
{
    let rest = mark(Punctuator::OpenBrace, lexemes)?;
    closed_expression(below, read, Punctuator::CloseBrace, rest)
}

/// Behind the attributes: the end of the element, or its children and its closing tag.
fn inside<'a, F: Fn(bool, &'a [Lexeme]) -> Result<(Tree, &'a [Lexeme]), Stop>>(
    alloc: Global,
    below: u32,
    read: &F,
    tag: &Name,
    lexemes: &'a [Lexeme],
) -> Result<(Items<Tree>, &'a [Lexeme]), Stop>
    requires callable { F.IsAlwaysCallable read.now }
    requires reads { (child : _) (ls : _) (r : _) → F.post read.now child ls r → Gives (λ x. (tree_of x.0, words x.1.now)) r (at_level child below (words ls.now)) }
    ensures { Gives (λ x. (map tree_of x.0, words x.1.now)) result
        (reader.inside (reader.expression below) (reader.child_element below) (placed tag.now) (words lexemes.now)) }
{
    if let Some(rest) = behind_mark(Punctuator::SlashGreater, lexemes) {
        return Ok((Items::new(alloc), rest));
    }
    closed_children(alloc, below, read, tag, lexemes)
}

/// `>`, children and the closing tag.
fn closed_children<'a, F: Fn(bool, &'a [Lexeme]) -> Result<(Tree, &'a [Lexeme]), Stop>>(
    alloc: Global,
    below: u32,
    read: &F,
    tag: &Name,
    lexemes: &'a [Lexeme],
) -> Result<(Items<Tree>, &'a [Lexeme]), Stop>
    requires callable { F.IsAlwaysCallable read.now }
    requires reads { (child : _) (ls : _) (r : _) → F.post read.now child ls r → Gives (λ x. (tree_of x.0, words x.1.now)) r (at_level child below (words ls.now)) }
    ensures { Gives (λ x. (map tree_of x.0, words x.1.now)) result
        (behind (is_mark Greater) (made reader.inside_of (both (reader.children (reader.expression below) (reader.child_element below)) (λ cs. reader.closing (placed tag.now)))) (words lexemes.now)) }
{
    let rest = mark(Punctuator::Greater, lexemes)?;
    let (children, rest) = children(alloc, below, read, rest)?;
    let rest = closing(tag, rest)?;
    Ok((children, rest))
}

/// Children, one after another.
fn children<'a, F: Fn(bool, &'a [Lexeme]) -> Result<(Tree, &'a [Lexeme]), Stop>>(
    alloc: Global,
    below: u32,
    read: &F,
    lexemes: &'a [Lexeme],
) -> Result<(Items<Tree>, &'a [Lexeme]), Stop>
    requires callable { F.IsAlwaysCallable read.now }
    requires reads { (child : _) (ls : _) (r : _) → F.post read.now child ls r → Gives (λ x. (tree_of x.0, words x.1.now)) r (at_level child below (words ls.now)) }
    ensures { Gives (λ x. (map tree_of x.0, words x.1.now)) result
        (reader.children (reader.expression below) (reader.child_element below) (words lexemes.now)) }
{
    let mut children = Items::new(alloc);
    let mut rest = lexemes;
    for _ in 0..lexemes.len() {
        if !starts_child(rest) {
            return Ok((children, rest));
        }
        let (child, after) = child(below, read, rest)?;
        children.push(child)?;
        rest = after;
    }
    Ok((children, rest))
}

/// A child.
fn child<'a, F: Fn(bool, &'a [Lexeme]) -> Result<(Tree, &'a [Lexeme]), Stop>>(
    below: u32,
    read: &F,
    lexemes: &'a [Lexeme],
) -> Result<(Tree, &'a [Lexeme]), Stop>
    requires callable { F.IsAlwaysCallable read.now }
    requires reads { (child : _) (ls : _) (r : _) → F.post read.now child ls r → Gives (λ x. (tree_of x.0, words x.1.now)) r (at_level child below (words ls.now)) }
    ensures { Gives (λ x. (tree_of x.0, words x.1.now)) result
        (reader.child (reader.expression below) (reader.child_element below) (words lexemes.now)) }
{
    if starts_given(lexemes) {
        given(below, read, lexemes)
    } else {
        child_below(below, read, lexemes)
    }
}
