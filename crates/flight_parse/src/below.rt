ghost use Rattle.flight_syntax.specs.Lexicon.{is_mark};
ghost use Rattle.flight_grammar.specs.Reading.{closed};
ghost use Rattle.flight_grammar.specs.Reader as reader;
ghost use Rattle.flight_parse.specs.Code.{words, tree_of, at_level, Gives};

use crate::lexeme::Lexeme;
use crate::stop::Stop;
use crate::terminal::ended;
use crate::tree::Tree;
use flight_syntax::Punctuator;
use sqlite_items::Boxed;
use std::alloc::Global;

/// An expression of the level below.
pub fn expression_below<'a, F: Fn(bool, &'a [Lexeme]) -> Result<(Tree, &'a [Lexeme]), Stop>>(
    below: u32,
    read: &F,
    lexemes: &'a [Lexeme],
) -> Result<(Tree, &'a [Lexeme]), Stop>
    requires callable { F.IsAlwaysCallable read.now }
    requires reads { (child : _) (ls : _) (r : _) → F.post read.now child ls r → Gives (λ x. (tree_of x.0, words x.1.now)) r (at_level child below (words ls.now)) }
    ensures { Gives (λ x. (tree_of x.0, words x.1.now)) result (reader.expression below (words lexemes.now)) }
{
    read(false, lexemes)
}

/// An expression of the level below, in a box.
pub fn boxed_below<'a, F: Fn(bool, &'a [Lexeme]) -> Result<(Tree, &'a [Lexeme]), Stop>>(
    alloc: Global,
    below: u32,
    read: &F,
    lexemes: &'a [Lexeme],
) -> Result<(Boxed<Tree>, &'a [Lexeme]), Stop>
    requires callable { F.IsAlwaysCallable read.now }
    requires reads { (child : _) (ls : _) (r : _) → F.post read.now child ls r → Gives (λ x. (tree_of x.0, words x.1.now)) r (at_level child below (words ls.now)) }
    ensures { Gives (λ x. (tree_of x.0, words x.1.now)) result (reader.expression below (words lexemes.now)) }
{
    let (value, rest) = expression_below(below, read, lexemes)?;
    Ok((Boxed::new(alloc, value)?, rest))
}

/// A child element of the level below.
pub fn child_below<'a, F: Fn(bool, &'a [Lexeme]) -> Result<(Tree, &'a [Lexeme]), Stop>>(
    below: u32,
    read: &F,
    lexemes: &'a [Lexeme],
) -> Result<(Tree, &'a [Lexeme]), Stop>
    requires callable { F.IsAlwaysCallable read.now }
    requires reads { (child : _) (ls : _) (r : _) → F.post read.now child ls r → Gives (λ x. (tree_of x.0, words x.1.now)) r (at_level child below (words ls.now)) }
    ensures { Gives (λ x. (tree_of x.0, words x.1.now)) result (reader.child_element below (words lexemes.now)) }
{
    read(true, lexemes)
}

/// An expression and a mark.
pub fn closed_expression<'a, F: Fn(bool, &'a [Lexeme]) -> Result<(Tree, &'a [Lexeme]), Stop>>(
    below: u32,
    read: &F,
    sign: Punctuator,
    lexemes: &'a [Lexeme],
) -> Result<(Tree, &'a [Lexeme]), Stop>
    requires callable { F.IsAlwaysCallable read.now }
    requires reads { (child : _) (ls : _) (r : _) → F.post read.now child ls r → Gives (λ x. (tree_of x.0, words x.1.now)) r (at_level child below (words ls.now)) }
    ensures { Gives (λ x. (tree_of x.0, words x.1.now)) result
        (closed (reader.expression below) (is_mark sign) (words lexemes.now)) }
{
    let (value, rest) = expression_below(below, read, lexemes)?;
    ended(value, sign, rest)
}

/// An expression in a box, and a mark.
pub fn closed_boxed<'a, F: Fn(bool, &'a [Lexeme]) -> Result<(Tree, &'a [Lexeme]), Stop>>(
    alloc: Global,
    below: u32,
    read: &F,
    sign: Punctuator,
    lexemes: &'a [Lexeme],
) -> Result<(Boxed<Tree>, &'a [Lexeme]), Stop>
    requires callable { F.IsAlwaysCallable read.now }
    requires reads { (child : _) (ls : _) (r : _) → F.post read.now child ls r → Gives (λ x. (tree_of x.0, words x.1.now)) r (at_level child below (words ls.now)) }
    ensures { Gives (λ x. (tree_of x.0, words x.1.now)) result
        (closed (reader.expression below) (is_mark sign) (words lexemes.now)) }
{
    let (value, rest) = boxed_below(alloc, below, read, lexemes)?;
    ended(value, sign, rest)
}
