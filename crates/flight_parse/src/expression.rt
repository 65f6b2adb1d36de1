ghost use Rattle.std.specs.Prelude.{◌≡◌, suc, map, option_map};
ghost use Rattle.flight_syntax.specs.Lexicon.{is_key, is_mark};
ghost use Rattle.flight_syntax.specs.Lexicon as lexicon;
ghost use Rattle.flight_syntax.specs.Tree as tree;
ghost use Rattle.flight_syntax.specs.declared.word.Keyword.TheVariants.{In};
ghost use Rattle.flight_syntax.specs.declared.word.Punctuator.TheVariants.{OpenBracket, CloseBracket, OpenBrace, Assign};
ghost use Rattle.flight_grammar.specs.Reading.{both, made, behind, by_word, by_arm};
ghost use Rattle.flight_grammar.specs.Reader as reader;
ghost use Rattle.flight_parse.specs.Code.{words, tree_of, post_of, posted, read_post, postfix, at_level, Gives, Fails};

use crate::below::{boxed_below, closed_boxed, closed_expression};
use crate::element::element_rest;
use crate::lexeme::Lexeme;
use crate::list::{entries, items, properties};
use crate::simple::{constant, simple_atom};
use crate::stop::{Stop, refused, too_deep, unexpected};
use crate::tag::{no_child, starts_post};
use crate::terminal::{
    any_name, behind_key, behind_mark, date, key, lower, mark, negative, operator, plain, symbol,
};
use crate::tree::{Post, Tree};
use flight_syntax::{Keyword, Op, Punctuator};
use sqlite_items::{Boxed, Items};
use std::alloc::Global;

/// An expression of at most 100 levels.
pub fn expression(alloc: Global, lexemes: &[Lexeme]) -> Result<(Tree, &[Lexeme]), Stop>
    ensures { Gives (λ x. (tree_of x.0, words x.1.now)) result (reader.expression 100 (words lexemes.now)) }
{
    reading(alloc, 100, false, lexemes)
}

/// An expression or a child element of at most so many levels. What the level below reads is given to the
/// functions for one level as a closure.
#[cycle(reading)]
fn reading(
    alloc: Global,
    depth: u32,
    child: bool,
    lexemes: &[Lexeme],
) -> Result<(Tree, &[Lexeme]), Stop>
    ensures { Gives (λ x. (tree_of x.0, words x.1.now)) result (at_level child depth (words lexemes.now)) }
{
    if depth == 0 {
        return Err(none_left(child, lexemes));
    }
    let below = depth - 1;
    one_more(
        alloc,
        below,
        child,
        move |child, lexemes|
            ensures { Gives (λ x. (tree_of x.0, words x.1.now)) result (at_level child below (words lexemes.now)) }
        { reading(alloc, below, child, lexemes) },
        lexemes,
    )
}

/// Where no level is left.
fn none_left(child: bool, lexemes: &[Lexeme]) -> Stop
    ensures { Fails result (at_level child 0 (words lexemes.now)) }
{
    if child {
        no_child(lexemes)
    } else {
        too_deep(lexemes)
    }
}

/// An expression or a child element, where so many levels are left below it.
#[tactic(auto, unfolding(flight_grammar::specs::Reader::level))]
fn one_more<'a, F: Fn(bool, &'a [Lexeme]) -> Result<(Tree, &'a [Lexeme]), Stop>>(
    alloc: Global,
    below: u32,
    child: bool,
    read: F,
    lexemes: &'a [Lexeme],
) -> Result<(Tree, &'a [Lexeme]), Stop>
    requires callable { F.IsAlwaysCallable read }
    requires reads { (child : _) (ls : _) (r : _) → F.post read child ls r → Gives (λ x. (tree_of x.0, words x.1.now)) r (at_level child below (words ls.now)) }
    ensures { Gives (λ x. (tree_of x.0, words x.1.now)) result (at_level child (suc below) (words lexemes.now)) }
{
    if child {
        nested_element(alloc, below, &read, lexemes)
    } else {
        level(alloc, below, &read, lexemes)
    }
}

/// An expression, where one level is left above `below`.
fn level<'a, F: Fn(bool, &'a [Lexeme]) -> Result<(Tree, &'a [Lexeme]), Stop>>(
    alloc: Global,
    below: u32,
    read: &F,
    lexemes: &'a [Lexeme],
) -> Result<(Tree, &'a [Lexeme]), Stop>
    requires callable { F.IsAlwaysCallable read.now }
    requires reads { (child : _) (ls : _) (r : _) → F.post read.now child ls r → Gives (λ x. (tree_of x.0, words x.1.now)) r (at_level child below (words ls.now)) }
    ensures { Gives (λ x. (tree_of x.0, words x.1.now)) result
        (by_word (reader.level_arm (reader.expression below) (reader.child_element below)) (words lexemes.now)) }
{
    match lexemes {
        [Lexeme::Key(Keyword::Let, _), rest @ ..] => let_rest(alloc, below, read, rest),
        [Lexeme::Key(Keyword::If, _), rest @ ..] => if_rest(alloc, below, read, rest),
        [Lexeme::Key(Keyword::For, _), rest @ ..] => for_rest(alloc, below, read, rest),
        [Lexeme::Key(Keyword::Throw, _), rest @ ..] => throw_rest(alloc, below, read, rest),
        _ => chain(alloc, below, read, lexemes),
    }
}

/// A child element, where one level is left above `below`.
fn nested_element<'a, F: Fn(bool, &'a [Lexeme]) -> Result<(Tree, &'a [Lexeme]), Stop>>(
    alloc: Global,
    below: u32,
    read: &F,
    lexemes: &'a [Lexeme],
) -> Result<(Tree, &'a [Lexeme]), Stop>
    requires callable { F.IsAlwaysCallable read.now }
    requires reads { (child : _) (ls : _) (r : _) → F.post read.now child ls r → Gives (λ x. (tree_of x.0, words x.1.now)) r (at_level child below (words ls.now)) }
    ensures { Gives (λ x. (tree_of x.0, words x.1.now)) result
        (by_word (reader.element_arm (reader.expression below) (reader.child_element below)) (words lexemes.now)) }
{
    match lexemes {
        [Lexeme::Mark(Punctuator::Less), rest @ ..] => element_rest(alloc, below, read, rest),
        _ => Err(unexpected(lexemes)),
    }
}

/// An atom and its postfixes.
fn chain<'a, F: Fn(bool, &'a [Lexeme]) -> Result<(Tree, &'a [Lexeme]), Stop>>(
    alloc: Global,
    below: u32,
    read: &F,
    lexemes: &'a [Lexeme],
) -> Result<(Tree, &'a [Lexeme]), Stop>
    requires callable { F.IsAlwaysCallable read.now }
    requires reads { (child : _) (ls : _) (r : _) → F.post read.now child ls r → Gives (λ x. (tree_of x.0, words x.1.now)) r (at_level child below (words ls.now)) }
    ensures { Gives (λ x. (tree_of x.0, words x.1.now)) result
        (by_word (λ word. reader.chain_arm (reader.expression below) (reader.atom_arm (reader.expression below) (reader.child_element below) word)) (words lexemes.now)) }
{
    let (atom, after) = atom(alloc, below, read, lexemes)?;
    with_posts(alloc, below, read, atom, after)
}

/// An atom with the postfixes after it. Without any it stays as it is.
fn with_posts<'a, F: Fn(bool, &'a [Lexeme]) -> Result<(Tree, &'a [Lexeme]), Stop>>(
    alloc: Global,
    below: u32,
    read: &F,
    atom: Tree,
    lexemes: &'a [Lexeme],
) -> Result<(Tree, &'a [Lexeme]), Stop>
    requires callable { F.IsAlwaysCallable read.now }
    requires reads { (child : _) (ls : _) (r : _) → F.post read.now child ls r → Gives (λ x. (tree_of x.0, words x.1.now)) r (at_level child below (words ls.now)) }
    ensures { Gives (λ x. (tree_of x.0, words x.1.now)) result
        (made (reader.posted (tree_of atom)) (reader.posts 100 (reader.expression below)) (words lexemes.now)) }
{
    if !starts_post(lexemes) {
        return Ok((atom, lexemes));
    }
    let of = Boxed::new(alloc, atom)?;
    let (posts, rest) = posts(alloc, below, read, lexemes)?;
    Ok((postfixed(of, posts), rest))
}

/// An expression with its postfixes.
fn postfixed(of: Boxed<Tree>, posts: Items<Post>) -> Tree
    ensures { tree_of result ≡ posted (tree_of of) (map post_of posts) }
{
    Tree::Postfixed { of, posts }
}

/// Behind `let`.
fn let_rest<'a, F: Fn(bool, &'a [Lexeme]) -> Result<(Tree, &'a [Lexeme]), Stop>>(
    alloc: Global,
    below: u32,
    read: &F,
    lexemes: &'a [Lexeme],
) -> Result<(Tree, &'a [Lexeme]), Stop>
    requires callable { F.IsAlwaysCallable read.now }
    requires reads { (child : _) (ls : _) (r : _) → F.post read.now child ls r → Gives (λ x. (tree_of x.0, words x.1.now)) r (at_level child below (words ls.now)) }
    ensures { Gives (λ x. (tree_of x.0, words x.1.now)) result
        (made (λ p. tree.let_in p.0 p.1.0 p.1.1) (reader.let_rest (reader.expression below)) (words lexemes.now)) }
{
    let (name, rest) = lower(lexemes)?;
    let ((value, then), rest) = let_parts(alloc, below, read, rest)?;
    Ok((Tree::Let { name, value, then }, rest))
}

/// `= value in then`.
fn let_parts<'a, F: Fn(bool, &'a [Lexeme]) -> Result<(Tree, &'a [Lexeme]), Stop>>(
    alloc: Global,
    below: u32,
    read: &F,
    lexemes: &'a [Lexeme],
) -> Result<((Boxed<Tree>, Boxed<Tree>), &'a [Lexeme]), Stop>
    requires callable { F.IsAlwaysCallable read.now }
    requires reads { (child : _) (ls : _) (r : _) → F.post read.now child ls r → Gives (λ x. (tree_of x.0, words x.1.now)) r (at_level child below (words ls.now)) }
    ensures { Gives (λ x. ((tree_of x.0.0, tree_of x.0.1), words x.1.now)) result
        (behind (is_mark Assign) (both (reader.expression below) (λ v. behind (is_key In) (reader.expression below))) (words lexemes.now)) }
{
    let rest = mark(Punctuator::Assign, lexemes)?;
    let (value, rest) = boxed_below(alloc, below, read, rest)?;
    let (then, rest) = behind_keyword(alloc, below, read, Keyword::In, rest)?;
    Ok(((value, then), rest))
}

/// An expression behind a keyword.
fn behind_keyword<'a, F: Fn(bool, &'a [Lexeme]) -> Result<(Tree, &'a [Lexeme]), Stop>>(
    alloc: Global,
    below: u32,
    read: &F,
    keyword: Keyword,
    lexemes: &'a [Lexeme],
) -> Result<(Boxed<Tree>, &'a [Lexeme]), Stop>
    requires callable { F.IsAlwaysCallable read.now }
    requires reads { (child : _) (ls : _) (r : _) → F.post read.now child ls r → Gives (λ x. (tree_of x.0, words x.1.now)) r (at_level child below (words ls.now)) }
    ensures { Gives (λ x. (tree_of x.0, words x.1.now)) result
        (behind (is_key keyword) (reader.expression below) (words lexemes.now)) }
{
    let rest = key(keyword, lexemes)?;
    boxed_below(alloc, below, read, rest)
}

/// Two expressions, each behind a keyword.
fn behind_keywords<'a, F: Fn(bool, &'a [Lexeme]) -> Result<(Tree, &'a [Lexeme]), Stop>>(
    alloc: Global,
    below: u32,
    read: &F,
    first: Keyword,
    second: Keyword,
    lexemes: &'a [Lexeme],
) -> Result<((Boxed<Tree>, Boxed<Tree>), &'a [Lexeme]), Stop>
    requires callable { F.IsAlwaysCallable read.now }
    requires reads { (child : _) (ls : _) (r : _) → F.post read.now child ls r → Gives (λ x. (tree_of x.0, words x.1.now)) r (at_level child below (words ls.now)) }
    ensures { Gives (λ x. ((tree_of x.0.0, tree_of x.0.1), words x.1.now)) result
        (behind (is_key first) (both (reader.expression below) (λ v. behind (is_key second) (reader.expression below))) (words lexemes.now)) }
{
    let rest = key(first, lexemes)?;
    let (one, rest) = boxed_below(alloc, below, read, rest)?;
    let (other, rest) = behind_keyword(alloc, below, read, second, rest)?;
    Ok(((one, other), rest))
}

/// Behind `if`.
fn if_rest<'a, F: Fn(bool, &'a [Lexeme]) -> Result<(Tree, &'a [Lexeme]), Stop>>(
    alloc: Global,
    below: u32,
    read: &F,
    lexemes: &'a [Lexeme],
) -> Result<(Tree, &'a [Lexeme]), Stop>
    requires callable { F.IsAlwaysCallable read.now }
    requires reads { (child : _) (ls : _) (r : _) → F.post read.now child ls r → Gives (λ x. (tree_of x.0, words x.1.now)) r (at_level child below (words ls.now)) }
    ensures { Gives (λ x. (tree_of x.0, words x.1.now)) result
        (made (λ p. tree.if_else p.0 p.1.0 p.1.1) (reader.if_rest (reader.expression below)) (words lexemes.now)) }
{
    let (test, rest) = boxed_below(alloc, below, read, lexemes)?;
    let ((yes, no), rest) = behind_keywords(
        alloc,
        below,
        read,
        Keyword::Then,
        Keyword::Else,
        rest,
    )?;
    Ok((Tree::If { test, yes, no }, rest))
}

/// Behind `for`.
fn for_rest<'a, F: Fn(bool, &'a [Lexeme]) -> Result<(Tree, &'a [Lexeme]), Stop>>(
    alloc: Global,
    below: u32,
    read: &F,
    lexemes: &'a [Lexeme],
) -> Result<(Tree, &'a [Lexeme]), Stop>
    requires callable { F.IsAlwaysCallable read.now }
    requires reads { (child : _) (ls : _) (r : _) → F.post read.now child ls r → Gives (λ x. (tree_of x.0, words x.1.now)) r (at_level child below (words ls.now)) }
    ensures { Gives (λ x. (tree_of x.0, words x.1.now)) result
        (made (λ p. tree.for_in p.0 p.1.0 p.1.1) (reader.for_rest (reader.expression below)) (words lexemes.now)) }
{
    let (name, rest) = lower(lexemes)?;
    let ((over, give), rest) = behind_keywords(
        alloc,
        below,
        read,
        Keyword::In,
        Keyword::Give,
        rest,
    )?;
    Ok((Tree::For { name, over, give }, rest))
}

/// Behind `throw`.
fn throw_rest<'a, F: Fn(bool, &'a [Lexeme]) -> Result<(Tree, &'a [Lexeme]), Stop>>(
    alloc: Global,
    below: u32,
    read: &F,
    lexemes: &'a [Lexeme],
) -> Result<(Tree, &'a [Lexeme]), Stop>
    requires callable { F.IsAlwaysCallable read.now }
    requires reads { (child : _) (ls : _) (r : _) → F.post read.now child ls r → Gives (λ x. (tree_of x.0, words x.1.now)) r (at_level child below (words ls.now)) }
    ensures { Gives (λ x. (tree_of x.0, words x.1.now)) result
        (made tree.throw (reader.expression below) (words lexemes.now)) }
{
    let (value, rest) = boxed_below(alloc, below, read, lexemes)?;
    Ok((Tree::Throw(value), rest))
}

/// The postfixes behind an atom, at most 100.
fn posts<'a, F: Fn(bool, &'a [Lexeme]) -> Result<(Tree, &'a [Lexeme]), Stop>>(
    alloc: Global,
    below: u32,
    read: &F,
    lexemes: &'a [Lexeme],
) -> Result<(Items<Post>, &'a [Lexeme]), Stop>
    requires callable { F.IsAlwaysCallable read.now }
    requires reads { (child : _) (ls : _) (r : _) → F.post read.now child ls r → Gives (λ x. (tree_of x.0, words x.1.now)) r (at_level child below (words ls.now)) }
    ensures { Gives (λ x. (map read_post (map post_of x.0), words x.1.now)) result (reader.posts 100 (reader.expression below) (words lexemes.now)) }
{
    let mut posts = Items::new(alloc);
    let mut rest = lexemes;
    for _ in 0..100_u32 {
        if !starts_post(rest) {
            return Ok((posts, rest));
        }
        let (post, after) = post(alloc, below, read, rest)?;
        posts.push(post)?;
        rest = after;
    }
    if starts_post(rest) {
        return Err(too_deep(rest));
    }
    Ok((posts, rest))
}

/// One postfix.
fn post<'a, F: Fn(bool, &'a [Lexeme]) -> Result<(Tree, &'a [Lexeme]), Stop>>(
    alloc: Global,
    below: u32,
    read: &F,
    lexemes: &'a [Lexeme],
) -> Result<(Post, &'a [Lexeme]), Stop>
    requires callable { F.IsAlwaysCallable read.now }
    requires reads { (child : _) (ls : _) (r : _) → F.post read.now child ls r → Gives (λ x. (tree_of x.0, words x.1.now)) r (at_level child below (words ls.now)) }
    ensures { Gives (λ x. (read_post (post_of x.0), words x.1.now)) result (postfix (reader.expression below) (words lexemes.now)) }
{
    if let Some(rest) = behind_mark(Punctuator::Dot, lexemes) {
        let (name, rest) = any_name(alloc, rest)?;
        return Ok((Post::Named(name), rest));
    }
    let rest = mark(Punctuator::OpenBracket, lexemes)?;
    let (at, rest) = closed_expression(below, read, Punctuator::CloseBracket, rest)?;
    Ok((Post::Indexed(at), rest))
}

/// An atom.
fn atom<'a, F: Fn(bool, &'a [Lexeme]) -> Result<(Tree, &'a [Lexeme]), Stop>>(
    alloc: Global,
    below: u32,
    read: &F,
    lexemes: &'a [Lexeme],
) -> Result<(Tree, &'a [Lexeme]), Stop>
    requires callable { F.IsAlwaysCallable read.now }
    requires reads { (child : _) (ls : _) (r : _) → F.post read.now child ls r → Gives (λ x. (tree_of x.0, words x.1.now)) r (at_level child below (words ls.now)) }
    ensures { Gives (λ x. (tree_of x.0, words x.1.now)) result
        (by_word (reader.atom_arm (reader.expression below) (reader.child_element below)) (words lexemes.now)) }
{
    match lexemes {
        [Lexeme::Mark(sign), rest @ ..] => mark_atom(alloc, below, read, *sign, rest),
        [Lexeme::Key(keyword, at), rest @ ..] => key_atom(alloc, below, read, *keyword, *at, rest),
        _ => simple_atom(lexemes),
    }
}

/// An atom behind its first token, which is a mark.
fn mark_atom<'a, F: Fn(bool, &'a [Lexeme]) -> Result<(Tree, &'a [Lexeme]), Stop>>(
    alloc: Global,
    below: u32,
    read: &F,
    sign: Punctuator,
    rest: &'a [Lexeme],
) -> Result<(Tree, &'a [Lexeme]), Stop>
    requires callable { F.IsAlwaysCallable read.now }
    requires reads { (child : _) (ls : _) (r : _) → F.post read.now child ls r → Gives (λ x. (tree_of x.0, words x.1.now)) r (at_level child below (words ls.now)) }
    ensures { Gives (λ x. (tree_of x.0, words x.1.now)) result
        (by_arm (reader.atom_arm (reader.expression below) (reader.child_element below) (lexicon.mark sign)) (lexicon.mark sign) (words rest.now)) }
{
    match sign {
        Punctuator::Minus => {
            let (atom, rest) = negative(rest)?;
            Ok((Tree::Atom(atom), rest))
        }
        Punctuator::OpenBracket => {
            let (items, rest) = items(alloc, below, read, rest)?;
            Ok((Tree::Array(items), rest))
        }
        Punctuator::OpenBrace => {
            let (properties, rest) = properties(alloc, below, read, rest)?;
            Ok((Tree::Object(properties), rest))
        }
        Punctuator::OpenParen => paren_rest(alloc, below, read, rest),
        Punctuator::Less => element_rest(alloc, below, read, rest),
        _ => Err(refused(rest)),
    }
}

/// An atom behind its first token, which is a keyword.
fn key_atom<'a, F: Fn(bool, &'a [Lexeme]) -> Result<(Tree, &'a [Lexeme]), Stop>>(
    alloc: Global,
    below: u32,
    read: &F,
    keyword: Keyword,
    at: u32,
    rest: &'a [Lexeme],
) -> Result<(Tree, &'a [Lexeme]), Stop>
    requires callable { F.IsAlwaysCallable read.now }
    requires reads { (child : _) (ls : _) (r : _) → F.post read.now child ls r → Gives (λ x. (tree_of x.0, words x.1.now)) r (at_level child below (words ls.now)) }
    ensures { Gives (λ x. (tree_of x.0, words x.1.now)) result
        (by_arm (reader.atom_arm (reader.expression below) (reader.child_element below) (lexicon.key keyword at)) (lexicon.key keyword at) (words rest.now)) }
{
    match keyword {
        Keyword::Date => {
            let (atom, rest) = date(rest)?;
            Ok((Tree::Atom(atom), rest))
        }
        Keyword::Symbol => {
            let (atom, rest) = symbol(rest)?;
            Ok((Tree::Atom(atom), rest))
        }
        Keyword::Map => map_rest(alloc, below, read, rest),
        Keyword::Set => set_rest(alloc, below, read, rest),
        Keyword::Use => {
            let (name, rest) = plain(rest)?;
            Ok((Tree::Source(name), rest))
        }
        Keyword::Promise => {
            let (name, rest) = plain(rest)?;
            Ok((Tree::Promise(name), rest))
        }
        Keyword::Stream => {
            let (name, rest) = plain(rest)?;
            Ok((Tree::Stream(name), rest))
        }
        Keyword::Action => action_rest(alloc, below, read, rest),
        _ => constant(keyword, at, rest),
    }
}

/// Behind `map`.
fn map_rest<'a, F: Fn(bool, &'a [Lexeme]) -> Result<(Tree, &'a [Lexeme]), Stop>>(
    alloc: Global,
    below: u32,
    read: &F,
    lexemes: &'a [Lexeme],
) -> Result<(Tree, &'a [Lexeme]), Stop>
    requires callable { F.IsAlwaysCallable read.now }
    requires reads { (child : _) (ls : _) (r : _) → F.post read.now child ls r → Gives (λ x. (tree_of x.0, words x.1.now)) r (at_level child below (words ls.now)) }
    ensures { Gives (λ x. (tree_of x.0, words x.1.now)) result
        (made (λ ps. tree.map (tree.pairs_of ps)) (behind (is_mark OpenBracket) (reader.entries (reader.expression below))) (words lexemes.now)) }
{
    let rest = mark(Punctuator::OpenBracket, lexemes)?;
    let (entries, rest) = entries(alloc, below, read, rest)?;
    Ok((Tree::Map(entries), rest))
}

/// Behind `set`.
fn set_rest<'a, F: Fn(bool, &'a [Lexeme]) -> Result<(Tree, &'a [Lexeme]), Stop>>(
    alloc: Global,
    below: u32,
    read: &F,
    lexemes: &'a [Lexeme],
) -> Result<(Tree, &'a [Lexeme]), Stop>
    requires callable { F.IsAlwaysCallable read.now }
    requires reads { (child : _) (ls : _) (r : _) → F.post read.now child ls r → Gives (λ x. (tree_of x.0, words x.1.now)) r (at_level child below (words ls.now)) }
    ensures { Gives (λ x. (tree_of x.0, words x.1.now)) result
        (made (λ ts. tree.set (tree.trees_of ts)) (behind (is_mark OpenBracket) (reader.items (reader.expression below))) (words lexemes.now)) }
{
    let rest = mark(Punctuator::OpenBracket, lexemes)?;
    let (items, rest) = items(alloc, below, read, rest)?;
    Ok((Tree::Set(items), rest))
}

/// Behind `action`.
fn action_rest<'a, F: Fn(bool, &'a [Lexeme]) -> Result<(Tree, &'a [Lexeme]), Stop>>(
    alloc: Global,
    below: u32,
    read: &F,
    lexemes: &'a [Lexeme],
) -> Result<(Tree, &'a [Lexeme]), Stop>
    requires callable { F.IsAlwaysCallable read.now }
    requires reads { (child : _) (ls : _) (r : _) → F.post read.now child ls r → Gives (λ x. (tree_of x.0, words x.1.now)) r (at_level child below (words ls.now)) }
    ensures { Gives (λ x. (tree_of x.0, words x.1.now)) result
        (made reader.action_of (reader.action_rest (reader.expression below)) (words lexemes.now)) }
{
    let (name, rest) = lower(lexemes)?;
    let (bound, rest) = with_rest(alloc, below, read, rest)?;
    Ok((Tree::Action { name, bound }, rest))
}

/// The arguments behind `with`, if it is next.
fn with_rest<'a, F: Fn(bool, &'a [Lexeme]) -> Result<(Tree, &'a [Lexeme]), Stop>>(
    alloc: Global,
    below: u32,
    read: &F,
    lexemes: &'a [Lexeme],
) -> Result<(Option<Items<Tree>>, &'a [Lexeme]), Stop>
    requires callable { F.IsAlwaysCallable read.now }
    requires reads { (child : _) (ls : _) (r : _) → F.post read.now child ls r → Gives (λ x. (tree_of x.0, words x.1.now)) r (at_level child below (words ls.now)) }
    ensures { Gives (λ x. (option_map (map tree_of) x.0, words x.1.now)) result
        (reader.with_rest (reader.expression below) (words lexemes.now)) }
{
    let Some(rest) = behind_key(Keyword::With, lexemes) else {
        return Ok((None, lexemes));
    };
    let rest = mark(Punctuator::OpenBracket, rest)?;
    let (items, rest) = items(alloc, below, read, rest)?;
    Ok((Some(items), rest))
}

/// Behind `(`.
fn paren_rest<'a, F: Fn(bool, &'a [Lexeme]) -> Result<(Tree, &'a [Lexeme]), Stop>>(
    alloc: Global,
    below: u32,
    read: &F,
    lexemes: &'a [Lexeme],
) -> Result<(Tree, &'a [Lexeme]), Stop>
    requires callable { F.IsAlwaysCallable read.now }
    requires reads { (child : _) (ls : _) (r : _) → F.post read.now child ls r → Gives (λ x. (tree_of x.0, words x.1.now)) r (at_level child below (words ls.now)) }
    ensures { Gives (λ x. (tree_of x.0, words x.1.now)) result
        (made reader.paren_of (reader.paren_rest (reader.expression below)) (words lexemes.now)) }
{
    let (left, rest) = boxed_below(alloc, below, read, lexemes)?;
    let (right, rest) = operand(alloc, below, read, rest)?;
    match right {
        None => Ok((Tree::Paren(left), rest)),
        Some((op, right)) => Ok((Tree::Binary { op, left, right }, rest)),
    }
}

/// An operator and what stands right of it, or nothing, and `)`.
fn operand<'a, F: Fn(bool, &'a [Lexeme]) -> Result<(Tree, &'a [Lexeme]), Stop>>(
    alloc: Global,
    below: u32,
    read: &F,
    lexemes: &'a [Lexeme],
) -> Result<(Option<(Op, Boxed<Tree>)>, &'a [Lexeme]), Stop>
    requires callable { F.IsAlwaysCallable read.now }
    requires reads { (child : _) (ls : _) (r : _) → F.post read.now child ls r → Gives (λ x. (tree_of x.0, words x.1.now)) r (at_level child below (words ls.now)) }
    ensures { Gives (λ x. (option_map (λ p. (p.0, tree_of p.1)) x.0, words x.1.now)) result
        (reader.operand (reader.expression below) (words lexemes.now)) }
{
    if let Some(rest) = behind_mark(Punctuator::CloseParen, lexemes) {
        return Ok((None, rest));
    }
    let (op, rest) = operator(lexemes)?;
    let (right, rest) = closed_boxed(alloc, below, read, Punctuator::CloseParen, rest)?;
    Ok((Some((op, right)), rest))
}
