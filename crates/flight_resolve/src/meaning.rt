ghost use Rattle.std.specs.Prelude.{◌≡◌, IfOk, ◌++◌, ◌∷◌, [], map};
ghost use Rattle.flight_syntax.specs.Tree.{trees_of, props_of, pairs_of};
ghost use Rattle.flight_syntax.specs.Term.{term, prop, pair};
ghost use Rattle.flight_syntax.specs.Term as terms;
ghost use Rattle.flight_syntax.specs.Meaning.{meaning, meanings, meaning_props, meaning_pairs};
ghost use Rattle.flight_parse.specs.Code.{placed, tree_of, property_of, entry_of, post_of, posted};
ghost use Rattle.flight_resolve.specs.Names.{IsKnown, all_of, names_of};
ghost use Rattle.flight_resolve.specs.Posts.{meaning_post};

use crate::body::{Body, with_local};
use crate::build::{
    action, action_with, atom, client, element, for_in, let_in, paren, postfixed, throw,
    variable_of,
};
use flight_parse::{Entry, Name, Post, Property, Tree};
use flight_syntax::{Expr, PairExpr, Postfix, PropExpr};
use flight_value::Memory;
use sqlite_items::{Boxed, Items};
use std::alloc::Global;

/// What an expression means, with numbers in place of names. A name that is unknown is number 0.
#[cycle(meaning)]
pub fn expr_of<'a>(
    alloc: Global,
    body: &Body<'_>,
    locals: &[&'a Name],
    tree: &'a Tree,
) -> Result<Expr, Memory>
    requires { IsKnown body.now }
    ensures { IfOk result (λ e. term e ≡ meaning (all_of body.now) (names_of body.now locals.now) (tree_of tree.now)) }
{
    match tree {
        Tree::Let { name, value, then } => {
            let (value, then) = local_of(alloc, body, locals, name, value.get(), then.get())?;
            let_in(name, value, then)
        }
        Tree::If { test, yes, no } => {
            let test = expr_of(alloc, body, locals, test.get())?;
            let test = Boxed::new(alloc, test)?;
            let (yes, no) = two_of(alloc, body, locals, yes.get(), no.get())?;
            Ok(Expr::If { test, yes, no })
        }
        Tree::For { name, over, give } => {
            let (over, give) = local_of(alloc, body, locals, name, over.get(), give.get())?;
            for_in(name, over, give)
        }
        Tree::Throw(value) => throw(alloc, expr_of(alloc, body, locals, value.get())?),
        Tree::Postfixed { of, posts } => {
            postfixed_of(alloc, body, locals, of.get(), posts.as_slice())
        }
        Tree::Atom(value) => atom(value),
        Tree::Variable(name) => variable_of(body, locals, name),
        Tree::Client(name) => Ok(client(body, name)),
        Tree::Array(items) => Ok(Expr::Array(exprs_of(alloc, body, locals, items.as_slice())?)),
        Tree::Object(properties) => Ok(Expr::Object(props_in(
            alloc,
            body,
            locals,
            properties.as_slice(),
        )?)),
        Tree::Map(entries) => Ok(Expr::Map(pairs_in(alloc, body, locals, entries.as_slice())?)),
        Tree::Set(items) => Ok(Expr::Set(exprs_of(alloc, body, locals, items.as_slice())?)),
        Tree::Source(name) => Ok(Expr::Source(name.bytes.clone()?)),
        Tree::Promise(name) => Ok(Expr::Promise(name.bytes.clone()?)),
        Tree::Stream(name) => Ok(Expr::Stream(name.bytes.clone()?)),
        Tree::Action { name, bound } => match bound {
            None => action(body, locals, name),
            Some(bound) => {
                let bound = exprs_of(alloc, body, locals, bound.as_slice())?;
                action_with(body, name, bound)
            }
        },
        Tree::Paren(inside) => paren(alloc, expr_of(alloc, body, locals, inside.get())?),
        Tree::Binary { op, left, right } => {
            let (left, right) = two_of(alloc, body, locals, left.get(), right.get())?;
            let op = *op;
            Ok(Expr::Binary { op, left, right })
        }
        Tree::Element {
            tag,
            attributes,
            children,
        } => {
            let attrs = props_in(alloc, body, locals, attributes.as_slice())?;
            let children = exprs_of(alloc, body, locals, children.as_slice())?;
            element(body, tag, attrs, children)
        }
    }
}

/// What a variable stands for, and where it is in scope.
#[cycle(meaning)]
fn local_of<'a>(
    alloc: Global,
    body: &Body<'_>,
    locals: &[&'a Name],
    name: &'a Name,
    value: &'a Tree,
    then: &'a Tree,
) -> Result<(Boxed<Expr>, Boxed<Expr>), Memory>
    requires { IsKnown body.now }
    ensures { IfOk result (λ p. (term p.0 ≡ meaning (all_of body.now) (names_of body.now locals.now) (tree_of value.now)) × (term p.1 ≡ meaning (all_of body.now) (names_of body.now locals.now ++ name.now.bytes ∷ []) (tree_of then.now))) }
{
    let value = expr_of(alloc, body, locals, value)?;
    let value = Boxed::new(alloc, value)?;
    let inner = with_local(alloc, locals, name)?;
    let then = expr_of(alloc, body, inner.as_slice(), then)?;
    Ok((value, Boxed::new(alloc, then)?))
}

/// Two expressions.
#[cycle(meaning)]
fn two_of<'a>(
    alloc: Global,
    body: &Body<'_>,
    locals: &[&'a Name],
    one: &'a Tree,
    other: &'a Tree,
) -> Result<(Boxed<Expr>, Boxed<Expr>), Memory>
    requires { IsKnown body.now }
    ensures { IfOk result (λ p. (term p.0 ≡ meaning (all_of body.now) (names_of body.now locals.now) (tree_of one.now)) × (term p.1 ≡ meaning (all_of body.now) (names_of body.now locals.now) (tree_of other.now))) }
{
    let one = expr_of(alloc, body, locals, one)?;
    let one = Boxed::new(alloc, one)?;
    let other = expr_of(alloc, body, locals, other)?;
    Ok((one, Boxed::new(alloc, other)?))
}

/// Expressions.
#[cycle(meaning)]
fn exprs_of<'a>(
    alloc: Global,
    body: &Body<'_>,
    locals: &[&'a Name],
    items: &'a [Tree],
) -> Result<Items<Expr>, Memory>
    requires { IsKnown body.now }
    ensures { IfOk result (λ out. terms.terms_of (map term out) ≡ meanings (all_of body.now) (names_of body.now locals.now) (trees_of (map tree_of items.now))) }
{
    let mut out = Items::new(alloc);
    for item in items {
        let expr = expr_of(alloc, body, locals, item)?;
        out.push(expr)?;
    }
    Ok(out)
}

/// An expression with its postfixes.
#[cycle(meaning)]
fn postfixed_of<'a>(
    alloc: Global,
    body: &Body<'_>,
    locals: &[&'a Name],
    of: &'a Tree,
    posts: &'a [Post],
) -> Result<Expr, Memory>
    requires { IsKnown body.now }
    ensures { IfOk result (λ e. term e ≡ meaning (all_of body.now) (names_of body.now locals.now) (posted (tree_of of.now) (map post_of posts.now))) }
{
    let of = expr_of(alloc, body, locals, of)?;
    let of = Boxed::new(alloc, of)?;
    let postfixes = postfixes_of(alloc, body, locals, posts)?;
    Ok(postfixed(of, postfixes))
}

/// Postfixes.
#[cycle(meaning)]
fn postfixes_of<'a>(
    alloc: Global,
    body: &Body<'_>,
    locals: &[&'a Name],
    posts: &'a [Post],
) -> Result<Items<Postfix>, Memory>
    requires { IsKnown body.now }
    ensures { IfOk result (λ out. map terms.post out ≡ map (meaning_post (all_of body.now) (names_of body.now locals.now)) (map post_of posts.now)) }
{
    let mut out = Items::new(alloc);
    for post in posts {
        let postfix = postfix_of(alloc, body, locals, post)?;
        out.push(postfix)?;
    }
    Ok(out)
}

/// A postfix.
#[cycle(meaning)]
fn postfix_of<'a>(
    alloc: Global,
    body: &Body<'_>,
    locals: &[&'a Name],
    post: &'a Post,
) -> Result<Postfix, Memory>
    requires { IsKnown body.now }
    ensures { IfOk result (λ p. terms.post p ≡ meaning_post (all_of body.now) (names_of body.now locals.now) (post_of post.now)) }
{
    match post {
        Post::Named(name) => Ok(Postfix::Member(name.bytes.clone()?)),
        Post::Indexed(at) => Ok(Postfix::Index(expr_of(alloc, body, locals, at)?)),
    }
}

/// Properties.
#[cycle(meaning)]
fn props_in<'a>(
    alloc: Global,
    body: &Body<'_>,
    locals: &[&'a Name],
    properties: &'a [Property],
) -> Result<Items<PropExpr>, Memory>
    requires { IsKnown body.now }
    ensures { IfOk result (λ out. terms.props_of (map prop out) ≡ meaning_props (all_of body.now) (names_of body.now locals.now) (props_of (map property_of properties.now))) }
{
    let mut out = Items::new(alloc);
    for property in properties {
        let property = prop_of(alloc, body, locals, property)?;
        out.push(property)?;
    }
    Ok(out)
}

/// Entries.
#[cycle(meaning)]
fn pairs_in<'a>(
    alloc: Global,
    body: &Body<'_>,
    locals: &[&'a Name],
    entries: &'a [Entry],
) -> Result<Items<PairExpr>, Memory>
    requires { IsKnown body.now }
    ensures { IfOk result (λ out. terms.pairs_of (map pair out) ≡ meaning_pairs (all_of body.now) (names_of body.now locals.now) (pairs_of (map entry_of entries.now))) }
{
    let mut out = Items::new(alloc);
    for entry in entries {
        let entry = pair_of(alloc, body, locals, entry)?;
        out.push(entry)?;
    }
    Ok(out)
}

/// A property.
#[cycle(meaning)]
fn prop_of<'a>(
    alloc: Global,
    body: &Body<'_>,
    locals: &[&'a Name],
    property: &'a Property,
) -> Result<PropExpr, Memory>
    requires { IsKnown body.now }
    ensures name { IfOk result (λ p. (prop p).0 ≡ (property_of property.now).0.bytes) }
    ensures value { IfOk result (λ p. (prop p).1 ≡ meaning (all_of body.now) (names_of body.now locals.now) (property_of property.now).1) }
{
    let name = property.name.bytes.clone()?;
    let value = expr_of(alloc, body, locals, &property.value)?;
    Ok(PropExpr { name, value })
}

/// An entry.
#[cycle(meaning)]
fn pair_of<'a>(
    alloc: Global,
    body: &Body<'_>,
    locals: &[&'a Name],
    entry: &'a Entry,
) -> Result<PairExpr, Memory>
    requires { IsKnown body.now }
    ensures key { IfOk result (λ p. (pair p).0 ≡ meaning (all_of body.now) (names_of body.now locals.now) (entry_of entry.now).0) }
    ensures value { IfOk result (λ p. (pair p).1 ≡ meaning (all_of body.now) (names_of body.now locals.now) (entry_of entry.now).1) }
{
    let key = expr_of(alloc, body, locals, entry.key.get())?;
    let key = Boxed::new(alloc, key)?;
    let value = expr_of(alloc, body, locals, &entry.value)?;
    let key = key.into_inner();
    Ok(PairExpr { key, value })
}
