ghost use Rattle.std.specs.Prelude.{IfOk, ◌++◌, ◌∷◌, [], map};
ghost use Rattle.flight_syntax.specs.Faults as faults;
ghost use Rattle.flight_syntax.specs.Tree as tree;
ghost use Rattle.flight_syntax.specs.Tree.{trees_of, props_of, pairs_of};
ghost use Rattle.flight_parse.specs.Code.{placed, tree_of, property_of, entry_of, post_of, posted};
ghost use Rattle.flight_resolve.specs.Names.{IsKnown, IsFirst, all_of, scope_of};
ghost use Rattle.flight_resolve.specs.Posts.{faults_post, faults_posts};

use crate::body::{Body, with_local};
use crate::element_fault::own_fault;
use crate::known::{unknown_action, unknown_client, unknown_variable};
use crate::name_fault::{NameFault, first_of};
use crate::property_names::property_names;
use crate::repeated::repeated;
use flight_parse::{Entry, Name, Post, Property, Tree};
use flight_value::Memory;
use std::alloc::Global;

/// The first fault of the names in an expression.
#[cycle(faults)]
pub fn in_tree<'a>(
    alloc: Global,
    body: &Body<'_>,
    locals: &[&'a Name],
    tree: &'a Tree,
) -> Result<Option<NameFault>, Memory>
    requires { IsKnown body.now }
    ensures { IfOk result (λ fault. IsFirst fault (faults.faults (all_of body.now) (scope_of body.now locals.now) (tree_of tree.now))) }
{
    match tree {
        Tree::Let { name, value, then } => in_local(
            alloc,
            body,
            locals,
            name,
            value.get(),
            then.get(),
        ),
        Tree::If { test, yes, no } => in_three(
            alloc,
            body,
            locals,
            test.get(),
            yes.get(),
            no.get(),
        ),
        Tree::For { name, over, give } => in_local(
            alloc,
            body,
            locals,
            name,
            over.get(),
            give.get(),
        ),
        Tree::Throw(value) => in_tree(alloc, body, locals, value.get()),
        Tree::Postfixed { of, posts } => in_postfixed(
            alloc,
            body,
            locals,
            of.get(),
            posts.as_slice(),
        ),
        Tree::Atom(_) | Tree::Source(_) | Tree::Promise(_) | Tree::Stream(_) => Ok(None),
        Tree::Variable(name) => unknown_variable(body, locals, name),
        Tree::Client(name) => unknown_client(body, name),
        Tree::Array(items) => in_each(alloc, body, locals, items.as_slice()),
        Tree::Object(properties) => in_object(alloc, body, locals, properties.as_slice()),
        Tree::Map(entries) => in_entries(alloc, body, locals, entries.as_slice()),
        Tree::Set(items) => in_each(alloc, body, locals, items.as_slice()),
        Tree::Action { name, bound: None } => unknown_action(body, name),
        Tree::Action {
            name,
            bound: Some(bound),
        } => in_bound(alloc, body, locals, name, bound.as_slice()),
        Tree::Paren(inside) => in_tree(alloc, body, locals, inside.get()),
        Tree::Binary { left, right, .. } => in_two(alloc, body, locals, left.get(), right.get()),
        Tree::Element {
            tag,
            attributes,
            children,
        } => in_element(
            alloc,
            body,
            locals,
            tag,
            attributes.as_slice(),
            children.as_slice(),
        ),
    }
}

/// In what a variable stands for, and where it is in scope.
#[cycle(faults)]
fn in_local<'a>(
    alloc: Global,
    body: &Body<'_>,
    locals: &[&'a Name],
    name: &'a Name,
    value: &'a Tree,
    then: &'a Tree,
) -> Result<Option<NameFault>, Memory>
    requires { IsKnown body.now }
    ensures { IfOk result (λ fault. IsFirst fault (faults.faults (all_of body.now) (scope_of body.now locals.now) (tree_of value.now) ++ faults.faults (all_of body.now) (placed name.now ∷ scope_of body.now locals.now) (tree_of then.now))) }
{
    let first = in_tree(alloc, body, locals, value)?;
    let inner = with_local(alloc, locals, name)?;
    let other = in_tree(alloc, body, inner.as_slice(), then)?;
    Ok(first_of(first, other))
}

/// In two expressions.
#[cycle(faults)]
fn in_two<'a>(
    alloc: Global,
    body: &Body<'_>,
    locals: &[&'a Name],
    one: &'a Tree,
    other: &'a Tree,
) -> Result<Option<NameFault>, Memory>
    requires { IsKnown body.now }
    ensures { IfOk result (λ fault. IsFirst fault (faults.faults (all_of body.now) (scope_of body.now locals.now) (tree_of one.now) ++ faults.faults (all_of body.now) (scope_of body.now locals.now) (tree_of other.now))) }
{
    let first = in_tree(alloc, body, locals, one)?;
    let second = in_tree(alloc, body, locals, other)?;
    Ok(first_of(first, second))
}

/// In three expressions.
#[cycle(faults)]
fn in_three<'a>(
    alloc: Global,
    body: &Body<'_>,
    locals: &[&'a Name],
    one: &'a Tree,
    two: &'a Tree,
    three: &'a Tree,
) -> Result<Option<NameFault>, Memory>
    requires { IsKnown body.now }
    ensures { IfOk result (λ fault. IsFirst fault (faults.faults (all_of body.now) (scope_of body.now locals.now) (tree_of one.now) ++ (faults.faults (all_of body.now) (scope_of body.now locals.now) (tree_of two.now) ++ faults.faults (all_of body.now) (scope_of body.now locals.now) (tree_of three.now)))) }
{
    let first = in_tree(alloc, body, locals, one)?;
    let others = in_two(alloc, body, locals, two, three)?;
    Ok(first_of(first, others))
}

/// In an expression and its postfixes.
#[cycle(faults)]
fn in_postfixed<'a>(
    alloc: Global,
    body: &Body<'_>,
    locals: &[&'a Name],
    of: &'a Tree,
    posts: &'a [Post],
) -> Result<Option<NameFault>, Memory>
    requires { IsKnown body.now }
    ensures { IfOk result (λ fault. IsFirst fault (faults.faults (all_of body.now) (scope_of body.now locals.now) (posted (tree_of of.now) (map post_of posts.now)))) }
{
    let first = in_tree(alloc, body, locals, of)?;
    let others = in_posts(alloc, body, locals, posts)?;
    Ok(first_of(first, others))
}

/// In postfixes.
#[cycle(faults)]
fn in_posts<'a>(
    alloc: Global,
    body: &Body<'_>,
    locals: &[&'a Name],
    posts: &'a [Post],
) -> Result<Option<NameFault>, Memory>
    requires { IsKnown body.now }
    ensures { IfOk result (λ fault. IsFirst fault (faults_posts (all_of body.now) (scope_of body.now locals.now) (map post_of posts.now))) }
{
    let mut first = None;
    for post in posts {
        let fault = in_post(alloc, body, locals, post)?;
        first = first_of(first, fault);
    }
    Ok(first)
}

/// In a postfix.
#[cycle(faults)]
fn in_post<'a>(
    alloc: Global,
    body: &Body<'_>,
    locals: &[&'a Name],
    post: &'a Post,
) -> Result<Option<NameFault>, Memory>
    requires { IsKnown body.now }
    ensures { IfOk result (λ fault. IsFirst fault (faults_post (all_of body.now) (scope_of body.now locals.now) (post_of post.now))) }
{
    match post {
        Post::Named(_) => Ok(None),
        Post::Indexed(at) => in_tree(alloc, body, locals, at),
    }
}

/// In an action and its arguments.
#[cycle(faults)]
fn in_bound<'a>(
    alloc: Global,
    body: &Body<'_>,
    locals: &[&'a Name],
    name: &'a Name,
    bound: &'a [Tree],
) -> Result<Option<NameFault>, Memory>
    requires { IsKnown body.now }
    ensures { IfOk result (λ fault. IsFirst fault (faults.unless_known (faults.is_named name.now.bytes (faults.actions (all_of body.now))) (placed name.now) ++ faults.faults_each (all_of body.now) (scope_of body.now locals.now) (trees_of (map tree_of bound.now)))) }
{
    let unknown = unknown_action(body, name)?;
    let others = in_each(alloc, body, locals, bound)?;
    Ok(first_of(unknown, others))
}

/// In the properties of an object, and in their names.
#[cycle(faults)]
fn in_object<'a>(
    alloc: Global,
    body: &Body<'_>,
    locals: &[&'a Name],
    properties: &'a [Property],
) -> Result<Option<NameFault>, Memory>
    requires { IsKnown body.now }
    ensures { IfOk result (λ fault. IsFirst fault (faults.repeated [] (faults.property_names (props_of (map property_of properties.now))) ++ faults.faults_props (all_of body.now) (scope_of body.now locals.now) (props_of (map property_of properties.now)))) }
{
    let names = property_names(alloc, properties)?;
    let twice = repeated(alloc, names.as_slice())?;
    let others = in_properties(alloc, body, locals, properties)?;
    Ok(first_of(twice, others))
}

/// In an element.
#[cycle(faults)]
fn in_element<'a>(
    alloc: Global,
    body: &Body<'_>,
    locals: &[&'a Name],
    tag: &'a Name,
    attributes: &'a [Property],
    children: &'a [Tree],
) -> Result<Option<NameFault>, Memory>
    requires { IsKnown body.now }
    ensures { IfOk result (λ fault. IsFirst fault (faults.faults (all_of body.now) (scope_of body.now locals.now) (tree.element (placed tag.now) (props_of (map property_of attributes.now)) (trees_of (map tree_of children.now))))) }
{
    let others = in_properties(alloc, body, locals, attributes)?;
    let inside = in_each(alloc, body, locals, children)?;
    let parts = first_of(others, inside);
    own_fault(alloc, body, tag, attributes, children, parts)
}

/// In expressions.
#[cycle(faults)]
fn in_each<'a>(
    alloc: Global,
    body: &Body<'_>,
    locals: &[&'a Name],
    items: &'a [Tree],
) -> Result<Option<NameFault>, Memory>
    requires { IsKnown body.now }
    ensures { IfOk result (λ fault. IsFirst fault (faults.faults_each (all_of body.now) (scope_of body.now locals.now) (trees_of (map tree_of items.now)))) }
{
    let mut first = None;
    for item in items {
        let fault = in_tree(alloc, body, locals, item)?;
        first = first_of(first, fault);
    }
    Ok(first)
}

/// In the values of properties.
#[cycle(faults)]
fn in_properties<'a>(
    alloc: Global,
    body: &Body<'_>,
    locals: &[&'a Name],
    properties: &'a [Property],
) -> Result<Option<NameFault>, Memory>
    requires { IsKnown body.now }
    ensures { IfOk result (λ fault. IsFirst fault (faults.faults_props (all_of body.now) (scope_of body.now locals.now) (props_of (map property_of properties.now)))) }
{
    let mut first = None;
    for property in properties {
        let fault = in_property(alloc, body, locals, property)?;
        first = first_of(first, fault);
    }
    Ok(first)
}

/// In the entries of a map.
#[cycle(faults)]
fn in_entries<'a>(
    alloc: Global,
    body: &Body<'_>,
    locals: &[&'a Name],
    entries: &'a [Entry],
) -> Result<Option<NameFault>, Memory>
    requires { IsKnown body.now }
    ensures { IfOk result (λ fault. IsFirst fault (faults.faults_pairs (all_of body.now) (scope_of body.now locals.now) (pairs_of (map entry_of entries.now)))) }
{
    let mut first = None;
    for entry in entries {
        let fault = in_entry(alloc, body, locals, entry)?;
        first = first_of(first, fault);
    }
    Ok(first)
}

/// In the value of a property.
#[cycle(faults)]
fn in_property<'a>(
    alloc: Global,
    body: &Body<'_>,
    locals: &[&'a Name],
    property: &'a Property,
) -> Result<Option<NameFault>, Memory>
    requires { IsKnown body.now }
    ensures { IfOk result (λ fault. IsFirst fault (faults.faults (all_of body.now) (scope_of body.now locals.now) (property_of property.now).1)) }
{
    in_tree(alloc, body, locals, &property.value)
}

/// In an entry of a map.
#[cycle(faults)]
fn in_entry<'a>(
    alloc: Global,
    body: &Body<'_>,
    locals: &[&'a Name],
    entry: &'a Entry,
) -> Result<Option<NameFault>, Memory>
    requires { IsKnown body.now }
    ensures { IfOk result (λ fault. IsFirst fault (faults.faults (all_of body.now) (scope_of body.now locals.now) (entry_of entry.now).0 ++ faults.faults (all_of body.now) (scope_of body.now locals.now) (entry_of entry.now).1)) }
{
    in_two(alloc, body, locals, entry.key.get(), &entry.value)
}
