ghost use Rattle.std.specs.Prelude.{◌≡◌, ℕ, List, IfOk, map};
ghost use Rattle.flight_syntax.specs.Term.{term, prop, post};
ghost use Rattle.flight_syntax.specs.Term as terms;
ghost use Rattle.flight_syntax.specs.Scope.{client_number, action_number, tag_of};
ghost use Rattle.flight_syntax.specs.Meaning.{innermost, given, given_tag, meaning, meanings};
ghost use Rattle.flight_syntax.specs.Tree as tree;
ghost use Rattle.flight_parse.specs.Code.{placed};
ghost use Rattle.flight_resolve.specs.Names.{IsKnown, all_of, names_of};

use crate::body::{Body, variable};
use crate::tables::find;
use flight_parse::Name;
use flight_syntax::{Expr, Postfix, PropExpr, Tag, is_lower};
use flight_value::{Atom, Memory};
use sqlite_items::{Boxed, Items};
use std::alloc::Global;

/// `let name = value in then`.
pub fn let_in(name: &Name, value: Boxed<Expr>, then: Boxed<Expr>) -> Result<Expr, Memory>
    ensures { IfOk result (λ e. term e ≡ terms.let_in name.now.bytes (term value) (term then)) }
{
    let name = name.bytes.clone()?;
    Ok(Expr::Let { name, value, then })
}

/// `for name in over give give`.
pub fn for_in(name: &Name, over: Boxed<Expr>, give: Boxed<Expr>) -> Result<Expr, Memory>
    ensures { IfOk result (λ e. term e ≡ terms.for_in name.now.bytes (term over) (term give)) }
{
    let name = name.bytes.clone()?;
    Ok(Expr::For { name, over, give })
}

/// `throw value`.
pub fn throw(alloc: Global, value: Expr) -> Result<Expr, Memory>
    ensures { IfOk result (λ e. term e ≡ terms.throw (term value)) }
{
    Ok(Expr::Throw(Boxed::new(alloc, value)?))
}

/// An expression with its postfixes.
pub fn postfixed(of: Boxed<Expr>, postfixes: Items<Postfix>) -> Expr
    ensures { term result ≡ terms.posted (term of) (map post postfixes) }
{
    Expr::Postfixed { of, postfixes }
}

/// A literal.
pub fn atom(value: &Atom) -> Result<Expr, Memory>
    ensures { IfOk result (λ e. term e ≡ terms.atom value.now) }
{
    Ok(Expr::Atom(value.copy()?))
}

/// An expression in parentheses.
pub fn paren(alloc: Global, inside: Expr) -> Result<Expr, Memory>
    ensures { IfOk result (λ e. term e ≡ terms.paren (term inside)) }
{
    Ok(Expr::Paren(Boxed::new(alloc, inside)?))
}

/// A variable, the innermost of its name.
pub fn variable_of(body: &Body<'_>, locals: &[&Name], name: &Name) -> Result<Expr, Memory>
    requires { IsKnown body.now }
    ensures { IfOk result (λ e. term e ≡ terms.variable (innermost (names_of body.now locals.now) name.now.bytes)) }
{
    let number = variable_number(body, locals, name)?;
    Ok(Expr::Variable(number))
}

/// The number of the innermost variable of a name, or 0 where there is none.
fn variable_number(body: &Body<'_>, locals: &[&Name], name: &Name) -> Result<u32, Memory>
    requires { IsKnown body.now }
    ensures { IfOk result (λ number. number ≡ innermost (names_of body.now locals.now) name.now.bytes) }
{
    let number = variable(body, locals, &name.bytes)?;
    Ok(given(number))
}

/// A client component.
pub fn client(body: &Body<'_>, name: &Name) -> Expr
    requires { IsKnown body.now }
    ensures { term result ≡ terms.client (given (client_number (all_of body.now) name.now.bytes)) }
{
    Expr::Client(client_number(body, name))
}

/// An action.
pub fn action(body: &Body<'_>, locals: &[&Name], name: &Name) -> Result<Expr, Memory>
    requires { IsKnown body.now }
    ensures { IfOk result (λ e. term e ≡ meaning (all_of body.now) (names_of body.now locals.now) (tree.action (placed name.now))) }
{
    let action = action_number(body, name);
    Ok(Expr::Action {
        action,
        bound: None,
    })
}

/// An action and its arguments.
pub fn action_with(body: &Body<'_>, name: &Name, bound: Items<Expr>) -> Result<Expr, Memory>
    requires { IsKnown body.now }
    ensures { (scope : List (List ℕ)) (trees : tree.Trees) → terms.terms_of (map term bound) ≡ meanings (all_of body.now) scope trees
        → IfOk result (λ e. term e ≡ meaning (all_of body.now) scope (tree.action_with (placed name.now) trees)) }
{
    let action = action_number(body, name);
    let bound = Some(bound);
    Ok(Expr::Action { action, bound })
}

/// An element.
pub fn element(
    body: &Body<'_>,
    tag: &Name,
    attrs: Items<PropExpr>,
    children: Items<Expr>,
) -> Result<Expr, Memory>
    requires { IsKnown body.now }
    ensures { IfOk result (λ e. term e ≡ terms.element (given_tag (tag_of (all_of body.now) tag.now.bytes)) (terms.props_of (map prop attrs)) (terms.terms_of (map term children))) }
{
    let tag = tag_for(body, tag)?;
    Ok(Expr::Element {
        tag,
        attrs,
        children,
    })
}

/// What a tag stands for.
fn tag_for(body: &Body<'_>, tag: &Name) -> Result<Tag, Memory>
    requires { IsKnown body.now }
    ensures { IfOk result (λ t. t ≡ given_tag (tag_of (all_of body.now) tag.now.bytes)) }
{
    if is_lower(tag.bytes.as_str().as_bytes()) {
        return Ok(Tag::Host(tag.bytes.clone()?));
    }
    if let Some(number) = find(&body.tables.servers, &tag.bytes) {
        return Ok(Tag::Server(number));
    }
    match find(&body.tables.clients, &tag.bytes) {
        Some(number) => Ok(Tag::Client(number)),
        None => Ok(Tag::Suspense),
    }
}

/// The position of a client component, or some other where there is none.
fn client_number(body: &Body<'_>, name: &Name) -> u32
    requires { IsKnown body.now }
    ensures { result ≡ given (client_number (all_of body.now) name.now.bytes) }
{
    given(find(&body.tables.clients, &name.bytes))
}

/// The position of an action, or some other where there is none.
fn action_number(body: &Body<'_>, name: &Name) -> u32
    requires { IsKnown body.now }
    ensures { result ≡ given (action_number (all_of body.now) name.now.bytes) }
{
    given(find(&body.tables.actions, &name.bytes))
}

/// The number, or some other where there is none.
fn given(number: Option<u32>) -> u32
    ensures { result ≡ given number }
{
    match number {
        Some(number) => number,
        None => 0,
    }
}
