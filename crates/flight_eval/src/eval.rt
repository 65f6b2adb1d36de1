ghost use Rattle.std.specs.Prelude.{◌≡◌, ◌≤◌, ◌++◌, ◌∷◌, [], OnOk, map};
ghost use Rattle.flight_syntax.specs.Term.{term, prop, pair, post, terms_of, props_of, pairs_of};
ghost use Rattle.flight_value.specs.declared.made.MadeKind.TheVariants.{Array as array_kind};
ghost use Rattle.flight_render.specs.Run.{and_then, give};
ghost use Rattle.flight_render.specs.Values.{items_in};
ghost use Rattle.flight_render.specs.Operators.{type_digest};
ghost use Rattle.flight_render.specs.Eval.{eval, eval_all, eval_props, eval_pairs, eval_attrs, known, each, branch, give_or_fail, item_at, make_here, with_children, make_element};
ghost use Rattle.flight_eval.specs.Gives.{work_of, context_of, Gives};
ghost use Rattle.flight_eval.specs.Object.{pair_of, attributes_of};
ghost use Rattle.flight_eval.specs.Productions.{charge, least_charge, no_attributes, both_run, operator_run, post_run, posts_run};

use crate::object::{Attributes, Property, make_bound, with_attribute, with_children};
use crate::operators::throws;
use crate::parts::{
    array_items, client_tree, give_operated, item_at, promise, property, source, stream, throw,
    variable,
};
use crate::place::Place;
use crate::sorted::{make_element, make_object};
use crate::stop::Stop;
use crate::work::{Work, make, pay};
use flight_syntax::{Expr, Op, PairExpr, Postfix, PropExpr, Tag};
use flight_value::{Atom, MadeKind, Tree};

/// What an expression is charged when it begins: each of its postfixes, or once, and parentheses are free.
fn charge(e: &Expr) -> u64
    ensures is { result ≡ charge e.now }
    ensures least { result ≤ least_charge (term e.now) }
{
    match e {
        Expr::Paren(_) => 0,
        Expr::Postfixed { postfixes, .. } => postfixes.len() as u64,
        _ => 1,
    }
}

/// Evaluates an expression with the values of its variables.
#[cycle(evaluation)]
pub fn eval(place: &Place, e: &Expr, env: &mut Vec<Tree>, work: &mut Work) -> Result<Tree, Stop>
    requires within { work.old.cost ≤ place.now.fuel }
    ensures gives { Gives (λ t. t) place.now.fuel (eval (context_of place.now) (term e.now) env.old.items (work_of work.old)) result (work_of work.new) }
    ensures env { OnOk result (env.new.items ≡ env.old.items) }
{
    pay(work, charge(e), place.fuel)?;
    match e {
        Expr::Paren(inside) => eval(place, inside.get(), env, work),
        Expr::Let { value, then, .. } => eval_let(place, value.get(), then.get(), env, work),
        Expr::If { test, yes, no } => eval_if(place, test.get(), yes.get(), no.get(), env, work),
        Expr::For { over, give, .. } => eval_for(place, over.get(), give.get(), env, work),
        Expr::Throw(value) => {
            let value = eval(place, value.get(), env, work)?;
            throw(place, value, work)
        }
        Expr::Postfixed { of, postfixes } => {
            eval_postfixed(place, of.get(), postfixes.as_slice(), env, work)
        }
        Expr::Array(items) => {
            let slots = eval_all(place, items.as_slice(), env, work)?;
            make(place, MadeKind::Array, slots, work)
        }
        Expr::Set(items) => {
            let slots = eval_all(place, items.as_slice(), env, work)?;
            make(place, MadeKind::Set, slots, work)
        }
        Expr::Map(pairs) => {
            let slots = eval_pairs(place, pairs.as_slice(), env, work)?;
            make(place, MadeKind::Map, slots, work)
        }
        Expr::Object(props) => {
            let props = eval_props(place, props.as_slice(), env, work)?;
            make_object(place, props, work)
        }
        Expr::Action {
            action,
            bound: Some(bound),
        } => {
            let slots = eval_all(place, bound.as_slice(), env, work)?;
            make_bound(place, *action, slots, work)
        }
        Expr::Binary { op, left, right } => {
            eval_operator(place, *op, left.get(), right.get(), env, work)
        }
        Expr::Element {
            tag,
            attrs,
            children,
        } => eval_element(place, tag, attrs.as_slice(), children.as_slice(), env, work),
        Expr::Atom(atom) => Ok(Tree::Atom(atom.copy()?)),
        Expr::Variable(number) => Ok(variable(env.as_slice(), *number)?),
        Expr::Client(client) => Ok(client_tree(place, *client)?),
        Expr::Source(name) => source(place, name, work),
        Expr::Promise(name) => promise(place, name, work),
        Expr::Stream(name) => stream(place, name, work),
        Expr::Action {
            action,
            bound: None,
        } => Ok(Tree::Action { action: *action }),
    }
}

/// A value, and what is evaluated with it as one further variable.
#[cycle(evaluation)]
fn eval_let(
    place: &Place,
    value: &Expr,
    then: &Expr,
    env: &mut Vec<Tree>,
    work: &mut Work,
) -> Result<Tree, Stop>
    requires within { work.old.cost ≤ place.now.fuel }
    ensures gives { Gives (λ t. t) place.now.fuel (and_then (eval (context_of place.now) (term value.now) env.old.items (work_of work.old)) (λ t n. eval (context_of place.now) (term then.now) (env.old.items ++ t ∷ []) n)) result (work_of work.new) }
    ensures env { OnOk result (env.new.items ≡ env.old.items) }
{
    let bound = eval(place, value, env, work)?;
    env.push(bound)?;
    let result = eval(place, then, env, work)?;
    env.pop();
    Ok(result)
}

/// One of two, by a test.
#[cycle(evaluation)]
fn eval_if(
    place: &Place,
    test: &Expr,
    yes: &Expr,
    no: &Expr,
    env: &mut Vec<Tree>,
    work: &mut Work,
) -> Result<Tree, Stop>
    requires within { work.old.cost ≤ place.now.fuel }
    ensures gives { Gives (λ t. t) place.now.fuel (and_then (eval (context_of place.now) (term test.now) env.old.items (work_of work.old)) (λ t n. branch t (eval (context_of place.now) (term yes.now) env.old.items) (eval (context_of place.now) (term no.now) env.old.items) n)) result (work_of work.new) }
    ensures env { OnOk result (env.new.items ≡ env.old.items) }
{
    let tested = eval(place, test, env, work)?;
    match tested {
        Tree::Atom(Atom::Bool(true)) => eval(place, yes, env, work),
        Tree::Atom(Atom::Bool(false)) => eval(place, no, env, work),
        _ => Err(throws(place.alloc, "type")),
    }
}

/// The array of what each item of an array gives.
#[cycle(evaluation)]
fn eval_for(
    place: &Place,
    over: &Expr,
    give: &Expr,
    env: &mut Vec<Tree>,
    work: &mut Work,
) -> Result<Tree, Stop>
    requires within { work.old.cost ≤ place.now.fuel }
    ensures gives { Gives (λ t. t) place.now.fuel (and_then (eval (context_of place.now) (term over.now) env.old.items (work_of work.old)) (λ t n. and_then (give_or_fail type_digest (items_in place.now.over.now (known (context_of place.now) n) t) n) (λ items k. and_then (each (λ item l. eval (context_of place.now) (term give.now) (env.old.items ++ item ∷ []) l) items [] k) (make_here (context_of place.now) array_kind)))) result (work_of work.new) }
    ensures env { OnOk result (env.new.items ≡ env.old.items) }
{
    let array = eval(place, over, env, work)?;
    let items = array_items(place, &array, work)?;
    let slots = eval_each(place, items, give, env, work)?;
    make(place, MadeKind::Array, slots, work)
}

/// An expression, and then its postfixes, which are charged already.
#[cycle(evaluation)]
fn eval_postfixed(
    place: &Place,
    of: &Expr,
    postfixes: &[Postfix],
    env: &mut Vec<Tree>,
    work: &mut Work,
) -> Result<Tree, Stop>
    requires within { work.old.cost ≤ place.now.fuel }
    ensures gives { Gives (λ t. t) place.now.fuel (and_then (eval (context_of place.now) (term of.now) env.old.items (work_of work.old)) (posts_run (context_of place.now) (map post postfixes.now) env.old.items)) result (work_of work.new) }
    ensures env { OnOk result (env.new.items ≡ env.old.items) }
{
    let value = eval(place, of, env, work)?;
    eval_postfixes(place, value, postfixes, env, work)
}

/// What postfixes give, each on what the one before it gave.
#[cycle(evaluation)]
fn eval_postfixes(
    place: &Place,
    value: Tree,
    postfixes: &[Postfix],
    env: &mut Vec<Tree>,
    work: &mut Work,
) -> Result<Tree, Stop>
    requires within { work.old.cost ≤ place.now.fuel }
    ensures gives { Gives (λ t. t) place.now.fuel (posts_run (context_of place.now) (map post postfixes.now) env.old.items value (work_of work.old)) result (work_of work.new) }
    ensures env { OnOk result (env.new.items ≡ env.old.items) }
{
    let mut value = value;
    for postfix in postfixes {
        value = eval_postfix(place, value, postfix, env, work)?;
    }
    Ok(value)
}

/// What a postfix gives on a value: a property of an object, or an item of an array.
#[cycle(evaluation)]
fn eval_postfix(
    place: &Place,
    value: Tree,
    postfix: &Postfix,
    env: &mut Vec<Tree>,
    work: &mut Work,
) -> Result<Tree, Stop>
    requires within { work.old.cost ≤ place.now.fuel }
    ensures gives { Gives (λ t. t) place.now.fuel (post_run (context_of place.now) (post postfix.now) env.old.items value (work_of work.old)) result (work_of work.new) }
    ensures env { OnOk result (env.new.items ≡ env.old.items) }
{
    match postfix {
        Postfix::Member(name) => property(place, name, &value, work),
        Postfix::Index(at) => eval_index(place, &value, at, env, work),
    }
}

/// An item of an array.
#[cycle(evaluation)]
fn eval_index(
    place: &Place,
    array: &Tree,
    at: &Expr,
    env: &mut Vec<Tree>,
    work: &mut Work,
) -> Result<Tree, Stop>
    requires within { work.old.cost ≤ place.now.fuel }
    ensures gives { Gives (λ t. t) place.now.fuel (and_then (eval (context_of place.now) (term at.now) env.old.items (work_of work.old)) (λ i k. item_at (context_of place.now) array.now i k)) result (work_of work.new) }
    ensures env { OnOk result (env.new.items ≡ env.old.items) }
{
    let number = eval(place, at, env, work)?;
    item_at(place, array, &number, work)
}

/// An operator between two expressions.
#[cycle(evaluation)]
fn eval_operator(
    place: &Place,
    op: Op,
    left: &Expr,
    right: &Expr,
    env: &mut Vec<Tree>,
    work: &mut Work,
) -> Result<Tree, Stop>
    requires within { work.old.cost ≤ place.now.fuel }
    ensures gives { Gives (λ t. t) place.now.fuel (operator_run (context_of place.now) op (term left.now) (term right.now) env.old.items (work_of work.old)) result (work_of work.new) }
    ensures env { OnOk result (env.new.items ≡ env.old.items) }
{
    match op {
        Op::And => eval_and(place, left, right, env, work),
        Op::Or => eval_or(place, left, right, env, work),
        _ => eval_both(place, op, left, right, env, work),
    }
}

/// The right where the left is true.
#[cycle(evaluation)]
fn eval_and(
    place: &Place,
    left: &Expr,
    right: &Expr,
    env: &mut Vec<Tree>,
    work: &mut Work,
) -> Result<Tree, Stop>
    requires within { work.old.cost ≤ place.now.fuel }
    ensures gives { Gives (λ t. t) place.now.fuel (and_then (eval (context_of place.now) (term left.now) env.old.items (work_of work.old)) (λ t n. branch t (eval (context_of place.now) (term right.now) env.old.items) (give t) n)) result (work_of work.new) }
    ensures env { OnOk result (env.new.items ≡ env.old.items) }
{
    let tested = eval(place, left, env, work)?;
    match tested {
        Tree::Atom(Atom::Bool(true)) => eval(place, right, env, work),
        Tree::Atom(Atom::Bool(false)) => Ok(Tree::Atom(Atom::Bool(false))),
        _ => Err(throws(place.alloc, "type")),
    }
}

/// The right where the left is false.
#[cycle(evaluation)]
fn eval_or(
    place: &Place,
    left: &Expr,
    right: &Expr,
    env: &mut Vec<Tree>,
    work: &mut Work,
) -> Result<Tree, Stop>
    requires within { work.old.cost ≤ place.now.fuel }
    ensures gives { Gives (λ t. t) place.now.fuel (and_then (eval (context_of place.now) (term left.now) env.old.items (work_of work.old)) (λ t n. branch t (give t) (eval (context_of place.now) (term right.now) env.old.items) n)) result (work_of work.new) }
    ensures env { OnOk result (env.new.items ≡ env.old.items) }
{
    let tested = eval(place, left, env, work)?;
    match tested {
        Tree::Atom(Atom::Bool(true)) => Ok(Tree::Atom(Atom::Bool(true))),
        Tree::Atom(Atom::Bool(false)) => eval(place, right, env, work),
        _ => Err(throws(place.alloc, "type")),
    }
}

/// An operator of which both sides are evaluated.
#[cycle(evaluation)]
fn eval_both(
    place: &Place,
    op: Op,
    left: &Expr,
    right: &Expr,
    env: &mut Vec<Tree>,
    work: &mut Work,
) -> Result<Tree, Stop>
    requires within { work.old.cost ≤ place.now.fuel }
    ensures gives { Gives (λ t. t) place.now.fuel (both_run (context_of place.now) op (term left.now) (term right.now) env.old.items (work_of work.old)) result (work_of work.new) }
    ensures env { OnOk result (env.new.items ≡ env.old.items) }
{
    let x = eval(place, left, env, work)?;
    let y = eval(place, right, env, work)?;
    give_operated(place, op, &x, &y, work)
}

/// An element: its attributes, its children, and then itself.
#[cycle(evaluation)]
fn eval_element(
    place: &Place,
    tag: &Tag,
    attrs: &[PropExpr],
    children: &[Expr],
    env: &mut Vec<Tree>,
    work: &mut Work,
) -> Result<Tree, Stop>
    requires within { work.old.cost ≤ place.now.fuel }
    ensures gives { Gives (λ t. t) place.now.fuel (and_then (eval_attrs (context_of place.now) (props_of (map prop attrs.now)) env.old.items no_attributes (work_of work.old)) (λ with_attrs n. and_then (eval_all (context_of place.now) (terms_of (map term children.now)) env.old.items [] n) (λ inside k. and_then (with_children (context_of place.now) with_attrs inside k) (make_element (context_of place.now) tag.now)))) result (work_of work.new) }
    ensures env { OnOk result (env.new.items ≡ env.old.items) }
{
    let attrs = eval_attrs(place, attrs, env, work)?;
    let inside = eval_all(place, children, env, work)?;
    let attrs = with_children(place, attrs, inside, work)?;
    make_element(place, tag, attrs, work)
}

/// What each item gives, as one further variable.
#[cycle(evaluation)]
fn eval_each(
    place: &Place,
    items: Vec<Tree>,
    give: &Expr,
    env: &mut Vec<Tree>,
    work: &mut Work,
) -> Result<Vec<Tree>, Stop>
    requires within { work.old.cost ≤ place.now.fuel }
    ensures gives { Gives (λ v. v.items) place.now.fuel (each (λ item l. eval (context_of place.now) (term give.now) (env.old.items ++ item ∷ []) l) items.items [] (work_of work.old)) result (work_of work.new) }
    ensures env { OnOk result (env.new.items ≡ env.old.items) }
{
    let mut results = Vec::new(place.alloc);
    for item in items {
        env.push(item)?;
        let result = eval(place, give, env, work)?;
        env.pop();
        results.push(result)?;
    }
    Ok(results)
}

/// Expressions one after another.
#[cycle(evaluation)]
fn eval_all(
    place: &Place,
    items: &[Expr],
    env: &mut Vec<Tree>,
    work: &mut Work,
) -> Result<Vec<Tree>, Stop>
    requires within { work.old.cost ≤ place.now.fuel }
    ensures gives { Gives (λ v. v.items) place.now.fuel (eval_all (context_of place.now) (terms_of (map term items.now)) env.old.items [] (work_of work.old)) result (work_of work.new) }
    ensures env { OnOk result (env.new.items ≡ env.old.items) }
{
    let mut slots = Vec::new(place.alloc);
    for item in items {
        let value = eval(place, item, env, work)?;
        slots.push(value)?;
    }
    Ok(slots)
}

/// The entries of a map: key, value, key, value and so on.
#[cycle(evaluation)]
fn eval_pairs(
    place: &Place,
    pairs: &[PairExpr],
    env: &mut Vec<Tree>,
    work: &mut Work,
) -> Result<Vec<Tree>, Stop>
    requires within { work.old.cost ≤ place.now.fuel }
    ensures gives { Gives (λ v. v.items) place.now.fuel (eval_pairs (context_of place.now) (pairs_of (map pair pairs.now)) env.old.items [] (work_of work.old)) result (work_of work.new) }
    ensures env { OnOk result (env.new.items ≡ env.old.items) }
{
    let mut slots = Vec::new(place.alloc);
    for pair in pairs {
        let key = eval(place, &pair.key, env, work)?;
        let value = eval(place, &pair.value, env, work)?;
        slots.push(key)?;
        slots.push(value)?;
    }
    Ok(slots)
}

/// The properties of an object, in the order written.
#[cycle(evaluation)]
fn eval_props(
    place: &Place,
    props: &[PropExpr],
    env: &mut Vec<Tree>,
    work: &mut Work,
) -> Result<Vec<Property>, Stop>
    requires within { work.old.cost ≤ place.now.fuel }
    ensures gives { Gives (λ v. map pair_of v.items) place.now.fuel (eval_props (context_of place.now) (props_of (map prop props.now)) env.old.items [] (work_of work.old)) result (work_of work.new) }
    ensures env { OnOk result (env.new.items ≡ env.old.items) }
{
    let mut values = Vec::new(place.alloc);
    for prop in props {
        let value = eval(place, &prop.value, env, work)?;
        let name = prop.name.clone()?;
        values.push(Property { name, value })?;
    }
    Ok(values)
}

/// The attributes of an element, in the order written.
#[cycle(evaluation)]
fn eval_attrs(
    place: &Place,
    attrs: &[PropExpr],
    env: &mut Vec<Tree>,
    work: &mut Work,
) -> Result<Attributes, Stop>
    requires within { work.old.cost ≤ place.now.fuel }
    ensures gives { Gives attributes_of place.now.fuel (eval_attrs (context_of place.now) (props_of (map prop attrs.now)) env.old.items no_attributes (work_of work.old)) result (work_of work.new) }
    ensures env { OnOk result (env.new.items ≡ env.old.items) }
{
    let mut so_far = Attributes {
        key: Tree::Atom(Atom::Null),
        props: Vec::new(place.alloc),
    };
    for attr in attrs {
        let value = eval(place, &attr.value, env, work)?;
        so_far = with_attribute(place, so_far, &attr.name, value, work)?;
    }
    Ok(so_far)
}
