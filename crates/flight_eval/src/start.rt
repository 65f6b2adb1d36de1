ghost use Rattle.std.specs.Prelude.{◌≡◌, ◌≤◌, [], Some, IfOk, map, option_map, slice_get, unwrap_or, position};
ghost use Rattle.flight_syntax.specs.Term.{term};
ghost use Rattle.flight_render.specs.Values.{items_in, property_in, undefined, is_app};
ghost use Rattle.flight_render.specs.Body.{params_of, args_tree, component_start, action_start, root_start, give_last, started, run_start, root_body, fresh};
ghost use Rattle.flight_render.specs.Bodies.{inner, element_of};
ghost use Rattle.flight_render.specs.Values.{made_in};
ghost use Rattle.flight_render.specs.Attempt.{element_run};
ghost use Rattle.flight_eval.specs.Gives.{work_of, context_of, Gives};

use crate::eval::eval;
use crate::operators::throws;
use crate::place::Place;
use crate::stop::Stop;
use crate::values::{items_in, made_at, property_in, slot_tree};
use crate::work::{Work, pay, weight};
use flight_render::Root;
use flight_syntax::{Declared, Expr};
use flight_value::{Atom, Graph, List, Made, MadeKind, Memory, Name, Shared, Text, Tree};

/// A parameter: the property of its name, `undefined` where there is none.
#[tactic(auto, using(crate::proofs::Own::property_below))]
fn param(place: &Place, props: &Tree, name: &str) -> Result<Tree, Memory>
    ensures { IfOk result (λ t. t ≡ unwrap_or (property_in place.now.over.now place.now.tables.now.made name.now props.now) undefined) }
{
    match property_in(place, &[], name, props)? {
        Some(value) => Ok(value),
        None => Ok(Tree::Atom(Atom::Undefined)),
    }
}

/// The parameters of a component.
fn params_of(place: &Place, props: &Tree, names: &[Text]) -> Result<Vec<Tree>, Memory>
    ensures { IfOk result (λ env. env.items ≡ params_of place.now.over.now place.now.tables.now.made props.now names.now) }
{
    let mut env = Vec::new(place.alloc);
    for name in names {
        env.push(param(place, props, name.as_str())?)?;
    }
    Ok(env)
}

/// Gives the value of a body, which costs 1, and its bytes where it is a text.
fn give_last(place: &Place, value: Tree, work: &mut Work) -> Result<Tree, Stop>
    requires within { work.old.cost ≤ place.now.fuel }
    ensures { Gives (λ t. t) place.now.fuel (give_last value (work_of work.old)) result (work_of work.new) }
{
    pay(work, 1, place.fuel)?;
    pay(work, weight(&value), place.fuel)?;
    Ok(value)
}

/// Evaluates the expression of a body with its parameters.
fn started(place: &Place, body: &Expr, env: Vec<Tree>, work: &mut Work) -> Result<Tree, Stop>
    requires fresh { work_of work.old ≡ fresh }
    ensures { Gives (λ t. t) place.now.fuel (started (context_of place.now) (record { expression = term body.now; env = env.items })) result (work_of work.new) }
{
    let mut env = env;
    let value = eval(place, body, &mut env, work)?;
    give_last(place, value, work)
}

/// A body with its parameters: 200 on top of one another are too many.
fn run_body(place: &Place, body: &Expr, env: Vec<Tree>, work: &mut Work) -> Result<Tree, Stop>
    requires fresh { work_of work.old ≡ fresh }
    ensures { Gives (λ t. t) place.now.fuel (run_start (context_of place.now) (Some (record { expression = term body.now; env = env.items }))) result (work_of work.new) }
{
    if place.address.get().as_slice().len() >= 200 {
        return Err(throws(place.alloc, "depth"));
    }
    started(place, body, env, work)
}

/// The body of a component, by the position of its declaration.
fn component_body(
    place: &Place,
    component: usize,
    props: &Tree,
    work: &mut Work,
) -> Result<Tree, Stop>
    requires fresh { work_of work.old ≡ fresh }
    ensures { Gives (λ t. t) place.now.fuel (run_start (context_of place.now) (component_start place.now.over.now place.now.tables.now.made (slice_get place.now.over.now.program.declared component) props.now)) result (work_of work.new) }
{
    match place.over.program.declared.as_slice().get(component) {
        Some(Declared::Server { params, body, .. }) => {
            let env = params_of(place, props, params.as_slice())?;
            run_body(place, body, env, work)
        }
        _ => Err(throws(place.alloc, "type")),
    }
}

/// The parameters of an action: the items of the array of arguments.
#[tactic(auto, using(crate::proofs::Own::items_below))]
fn arguments(place: &Place, args: &Graph) -> Result<Vec<Tree>, Memory>
    requires tables { place.now.tables.now.made ≡ [] }
    ensures { IfOk result (λ env. env.items ≡ unwrap_or (items_in place.now.over.now [] (args_tree place.now.over.now args.now)) []) }
{
    let Ok(source) = u32::try_from(place.over.script.sources.as_slice().len()) else {
        return Err(Memory::past_limit());
    };
    let root = slot_tree(source, &args.root)?;
    match items_in(place, &[], &root) {
        Some(array) => array.items(place.alloc),
        None => Ok(Vec::new(place.alloc)),
    }
}

/// The body of an action, by the position of its declaration.
fn action_body(place: &Place, action: u32, args: &Graph, work: &mut Work) -> Result<Tree, Stop>
    requires tables { place.now.tables.now.made ≡ [] }
    requires fresh { work_of work.old ≡ fresh }
    ensures { Gives (λ t. t) place.now.fuel (run_start (context_of place.now) (action_start place.now.over.now (slice_get place.now.over.now.program.declared action) args.now)) result (work_of work.new) }
{
    match place.over.program.declared.as_slice().get(action as usize) {
        Some(Declared::Action { body, .. }) => {
            let env = arguments(place, args)?;
            run_body(place, body, env, work)
        }
        _ => Err(throws(place.alloc, "type")),
    }
}

fn is_app(declared: &Declared) -> bool
    ensures { result ≡ is_app declared.now }
{
    match declared {
        Declared::Server { name, .. } => name.as_str() == "App",
        _ => false,
    }
}

/// The position of the component `App`.
fn app_at(declared: &[Declared]) -> Option<usize>
    ensures { result ≡ position is_app declared.now }
{
    let mut at = 0;
    for declaration in declared {
        if is_app(declaration) {
            return Some(at);
        }
        at += 1;
    }
    None
}

/// The body of the root: that of `App` with no properties, or of the action with its arguments.
fn first_body(place: &Place, work: &mut Work) -> Result<Tree, Stop>
    requires tables { place.now.tables.now.made ≡ [] }
    requires fresh { work_of work.old ≡ fresh }
    ensures { Gives (λ t. t) place.now.fuel (run_start (context_of place.now) (root_start place.now.over.now place.now.over.now.root)) result (work_of work.new) }
{
    match &place.over.root {
        Root::App => match app_at(place.over.program.declared.as_slice()) {
            Some(app) => component_body(place, app, &Tree::Atom(Atom::Undefined), work),
            None => Err(throws(place.alloc, "type")),
        },
        Root::Call { action, args } => action_body(place, *action, args, work),
    }
}

/// The body of the root, at the empty address.
pub fn root_body(place: &Place, work: &mut Work) -> Result<Tree, Stop>
    requires address { place.now.address.now ≡ [] }
    requires tables { place.now.tables.now.made ≡ [] }
    requires fresh { work_of work.old ≡ fresh }
    ensures { Gives (λ t. t) place.now.fuel (root_body place.now.over.now place.now.seen.now.settled) result (work_of work.new) }
{
    first_body(place, work)
}

/// The component and the props of a made node that is a server element.
fn element_parts(made: &Made) -> Option<(u32, &Tree)>
    ensures { option_map (λ e. (e.0, e.1.now)) result ≡ element_of (Some made.now) }
{
    match made.kind {
        MadeKind::Server { component } => match made.slots.as_slice().get(1) {
            Some(props) => Some((component, props)),
            None => None,
        },
        _ => None,
    }
}

/// The component and the props of a server element of these tables.
#[tactic(auto, using(crate::proofs::Own::made_below))]
fn element_at<'a>(tables: &'a [Shared<List<Made>>], element: &Name) -> Option<(u32, &'a Tree)>
    ensures { option_map (λ e. (e.0, e.1.now)) result ≡ element_of (made_in tables.now element.now) }
{
    match made_at(tables, &[], element) {
        Some(made) => element_parts(made),
        None => None,
    }
}

/// The body of a server element, at its address.
pub fn element_body(place: &Place, element: &Name, work: &mut Work) -> Result<Tree, Stop>
    requires address { place.now.address.now ≡ inner element.now }
    requires fresh { work_of work.old ≡ fresh }
    ensures { Gives (λ t. t) place.now.fuel (element_run place.now.over.now place.now.seen.now.settled place.now.tables.now.made element.now) result (work_of work.new) }
{
    match element_at(place.tables.made.as_slice(), element) {
        Some((component, props)) => component_body(place, component as usize, props, work),
        None => Err(throws(place.alloc, "type")),
    }
}
