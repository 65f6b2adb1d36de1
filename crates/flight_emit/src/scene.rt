ghost use Rattle.std.specs.Prelude.{◌≡◌, IfOk, suc, length, option_and_then, slice_get, take};
ghost use Rattle.std.specs.Option.{option_copied};
ghost use Rattle.flight_render.specs.Values.{outcomes, node_in, made_in};
ghost use Rattle.flight_emit.specs.Seen.{is_above, node_by, look, tables_to, tables_by};

use flight_eval::{Body, Gave};
use flight_render::{Ground, Root};
use flight_syntax::Outcome;
use flight_value::{List, Made, Memory, Name, Node, Shared, Tables};
use std::alloc::Global;

/// What a writer can see: a program with its data, and the bodies that finished, the task's own first.
#[derive(Clone, Copy)]
pub struct Scene<'a> {
    pub alloc: Global,
    pub ground: &'a Ground,
    pub bodies: &'a [Body],
}

/// The node of a name among those of tables and of the list behind them.
fn node_of<'a>(body: &'a Body, name: &Name) -> Option<&'a Made>
    ensures { option_copied result ≡ made_in (tables_to body.now) name.now }
{
    let at = name.render.get().as_slice().len();
    let tables = body.tables.get().made.as_slice();
    if at == tables.len() {
        return body.made.get().as_slice().get(name.serial as usize);
    }
    match tables.get(at) {
        Some(made) => made.get().as_slice().get(name.serial as usize),
        None => None,
    }
}

/// Whether a node stands at the address of a body or above it.
fn is_above(name: &Name, body: &Body) -> bool
    ensures { result ≡ is_above name.now.render body.now.address }
{
    let address = body.address.get().as_slice();
    address.starts_with(name.render.get().as_slice())
}

/// The node of a name that stands at the address of a body or above it.
fn node_by<'a>(body: &'a Body, name: &Name) -> Option<&'a Made>
    ensures { option_copied result ≡ node_by body.now name.now }
{
    if is_above(name, body) {
        node_of(body, name)
    } else {
        None
    }
}

/// The node of a name that one of the bodies made, or met. It calls itself once for each body, of which an attempt has 17
/// at most.
pub fn look<'a>(bodies: &'a [Body], name: &Name) -> Option<&'a Made>
    ensures { option_copied result ≡ look bodies.now name.now }
{
    match bodies {
        [] => None,
        [body, others @ ..] => match node_by(body, name) {
            Some(made) => Some(made),
            None => look(others, name),
        },
    }
}

/// The lists of the tables of a body up to an index, the list that it made itself after them.
fn front_tables(alloc: Global, body: &Body, last: usize) -> Result<Vec<Shared<List<Made>>>, Memory>
    ensures { IfOk result (λ lists. lists.items ≡ take (suc last) (tables_to body.now)) }
{
    let tables = body.tables.get().made.as_slice();
    if last < tables.len() {
        return share_all(alloc, &tables[..last + 1]);
    }
    let mut lists = share_all(alloc, tables)?;
    lists.push(body.made.share()?)?;
    Ok(lists)
}

/// Each of these lists, with one more owner.
fn share_all(alloc: Global, lists: &[Shared<List<Made>>]) -> Result<Vec<Shared<List<Made>>>, Memory>
    ensures { IfOk result (λ shared. shared.items ≡ lists.now) }
{
    let mut shared = Vec::new(alloc);
    for list in lists {
        shared.push(list.share()?)?;
    }
    Ok(shared)
}

/// The tables of a server element: what the bodies down to its node made.
pub fn tables_by(alloc: Global, bodies: &[Body], name: &Name) -> Result<Shared<Tables>, Memory>
    ensures { IfOk result (λ tables. tables.made ≡ tables_by bodies.now name.now) }
{
    match bodies {
        [] => tables_with(alloc, Vec::new(alloc)),
        [body, others @ ..] => {
            if is_above(name, body) {
                body_tables(alloc, body, name)
            } else {
                tables_by(alloc, others, name)
            }
        }
    }
}

/// The tables of a server element that stands at the address of a body or above it.
fn body_tables(alloc: Global, body: &Body, name: &Name) -> Result<Shared<Tables>, Memory>
    ensures { IfOk result (λ tables. tables.made ≡ take (suc (length name.now.render)) (tables_to body.now)) }
{
    let count = name.render.get().as_slice().len();
    tables_with(alloc, front_tables(alloc, body, count)?)
}

/// Tables of these lists.
fn tables_with(alloc: Global, lists: Vec<Shared<List<Made>>>) -> Result<Shared<Tables>, Memory>
    ensures { IfOk result (λ tables. tables.made ≡ lists.items) }
{
    Shared::new(
        alloc,
        Tables {
            made: List::new(lists),
        },
    )
}

/// A node of a source's value, or of the arguments, which stand as one more source.
pub fn source_node(ground: &Ground, source: u32, node: u32) -> Option<&Node>
    ensures { option_copied result ≡ option_and_then (λ o. node_in o node) (slice_get (outcomes ground.now) source) }
{
    let sources = ground.script.sources.as_slice();
    match sources.get(source as usize) {
        Some(data) => match &data.outcome {
            Outcome::Value(graph) => graph.nodes.as_slice().get(node as usize),
            Outcome::Reject(_) => None,
        },
        None if source as usize == sources.len() => match &ground.root {
            Root::Call { args, .. } => args.nodes.as_slice().get(node as usize),
            Root::App => None,
        },
        None => None,
    }
}
