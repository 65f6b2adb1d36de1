ghost use Rattle.std.specs.Prelude.{◌≡◌, ◌≤◌, IfOk, map, slice_get, unwrap_or, position, bytes_eq};
ghost use Rattle.flight_value.specs.Graph.{Ascend};
ghost use Rattle.flight_value.specs.declared.graph.Atom.TheVariants.{Import as import_atom};
ghost use Rattle.flight_value.specs.declared.made.Tree.TheVariants.{Atom as atom_tree, Promise as promise_tree, Stream as stream_tree};
ghost use Rattle.flight_render.specs.Run.{and_then, ends, fail, give};
ghost use Rattle.flight_render.specs.Values.{items_in, property_in, source_named, stream_named, import_at, source_end, undefined};
ghost use Rattle.flight_render.specs.Operators.{operated, thrown, type_digest};
ghost use Rattle.flight_render.specs.Eval.{known, give_atom, give_or_fail, item_at};
ghost use Rattle.flight_eval.specs.Gives.{work_of, context_of, Gives};
ghost use Rattle.flight_eval.specs.Names.{HasAscendingNames};

use crate::operators::{operated, thrown, throws};
use crate::place::Place;
use crate::stop::Stop;
use crate::values::{copy_tree, items_in, property_in, source_end};
use crate::work::{Work, pay, weight};
use flight_render::Ground;
use flight_syntax::{Data, Declared, Flowing, Op};
use flight_value::{Atom, Memory, Text, Tree};
use std::alloc::Global;

/// An operator other than `&&` and `||` on two values. A text that it makes costs its bytes.
pub fn give_operated(
    place: &Place,
    op: Op,
    x: &Tree,
    y: &Tree,
    work: &mut Work,
) -> Result<Tree, Stop>
    requires within { work.old.cost ≤ place.now.fuel }
    ensures { Gives (λ t. t) place.now.fuel (give_atom (operated op x.now y.now) (work_of work.old)) result (work_of work.new) }
{
    let value = Tree::Atom(operated(place.alloc, op, x, y)?);
    pay(work, weight(&value), place.fuel)?;
    Ok(value)
}

/// The items of an array, which a value is to be.
pub fn array_items(place: &Place, value: &Tree, work: &Work) -> Result<Vec<Tree>, Stop>
    requires within { work.now.cost ≤ place.now.fuel }
    ensures { Gives (λ v. v.items) place.now.fuel (give_or_fail type_digest (items_in place.now.over.now (known (context_of place.now) (work_of work.now)) value.now) (work_of work.now)) result (work_of work.now) }
{
    match items_in(place, work.made.as_slice(), value) {
        Some(array) => Ok(array.items(place.alloc)?),
        None => Err(throws(place.alloc, "type")),
    }
}

/// An item of an array, which one value is to be, at the number that the other is to be.
pub fn item_at(place: &Place, of: &Tree, at: &Tree, work: &Work) -> Result<Tree, Stop>
    requires within { work.now.cost ≤ place.now.fuel }
    ensures { Gives (λ t. t) place.now.fuel (item_at (context_of place.now) of.now at.now (work_of work.now)) result (work_of work.now) }
{
    let Tree::Atom(Atom::Whole(number)) = at else {
        return Err(throws(place.alloc, "type"));
    };
    let Some(array) = items_in(place, work.made.as_slice(), of) else {
        return Err(throws(place.alloc, "type"));
    };
    let Ok(number) = usize::try_from(*number) else {
        return Err(throws(place.alloc, "missing"));
    };
    match array.get(number)? {
        Some(item) => Ok(item),
        None => Err(throws(place.alloc, "missing")),
    }
}

/// A property of an object, which a value is to be.
pub fn property(place: &Place, name: &Text, of: &Tree, work: &Work) -> Result<Tree, Stop>
    requires within { work.now.cost ≤ place.now.fuel }
    ensures { Gives (λ t. t) place.now.fuel (give_or_fail type_digest (property_in place.now.over.now (known (context_of place.now) (work_of work.now)) name.now of.now) (work_of work.now)) result (work_of work.now) }
{
    match property_in(place, work.made.as_slice(), name.as_str(), of)? {
        Some(value) => Ok(value),
        None => Err(throws(place.alloc, "type")),
    }
}

/// A variable, by its number.
pub fn variable(env: &[Tree], number: u32) -> Result<Tree, Memory>
    ensures { IfOk result (λ t. t ≡ unwrap_or (slice_get env.now number) undefined) }
{
    match env.get(number as usize) {
        Some(tree) => copy_tree(tree),
        None => Ok(Tree::Atom(Atom::Undefined)),
    }
}

/// What a bundler says of a client component.
pub fn import_at(alloc: Global, ground: &Ground, client: u32) -> Result<Text, Memory>
    ensures { IfOk result (λ import. import ≡ import_at ground.now client) }
{
    match ground.program.declared.as_slice().get(client as usize) {
        Some(Declared::Client { import, .. }) => Ok(import.clone()?),
        _ => Text::new(alloc, ""),
    }
}

/// A client component, as a value.
pub fn client_tree(place: &Place, client: u32) -> Result<Tree, Memory>
    ensures { IfOk result (λ t. t ≡ atom_tree (import_atom (import_at place.now.over.now client))) }
{
    let import = import_at(place.alloc, place.over, client)?;
    Ok(Tree::Atom(Atom::Import(import)))
}

/// Throws a value.
pub fn throw(place: &Place, value: Tree, work: &Work) -> Result<Tree, Stop>
    requires within { work.now.cost ≤ place.now.fuel }
    ensures { Gives (λ t. t) place.now.fuel (fail (thrown value) (work_of work.now)) result (work_of work.now) }
{
    Err(Stop::Threw(thrown(place.alloc, value)?))
}

/// The position of a source of a name, among sources that ascend by their names.
fn source_at(sources: &[Data], name: &str) -> Option<usize>
    requires { Ascend (map (λ d. d.name) sources.now) }
    ensures { result ≡ position (λ d. bytes_eq name.now d.name) sources.now }
{
    match sources.binary_search_by(|data| data.name.as_str().cmp(name)) {
        Ok(at) => Some(at),
        Err(_) => None,
    }
}

/// The position of a source of a name.
fn source_named(ground: &Ground, name: &str) -> Result<Option<u32>, Memory>
    requires { HasAscendingNames ground.now.script }
    ensures { IfOk result (λ at. at ≡ source_named ground.now name.now) }
{
    match source_at(ground.script.sources.as_slice(), name) {
        Some(at) => match u32::try_from(at) {
            Ok(at) => Ok(Some(at)),
            Err(_) => Err(Memory::past_limit()),
        },
        None => Ok(None),
    }
}

/// The position of a stream of a name, among streams that ascend by their names.
fn stream_at(streams: &[Flowing], name: &str) -> Option<usize>
    requires { Ascend (map (λ f. f.name) streams.now) }
    ensures { result ≡ position (λ f. bytes_eq name.now f.name) streams.now }
{
    match streams.binary_search_by(|flowing| flowing.name.as_str().cmp(name)) {
        Ok(at) => Some(at),
        Err(_) => None,
    }
}

/// The position of a stream of a name.
fn stream_named(ground: &Ground, name: &str) -> Result<Option<u32>, Memory>
    requires { HasAscendingNames ground.now.script }
    ensures { IfOk result (λ at. at ≡ stream_named ground.now name.now) }
{
    match stream_at(ground.script.streams.as_slice(), name) {
        Some(at) => match u32::try_from(at) {
            Ok(at) => Ok(Some(at)),
            Err(_) => Err(Memory::past_limit()),
        },
        None => Ok(None),
    }
}

/// What a source comes to, by its name.
pub fn source(place: &Place, name: &Text, work: &Work) -> Result<Tree, Stop>
    requires within { work.now.cost ≤ place.now.fuel }
    ensures { Gives (λ t. t) place.now.fuel (and_then (give_or_fail type_digest (source_named place.now.over.now name.now) (work_of work.now)) (λ s n. ends (source_end place.now.over.now place.now.seen.now.settled s) n)) result (work_of work.now) }
{
    match source_named(place.over, name.as_str())? {
        Some(source) => source_end(place, source, work),
        None => Err(throws(place.alloc, "type")),
    }
}

/// The promise of a source, by its name.
pub fn promise(place: &Place, name: &Text, work: &Work) -> Result<Tree, Stop>
    requires within { work.now.cost ≤ place.now.fuel }
    ensures { Gives (λ t. t) place.now.fuel (and_then (give_or_fail type_digest (source_named place.now.over.now name.now) (work_of work.now)) (λ s n. give (promise_tree s) n)) result (work_of work.now) }
{
    match source_named(place.over, name.as_str())? {
        Some(source) => Ok(Tree::Promise { source }),
        None => Err(throws(place.alloc, "type")),
    }
}

/// A stream, by its name.
pub fn stream(place: &Place, name: &Text, work: &Work) -> Result<Tree, Stop>
    requires within { work.now.cost ≤ place.now.fuel }
    ensures { Gives (λ t. t) place.now.fuel (and_then (give_or_fail type_digest (stream_named place.now.over.now name.now) (work_of work.now)) (λ s n. give (stream_tree s) n)) result (work_of work.now) }
{
    match stream_named(place.over, name.as_str())? {
        Some(stream) => Ok(Tree::Stream { stream }),
        None => Err(throws(place.alloc, "type")),
    }
}
