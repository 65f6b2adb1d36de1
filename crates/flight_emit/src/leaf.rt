ghost use Rattle.std.specs.Prelude.{◌≡◌, ◌<◌, ◌∷◌, [], OnOk, IfOk, IfSome, IfNone, length};
ghost use Rattle.flight_value.specs.declared.made.Tables.{Tables};
ghost use Rattle.flight_render.specs.declared.job.What.TheVariants as what;
ghost use Rattle.flight_render.specs.Plain.{action_name};
ghost use Rattle.flight_render.specs.Valid.{IsActionAt};
ghost use Rattle.flight_emit.specs.Seen.{look, seen_of, tables_by, IsServerNode};
ghost use Rattle.flight_value.specs.Graph.{IsValidAtom};
ghost use Rattle.flight_payload.specs.Written.{token_of, HasToken};
ghost use Rattle.flight_emit.specs.Nodes.{IsReady, reference_place};
ghost use Rattle.flight_value.specs.declared.graph.Atom.TheVariants as atom;
ghost use Rattle.flight_value.specs.declared.key.Key.TheVariants as key;
ghost use Rattle.flight_value.specs.declared.made.Tree.TheVariants as tree;
ghost use Rattle.flight_home.specs.Homes.{Homes};
ghost use Rattle.flight_render.specs.declared.root.Ground.{Ground};
ghost use Rattle.flight_render.specs.Jobs.{Value, shown, failed};
ghost use Rattle.flight_state.specs.Local.{Seen};
ghost use Rattle.flight_emit.specs.Log.{stage, IsMetNode, Extends, Put};
ghost use Rattle.flight_emit.specs.Wrote.{WroteLeaf, HasRow};

use crate::node::Sort;
use crate::scene::{Scene, tables_by};
use crate::take::{
    copy_name, copy_text, take_reference, take_row, take_stream, take_symbol, take_task,
};
use crate::work::Work;
use flight_home::Home;
use flight_render::{Ground, What};
use flight_syntax::Declared;
use flight_text::Ref;
use flight_value::{Atom, Key, Memory, Name, Text};
use std::alloc::Global;

/// A text of so many bytes has a row of its own (React 19.0, `renderModelDestructive` of ReactFlightServer).
const LONG_TEXT: usize = 1024;

/// Writes a text in place, or as a reference to a row of its own.
pub fn write_text(alloc: Global, work: &mut Work, text: &Text) -> Result<(), Memory>
    ensures { OnOk result ((g : Ground) (seen : Seen) (homes : Homes) → WroteLeaf g seen (shown (tree.Atom (atom.Text text.now))) (stage homes work.old) (stage homes work.new)) }
{
    if text.as_str().len() < LONG_TEXT {
        return work.put_text(text.as_str());
    }
    let id = work.add_text(alloc, text.as_str())?;
    work.put_whole(alloc, id)
}

/// Writes a symbol, as a reference to the one row that it has.
fn write_symbol(alloc: Global, home: &mut Home, work: &mut Work, name: &Text) -> Result<(), Memory>
    requires ready { IsReady (stage home.old work.old) }
    ensures extends { Extends home.old home.new }
    ensures wrote { OnOk result ((g : Ground) (seen : Seen) → WroteLeaf g seen (shown (tree.Atom (atom.Symbol name.now))) (stage home.old work.old) (stage home.new work.new)) }
{
    let key = Key::Symbol(copy_text(name)?);
    if let Some(at) = home.get(&key) {
        return work.put_whole(alloc, at.id);
    }
    let id = take_symbol(alloc, home, work, name)?;
    work.put_whole(alloc, id)
}

/// Writes an atom in place that has a token and is no text.
fn write_token(work: &mut Work, atom: &Atom) -> Result<(), Memory>
    requires token { HasToken atom.now }
    requires valid { IsValidAtom atom.now }
    ensures { OnOk result ((g : Ground) (seen : Seen) (homes : Homes) → WroteLeaf g seen (shown (tree.Atom atom.now)) (stage homes work.old) (stage homes work.new)) }
{
    work.put_atom(atom)
}

/// Writes a reference to a node that is at home.
pub fn write_home(work: &mut Work, sort: Sort, at: &Ref) -> Result<(), Memory>
    ensures { OnOk result ((homes : Homes) → Put (token_of (reference_place sort at.now) ∷ []) (stage homes work.old) (stage homes work.new)) }
{
    match sort {
        Sort::Promise => work.put_promise(at.id),
        Sort::Action => work.put_action(at.id),
        _ => work.put_value(at),
    }
}

/// Writes the promise of a source. Its task is born where it is met first.
pub fn write_source(
    alloc: Global,
    home: &mut Home,
    work: &mut Work,
    source: u32,
) -> Result<(), Memory>
    requires ready { IsReady (stage home.old work.old) }
    ensures extends { Extends home.old home.new }
    ensures wrote { OnOk result ((g : Ground) (seen : Seen) → WroteLeaf g seen (shown (tree.Promise source)) (stage home.old work.old) (stage home.new work.new)) }
{
    let key = Key::Settled { source };
    if let Some(at) = home.get(&key) {
        return work.put_promise(at.id);
    }
    let id = take_task(alloc, home, work, key, What::Promise { source })?;
    work.put_promise(id)
}

/// Writes a failure, as a reference to a row of its own.
pub fn write_failure(alloc: Global, work: &mut Work, digest: &Text) -> Result<(), Memory>
    ensures { OnOk result ((g : Ground) (seen : Seen) (homes : Homes) → WroteLeaf g seen (failed digest.now) (stage homes work.old) (stage homes work.new)) }
{
    let id = work.add_failure(alloc, digest.as_str())?;
    work.put_lazy(id)
}

/// What the task of a server element is for.
fn element_task(scene: &Scene, name: &Name) -> Result<What, Memory>
    ensures { IfOk result (λ w. (tables : Tables) × (w ≡ what.Element name.now tables) × (tables.made ≡ tables_by scene.now.bodies.now name.now)) }
{
    Ok(What::Element {
        element: copy_name(name)?,
        tables: tables_by(scene.alloc, scene.bodies, name)?,
    })
}

/// Writes a server element, by the row of its task, which is born where the element is met first.
pub fn write_element(
    scene: &Scene,
    home: &mut Home,
    work: &mut Work,
    name: &Name,
) -> Result<(), Memory>
    requires ready { IsReady (stage home.old work.old) }
    requires server { IsServerNode (look scene.now.bodies.now name.now) }
    ensures extends { Extends home.old home.new }
    ensures wrote { OnOk result ((g : Ground) → WroteLeaf g (seen_of scene.now.bodies.now) (shown (tree.Made name.now)) (stage home.old work.old) (stage home.new work.new)) }
{
    let key = Key::Server(copy_name(name)?);
    if let Some(at) = home.get(&key) {
        return work.put_lazy(at.id);
    }
    let what = element_task(scene, name)?;
    let id = take_task(scene.alloc, home, work, key, what)?;
    work.put_lazy(id)
}

/// Writes a stream, by the row that opens it.
pub fn write_stream(
    scene: &Scene,
    home: &mut Home,
    work: &mut Work,
    stream: u32,
) -> Result<(), Memory>
    requires ready { IsReady (stage home.old work.old) }
    requires known { stream < length scene.now.ground.now.script.streams }
    ensures extends { Extends home.old home.new }
    ensures wrote { OnOk result ((seen : Seen) → WroteLeaf scene.now.ground.now seen (shown (tree.Stream stream)) (stage home.old work.old) (stage home.new work.new)) }
{
    let key = Key::Stream { stream };
    if let Some(at) = home.get(&key) {
        return work.put_whole(scene.alloc, at.id);
    }
    let flowing = &scene.ground.script.streams.as_slice()[stream as usize];
    let id = take_stream(scene.alloc, home, work, stream, flowing)?;
    work.put_whole(scene.alloc, id)
}

/// What a server reference is called.
fn action_name(ground: &Ground, action: u32) -> Option<&Text>
    ensures some { IfSome result (λ name. name.now ≡ action_name ground.now action) }
    ensures none { IfNone result (IsActionAt ground.now action → ⊥) }
{
    match ground.program.declared.as_slice().get(action as usize) {
        Some(Declared::Action { name, .. }) => Some(name),
        _ => None,
    }
}

/// Writes a server reference with no bound arguments, by the one row that it has.
pub fn write_action(
    scene: &Scene,
    home: &mut Home,
    work: &mut Work,
    action: u32,
) -> Result<(), Memory>
    requires ready { IsReady (stage home.old work.old) }
    requires action { IsActionAt scene.now.ground.now action }
    ensures extends { Extends home.old home.new }
    ensures wrote { OnOk result ((seen : Seen) → WroteLeaf scene.now.ground.now seen (shown (tree.Action action)) (stage home.old work.old) (stage home.new work.new)) }
{
    let key = Key::Action { action };
    if let Some(at) = home.get(&key) {
        return work.put_action(at.id);
    }
    let Some(name) = action_name(scene.ground, action) else {
        unreachable!()
    };
    let id = take_reference(scene.alloc, home, work, key, name, None)?;
    work.put_action(id)
}

/// The row of the promise of bound arguments, which is still to be written where the promise is met first.
pub fn promise_row(
    scene: &Scene,
    home: &mut Home,
    work: &mut Work,
    promise: &Name,
) -> Result<u32, Memory>
    requires ready { IsReady (stage home.old work.old) }
    ensures extends { Extends home.old home.new }
    ensures row { IfOk result (λ id. (g : Ground) (v : Value) → IsMetNode g (seen_of scene.now.bodies.now) v (key.Made promise.now) → HasRow g (seen_of scene.now.bodies.now) v (key.Made promise.now) id (stage home.old work.old) (stage home.new work.new)) }
{
    let key = Key::Made(copy_name(promise)?);
    if let Some(at) = home.get(&key) {
        return Ok(at.id);
    }
    take_row(scene.alloc, home, work, key)
}
