ghost use Rattle.std.specs.Prelude.{◌≡◌, ◌<◌, ◌^◌, Some, OnOk, IfOk};
ghost use Rattle.flight_value.specs.declared.graph.Atom.TheVariants as atom;
ghost use Rattle.flight_value.specs.declared.key.Key.TheVariants as key;
ghost use Rattle.flight_row.specs.declared.row.RowKind.TheVariants.{Model, Import};
ghost use Rattle.flight_home.specs.Homes.{IsNew};
ghost use Rattle.flight_value.specs.Graph.{IsValidAtom};
ghost use Rattle.flight_payload.specs.Written.{HasToken};
ghost use Rattle.flight_payload.specs.Rows.{IsModule, IsRow, HasAtom, IsBelow, bound_place};
ghost use Rattle.flight_render.specs.Jobs.{Value};
ghost use Rattle.flight_state.specs.State.{next_what};
ghost use Rattle.flight_emit.specs.Log.{atom_row, value_row, task, stream_row, reference_row, stage, Took, Extends};

use crate::work::{Born, Due, Work, whole_row};
use flight_home::Home;
use flight_payload::{PayloadWriter, action_row, import_row, open_row};
use flight_render::What;
use flight_row::Row;
use flight_syntax::Flowing;
use flight_value::{Atom, Key, Memory, Name, Text};
use std::alloc::Global;

/// An equal key.
pub fn copy_key(key: &Key) -> Result<Key, Memory>
    ensures { IfOk result (λ k. k ≡ key.now) }
{
    Ok(match key {
        Key::Made(name) => Key::Made(copy_name(name)?),
        Key::Source { source, node } => Key::Source {
            source: *source,
            node: *node,
        },
        Key::Settled { source } => Key::Settled { source: *source },
        Key::Stream { stream } => Key::Stream { stream: *stream },
        Key::Action { action } => Key::Action { action: *action },
        Key::Client { client } => Key::Client { client: *client },
        Key::Symbol(name) => Key::Symbol(copy_text(name)?),
        Key::Server(name) => Key::Server(copy_name(name)?),
    })
}

/// An equal text.
pub fn copy_text(text: &Text) -> Result<Text, Memory>
    ensures { IfOk result (λ t. t ≡ text.now) }
{
    Ok(text.clone()?)
}

/// An equal name.
pub fn copy_name(name: &Name) -> Result<Name, Memory>
    ensures { IfOk result (λ n. n ≡ name.now) }
{
    Ok(Name {
        render: name.render.share()?,
        serial: name.serial,
    })
}

/// The id of a row that is still to be written, as the home of a node.
pub fn take_row(alloc: Global, home: &mut Home, work: &mut Work, key: Key) -> Result<u32, Memory>
    requires absent { IsNew key home.old }
    ensures extends { Extends home.old home.new }
    ensures id { IfOk result (λ id. (id ≡ work.old.next) × (id < 2 ^ 31)) }
    ensures took { OnOk result (Took (value_row key) (stage home.old work.old) (stage home.new work.new)) }
{
    let again = copy_key(&key)?;
    let id = work.take_id()?;
    work.due.push(Due::Value { id, key: again })?;
    home.put(key, whole_row(alloc, id))?;
    Ok(id)
}

/// The id of the row of a task that is born, as the home of a key.
pub fn take_task(
    alloc: Global,
    home: &mut Home,
    work: &mut Work,
    key: Key,
    what: What,
) -> Result<u32, Memory>
    requires absent { IsNew key home.old }
    ensures extends { Extends home.old home.new }
    ensures id { IfOk result (λ id. (id ≡ work.old.next) × (id < 2 ^ 31)) }
    ensures took { OnOk result (Took (task key what) (stage home.old work.old) (stage home.new work.new)) }
{
    let id = work.take_id()?;
    work.born.push(Born { id, what })?;
    home.put(key, whole_row(alloc, id))?;
    Ok(id)
}

/// The model row of an atom.
fn model_row(alloc: Global, id: u32, atom: &Atom) -> Result<Row, Memory>
    requires small { id < 2 ^ 31 }
    requires token { HasToken atom.now }
    requires valid { IsValidAtom atom.now }
    ensures row { IfOk result (IsRow id Model) }
    ensures atom { IfOk result (HasAtom atom.now) }
{
    let mut out = PayloadWriter::new(alloc);
    out.atom(atom)?;
    out.take_model_row(id)
}

/// The model row of a symbol.
fn symbol_row(alloc: Global, id: u32, name: &Text) -> Result<Row, Memory>
    requires { id < 2 ^ 31 }
    ensures row { IfOk result (IsRow id Model) }
    ensures symbol { IfOk result (HasAtom (atom.Symbol name.now)) }
{
    let symbol = Atom::Symbol(copy_text(name)?);
    model_row(alloc, id, &symbol)
}

/// The id of the row of a symbol, as its home.
pub fn take_symbol(
    alloc: Global,
    home: &mut Home,
    work: &mut Work,
    name: &Text,
) -> Result<u32, Memory>
    requires absent { IsNew (key.Symbol name.now) home.old }
    ensures extends { Extends home.old home.new }
    ensures id { IfOk result (λ id. (id ≡ work.old.next) × (id < 2 ^ 31)) }
    ensures took { OnOk result (Took (atom_row (Some (key.Symbol name.now)) Model (atom.Symbol name.now)) (stage home.old work.old) (stage home.new work.new)) }
{
    let again = copy_text(name)?;
    let id = work.take_id()?;
    work.rows.push(symbol_row(alloc, id, name)?)?;
    home.put(Key::Symbol(again), whole_row(alloc, id))?;
    Ok(id)
}

/// The id of the row of a client module, as the home of its component.
pub fn take_import(
    alloc: Global,
    home: &mut Home,
    work: &mut Work,
    client: u32,
    import: &Text,
) -> Result<u32, Memory>
    requires absent { IsNew (key.Client client) home.old }
    requires compact { IsModule import.now }
    ensures extends { Extends home.old home.new }
    ensures id { IfOk result (λ id. (id ≡ work.old.next) × (id < 2 ^ 31)) }
    ensures took { OnOk result (Took (atom_row (Some (key.Client client)) Import (atom.Import import.now)) (stage home.old work.old) (stage home.new work.new)) }
{
    let id = work.take_id()?;
    work.rows.push(import_row(alloc, id, import.as_str())?)?;
    home.put(Key::Client { client }, whole_row(alloc, id))?;
    Ok(id)
}

/// What the first task of a stream is for.
fn first_of(stream: u32, flowing: &Flowing) -> What
    ensures { result ≡ next_what stream flowing.now.items 0 }
{
    match flowing.items.as_slice().first() {
        Some(_) => What::Item { stream, index: 0 },
        None => What::Last { stream },
    }
}

/// The id of the row that opens a stream, as its home. The task of what comes first of it is born.
pub fn take_stream(
    alloc: Global,
    home: &mut Home,
    work: &mut Work,
    stream: u32,
    flowing: &Flowing,
) -> Result<u32, Memory>
    requires absent { IsNew (key.Stream stream) home.old }
    ensures extends { Extends home.old home.new }
    ensures id { IfOk result (λ id. (id ≡ work.old.next) × (id < 2 ^ 31)) }
    ensures took { OnOk result (Took (stream_row stream flowing.now) (stage home.old work.old) (stage home.new work.new)) }
{
    let id = work.take_id()?;
    work.rows.push(open_row(alloc, id, flowing.flow))?;
    work.born.push(Born {
        id,
        what: first_of(stream, flowing),
    })?;
    home.put(Key::Stream { stream }, whole_row(alloc, id))?;
    Ok(id)
}

/// The id of the row of a server reference, as its home: its name, and by its row the promise of what is bound to it.
pub fn take_reference(
    alloc: Global,
    home: &mut Home,
    work: &mut Work,
    key: Key,
    name: &Text,
    bound: Option<u32>,
) -> Result<u32, Memory>
    requires absent { IsNew key home.old }
    requires bound { IsBelow bound }
    ensures extends { Extends home.old home.new }
    ensures id { IfOk result (λ id. (id ≡ work.old.next) × (id < 2 ^ 31)) }
    ensures took { OnOk result ((v : Value) → Took (reference_row key name.now v (bound_place bound)) (stage home.old work.old) (stage home.new work.new)) }
{
    let id = work.take_id()?;
    work.rows
        .push(action_row(alloc, id, name.as_str(), bound)?)?;
    home.put(key, whole_row(alloc, id))?;
    Ok(id)
}
