ghost use Rattle.std.specs.Prelude.{◌≡◌, ◌<◌, ◌≤◌, ◌^◌, ◌++◌, ◌∷◌, [], length, IfOk, OnOk};
ghost use Rattle.flight_row.specs.Rows.{longest};
ghost use Rattle.flight_value.specs.declared.graph.Atom.TheVariants as atom;
ghost use Rattle.flight_payload.specs.Written.{token_of};
ghost use Rattle.flight_payload.specs.Rows.{IsRow, HasNoPlaces, HasAtom, HasTree, IsModule, IsBelow, bound_place, action_tree};

use crate::json_text::LONGEST;
use crate::writer::PayloadWriter;
use flight_row::{Row, RowKind};
use flight_value::{Atom, Flow, List, Memory};
use std::alloc::Global;

/// The row of a text. One that is too long for a row is answered as want of memory.
pub fn text_row(alloc: Global, id: u32, text: &str) -> Result<Row, Memory>
    requires { id < 2 ^ 31 }
    ensures row { IfOk result (IsRow id RowKind.Text) }
    ensures text { IfOk result (HasAtom (atom.Text text.now)) }
{
    as_it_is(alloc, id, RowKind::Text, text)
}

/// The row of a client module, by what a bundler says of it.
pub fn import_row(alloc: Global, id: u32, import: &str) -> Result<Row, Memory>
    requires small { id < 2 ^ 31 }
    requires compact { IsModule import.now }
    ensures row { IfOk result (IsRow id RowKind.Import) }
    ensures import { IfOk result (HasAtom (atom.Import import.now)) }
{
    as_it_is(alloc, id, RowKind::Import, import)
}

/// The row of a failure, by its digest.
pub fn error_row(alloc: Global, id: u32, digest: &str) -> Result<Row, Memory>
    requires { id < 2 ^ 31 }
    ensures row { IfOk result (IsRow id RowKind.Error) }
    ensures failed { IfOk result (HasAtom (atom.Failed digest.now)) }
{
    let mut out = PayloadWriter::new(alloc);
    out.begin_object()?;
    out.name("digest")?;
    out.string(digest)?;
    out.end_object()?;
    out.take_row(id, RowKind::Error)
}

/// The row of a server reference: its name, and by the id of its row the promise of the arguments that are bound to it
/// (React 19.0, `serializeServerReference` of ReactFlightServer).
pub fn action_row(alloc: Global, id: u32, name: &str, bound: Option<u32>) -> Result<Row, Memory>
    requires small { id < 2 ^ 31 }
    requires bound { IsBelow bound }
    ensures row { IfOk result (IsRow id RowKind.Model) }
    ensures tree { IfOk result (HasTree (action_tree name.now bound)) }
{
    let mut out = PayloadWriter::new(alloc);
    out.begin_object()?;
    out.name("bound")?;
    write_bound(&mut out, bound)?;
    out.name("id")?;
    out.text(name)?;
    out.end_object()?;
    out.take_model_row(id)
}

/// Writes the promise of bound arguments, or null where there are none.
fn write_bound(out: &mut PayloadWriter, bound: Option<u32>) -> Result<(), Memory>
    ensures { OnOk result (out.new ≡ out.old ++ token_of (bound_place bound) ∷ []) }
{
    match bound {
        Some(row) => out.promise(row),
        None => out.atom(&Atom::Null),
    }
}

/// The row that opens a stream.
pub fn open_row(alloc: Global, id: u32, flow: Flow) -> Row
    requires { id < 2 ^ 31 }
    ensures row { IsRow id (RowKind.Open flow) result }
    ensures empty { HasNoPlaces result }
{
    empty(alloc, id, RowKind::Open(flow))
}

/// The row that closes a stream with no final value.
pub fn close_row(alloc: Global, id: u32) -> Row
    requires { id < 2 ^ 31 }
    ensures row { IsRow id RowKind.Close result }
    ensures undefined { HasAtom atom.Undefined result }
{
    empty(alloc, id, RowKind::Close)
}

/// A row with nothing in it.
fn empty(alloc: Global, id: u32, kind: RowKind) -> Row
    ensures { result ≡ record { id = id; kind = kind; payload = [] } }
{
    Row {
        id,
        kind,
        payload: List::new(Vec::new(alloc)),
    }
}

/// A row with a text as its payload.
fn as_it_is(alloc: Global, id: u32, kind: RowKind, text: &str) -> Result<Row, Memory>
    ensures row { IfOk result (λ row. row ≡ record { id = id; kind = kind; payload = text.now }) }
    ensures within { IfOk result (λ row. length text.now ≤ longest) }
{
    if text.len() > LONGEST {
        return Err(Memory::past_limit());
    }
    Ok(Row {
        id,
        kind,
        payload: List::new(Vec::from_slice(alloc, text.as_bytes())?),
    })
}
