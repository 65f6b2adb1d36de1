ghost use Rattle.std.specs.Prelude.{◌≡◌, ◌++◌, IfOk, OnOk};
ghost use Rattle.serde_json.specs.View.{view};
ghost use Rattle.flight_value.specs.Graph.{IsValid};
ghost use Rattle.flight_value.specs.declared.graph.Graph.{Graph};
ghost use Rattle.flight_row.specs.Written.{IsWritable, spelling_of};
ghost use Rattle.flight_top.specs.Model.{graph_of};
ghost use Rattle.flight_top.specs.OneRow.{IsOneRow};
ghost use Rattle.flight_top.specs.StaticRow.{IsRowJson, IsRootRow, row_of};

use crate::model::{Refused, model_graph};
use crate::one_row::row_payload;
use flight_base::{MemSink, write_all};
use flight_row::{Row, RowKind, write_row};
use flight_value::{Graph, List, Memory};
use serde_json::Value;
use std::alloc::Global;

/// The most bytes of a payload, so that its row is no longer than a reader takes.
const MOST_PAYLOAD: usize = 67_108_861;

/// The row of id 0 that a value is written in. One that is longer than a row may be is answered as want of
/// memory.
fn root_row(alloc: Global, value: &Value) -> Result<Row, Memory>
    requires { IsRowJson (view value.now) }
    ensures { IfOk result (IsRootRow (view value.now)) }
{
    let payload = value.to_string(alloc)?;
    if payload.as_bytes().len() > MOST_PAYLOAD {
        return Err(Memory::past_limit());
    }
    Ok(Row {
        id: 0,
        kind: RowKind::Model,
        payload: List::new(payload.into_bytes()),
    })
}

/// Writes a row to a sink over memory.
fn serve(alloc: Global, row: &Row, sink: &mut MemSink) -> Result<(), Memory>
    requires { IsWritable row.now }
    ensures { OnOk result (sink.new.held ≡ sink.old.held ++ spelling_of row.now) }
{
    let mut bytes = Vec::new(alloc);
    write_row(row, &mut bytes)?;
    match write_all(sink, &bytes) {
        Ok(()) => Ok(()),
        Err(_) => Err(Memory::past_limit()),
    }
}

/// The graph of an input that is one row.
fn decode(alloc: Global, input: &[u8]) -> Result<Graph, Memory>
    requires { (graph : Graph) × IsOneRow input.now graph }
    ensures graph { IfOk result (IsOneRow input.now) }
    ensures valid { IfOk result IsValid }
{
    let Some(payload) = row_payload(input) else {
        unreachable!();
    };
    match model_graph(alloc, payload) {
        Ok(graph) => Ok(graph),
        Err(Refused::NotPlain) => unreachable!(),
        Err(Refused::Memory) => Err(Memory::past_limit()),
    }
}

/// Writes a value as row 0, and gives the graph that a reader makes of the bytes: the row decodes to the graph
/// of the value.
pub fn served_graph(alloc: Global, value: &Value) -> Result<Graph, Memory>
    requires { IsRowJson (view value.now) }
    ensures decodes { IfOk result (IsOneRow (row_of (view value.now))) }
    ensures graph { IfOk result (λ graph. graph ≡ graph_of (view value.now)) }
    ensures valid { IfOk result IsValid }
{
    let row = root_row(alloc, value)?;
    let mut sink = MemSink::new(alloc, usize::MAX, Vec::new(alloc));
    serve(alloc, &row, &mut sink)?;
    decode(alloc, sink.held())
}
