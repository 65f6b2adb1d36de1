ghost use Rattle.std.specs.Prelude.{◌≡◌, ◌↔◌, ◌≤◌, IfOk, IfErr, IsTrue, length};
ghost use Rattle.serde_json.specs.View.{view};
ghost use Rattle.flight_base.specs.Outside.{Rose};
ghost use Rattle.flight_graph.specs.Text.{text_of};
ghost use Rattle.flight_top.specs.Model.{graph_of as row_graph_of};
ghost use Rattle.flight_top.specs.Static.{Static, IsStatic};
ghost use Rattle.flight_top.specs.Drawn.{graph_of};
ghost use Rattle.flight_top.specs.StaticRow.{IsRowJson};
ghost use Rattle.flight_top.specs.Due.{texts};
ghost use Rattle.flight_top.specs.Run.{IsRun, IsDueRun, IsDueRunOf, most_bundle};

use crate::due::{Due, Undue, line};
use crate::static_code::Unbuilt;
use crate::static_program::static_json;
use crate::static_row::served_graph;
use crate::told::Status;
use crate::words::is_word;
use flight_base::{ReadAll, Source, read_all};
use flight_graph::canon_text;
use flight_value::{Memory, Text};
use serde_json::Value;
use std::alloc::Global;

/// The most bytes of a bundle.
pub const MOST_BUNDLE: usize = 1_048_576;

/// Whether the words are those of the command.
pub fn is_run(words: &[String]) -> bool
    ensures { IsTrue result ↔ IsRun (texts words.now) }
{
    match words {
        [word] => is_word(word, "run"),
        _ => false,
    }
}

/// What `run` owes for the bytes that a source has left.
pub fn run<S: Source>(alloc: Global, source: &mut S) -> Result<Due, Undue>
    ensures due { IfOk result (λ due. IsDueRunOf (S.left source.old) due.status due.text) }
    ensures read { result ≡ Err Undue.Read → Rose (S.faults source.old) (S.faults source.new) }
{
    match read_all(alloc, source, MOST_BUNDLE) {
        Ok(input) => run_input(alloc, &input),
        Err(ReadAll::TooLong) => line(alloc, Status::Bundle, "bundle: too long\n"),
        Err(ReadAll::Read) => Err(Undue::Read),
        Err(ReadAll::Memory) => Err(Undue::Memory),
    }
}

/// The text of the graph of the tree that a bundle declares: the tree is written as a row, and the row is read.
fn static_text(alloc: Global, input: &[u8]) -> Result<Text, Unbuilt>
    ensures text { IfOk result (λ text. (tree : Static) × IsStatic input.now tree × (text ≡ text_of (graph_of tree))) }
    ensures refused { result ≡ Err Unbuilt.NotBuilt → (tree : Static) → ¬ (IsStatic input.now tree) }
{
    match static_json(alloc, input) {
        Ok(value) => match value_text(alloc, &value) {
            Ok(text) => Ok(text),
            Err(_) => Err(Unbuilt::Memory),
        },
        Err(Unbuilt::NotBuilt) => Err(Unbuilt::NotBuilt),
        Err(Unbuilt::Memory) => Err(Unbuilt::Memory),
    }
}

/// The text of the graph that a value's row means.
fn value_text(alloc: Global, value: &Value) -> Result<Text, Memory>
    requires { IsRowJson (view value.now) }
    ensures { IfOk result (λ text. text ≡ text_of (row_graph_of (view value.now))) }
{
    let graph = served_graph(alloc, value)?;
    canon_text(alloc, &graph)
}

/// What `run` owes for an input.
fn run_input(alloc: Global, input: &[u8]) -> Result<Due, Undue>
    requires { length input.now ≤ most_bundle }
    ensures due { IfOk result (λ due. IsDueRun input.now due.status due.text) }
    ensures err { IfErr result (λ e. e ≡ Undue.Memory) }
{
    match static_text(alloc, input) {
        Ok(text) => Ok(Due {
            status: Status::Done,
            text,
        }),
        Err(Unbuilt::NotBuilt) => line(alloc, Status::Bundle, "bundle: not built\n"),
        Err(Unbuilt::Memory) => Err(Undue::Memory),
    }
}
