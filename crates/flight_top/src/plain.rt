ghost use Rattle.std.specs.Prelude.{◌≡◌, IfOk, IfErr, Err};
ghost use Rattle.flight_base.specs.Outside.{Rose};
ghost use Rattle.flight_value.specs.Graph.{IsValid};
ghost use Rattle.flight_graph.specs.Text.{text_of};
ghost use Rattle.flight_render.specs.Valid.{IsValidGround};
ghost use Rattle.flight_bundle.specs.Bundle.{HasFault};
ghost use Rattle.flight_top.specs.Plain.{IsDueGround, IsDuePlain, IsDuePlainOf};

use crate::bundle_line::bundle_refusal;
use crate::due::{Due, Undue, line};
use crate::run::MOST_BUNDLE;
use crate::told::Status;
use crate::view::told;
use flight_base::{ReadAll, Source, read_all};
use flight_bundle::{BundleFault, read_bundle};
use flight_graph::canon_text;
use flight_render::Ground;
use flight_script::scripted;
use flight_seq::{Rendered, rendered};
use flight_value::{Graph, Memory};
use std::alloc::Global;

/// What `plain` owes for the bytes that a source has left: the graph of plain rendering with the scripted sources
/// settled, at most at this cost.
pub fn plain<S: Source>(alloc: Global, fuel: u32, source: &mut S) -> Result<Due, Undue>
    ensures due { IfOk result (λ due. IsDuePlainOf fuel (S.left source.old) due.status due.text) }
    ensures read { result ≡ Err Undue.Read → Rose (S.faults source.old) (S.faults source.new) }
{
    match read_all(alloc, source, MOST_BUNDLE) {
        Ok(input) => plain_input(alloc, fuel, &input),
        Err(ReadAll::TooLong) => line(alloc, Status::Bundle, "bundle: too long\n"),
        Err(ReadAll::Read) => Err(Undue::Read),
        Err(ReadAll::Memory) => Err(Undue::Memory),
    }
}

/// What `plain` owes for an input.
fn plain_input(alloc: Global, fuel: u32, input: &[u8]) -> Result<Due, Undue>
    ensures due { IfOk result (λ due. IsDuePlain fuel input.now due.status due.text) }
    ensures err { IfErr result (λ e. e ≡ Undue.Memory) }
{
    match read_bundle(alloc, input, false) {
        Ok(bundle) => plain_ground(alloc, fuel, &bundle.ground),
        Err(BundleFault::Memory) => Err(Undue::Memory),
        Err(fault) => told(Status::Bundle, bundle_refusal(alloc, &fault)),
    }
}

/// What `plain` owes for a ground.
fn plain_ground(alloc: Global, fuel: u32, ground: &Ground) -> Result<Due, Undue>
    requires { IsValidGround ground.now }
    ensures due { IfOk result (λ due. IsDueGround fuel ground.now due.status due.text) }
    ensures err { IfErr result (λ e. e ≡ Undue.Memory) }
{
    let seen = match scripted(alloc, &ground.script) {
        Ok(seen) => seen,
        Err(_) => return Err(Undue::Memory),
    };
    match rendered(alloc, ground, &seen, fuel) {
        Ok(Rendered::Within { graph, .. }) => graph_due(alloc, graph),
        Ok(Rendered::Over) => line(alloc, Status::Fuel, "fuel\n"),
        Err(_) => Err(Undue::Memory),
    }
}

/// The text of a graph is due.
fn graph_due(alloc: Global, graph: Graph) -> Result<Due, Undue>
    requires { IsValid graph }
    ensures ok { IfOk result (λ due. (due.status ≡ Status.Done) × (due.text ≡ text_of graph)) }
    ensures err { IfErr result (λ e. e ≡ Undue.Memory) }
{
    told(Status::Done, canon_text(alloc, &graph))
}
