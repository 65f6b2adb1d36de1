ghost use Rattle.std.specs.Prelude.{◌≡◌, ◌++◌, ◌∷◌, [], IfOk, length, map};
ghost use Rattle.flight_render.specs.Plain.{flow_shape, flow_last, last_job};
ghost use Rattle.flight_render.specs.Jobs.{comes};
ghost use Rattle.flight_seq.specs.Held.{shape_for, value_held};
ghost use Rattle.flight_seq.specs.Sources.{behind, stream_shape, StopsAt};
ghost use Rattle.flight_seq.specs.declared.held.Shape.{Shape};
ghost use Rattle.flight_seq.specs.declared.held.Label.TheVariants as label;
ghost use Rattle.flight_seq.specs.declared.held.FlowState.TheVariants as state;

use crate::held::{FlowState, Held, Label, Shape};
use crate::source::{Arrived, come};
use flight_render::Ground;
use flight_syntax::{Flowing, Seen};
use flight_value::{Flow, List, Memory};
use std::alloc::Global;

/// A stream, as far as it comes with these sources settled: the items up to the first that is not settled or
/// is rejected.
pub fn flow_of(
    alloc: Global,
    ground: &Ground,
    seen: &Seen,
    flowing: &Flowing,
) -> Result<Shape, Memory>
    requires { length seen.now.settled ≡ length ground.now.script.sources }
    ensures { IfOk result (λ s. shape_for s ≡ flow_shape ground.now seen.now.settled flowing.now) }
{
    let mut held = Vec::new(alloc);
    for source in flowing.items.as_slice() {
        match stop_at(ground, seen, *source)? {
            Some(state) => return Ok(stream_of(flowing.flow, state, held)),
            None => held.push(Held::Outcome { source: *source })?,
        }
    }
    last_of(ground, seen, flowing, held)
}

/// How a stream stops at a source. None where it goes on.
fn stop_at(ground: &Ground, seen: &Seen, source: u32) -> Result<Option<FlowState>, Memory>
    requires { length seen.now.settled ≡ length ground.now.script.sources }
    ensures { IfOk result (StopsAt ground.now seen.now.settled source) }
{
    match come(ground, seen, source) {
        Arrived::Value(_) => Ok(None),
        Arrived::Rejected(digest) => Ok(Some(FlowState::Broken(digest.clone()?))),
        Arrived::Waits => Ok(Some(FlowState::Flowing)),
    }
}

/// A stream whose items have all come.
fn last_of(
    ground: &Ground,
    seen: &Seen,
    flowing: &Flowing,
    held: Vec<Held>,
) -> Result<Shape, Memory>
    requires { length seen.now.settled ≡ length ground.now.script.sources }
    ensures { IfOk result (λ s. shape_for s ≡ stream_shape flowing.now.flow (behind (map value_held held.items) (flow_last (last_job flowing.now.last) (comes ground.now seen.now.settled (last_job flowing.now.last))))) }
{
    let Some(source) = flowing.last else {
        return closed(flowing.flow, held, Held::Blank);
    };
    match stop_at(ground, seen, source)? {
        Some(state) => Ok(stream_of(flowing.flow, state, held)),
        None => closed(flowing.flow, held, Held::Outcome { source }),
    }
}

fn stream_of(flow: Flow, state: FlowState, held: Vec<Held>) -> Shape
    ensures { result ≡ record { label = label.Stream flow state; held = held.items } }
{
    Shape {
        label: Label::Stream { flow, state },
        held: List::new(held),
    }
}

/// A closed stream, with its final value behind its items.
fn closed(flow: Flow, held: Vec<Held>, last: Held) -> Result<Shape, Memory>
    ensures { IfOk result (λ s. s ≡ record { label = label.Stream flow state.Closed; held = held.items ++ last ∷ [] }) }
{
    let mut held = held;
    held.push(last)?;
    Ok(stream_of(flow, FlowState::Closed, held))
}
