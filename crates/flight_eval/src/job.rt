ghost use Rattle.std.specs.Prelude.{◌≡◌, ◌≤◌, ◌∷◌, [], IfOk, slice_get};
ghost use Rattle.flight_render.specs.Run.{ends};
ghost use Rattle.flight_render.specs.Valid.{IsValidGround, Belongs};
ghost use Rattle.flight_render.specs.Jobs.{argument_in};
ghost use Rattle.flight_render.specs.Body.{fresh};
ghost use Rattle.flight_render.specs.Attempt.{item_job, end_job, alone_end, run_for};
ghost use Rattle.flight_eval.specs.Address.{IsAddressOf};
ghost use Rattle.flight_eval.specs.Gives.{work_of, Gives};
ghost use Rattle.flight_eval.specs.Names.{HasAscendingNames};
ghost use Rattle.flight_eval.specs.Attempted.{IsAttempt, tables_of};
ghost use Rattle.flight_eval.specs.declared.body.Attempt.TheVariants.{Finished as finished_attempt};

use crate::body::{Attempt, Body, Gave};
use crate::place::Place;
use crate::start::{element_body, root_body};
use crate::stop::Stop;
use crate::values::{slot_tree, source_end};
use crate::work::Work;
use flight_render::{Ground, Job, Root, What};
use flight_value::{Atom, List, Memory, Shared, Slot, Tables, Tree};
use std::alloc::Global;

/// The value of a slot of the arguments.
fn argument(ground: &Ground, slot: &Slot) -> Result<Tree, Memory>
    ensures { IfOk result (λ t. t ≡ argument_in ground.now slot.now) }
{
    match ground.root {
        Root::App => Ok(Tree::Atom(Atom::Undefined)),
        Root::Call { .. } => match u32::try_from(ground.script.sources.as_slice().len()) {
            Ok(source) => slot_tree(source, slot),
            Err(_) => Err(Memory::past_limit()),
        },
    }
}

/// What an item of a stream comes to.
fn item_end(place: &Place, stream: u32, index: u32, work: &Work) -> Result<Tree, Stop>
    requires within { work.now.cost ≤ place.now.fuel }
    ensures { Gives (λ t. t) place.now.fuel (ends (alone_end place.now.over.now place.now.seen.now.settled (item_job (slice_get place.now.over.now.script.streams stream) index)) (work_of work.now)) result (work_of work.now) }
{
    let Some(flowing) = place.over.script.streams.as_slice().get(stream as usize) else {
        return Ok(Tree::Atom(Atom::Undefined));
    };
    match flowing.items.as_slice().get(index as usize) {
        Some(source) => source_end(place, *source, work),
        None => Ok(Tree::Atom(Atom::Undefined)),
    }
}

/// What the final value of a stream comes to.
fn last_end(place: &Place, stream: u32, work: &Work) -> Result<Tree, Stop>
    requires within { work.now.cost ≤ place.now.fuel }
    ensures { Gives (λ t. t) place.now.fuel (ends (alone_end place.now.over.now place.now.seen.now.settled (end_job (slice_get place.now.over.now.script.streams stream))) (work_of work.now)) result (work_of work.now) }
{
    let Some(flowing) = place.over.script.streams.as_slice().get(stream as usize) else {
        return Ok(Tree::Atom(Atom::Undefined));
    };
    match flowing.last {
        Some(source) => source_end(place, source, work),
        None => Ok(Tree::Atom(Atom::Undefined)),
    }
}

/// Does the own body of a job.
fn run(place: &Place, what: &What, work: &mut Work) -> Result<Tree, Stop>
    requires address { IsAddressOf what.now place.now.address.now }
    requires tables { place.now.tables.now.made ≡ tables_of what.now }
    requires fresh { work_of work.old ≡ fresh }
    ensures { Gives (λ t. t) place.now.fuel (run_for place.now.over.now place.now.seen.now.settled what.now) result (work_of work.new) }
{
    match what {
        What::Root => root_body(place, work),
        What::Element { element, .. } => element_body(place, element, work),
        What::Promise { source } => source_end(place, *source, work),
        What::Known { slot } => Ok(argument(place.over, slot)?),
        What::Item { stream, index } => item_end(place, *stream, *index, work),
        What::Last { stream } => last_end(place, *stream, work),
    }
}

/// The tables of a job's address.
fn tables_of(alloc: Global, what: &What) -> Result<Shared<Tables>, Memory>
    ensures { IfOk result (λ tables. tables.made ≡ tables_of what.now) }
{
    match what {
        What::Element { tables, .. } => tables.share(),
        _ => Shared::new(
            alloc,
            Tables {
                made: List::new(Vec::new(alloc)),
            },
        ),
    }
}

/// An attempt of which one body finished.
fn finished(
    alloc: Global,
    job: &Job,
    tables: Shared<Tables>,
    gave: Gave,
    work: Work,
) -> Result<Attempt, Memory>
    ensures { IfOk result (λ attempt. attempt ≡ finished_attempt (record { address = job.now.address; tables = tables; made = work.made.items; gave = gave; cost = work.cost } ∷ [])) }
{
    let Work { made, cost } = work;
    let body = Body {
        address: job.address.share()?,
        tables,
        made: Shared::new(alloc, List::new(made))?,
        gave,
        cost,
    };
    let bodies = List::new(vec![in alloc; body]?);
    Ok(Attempt::Finished { bodies })
}

/// An attempt at a job at its address.
pub fn attempted(alloc: Global, ground: &Ground, job: &Job, fuel: u32) -> Result<Attempt, Memory>
    requires names { HasAscendingNames ground.now.script }
    requires address { IsAddressOf job.now.what job.now.address }
    ensures { IfOk result (IsAttempt ground.now job.now fuel) }
{
    let tables = tables_of(alloc, &job.what)?;
    let place = Place {
        alloc,
        over: ground,
        seen: job.seen.get(),
        address: &job.address,
        tables: tables.get(),
        fuel,
    };
    let mut work = Work {
        made: Vec::new(alloc),
        cost: 0,
    };
    match run(&place, &job.what, &mut work) {
        Ok(value) => finished(alloc, job, tables, Gave::Tree(value), work),
        Err(Stop::Threw(digest)) => finished(alloc, job, tables, Gave::Threw(digest), work),
        Err(Stop::Waits { source }) => Ok(Attempt::Waits { source }),
        Err(Stop::OverFuel) => Ok(Attempt::OverFuel),
        Err(Stop::Memory) => Err(Memory::past_limit()),
    }
}

/// One attempt at a job, with the sources settled that the job has seen (React 19.0, `retryTask` of
/// ReactFlightServer). A job that is no component's body makes no nodes and costs nothing.
#[tactic(auto, using(crate::proofs::Starts::address_of))]
pub fn attempt(alloc: Global, ground: &Ground, job: &Job, fuel: u32) -> Result<Attempt, Memory>
    requires valid { IsValidGround ground.now }
    requires belongs { Belongs ground.now job.now }
    ensures { IfOk result (IsAttempt ground.now job.now fuel) }
{
    attempted(alloc, ground, job, fuel)
}
