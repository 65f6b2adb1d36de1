ghost use Rattle.std.specs.Prelude.{◌≡◌, ◌++◌, ◌∷◌, ◌+◌, ◌<◌, ◌≤◌, [], IfOk, MatchOption, MatchBool, None, length};
ghost use Rattle.flight_render.specs.Costs.{IsOver};
ghost use Rattle.flight_render.specs.Valid.{IsValidGround};
ghost use Rattle.flight_seq.specs.Held.{end_for};
ghost use Rattle.flight_seq.specs.Walk.{known_at, known_cost, IsEntry, IsWalk, IsAsked, IsFinished, Reaches, Ends};

use crate::held::End;
use crate::known::Known;
use crate::walk::Walk;
use flight_eval::{Attempt, Body, attempt};
use flight_render::{Ground, Job, What};
use flight_syntax::Seen;
use flight_value::{List, Made, Memory, Shared, Tables};
use std::alloc::Global;

/// What is known of the body of a task, rendered for the first time. None where it is over the fuel.
fn known_of(
    alloc: Global,
    ground: &Ground,
    seen: &Shared<Seen>,
    fuel: u32,
    address: &Shared<List<u32>>,
    what: What,
) -> Result<Option<Known>, Memory>
    requires valid { IsValidGround ground.now }
    requires seen { length seen.now.settled ≡ length ground.now.script.sources }
    requires asked { IsAsked ground.now seen.now.settled address.now what }
    ensures { IfOk result (λ o. MatchOption o (IsOver ground.now seen.now.settled fuel) (λ k. IsEntry ground.now seen.now.settled fuel (address.now, k))) }
{
    let job = Job {
        task: 0,
        turn: 0,
        address: address.share()?,
        what,
        seen: seen.share()?,
        room: 0,
    };
    tried(alloc, ground, &job, fuel)
}

/// What is known of the body of a job. None where it is over the fuel.
fn tried(alloc: Global, ground: &Ground, job: &Job, fuel: u32) -> Result<Option<Known>, Memory>
    requires valid { IsValidGround ground.now }
    requires seen { length job.now.seen.settled ≡ length ground.now.script.sources }
    requires asked { IsAsked ground.now job.now.seen.settled job.now.address job.now.what }
    ensures { IfOk result (λ o. MatchOption o (IsOver ground.now job.now.seen.settled fuel) (λ k. IsEntry ground.now job.now.seen.settled fuel (job.now.address, k))) }
{
    match attempt(alloc, ground, job, fuel)? {
        Attempt::Finished { bodies } => match bodies.into_vec().pop() {
            Some(body) => Ok(Some(finished(alloc, body)?)),
            None => Err(Memory::past_limit()),
        },
        Attempt::Waits { source } => Ok(Some(Known::Waits { source })),
        Attempt::OverFuel => Ok(None),
    }
}

/// A body that finished.
fn finished(alloc: Global, body: Body) -> Result<Known, Memory>
    ensures { IfOk result (IsFinished body) }
{
    let inside = inside_of(alloc, &body.tables, &body.made)?;
    Ok(Known::Finished {
        made: body.made,
        inside,
        gave: body.gave,
        cost: body.cost,
    })
}

/// The tables of the server elements that a body made: those of its address, and its own nodes.
fn inside_of(
    alloc: Global,
    tables: &Shared<Tables>,
    own: &Shared<List<Made>>,
) -> Result<Shared<Tables>, Memory>
    ensures { IfOk result (λ t. t.made ≡ tables.now.made ++ own.now ∷ []) }
{
    let mut made = Vec::new(alloc);
    for table in tables.get().made.as_slice() {
        made.push(table.share()?)?;
    }
    made.push(own.share()?)?;
    Shared::new(
        alloc,
        Tables {
            made: List::new(made),
        },
    )
}

/// What bodies cost with one more. None where that is over the fuel.
fn spend(spent: u32, known: &Known, fuel: u32) -> Option<u32>
    requires { spent ≤ fuel }
    ensures { MatchOption result (fuel < spent + known_cost known.now) (λ sum. (sum ≡ spent + known_cost known.now) × (sum ≤ fuel)) }
{
    match known {
        Known::Finished { cost, .. } if *cost > fuel - spent => None,
        Known::Finished { cost, .. } => Some(spent + *cost),
        Known::Waits { .. } => Some(spent),
    }
}

impl Walk {
    /// Renders the body at a new address. False where the rendering is over the fuel then.
    fn render(
        &mut self,
        alloc: Global,
        ground: &Ground,
        seen: &Shared<Seen>,
        fuel: u32,
        address: &Shared<List<u32>>,
        what: What,
    ) -> Result<bool, Memory>
        requires valid { IsValidGround ground.now }
        requires seen { length seen.now.settled ≡ length ground.now.script.sources }
        requires walk { IsWalk ground.now seen.now.settled fuel self.old }
        requires asked { IsAsked ground.now seen.now.settled address.now what }
        requires new { known_at self.old.bodies.entries address.now ≡ None }
        ensures { IfOk result (λ b. MatchBool b (Reaches ground.now seen.now.settled fuel address.now self.old self.new) (IsOver ground.now seen.now.settled fuel)) }
    {
        let Some(known) = known_of(alloc, ground, seen, fuel, address, what)? else {
            return Ok(false);
        };
        let Some(spent) = spend(self.spent, &known, fuel) else {
            return Ok(false);
        };
        self.add(address.share()?, known)?;
        self.spent = spent;
        Ok(true)
    }

    /// Renders the body at an address, unless it is known. False where the rendering is over the fuel then.
    fn reach(
        &mut self,
        alloc: Global,
        ground: &Ground,
        seen: &Shared<Seen>,
        fuel: u32,
        address: &Shared<List<u32>>,
        what: What,
    ) -> Result<bool, Memory>
        requires valid { IsValidGround ground.now }
        requires seen { length seen.now.settled ≡ length ground.now.script.sources }
        requires walk { IsWalk ground.now seen.now.settled fuel self.old }
        requires asked { IsAsked ground.now seen.now.settled address.now what }
        ensures { IfOk result (λ b. MatchBool b (Reaches ground.now seen.now.settled fuel address.now self.old self.new) (IsOver ground.now seen.now.settled fuel)) }
    {
        match self.known(address) {
            Some(_) => Ok(true),
            None => self.render(alloc, ground, seen, fuel, address, what),
        }
    }

    /// How the body of a task ends. None where the rendering is over the fuel.
    pub fn end_of(
        &mut self,
        alloc: Global,
        ground: &Ground,
        seen: &Shared<Seen>,
        fuel: u32,
        address: &Shared<List<u32>>,
        what: What,
    ) -> Result<Option<End>, Memory>
        requires valid { IsValidGround ground.now }
        requires seen { length seen.now.settled ≡ length ground.now.script.sources }
        requires walk { IsWalk ground.now seen.now.settled fuel self.old }
        requires asked { IsAsked ground.now seen.now.settled address.now what }
        ensures { IfOk result (λ o. MatchOption o (IsOver ground.now seen.now.settled fuel) (λ e. Ends ground.now seen.now.settled fuel what (end_for e) self.old self.new)) }
    {
        if !self.reach(alloc, ground, seen, fuel, address, what)? {
            return Ok(None);
        }
        match self.known(address) {
            Some(known) => Ok(Some(known.end()?)),
            None => Err(Memory::past_limit()),
        }
    }
}
