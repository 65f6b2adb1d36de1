ghost use Rattle.std.specs.Prelude.{◌≡◌, ◌≤◌, ◌<◌, ◌+◌, OnOk, IfErr, MatchOption, map};
ghost use Rattle.flight_render.specs.Run.{pay, slots_cost, names_cost, kind_cost, weight};
ghost use Rattle.flight_render.specs.Eval.{make_here};
ghost use Rattle.flight_eval.specs.declared.stop.Stop.TheVariants.{OverFuel};
ghost use Rattle.flight_eval.specs.Gives.{work_of, context_of, Gives};

use crate::place::Place;
use crate::stop::Stop;
use flight_value::{Atom, List, Made, MadeKind, Name, Text, Tree};

/// The nodes that a body made so far, in the order of making, and its cost so far.
#[derive(Drop)]
pub struct Work {
    pub made: Vec<Made>,
    pub cost: u32,
}

/// Charges an amount.
pub fn pay(work: &mut Work, amount: u64, fuel: u32) -> Result<(), Stop>
    requires within { work.old.cost ≤ fuel }
    ensures ok { OnOk result ((work_of work.new ≡ pay amount (work_of work.old)) × (work.new.cost ≤ fuel)) }
    ensures err { IfErr result (λ e. (e ≡ OverFuel) × (fuel < work.old.cost + amount)) }
{
    if amount > u64::from(fuel - work.cost) {
        return Err(Stop::OverFuel);
    }
    work.cost += amount as u32;
    Ok(())
}

/// The bytes of the text that a slot holds.
pub fn weight(slot: &Tree) -> u64
    ensures { result ≡ weight slot.now }
{
    match slot {
        Tree::Atom(Atom::Text(text)) => text.as_str().len() as u64,
        _ => 0,
    }
}

/// What slots cost, where that is within the limit.
fn slots_cost(slots: &[Tree], fuel: u32) -> Option<u64>
    ensures { MatchOption result (fuel < slots_cost slots.now) (λ n. (n ≡ slots_cost slots.now) × (n ≤ fuel)) }
{
    let limit = u64::from(fuel);
    let mut sum = 0;
    for slot in slots {
        let weight = weight(slot);
        if weight >= limit - sum {
            return None;
        }
        sum += 1 + weight;
    }
    Some(sum)
}

/// What names cost, where that is within the limit.
fn names_cost(names: &[Text], fuel: u32) -> Option<u64>
    ensures { MatchOption result (fuel < names_cost names.now) (λ n. (n ≡ names_cost names.now) × (n ≤ fuel)) }
{
    let limit = u64::from(fuel);
    let mut sum = 0;
    for name in names {
        let weight = name.as_str().len() as u64;
        if weight > limit - sum {
            return None;
        }
        sum += weight;
    }
    Some(sum)
}

/// What a kind of node costs, where that is no more than the limit or 1.
fn kind_cost(kind: &MadeKind, fuel: u32) -> Option<u64>
    ensures { MatchOption result (fuel < kind_cost kind.now) (λ n. (n ≡ kind_cost kind.now) × (n ≤ fuel + 1)) }
{
    match kind {
        MadeKind::Object(names) => names_cost(names.as_slice(), fuel),
        MadeKind::Server { .. } => Some(1),
        _ => Some(0),
    }
}

/// Makes a node at the address: its serial is the number of those made before.
pub fn make(place: &Place, kind: MadeKind, slots: Vec<Tree>, work: &mut Work) -> Result<Tree, Stop>
    requires within { work.old.cost ≤ place.now.fuel }
    ensures { Gives (λ t. t) place.now.fuel (make_here (context_of place.now) kind slots.items (work_of work.old)) result (work_of work.new) }
{
    let Some(for_slots) = slots_cost(slots.as_slice(), place.fuel) else {
        return Err(Stop::OverFuel);
    };
    let Some(for_kind) = kind_cost(&kind, place.fuel) else {
        return Err(Stop::OverFuel);
    };
    pay(work, for_slots + for_kind, place.fuel)?;
    let Ok(serial) = u32::try_from(work.made.len()) else {
        return Err(Stop::Memory);
    };
    let render = place.address.share()?;
    let slots = List::new(slots);
    work.made.push(Made { kind, slots })?;
    Ok(Tree::Made(Name { render, serial }))
}
