ghost use Rattle.std.specs.Prelude.{◌≡◌, ◌++◌, ◌∷◌, [], List, length, is_some, IfOk, OnOk};
ghost use Rattle.std.specs.List.{list_any};
ghost use Rattle.flight_meaning.specs.declared.place.Place.{Place};
ghost use Rattle.flight_link.specs.declared.backlog.Backlog.{Backlog};
ghost use Rattle.flight_link.specs.Backlogs.{IsAtRest};
ghost use Rattle.flight_link.specs.Nodes.{IsTable, AreStates, AreQuiet, followed};
ghost use Rattle.flight_link.specs.Growth.{AreFresh, Keeps};

use crate::backlog::reach;
use crate::cell::Cell;
use crate::found::Spot;
use crate::node::{Start, State};
use crate::step::walk_of;
use crate::table::Table;
use crate::unproved::unproved;
use flight_meaning::Place;
use flight_value::Memory;
use std::alloc::Global;

/// The nodes of a row that is still to come.
#[derive(Drop)]
pub struct Fresh {
    /// For each place its node, if it is followed. It ends behind the last that is, so most rows have none at all.
    pub index: Vec<Cell>,
    pub starts: Vec<Start>,
    pub states: Vec<State>,
}

impl Fresh {
    /// No nodes.
    fn none(alloc: Global) -> Fresh
        ensures { (result.index.items ≡ []) × (result.starts.items ≡ []) × (result.states.items ≡ []) }
    {
        Fresh {
            index: Vec::new(alloc),
            starts: Vec::new(alloc),
            states: Vec::new(alloc),
        }
    }
}

impl Table {
    /// The nodes of the places of the row that comes next, and those of the ids that they name. Most rows need none.
    pub fn prepare(
        &mut self,
        states: &mut Vec<State>,
        alloc: Global,
        places: &[Place],
    ) -> Result<Fresh, Memory>
        requires table { IsTable self.old }
        requires states { AreStates self.old states.old.items }
        ensures table { IsTable self.new }
        ensures states { AreStates self.new states.new.items }
        ensures quiet { AreQuiet states.old.items → AreQuiet states.new.items }
        ensures rest { (backlog : Backlog) → IsAtRest states.old.items backlog → IsAtRest states.new.items backlog }
        ensures keeps { Keeps self.old self.new }
        ensures fresh { IfOk result (AreFresh self.new.starts.items (length self.new.rows.items) places.now) }
    {
        if !have_followed(places) {
            return Ok(Fresh::none(alloc));
        }
        self.name_all(states, places)?;
        let Ok(row) = u32::try_from(self.rows.len()) else {
            return Err(unproved());
        };
        self.fresh(alloc, row, places)
    }

    /// The nodes of a row's places, behind those that are there. The ids that they name have nodes.
    fn fresh(&self, alloc: Global, row: u32, places: &[Place]) -> Result<Fresh, Memory>
        requires { IsTable self.now }
        ensures { IfOk result (AreFresh self.now.starts.items row places.now) }
    {
        let mut fresh = Fresh::none(alloc);
        for (number, place) in places.iter().enumerate() {
            let Ok(number) = u32::try_from(number) else {
                return Err(unproved());
            };
            self.add_fresh(&mut fresh, Spot { row, place: number }, place)?;
        }
        Ok(fresh)
    }

    fn add_fresh(&self, fresh: &mut Fresh, spot: Spot, place: &Place) -> Result<(), Memory>
        requires { IsTable self.now }
        ensures { (places : List Place) → AreFresh self.now.starts.items spot.row places fresh.old → spot.place ≡ length places → OnOk result (AreFresh self.now.starts.items spot.row (places ++ place.now ∷ []) fresh.new) }
    {
        let Some((id, names)) = walk_of(place) else {
            return Ok(());
        };
        // Each id that is named has a node by now.
        let Some(known) = self.known.get(id) else {
            return Err(unproved());
        };
        let Ok(number) = u32::try_from(self.starts.len().saturating_add(fresh.starts.len())) else {
            return Err(unproved());
        };
        reach(&mut fresh.index, spot.place as usize)?;
        fresh.index.push(Cell::try_of(number)?)?;
        fresh.starts.push(Start::Place(spot))?;
        fresh.states.push(State::Behind {
            node: known.node,
            left: names.len(),
        })?;
        Ok(())
    }
}

/// Whether a lazy or a value reference is among the places.
fn have_followed(places: &[Place]) -> bool
    ensures { result ≡ list_any (λ at. is_some (followed at)) places.now }
{
    places.iter().any(is_followed)
}

fn is_followed(place: &Place) -> bool
    ensures { result ≡ is_some (followed place.now) }
{
    matches!(place, Place::Lazy(_) | Place::Value(_))
}
