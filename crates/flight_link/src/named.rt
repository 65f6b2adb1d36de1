ghost use Rattle.std.specs.Prelude.{IfOk};
ghost use Rattle.flight_link.specs.declared.node.Start.{Start};
ghost use Rattle.flight_link.specs.declared.node.Start.TheVariants as start;
ghost use Rattle.flight_link.specs.Nodes.{IsTable, AreStates, AreQuiet, IsNodeAt};
ghost use Rattle.flight_link.specs.Backlogs.{IsAtRest};
ghost use Rattle.flight_link.specs.declared.backlog.Backlog.{Backlog};
ghost use Rattle.flight_link.specs.Growth.{Keeps};

use crate::cell::Cell;
use crate::ids::Known;
use crate::node::{Start, State};
use crate::room::put_last;
use crate::step::walk_of;
use crate::table::Table;
use crate::unproved::unproved;
use flight_meaning::Place;
use flight_value::Memory;

impl Table {
    /// The node of an id, a new one if it has none.
    pub fn named(&mut self, states: &mut Vec<State>, id: u32) -> Result<u32, Memory>
        requires table { IsTable self.old }
        requires states { AreStates self.old states.old.items }
        ensures table { IsTable self.new }
        ensures states { AreStates self.new states.new.items }
        ensures quiet { AreQuiet states.old.items → AreQuiet states.new.items }
        ensures rest { (backlog : Backlog) → IsAtRest states.old.items backlog → IsAtRest states.new.items backlog }
        ensures keeps { Keeps self.old self.new }
        ensures node { IfOk result (λ n. IsNodeAt self.new.starts.items n (start.Id id)) }
    {
        if let Some(known) = self.known.get(id) {
            return Ok(known.node);
        }
        let Ok(node) = u32::try_from(self.starts.len()) else {
            return Err(unproved());
        };
        self.starts.reserve(1)?;
        states.reserve(1)?;
        let known = Known {
            node,
            row: Cell::none(),
        };
        self.known.insert(id, known)?;
        put_last(&mut self.starts, Start::Id(id));
        put_last(states, State::Absent);
        Ok(node)
    }

    /// Gives a node to each id that a lazy or a value reference among the places names.
    pub fn name_all(&mut self, states: &mut Vec<State>, places: &[Place]) -> Result<(), Memory>
        requires table { IsTable self.old }
        requires states { AreStates self.old states.old.items }
        ensures table { IsTable self.new }
        ensures states { AreStates self.new states.new.items }
        ensures quiet { AreQuiet states.old.items → AreQuiet states.new.items }
        ensures rest { (backlog : Backlog) → IsAtRest states.old.items backlog → IsAtRest states.new.items backlog }
        ensures keeps { Keeps self.old self.new }
    {
        for place in places {
            self.name(states, place)?;
        }
        Ok(())
    }

    fn name(&mut self, states: &mut Vec<State>, place: &Place) -> Result<(), Memory>
        requires table { IsTable self.old }
        requires states { AreStates self.old states.old.items }
        ensures table { IsTable self.new }
        ensures states { AreStates self.new states.new.items }
        ensures quiet { AreQuiet states.old.items → AreQuiet states.new.items }
        ensures rest { (backlog : Backlog) → IsAtRest states.old.items backlog → IsAtRest states.new.items backlog }
        ensures keeps { Keeps self.old self.new }
    {
        match walk_of(place) {
            Some((id, _)) => {
                self.named(states, id)?;
                Ok(())
            }
            None => Ok(()),
        }
    }
}
