ghost use Rattle.std.specs.Prelude.{IfOk, ◌+◌, ◌≡◌, ◌++◌, ◌∷◌, [], ◌<◌, false, length, slice_set, OnOk, OnErr};
ghost use Rattle.flight_meaning.specs.Linked.{rows_of};
ghost use Rattle.flight_link.specs.Adding.{is_of_stream};
ghost use Rattle.flight_link.specs.Nodes.{IsTable, AreStates, AreQuiet, IsFine};
ghost use Rattle.flight_link.specs.Backlogs.{AreBegun, IsAtRest, IsSettled};
ghost use Rattle.flight_link.specs.declared.backlog.Backlog.{Backlog};
ghost use Rattle.flight_link.specs.Growth.{MayCome, number_in, root_of};

use crate::backlog::Backlog;
use crate::cell::Cell;
use crate::found::Spot;
use crate::fresh::Fresh;
use crate::ids::Known;
use crate::node::State;
use crate::room::{append_last, put_last};
use crate::table::{Table, node_at};
use crate::unproved::unproved;
use flight_meaning::PlacedRow;
use flight_value::{List, Memory};
use std::alloc::Global;
use std::ops::Range;

impl Table {
    /// Adds a row that may follow the others. Walks go on as far as it lets them.
    pub fn add(
        &mut self,
        states: &mut Vec<State>,
        backlog: &mut Backlog,
        alloc: Global,
        row: PlacedRow,
    ) -> Result<(), Memory>
        requires table { IsTable self.old }
        requires states { AreStates self.old states.old.items }
        requires quiet { AreQuiet states.old.items }
        requires rest { IsAtRest states.old.items backlog.old }
        requires none { rows_of row.id self.old.rows.items ≡ [] }
        requires kind { is_of_stream row.tree.kind ≡ false }
        requires fine { IsFine row }
        ensures ok { OnOk result (self.new.rows.items ≡ self.old.rows.items ++ row ∷ []) }
        ensures err { OnErr result (self.new.rows.items ≡ self.old.rows.items) }
        ensures table { IsTable self.new }
        ensures states { AreStates self.new states.new.items }
        ensures quiet { AreQuiet states.new.items }
        ensures rest { IsAtRest states.new.items backlog.new }
    {
        let node = self.named(states, row.id)?;
        let fresh = self.prepare(states, alloc, row.tree.places.as_slice())?;
        self.link_row(states, backlog, row, fresh, node)
    }

    /// Adds a row with the nodes of its places. Walks go on as far as it lets them.
    fn link_row(
        &mut self,
        states: &mut Vec<State>,
        backlog: &mut Backlog,
        row: PlacedRow,
        fresh: Fresh,
        node: u32,
    ) -> Result<(), Memory>
        requires table { IsTable self.old }
        requires states { AreStates self.old states.old.items }
        requires quiet { AreQuiet states.old.items }
        requires rest { IsAtRest states.old.items backlog.old }
        requires may { MayCome self.old row fresh node }
        ensures ok { OnOk result (self.new.rows.items ≡ self.old.rows.items ++ row ∷ []) }
        ensures err { OnErr result (self.new.rows.items ≡ self.old.rows.items) }
        ensures table { IsTable self.new }
        ensures states { AreStates self.new states.new.items }
        ensures settled { IsSettled states.new.items backlog.new }
    {
        let nodes = numbers(states.len(), fresh.states.len())?;
        backlog.reach(nodes.end)?;
        self.push_row(states, row, fresh, node)?;
        self.settle(states, backlog, nodes, node);
        Ok(())
    }

    /// Adds a row with the nodes of its places.
    fn push_row(
        &mut self,
        states: &mut Vec<State>,
        row: PlacedRow,
        fresh: Fresh,
        node: u32,
    ) -> Result<(), Memory>
        requires table { IsTable self.old }
        requires states { AreStates self.old states.old.items }
        requires may { MayCome self.old row fresh node }
        ensures ok { OnOk result (self.new.rows.items ≡ self.old.rows.items ++ row ∷ []) }
        ensures err { OnErr result (self.new.rows.items ≡ self.old.rows.items) }
        ensures table { IsTable self.new }
        ensures states { AreStates self.new states.new.items }
        ensures quiet { OnErr result (states.new.items ≡ states.old.items) }
        ensures count { OnOk result (length states.new.items ≡ length states.old.items + length fresh.states.items) }
        ensures listed { (backlog : Backlog) → AreQuiet states.old.items → IsAtRest states.old.items backlog → OnOk result (AreBegun (length states.old.items) node states.new.items backlog) }
    {
        let Ok(number) = u32::try_from(self.rows.len()) else {
            return Err(unproved());
        };
        self.rows.reserve(1)?;
        self.index.reserve(1)?;
        self.starts.reserve(fresh.starts.len())?;
        states.reserve(fresh.states.len())?;
        let known = Known {
            node,
            row: Cell::try_of(number)?,
        };
        self.known.insert(row.id, known)?;
        let root = root_state(fresh.index.as_slice(), number);
        let Fresh {
            index,
            starts: more_starts,
            states: more_states,
        } = fresh;
        put_last(&mut self.rows, row);
        put_last(&mut self.index, List::new(index));
        append_last(&mut self.starts, more_starts);
        append_last(states, more_states);
        put_state(states, node, root);
        Ok(())
    }
}

/// The numbers of so many nodes behind the others.
fn numbers(count: usize, more: usize) -> Result<Range<u32>, Memory>
    ensures { IfOk result (λ r. (r.start ≡ count) × (r.end ≡ count + more)) }
{
    let Ok(start) = u32::try_from(count) else {
        return Err(unproved());
    };
    let Ok(end) = u32::try_from(count.saturating_add(more)) else {
        return Err(unproved());
    };
    Ok(start..end)
}

/// The state of an id's node once its row is there.
fn root_state(index: &[Cell], row: u32) -> State
    ensures { result ≡ root_of index.now row }
{
    match node_at(index, 0) {
        Some(node) => State::Behind { node, left: 0 },
        None => State::Ended(Spot { row, place: 0 }),
    }
}

fn put_state(states: &mut Vec<State>, node: u32, state: State)
    requires { node < length states.old.items }
    ensures { states.new.items ≡ slice_set states.old.items node state }
{
    states[node as usize] = state;
}
