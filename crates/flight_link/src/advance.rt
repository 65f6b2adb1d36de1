ghost use Rattle.std.specs.Prelude.{◌≡◌, ◌<◌, ◌≤◌, length, slice_get};
ghost use Rattle.flight_link.specs.Nodes.{IsTable, IsStop, Descends, Advances, AreStates, HasNode, IsQuiet, TakesStep, steps_left, last_names};

use crate::found::Spot;
use crate::node::State;
use crate::table::{Step, Table};
use flight_value::Text;

impl Table {
    /// Where names lead from a place that is not followed: to an end, or behind the node of a place that is.
    fn descend(&self, spot: Spot, names: &[Text]) -> State
        requires table { IsTable self.now }
        requires stop { IsStop self.now.rows.items spot }
        ensures leads { Descends self.now spot names.now result }
        ensures fewer { steps_left result ≤ length names.now }
    {
        let mut at = spot;
        let mut rest = names;
        while let Some((name, behind)) = rest.split_first() {
            match self.step(at, name) {
                Step::Stops => return State::Ended(at),
                Step::Leaves => return State::Lost,
                Step::Meets(node) => {
                    return State::Behind {
                        node,
                        left: behind.len(),
                    };
                }
                Step::To(next) => at = next,
            }
            rest = behind;
        }
        State::Ended(at)
    }

    /// Where names lead from behind a node: to an end, or behind a node whose own walk has not ended.
    pub fn advance(&self, states: &[State], node: u32, names: &[Text]) -> State
        requires table { IsTable self.now }
        requires states { AreStates self.now states.now }
        requires node { HasNode self.now.starts.items node }
        ensures leads { Advances self.now node names.now result }
        ensures quiet { IsQuiet states.now result }
        ensures fewer { TakesStep states.now node names.now result }
    {
        let mut behind = node;
        let mut rest = names;
        'walks: loop {
            match state_at(states, behind) {
                State::Ended(spot) => match self.descend(spot, rest) {
                    State::Behind { node: next, left } => {
                        behind = next;
                        rest = last_of(rest, left);
                    }
                    State::Ended(end) => return State::Ended(end),
                    State::Lost => return State::Lost,
                    // No place leads there.
                    State::Absent => return State::Lost,
                },
                State::Lost => return State::Lost,
                State::Absent | State::Behind { .. } => {
                    return State::Behind {
                        node: behind,
                        left: rest.len(),
                    };
                }
            }
        }
    }
}

/// The state of a node.
pub fn state_at(states: &[State], node: u32) -> State
    requires { node < length states.now }
    ensures { slice_get states.now node ≡ Some result }
{
    states[node as usize]
}

/// The last so many names.
pub fn last_of(names: &[Text], left: usize) -> &[Text]
    requires { left ≤ length names.now }
    ensures { result.now ≡ last_names left names.now }
{
    &names[names.len() - left..]
}
