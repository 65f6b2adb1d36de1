ghost use Rattle.std.specs.Prelude.{◌≡◌, ◌<◌, ◌^◌, IfOk, OnOk, MatchOption, length, map, None, Some, slice_get, ℕ};
ghost use Rattle.std.specs.List.{AllByRecursion};
ghost use Rattle.flight_render.specs.Costs.{IsOver, Reached};
ghost use Rattle.flight_render.specs.Valid.{IsValidGround};
ghost use Rattle.flight_render.specs.Plain.{NodeIs};
ghost use Rattle.flight_seq.specs.Held.{shape_for, value_held};
ghost use Rattle.flight_seq.specs.Walk.{IsWalk};
ghost use Rattle.flight_seq.specs.Drawing.{IsKept, AreFollowed, IsNodeDrawn, AreDrawn};

use crate::held::{Held, Shape};
use crate::node::node_with;
use crate::walk::Walk;
use flight_render::Ground;
use flight_syntax::Seen;
use flight_value::{Memory, Node, Shared, Slot};
use std::alloc::Global;

impl Walk {
    /// What stands at the key of a number, before its slots are followed. None where no key has the number.
    fn shape_at(
        &self,
        alloc: Global,
        ground: &Ground,
        seen: &Shared<Seen>,
        number: usize,
    ) -> Result<Option<Shape>, Memory>
        requires { length seen.now.settled ≡ length ground.now.script.sources }
        ensures { IfOk result (λ o. (fuel : ℕ) → IsWalk ground.now seen.now.settled fuel self.now → MatchOption o (slice_get self.now.keys.keys number ≡ None) (λ s. IsKept ground.now seen.now.settled self.now number s)) }
    {
        match self.keys.get_index(number) {
            Some(key) => Ok(Some(self.shape(alloc, ground, seen.get(), key)?)),
            None => Ok(None),
        }
    }

    /// What slots stand for. None where the rendering is over the fuel.
    fn slots(
        &mut self,
        alloc: Global,
        ground: &Ground,
        seen: &Shared<Seen>,
        fuel: u32,
        held: Vec<Held>,
    ) -> Result<Option<Vec<Slot>>, Memory>
        requires valid { IsValidGround ground.now }
        requires seen { length seen.now.settled ≡ length ground.now.script.sources }
        requires walk { IsWalk ground.now seen.now.settled fuel self.old }
        requires met { AllByRecursion (Reached ground.now seen.now.settled) (map value_held held.items) }
        ensures { IfOk result (λ o. MatchOption o (IsOver ground.now seen.now.settled fuel) (λ slots. AreFollowed ground.now seen.now.settled fuel slots.items (map value_held held.items) self.old self.new)) }
    {
        let mut slots = Vec::new(alloc);
        for slot in held {
            match self.follow(alloc, ground, seen, fuel, slot)? {
                Some(slot) => slots.push(slot)?,
                None => return Ok(None),
            }
        }
        Ok(Some(slots))
    }

    /// The node of a shape. None where the rendering is over the fuel.
    fn node(
        &mut self,
        alloc: Global,
        ground: &Ground,
        seen: &Shared<Seen>,
        fuel: u32,
        shape: Shape,
    ) -> Result<Option<Node>, Memory>
        requires valid { IsValidGround ground.now }
        requires seen { length seen.now.settled ≡ length ground.now.script.sources }
        requires walk { IsWalk ground.now seen.now.settled fuel self.old }
        requires met { AllByRecursion (Reached ground.now seen.now.settled) (shape_for shape).slots }
        ensures { IfOk result (λ o. MatchOption o (IsOver ground.now seen.now.settled fuel) (λ n. IsNodeDrawn ground.now seen.now.settled fuel (shape_for shape) n self.old self.new)) }
    {
        let Shape { label, held } = shape;
        match self.slots(alloc, ground, seen, fuel, held.into_vec())? {
            Some(slots) => {
                within(slots.len())?;
                Ok(Some(node_with(alloc, label, slots)?))
            }
            None => Ok(None),
        }
    }

    /// The nodes of the keys, and of those that they name in turn. None where the rendering is over the fuel.
    pub fn nodes(
        &mut self,
        alloc: Global,
        ground: &Ground,
        seen: &Shared<Seen>,
        fuel: u32,
    ) -> Result<Option<Vec<Node>>, Memory>
        requires valid { IsValidGround ground.now }
        requires seen { length seen.now.settled ≡ length ground.now.script.sources }
        requires walk { IsWalk ground.now seen.now.settled fuel self.old }
        ensures { IfOk result (λ o. MatchOption o (IsOver ground.now seen.now.settled fuel) (λ nodes. AreDrawn ground.now seen.now.settled fuel nodes.items self.old self.new)) }
    {
        let mut nodes = Vec::new(alloc);
        'nodes: for _ in 0..u32::MAX {
            let Some(shape) = self.shape_at(alloc, ground, seen, nodes.len())? else {
                return Ok(Some(nodes));
            };
            match self.node(alloc, ground, seen, fuel, shape)? {
                Some(node) => nodes.push(node)?,
                None => return Ok(None),
            }
        }
        Err(Memory::past_limit())
    }
}

/// A count of slots that a node may have.
pub fn within(count: usize) -> Result<(), Memory>
    ensures { OnOk result (count < 2 ^ 32) }
{
    match u32::try_from(count) {
        Ok(_) => Ok(()),
        Err(_) => Err(Memory::past_limit()),
    }
}
