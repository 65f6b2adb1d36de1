ghost use Rattle.std.specs.Prelude.{◌≡◌, IfOk, MatchOption, length, Some, None, true, ℕ, Bool, List};
ghost use Rattle.flight_value.specs.Store as target;
ghost use Rattle.flight_value.specs.declared.made.Tree.TheVariants as tree;
ghost use Rattle.flight_render.specs.declared.root.Ground.{Ground};
ghost use Rattle.flight_render.specs.Costs.{IsOver, Reached};
ghost use Rattle.flight_render.specs.Valid.{IsValidGround};
ghost use Rattle.flight_render.specs.Bodies.{node_at};
ghost use Rattle.flight_render.specs.Jobs.{Value, shown, of_job, the_root, job_of, IsTarget, is_server as is_server_element};
ghost use Rattle.flight_seq.specs.Held.{value_for, value_held};
ghost use Rattle.flight_seq.specs.Walk.{IsWalk};
ghost use Rattle.flight_seq.specs.Chain.{HasInside, IsTurn, ComesOn, Begins, Follows};

use crate::held::{End, Held};
use crate::known::Known;
use crate::source::{argument, outcome};
use crate::walk::Walk;
use flight_render::{Ground, What};
use flight_syntax::Seen;
use flight_value::{Atom, Key, List, Made, MadeKind, Memory, Name, Shared, Slot, Tables, Tree};
use std::alloc::Global;

/// One turn on the way to what a slot stands for.
#[derive(Drop)]
pub enum Turn {
    /// It stands for this.
    Stands(Slot),
    /// A server element came to this.
    On(End),
    /// The rendering is over the fuel.
    Over,
}

/// Whether a node is a server element.
fn is_server(made: &Made) -> bool
    ensures { result ≡ is_server_element (Some made.now) }
{
    match made.kind {
        MadeKind::Server { .. } => made.slots.as_slice().get(1).is_some(),
        _ => false,
    }
}

impl Walk {
    /// The tables of the server elements that the body at an address made.
    fn inside(&self, address: &Shared<List<u32>>) -> Result<Shared<Tables>, Memory>
        ensures { IfOk result (HasInside self.now.bodies.entries address.now) }
    {
        match self.known(address) {
            Some(Known::Finished { inside, .. }) => inside.share(),
            Some(Known::Waits { .. }) | None => Err(Memory::past_limit()),
        }
    }

    /// What the root's body comes to. None where the rendering is over the fuel.
    fn root(
        &mut self,
        alloc: Global,
        ground: &Ground,
        seen: &Shared<Seen>,
        fuel: u32,
    ) -> Result<Option<End>, Memory>
        requires valid { IsValidGround ground.now }
        requires seen { length seen.now.settled ≡ length ground.now.script.sources }
        requires walk { IsWalk ground.now seen.now.settled fuel self.old }
        ensures { IfOk result (λ o. MatchOption o (IsOver ground.now seen.now.settled fuel) (λ e. ComesOn ground.now seen.now.settled fuel (of_job the_root) e self.old self.new)) }
    {
        let address = Shared::new(alloc, List::new(Vec::new(alloc)))?;
        self.end_of(alloc, ground, seen, fuel, &address, What::Root)
    }

    /// What a server element comes to. None where the rendering is over the fuel.
    fn element(
        &mut self,
        alloc: Global,
        ground: &Ground,
        seen: &Shared<Seen>,
        fuel: u32,
        name: Name,
    ) -> Result<Option<End>, Memory>
        requires valid { IsValidGround ground.now }
        requires seen { length seen.now.settled ≡ length ground.now.script.sources }
        requires walk { IsWalk ground.now seen.now.settled fuel self.old }
        requires met { Reached ground.now seen.now.settled (shown (tree.Made name)) }
        requires server { is_server_element (node_at ground.now seen.now.settled name) ≡ true }
        ensures { IfOk result (λ o. MatchOption o (IsOver ground.now seen.now.settled fuel) (λ e. ComesOn ground.now seen.now.settled fuel (shown (tree.Made name)) e self.old self.new)) }
    {
        let address = name.inner(alloc)?;
        let tables = self.inside(&name.render)?;
        let what = What::Element {
            element: name,
            tables,
        };
        self.end_of(alloc, ground, seen, fuel, &address, what)
    }

    /// A slot stands for the node at a key.
    fn stand(&mut self, key: Key) -> Result<Turn, Memory>
        ensures { IfOk result (λ t. (g : Ground) (settled : List Bool) (fuel : ℕ) (v : Value) → IsWalk g settled fuel self.old → Reached g settled v → job_of g settled v ≡ None → IsTarget g settled v (target.node_at key) → IsTurn g settled fuel v self.old self.new t) }
    {
        Ok(Turn::Stands(Slot::Node(self.number(key)?)))
    }

    /// A turn from a node that a body made.
    fn turn_of(
        &mut self,
        alloc: Global,
        ground: &Ground,
        seen: &Shared<Seen>,
        fuel: u32,
        name: Name,
    ) -> Result<Turn, Memory>
        requires valid { IsValidGround ground.now }
        requires seen { length seen.now.settled ≡ length ground.now.script.sources }
        requires walk { IsWalk ground.now seen.now.settled fuel self.old }
        requires met { Reached ground.now seen.now.settled (shown (tree.Made name)) }
        ensures { IfOk result (IsTurn ground.now seen.now.settled fuel (shown (tree.Made name)) self.old self.new) }
    {
        let Some(made) = self.made(&name) else {
            return Err(Memory::past_limit());
        };
        if !is_server(made) {
            return self.stand(Key::Made(name));
        }
        match self.element(alloc, ground, seen, fuel, name)? {
            Some(end) => Ok(Turn::On(end)),
            None => Ok(Turn::Over),
        }
    }

    /// A turn from a value.
    fn turn_at(
        &mut self,
        alloc: Global,
        ground: &Ground,
        seen: &Shared<Seen>,
        fuel: u32,
        tree: Tree,
    ) -> Result<Turn, Memory>
        requires valid { IsValidGround ground.now }
        requires seen { length seen.now.settled ≡ length ground.now.script.sources }
        requires walk { IsWalk ground.now seen.now.settled fuel self.old }
        requires met { Reached ground.now seen.now.settled (shown tree) }
        ensures { IfOk result (IsTurn ground.now seen.now.settled fuel (shown tree) self.old self.new) }
    {
        match tree {
            Tree::Atom(atom) => Ok(Turn::Stands(Slot::Atom(atom))),
            Tree::Made(name) => self.turn_of(alloc, ground, seen, fuel, name),
            Tree::FromSource { source, node } => self.stand(Key::Source { source, node }),
            Tree::Promise { source } => self.stand(Key::Settled { source }),
            Tree::Stream { stream } => self.stand(Key::Stream { stream }),
            Tree::Action { action } => self.stand(Key::Action { action }),
        }
    }

    /// A turn from what a job came to.
    fn turn(
        &mut self,
        alloc: Global,
        ground: &Ground,
        seen: &Shared<Seen>,
        fuel: u32,
        end: End,
    ) -> Result<Turn, Memory>
        requires valid { IsValidGround ground.now }
        requires seen { length seen.now.settled ≡ length ground.now.script.sources }
        requires walk { IsWalk ground.now seen.now.settled fuel self.old }
        requires met { Reached ground.now seen.now.settled (value_for end) }
        ensures { IfOk result (IsTurn ground.now seen.now.settled fuel (value_for end) self.old self.new) }
    {
        match end {
            End::Gave(tree) => self.turn_at(alloc, ground, seen, fuel, tree),
            End::Threw(digest) => Ok(Turn::Stands(Slot::Atom(Atom::Failed(digest)))),
            End::Waits { .. } => Ok(Turn::Stands(Slot::Atom(Atom::Pending))),
        }
    }

    /// What stands at the end of a chain. None where the rendering is over the fuel.
    fn last(
        &mut self,
        alloc: Global,
        ground: &Ground,
        seen: &Shared<Seen>,
        fuel: u32,
        end: End,
    ) -> Result<Option<Slot>, Memory>
        requires valid { IsValidGround ground.now }
        requires seen { length seen.now.settled ≡ length ground.now.script.sources }
        requires walk { IsWalk ground.now seen.now.settled fuel self.old }
        requires met { Reached ground.now seen.now.settled (value_for end) }
        ensures { IfOk result (λ o. MatchOption o (IsOver ground.now seen.now.settled fuel) (λ s. Follows ground.now seen.now.settled fuel s (value_for end) self.old self.new)) }
    {
        let mut end = end;
        'turns: for _ in 0..u64::MAX {
            match self.turn(alloc, ground, seen, fuel, end)? {
                Turn::Stands(slot) => return Ok(Some(slot)),
                Turn::On(next) => end = next,
                Turn::Over => return Ok(None),
            }
        }
        Err(Memory::past_limit())
    }

    /// What a slot holds first. None where the rendering is over the fuel.
    fn first(
        &mut self,
        alloc: Global,
        ground: &Ground,
        seen: &Shared<Seen>,
        fuel: u32,
        held: Held,
    ) -> Result<Option<End>, Memory>
        requires valid { IsValidGround ground.now }
        requires seen { length seen.now.settled ≡ length ground.now.script.sources }
        requires walk { IsWalk ground.now seen.now.settled fuel self.old }
        ensures { IfOk result (λ o. MatchOption o (IsOver ground.now seen.now.settled fuel) (λ e. Begins ground.now seen.now.settled fuel (value_held held) e self.old self.new)) }
    {
        match held {
            Held::Tree(tree) => Ok(Some(End::Gave(tree))),
            Held::Root => self.root(alloc, ground, seen, fuel),
            Held::Outcome { source } => Ok(Some(outcome(ground, seen.get(), source)?)),
            Held::Known { slot } => Ok(Some(End::Gave(argument(ground, &slot)?))),
            Held::Blank => Ok(Some(End::Gave(Tree::Atom(Atom::Undefined)))),
        }
    }

    /// What a slot stands for. None where the rendering is over the fuel.
    pub fn follow(
        &mut self,
        alloc: Global,
        ground: &Ground,
        seen: &Shared<Seen>,
        fuel: u32,
        held: Held,
    ) -> Result<Option<Slot>, Memory>
        requires valid { IsValidGround ground.now }
        requires seen { length seen.now.settled ≡ length ground.now.script.sources }
        requires walk { IsWalk ground.now seen.now.settled fuel self.old }
        requires met { Reached ground.now seen.now.settled (value_held held) }
        ensures { IfOk result (λ o. MatchOption o (IsOver ground.now seen.now.settled fuel) (λ s. Follows ground.now seen.now.settled fuel s (value_held held) self.old self.new)) }
    {
        match self.first(alloc, ground, seen, fuel, held)? {
            Some(end) => self.last(alloc, ground, seen, fuel, end),
            None => Ok(None),
        }
    }
}
