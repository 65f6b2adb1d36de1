ghost use Rattle.std.specs.Prelude.{◌≡◌, IfOk, MatchOption, length};
ghost use Rattle.flight_value.specs.Graph.{IsValid};
ghost use Rattle.flight_value.specs.Store.{DrawOneGraph, of_graph};
ghost use Rattle.flight_render.specs.Valid.{IsValidGround};
ghost use Rattle.flight_render.specs.Plain as render;
ghost use Rattle.flight_render.specs.Costs.{IsOver};
ghost use Rattle.flight_seq.specs.Walk.{IsWalk};
ghost use Rattle.flight_seq.specs.Cost.{IsCost, IsRendered, IsRenderedIn};

use crate::draw::within;
use crate::held::Held;
use crate::total::{Cost, Rendered};
use crate::walk::Walk;
use flight_render::Ground;
use flight_syntax::Seen;
use flight_value::{Graph, List, Memory, Shared};
use std::alloc::Global;

impl Walk {
    /// The graph of what the root stands for. None where the rendering is over the fuel.
    fn graph(
        &mut self,
        alloc: Global,
        ground: &Ground,
        seen: &Shared<Seen>,
        fuel: u32,
    ) -> Result<Option<Graph>, Memory>
        requires valid { IsValidGround ground.now }
        requires seen { length seen.now.settled ≡ length ground.now.script.sources }
        requires walk { IsWalk ground.now seen.now.settled fuel self.old }
        ensures { IfOk result (λ o. MatchOption o (IsOver ground.now seen.now.settled fuel) (IsRenderedIn ground.now seen.now.settled fuel self.new.spent)) }
    {
        let Some(root) = self.follow(alloc, ground, seen, fuel, Held::Root)? else {
            return Ok(None);
        };
        let Some(nodes) = self.nodes(alloc, ground, seen, fuel)? else {
            return Ok(None);
        };
        within(nodes.len())?;
        Ok(Some(Graph {
            root,
            nodes: List::new(nodes),
        }))
    }
}

/// The same sources settled, with an owner of its own.
fn own_seen(alloc: Global, seen: &Seen) -> Result<Shared<Seen>, Memory>
    ensures { IfOk result (λ s. s ≡ seen.now) }
{
    let settled = Vec::from_slice(alloc, seen.settled.as_slice())?;
    Shared::new(
        alloc,
        Seen {
            settled: List::new(settled),
        },
    )
}

/// Sequential rendering with just these sources settled, and what it costs.
pub fn rendered(alloc: Global, ground: &Ground, seen: &Seen, fuel: u32) -> Result<Rendered, Memory>
    requires valid { IsValidGround ground.now }
    requires seen { length seen.now.settled ≡ length ground.now.script.sources }
    ensures { IfOk result (IsRendered ground.now seen.now.settled fuel) }
{
    let seen = own_seen(alloc, seen)?;
    let mut walk = Walk::new(alloc);
    match walk.graph(alloc, ground, &seen, fuel)? {
        Some(graph) => Ok(Rendered::Within {
            total: walk.spent,
            graph,
        }),
        None => Ok(Rendered::Over),
    }
}

/// The graph of sequential rendering with just these sources settled. Its cost is 1,000,000 at most.
pub fn plain(alloc: Global, ground: &Ground, seen: &Seen) -> Result<Graph, Memory>
    requires valid { IsValidGround ground.now }
    requires seen { length seen.now.settled ≡ length ground.now.script.sources }
    requires within { IsOver ground.now seen.now.settled 1000000 → ⊥ }
    ensures { IfOk result (λ g. IsValid g × DrawOneGraph (of_graph g) (render.plain ground.now seen.now.settled)) }
{
    match rendered(alloc, ground, seen, 1_000_000)? {
        Rendered::Within { graph, .. } => Ok(graph),
        Rendered::Over => Err(Memory::past_limit()),
    }
}

/// What sequential rendering costs with just these sources settled.
pub fn cost(alloc: Global, ground: &Ground, seen: &Seen, fuel: u32) -> Result<Cost, Memory>
    requires valid { IsValidGround ground.now }
    requires seen { length seen.now.settled ≡ length ground.now.script.sources }
    ensures { IfOk result (IsCost ground.now seen.now.settled fuel) }
{
    match rendered(alloc, ground, seen, fuel)? {
        Rendered::Within { total, .. } => Ok(Cost::Within { total }),
        Rendered::Over => Ok(Cost::Over),
    }
}
