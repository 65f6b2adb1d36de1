ghost use Rattle.std.specs.Prelude.{◌≡◌, ◌+◌, ◌<◌, ◌^◌, IfOk};
ghost use Rattle.flight_reply_out.specs.Origins.{AreOrigins};
ghost use Rattle.flight_reply_out.specs.Homes.{homes_of, home_with, one_if};

use crate::home::{Home, has_entries, is_apart, place_for, root_of};
use crate::origin::Origin;
use flight_payload::PayloadWriter;
use flight_text::Ref;
use flight_value::{Memory, Node};
use std::alloc::Global;

/// The homes of the nodes of a canon. Part numbers that would reach 2^31 are want of memory. Nothing is written.
pub fn homes(
    alloc: Global,
    out: &mut PayloadWriter,
    nodes: &[Node],
    origins: &[Option<Origin>],
) -> Result<Vec<Home>, Memory>
    requires { AreOrigins nodes.now origins.now }
    ensures same { out.new ≡ out.old }
    ensures homes { IfOk result (λ homes. homes.items ≡ homes_of nodes.now) }
{
    let mut homes = Vec::with_capacity(alloc, nodes.len())?;
    let mut parts = 0;
    for n in 0..nodes.len() {
        let node = &nodes[n];
        let origin = origins[n];
        let at = place_for(alloc, nodes, homes.as_slice(), origin)?;
        let apart = is_apart(out, node, &at)?;
        let entries = has_entries(node);
        let next = parts_after(parts, apart, entries)?;
        homes.push(home_with(alloc, apart, entries, at, parts))?;
        parts = next;
    }
    Ok(homes)
}

/// How many parts there are after those of a node.
fn parts_after(parts: u32, apart: bool, entries: bool) -> Result<u32, Memory>
    requires { parts < 2 ^ 31 }
    ensures { IfOk result (λ n. (n ≡ parts + one_if apart + one_if entries) × (n < 2 ^ 31)) }
{
    let next = parts + u32::from(apart) + u32::from(entries);
    if next >= 1 << 31 {
        return Err(Memory::past_limit());
    }
    Ok(next)
}

/// The home of a node that would stand there, after so many parts.
fn home_with(alloc: Global, apart: bool, entries: bool, at: Ref, parts: u32) -> Home
    requires { parts + one_if apart + one_if entries < 2 ^ 31 }
    ensures { result ≡ home_with apart entries at parts }
{
    let place = if apart { root_of(alloc, parts + 1) } else { at };
    let content = if entries {
        parts + u32::from(apart) + 1
    } else {
        place.id
    };
    Home {
        place,
        apart,
        content,
    }
}
