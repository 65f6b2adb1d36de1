ghost use Rattle.std.specs.Prelude.{◌≡◌, ◌∷◌, [], All, IfErr, OnOk, OnErr};
ghost use Rattle.flight_meaning.specs.Linked.{FollowOn};
ghost use Rattle.flight_client.specs.Adding.{IsReadable, IsFailure, Adds, StopsAt, Grows};

use crate::fault::ClientFault;
use flight_feed::Arrived;
use flight_link::{LinkFault, Links};
use flight_place::{Manner, PlaceFault, Scratch, places_with};
use std::alloc::Global;

/// Places and links rows that came, in order, up to the first that fails. Each row's bytes are dropped with it, and all
/// are read in the same memory, which is made where a row came.
#[tactic(auto, using(crate::proofs::Growing::all_grow, crate::proofs::Growing::adds_grow, crate::proofs::Growing::same_grow))]
pub fn link_all(alloc: Global, links: &mut Links, arrived: Vec<Arrived>) -> Result<(), ClientFault>
    requires { All IsReadable arrived.items }
    ensures ok { OnOk result (Adds arrived.items links.old links.new) }
    ensures stops { IfErr result (StopsAt arrived.items links.old links.new) }
    ensures grows { Grows links.old links.new }
{
    if arrived.is_empty() {
        return Ok(());
    }
    let mut scratch = Scratch::new(alloc);
    for row in arrived {
        link_row(alloc, &mut scratch, links, row)?;
    }
    Ok(())
}

/// Places and links a row.
fn link_row(
    alloc: Global,
    scratch: &mut Scratch,
    links: &mut Links,
    arrived: Arrived,
) -> Result<(), ClientFault>
    requires { IsReadable arrived }
    ensures ok { OnOk result (Adds (arrived ∷ []) links.old links.new) }
    ensures fails { IfErr result (IsFailure links.old arrived) }
    ensures kept { OnErr result (links.new ≡ links.old) }
{
    let number = arrived.number;
    let tree = match places_with(alloc, scratch, &arrived.row, Manner::Wire) {
        Ok(tree) => tree,
        Err(PlaceFault::Fault(kind)) => return Err(ClientFault::Place { number, kind }),
        Err(PlaceFault::Memory) => return Err(ClientFault::Memory),
    };
    match links.add(arrived.row.id, tree) {
        Ok(()) => {
            links.follow_on();
            Ok(())
        }
        Err(LinkFault::Fault(kind)) => Err(ClientFault::Link { number, kind }),
        Err(LinkFault::Memory) => Err(ClientFault::Memory),
    }
}
