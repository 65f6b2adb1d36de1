ghost use Rattle.std.specs.Prelude.{◌≡◌, ◌++◌, ℕ, List, None, OnOk};
ghost use Rattle.flight_client.specs.Adding.{Grows};
ghost use Rattle.flight_client.specs.Held.{IsOn, Stands, fault_in};

use crate::fault::ClientFault;
use crate::rows::link_all;
use flight_feed::{Feed, FeedFault};
use flight_link::Links;
use std::alloc::Global;

/// Reads, places and links the rows that become whole with the next bytes, in order, up to the first that fails.
pub fn take(
    alloc: Global,
    feed: &mut Feed,
    links: &mut Links,
    piece: &[u8],
) -> Result<(), ClientFault>
    requires { feed.old.fault ≡ None }
    ensures feed { OnOk result (feed.new.fault ≡ None) }
    ensures stands { (text : List ℕ) → IsOn text feed.old links.old → Stands (text ++ piece.now) (fault_in result) feed.new links.new }
    ensures grows { Grows links.old links.new }
{
    let mut arrived = Vec::new(alloc);
    match feed.feed(piece, &mut arrived) {
        Ok(()) => link_all(alloc, links, arrived),
        Err(FeedFault::Row { number, kind }) => {
            link_all(alloc, links, arrived)?;
            Err(ClientFault::Feed { number, kind })
        }
        Err(FeedFault::Memory) => {
            link_all(alloc, links, arrived)?;
            Err(ClientFault::Memory)
        }
    }
}
