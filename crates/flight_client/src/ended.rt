ghost use Rattle.std.specs.Prelude.{◌≡◌, [], None, IfErr, IfOk, OnOk};
ghost use Rattle.flight_value.specs.Graph.{IsValid};
ghost use Rattle.flight_value.specs.Store.{DrawOneGraph, of_graph};
ghost use Rattle.flight_value.specs.declared.graph.Graph.{Graph};
ghost use Rattle.flight_graph.specs.Text.{text_of};
ghost use Rattle.flight_meaning.specs.Meaning.{meaning};
ghost use Rattle.flight_meaning.specs.Good.{IsGood};
ghost use Rattle.flight_client.specs.Adding.{IsWanting, IsEndFault};

use crate::fault::ClientFault;
use flight_feed::{Feed, FeedFault};
use flight_link::Links;
use flight_value::{Graph, Text};
use std::alloc::Global;

/// Ends a stream in which no fault was met.
pub fn end_stream(alloc: Global, mut feed: Feed, links: Links) -> Result<Graph, ClientFault>
    requires { feed.fault ≡ None }
    ensures valid { IfOk result IsValid }
    ensures good { OnOk result ((feed.bytes ≡ []) × IsGood links) }
    ensures graph { IfOk result (λ g. DrawOneGraph (of_graph g) (meaning links)) }
    ensures fault { IfErr result (IsEndFault feed links) }
{
    match end_rows(&mut feed, &links) {
        Ok(()) => Ok(links.graph(alloc)?),
        Err(fault) => Err(fault),
    }
}

/// The same, where the text of the graph is wanted and not the graph.
pub fn end_stream_in_text(
    alloc: Global,
    feed: &mut Feed,
    links: &Links,
) -> Result<Text, ClientFault>
    requires { feed.old.fault ≡ None }
    ensures good { OnOk result ((feed.old.bytes ≡ []) × IsGood links.now) }
    ensures text { IfOk result (λ t. (g : Graph) × IsValid g × DrawOneGraph (of_graph g) (meaning links.now) × (t ≡ text_of g)) }
    ensures fine { OnOk result (feed.new ≡ feed.old) }
    ensures fault { IfErr result (IsEndFault feed.old links.now) }
{
    match end_rows(feed, links) {
        Ok(()) => Ok(links.text(alloc)?),
        Err(fault) => Err(fault),
    }
}

/// Ends the rows of a stream in which no fault was met: none has begun and is not whole, and they are good.
fn end_rows(feed: &mut Feed, links: &Links) -> Result<(), ClientFault>
    requires { feed.old.fault ≡ None }
    ensures good { OnOk result ((feed.old.bytes ≡ []) × IsGood links.now) }
    ensures fine { OnOk result (feed.new ≡ feed.old) }
    ensures fault { IfErr result (IsEndFault feed.old links.now) }
{
    match feed.end() {
        Ok(()) => are_good(links),
        Err(FeedFault::Row { number, kind }) => Err(ClientFault::Feed { number, kind }),
        Err(FeedFault::Memory) => Err(ClientFault::Memory),
    }
}

/// Whether rows to which none will be added are good.
fn are_good(links: &Links) -> Result<(), ClientFault>
    ensures good { OnOk result (IsGood links.now) }
    ensures fault { IfErr result (IsWanting links.now) }
{
    if !links.has_root() {
        return Err(ClientFault::NoRoot);
    }
    if let Some(id) = links.undefined() {
        return Err(ClientFault::Undefined { id });
    }
    links.follow_on();
    Ok(())
}
