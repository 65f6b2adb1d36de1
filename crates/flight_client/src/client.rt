ghost use Rattle.std.specs.Prelude.{◌≡◌, ◌≢◌, ◌++◌, ℕ, List, [], None, Some, Ok, Err, OnOk, IfOk, IfErr};
ghost use Rattle.flight_value.specs.Graph.{IsValid};
ghost use Rattle.flight_value.specs.Store.{DrawOneGraph, of_graph};
ghost use Rattle.flight_value.specs.declared.graph.Graph.{Graph};
ghost use Rattle.flight_graph.specs.Text.{text_of};
ghost use Rattle.flight_meaning.specs.Meaning.{meaning};
ghost use Rattle.flight_meaning.specs.Good.{IsGood};
ghost use Rattle.flight_link.specs.Looking.{IsSeen};
ghost use Rattle.flight_link.specs.Origins.{AreOrigins};
ghost use Rattle.flight_client.specs.Rows.{IsWhole};
ghost use Rattle.flight_client.specs.Faults.{EndsWithFault};
ghost use Rattle.flight_client.specs.Adding.{Grows};
ghost use Rattle.flight_client.specs.Held.{HasTaken};
ghost use Rattle.flight_client.specs.declared.fault.ClientFault.{ClientFault};

use crate::ended::{end_stream, end_stream_in_text};
use crate::fault::ClientFault;
use crate::piece::take;
use flight_feed::Feed;
use flight_link::{Links, Seen};
use flight_value::{Graph, List, Memory, Text};
use std::alloc::Global;
use std::marker::Model;

/// A client: what it has taken of a stream, linked as far as it has come.
#[derive(Drop)]
pub struct Client {
    alloc: Global,
    feed: Feed,
    links: Links,
    fault: Option<ClientFault>,
}

impl Model for Client {
    ghost use Rattle.std.specs.Prelude.{◌≡◌, None};
    ghost use Rattle.flight_client.specs.Held.{Held};

    ghost Value = { Held };

    ghost view = { λ c. record { fault = c.fault; feed = c.feed; rows = c.links } };

    ghost invariant = { λ c. c.fault ≡ None → c.feed.fault ≡ None };
}

impl Client {
    /// A client before the first byte. It takes no memory yet.
    pub fn new(alloc: Global) -> Client
        ensures fine { result.fault ≡ None }
        ensures rows { result.rows ≡ [] }
        ensures taken { HasTaken [] result }
    {
        Client {
            alloc,
            feed: Feed::new(alloc),
            links: Links::new(alloc),
            fault: None,
        }
    }

    /// Takes the next bytes of the stream: reads, places and links each row that becomes whole, in order. A fault is
    /// that of the first faulty row; the rows before it count. After want of memory a front of the whole rows counts.
    /// Every later call answers the same fault.
    #[tactic(auto, using(crate::proofs::Growing::same_grow))]
    pub fn feed(&mut self, piece: &[u8]) -> Result<(), ClientFault>
        ensures taken { (text : List ℕ) → HasTaken text self.old → HasTaken (text ++ piece.now) self.new }
        ensures grows { Grows self.old.rows self.new.rows }
        ensures fine { OnOk result (self.new.fault ≡ None) }
        ensures kept { IfErr result (λ f. self.new.fault ≡ Some f) }
        ensures again { (f : ClientFault) → self.old.fault ≡ Some f → (result ≡ Err f) × (self.new ≡ self.old) }
    {
        if let Some(fault) = self.fault {
            return Err(fault);
        }
        let taken = take(self.alloc, &mut self.feed, &mut self.links, piece);
        if let Err(fault) = taken {
            self.fault = Some(fault);
        }
        taken
    }

    /// What a path of slot numbers from the root shows so far. It takes no memory.
    pub fn look<'a>(&'a self, path: &[u32]) -> Seen<'a>
        ensures { IsSeen self.now.rows path.now result }
    {
        self.links.look(path)
    }

    /// The graph that the rows so far mean.
    pub fn partial(&self, alloc: Global) -> Result<Graph, Memory>
        ensures { IfOk result (λ g. IsValid g × DrawOneGraph (of_graph g) (meaning self.now.rows)) }
    {
        self.links.graph(alloc)
    }

    /// For each node of the canon of [`Client::partial`], in order, the id of the row that holds it.
    pub fn origins(&self, alloc: Global) -> Result<List<u32>, Memory>
        ensures { IfOk result (AreOrigins self.now.rows) }
    {
        self.links.origins(alloc)
    }

    /// Ends the stream: the graph that its rows mean, where they are good. Else the fault that was kept, or a row that
    /// has begun and is not whole, or that row 0 is wanting, or the least id of a reference that is not defined, in
    /// this order.
    pub fn finish(self, alloc: Global) -> Result<Graph, ClientFault>
        ensures valid { IfOk result IsValid }
        ensures good { (text : List ℕ) → HasTaken text self → OnOk result (IsWhole text self.rows × IsGood self.rows) }
        ensures graph { IfOk result (λ g. DrawOneGraph (of_graph g) (meaning self.rows)) }
        ensures fault { (text : List ℕ) (f : ClientFault) → HasTaken text self → result ≡ Err f → f ≢ ClientFault.Memory → EndsWithFault text f }
        ensures kept { (f : ClientFault) → self.fault ≡ Some f → result ≡ Err f }
    {
        let Client {
            alloc: _,
            feed,
            links,
            fault,
        } = self;
        match fault {
            Some(fault) => Err(fault),
            None => end_stream(alloc, feed, links),
        }
    }

    /// Ends the stream where the canonical text of that graph is wanted and not the graph, which is not built. The fault
    /// is that of [`Client::finish`], and the client keeps it; its rows stay as they are.
    pub fn end_text(&mut self, alloc: Global) -> Result<Text, ClientFault>
        ensures good { (text : List ℕ) → HasTaken text self.old → OnOk result (IsWhole text self.old.rows × IsGood self.old.rows) }
        ensures text { IfOk result (λ t. (g : Graph) × IsValid g × DrawOneGraph (of_graph g) (meaning self.old.rows) × (t ≡ text_of g)) }
        ensures fault { (text : List ℕ) (f : ClientFault) → HasTaken text self.old → result ≡ Err f → f ≢ ClientFault.Memory → EndsWithFault text f }
        ensures rows { self.new.rows ≡ self.old.rows }
        ensures fine { OnOk result (self.new ≡ self.old) }
        ensures kept { IfErr result (λ f. self.new.fault ≡ Some f) }
        ensures again { (f : ClientFault) → self.old.fault ≡ Some f → (result ≡ Err f) × (self.new ≡ self.old) }
    {
        if let Some(fault) = self.fault {
            return Err(fault);
        }
        let ended = end_stream_in_text(alloc, &mut self.feed, &self.links);
        if let Err(fault) = &ended {
            self.fault = Some(*fault);
        }
        ended
    }
}
