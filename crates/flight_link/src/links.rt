ghost use Rattle.std.specs.Prelude.{◌≡◌, ◌≢◌, ◌++◌, ◌∷◌, [], ◌<◌, ◌^◌, ◌↔◌, IsTrue, IfOk, OnOk, OnErr, MatchOption, ◌≤◌, ◌+◌};
ghost use Rattle.flight_link.specs.Looking.{IsSeen};
ghost use Rattle.flight_value.specs.Graph.{IsValid};
ghost use Rattle.flight_value.specs.Store.{DrawOneGraph, of_graph};
ghost use Rattle.flight_value.specs.declared.graph.Graph.{Graph};
ghost use Rattle.flight_graph.specs.Text.{text_of};
ghost use Rattle.flight_meaning.specs.Meaning.{meaning};
ghost use Rattle.flight_meaning.specs.Linked.{rows_of, FollowOn};
ghost use Rattle.flight_meaning.specs.Good.{IsLeastUndefined};
ghost use Rattle.flight_link.specs.declared.fault.LinkKind.{LinkKind};
ghost use Rattle.flight_link.specs.Adding.{is_of_stream as is_of_stream_spec, IsPlaced, MayFollow, IsRefused};
ghost use Rattle.flight_link.specs.Finding.{IsFound};
ghost use Rattle.flight_link.specs.Origins.{AreOrigins};

use crate::backlog::Backlog;
use crate::draw::Whole;
use crate::fault::{LinkFault, LinkKind};
use crate::found::{Found, Seen};
use crate::ids::Ids;
use crate::mention::Bases;
use crate::node::State;
use crate::room::put_last;
use crate::table::Table;
use flight_meaning::{PlaceTree, PlacedRow};
use flight_row::RowKind;
use flight_text::Ref;
use flight_value::{Graph, List, Memory, Text};
use std::alloc::Global;
use std::marker::Model;

/// The rows of a stream or of a reply, linked. Contracts see them as the list of the rows that came.
#[derive(Drop)]
pub struct Links {
    alloc: Global,
    table: Table,
    /// Where the walks of the table's nodes stand.
    states: Vec<State>,
    backlog: Backlog,
    /// How many places stand before each row.
    before: Vec<u32>,
    /// How many places there are, 2^32 at most.
    total: u64,
}

impl Model for Links {
    ghost use Rattle.std.specs.Prelude.{List};
    ghost use Rattle.flight_meaning.specs.declared.place.PlacedRow.{PlacedRow};
    ghost use Rattle.flight_link.specs.Backlogs.{IsAtRest};
    ghost use Rattle.flight_link.specs.Marks.{IsWhole};

    ghost Value = { List PlacedRow };

    ghost view = { λ l. l.table.rows.items };

    ghost invariant = { λ l. IsWhole l.table l.states.items l.before.items l.total × IsAtRest l.states.items l.backlog };
}

impl Links {
    /// No rows.
    pub fn new(alloc: Global) -> Links
        ensures { result ≡ [] }
    {
        Links {
            alloc,
            table: Table {
                rows: Vec::new(alloc),
                starts: Vec::new(alloc),
                index: Vec::new(alloc),
                known: Ids::new(alloc),
            },
            states: Vec::new(alloc),
            backlog: Backlog {
                first: Vec::new(alloc),
                next: Vec::new(alloc),
                ended: Vec::new(alloc),
            },
            before: Vec::new(alloc),
            total: 0,
        }
    }

    /// Whether row 0 has come.
    pub fn has_root(&self) -> bool
        ensures { IsTrue result ↔ (rows_of 0 self.now ≢ []) }
    {
        self.table.has_row(0)
    }

    /// Where a reference leads (React 19.0, `getOutlinedModel` of ReactFlightClient).
    pub fn find(&self, reference: &Ref) -> Found
        ensures { IsFound self.now reference.now result }
    {
        self.table.find(self.states.as_slice(), reference)
    }

    /// The least id of a reference that a row holds and that is not defined. None where there is none.
    pub fn undefined(&self) -> Option<u32>
        ensures { IsLeastUndefined self.now result }
    {
        self.table.least_undefined(self.states.as_slice())
    }

    /// What a path of numbers of slots shows from the root. The mark of a node is the same whatever rows come later.
    pub fn look(&self, path: &[u32]) -> Seen<'_>
        ensures { IsSeen self.now path.now result }
    {
        let bases = Bases {
            before: self.before.as_slice(),
            total: self.total,
        };
        self.table.look(self.states.as_slice(), bases, path)
    }

    /// What the rows mean, as a graph: the nodes to which the value of row 0 leads (React 19.0, `getRoot` of
    /// ReactFlightClient). What is not there yet, and what leads nowhere, is pending.
    pub fn graph(&self, alloc: Global) -> Result<Graph, Memory>
        ensures { IfOk result (λ g. IsValid g × DrawOneGraph (of_graph g) (meaning self.now)) }
    {
        let whole = Whole {
            states: self.states.as_slice(),
            bases: Bases {
                before: self.before.as_slice(),
                total: self.total,
            },
        };
        self.table.graph(whole, alloc)
    }

    /// The canonical text of what the rows mean: that of [`Links::graph`], which is not built.
    pub fn text(&self, alloc: Global) -> Result<Text, Memory>
        ensures { IfOk result (λ t. (g : Graph) × IsValid g × DrawOneGraph (of_graph g) (meaning self.now) × (t ≡ text_of g)) }
    {
        let whole = Whole {
            states: self.states.as_slice(),
            bases: Bases {
                before: self.before.as_slice(),
                total: self.total,
            },
        };
        self.table.text(whole, alloc)
    }

    /// For each node of the canon of [`Links::graph`], in order, the id of the row that holds it: of the row of its
    /// place, and of a promise or a server reference its own.
    pub fn origins(&self, alloc: Global) -> Result<List<u32>, Memory>
        ensures { IfOk result (AreOrigins self.now) }
    {
        let whole = Whole {
            states: self.states.as_slice(),
            bases: Bases {
                before: self.before.as_slice(),
                total: self.total,
            },
        };
        self.table.origins(whole, alloc)
    }

    /// A fact alone: no row was refused.
    pub fn follow_on(&self)
        ensures { FollowOn self.now }
    {
        self.table.follow_on();
    }

    /// Adds a row behind those that came. It may not follow them where its id has a row already, where no row may
    /// close it, and, for now, where it opens or closes a stream (React 19.0, `resolveModelChunk` of
    /// ReactFlightClient, which drops such rows). More than 2^32 places in all are want of memory.
    pub fn add(&mut self, id: u32, tree: PlaceTree) -> Result<(), LinkFault>
        requires small { id < 2 ^ 31 }
        requires placed { IsPlaced id tree }
        ensures ok { OnOk result (MayFollow self.old id tree.kind × (self.new ≡ self.old ++ record { id = id; tree = tree } ∷ [])) }
        ensures fault { (k : LinkKind) → result ≡ Err (LinkFault.Fault k) → IsRefused self.old id tree.kind k }
        ensures kept { OnErr result (self.new ≡ self.old) }
    {
        if is_of_stream(tree.kind) {
            return Err(LinkFault::Fault(LinkKind::NotBuilt { id }));
        }
        if self.table.has_row(id) {
            return Err(LinkFault::Fault(LinkKind::Twice { id }));
        }
        let Some(total) = sum_of(self.total, tree.places.as_slice().len()) else {
            return Err(LinkFault::Memory);
        };
        let Ok(base) = u32::try_from(self.total) else {
            return Err(LinkFault::Memory);
        };
        if self.before.reserve(1).is_err() {
            return Err(LinkFault::Memory);
        }
        self.table.add(
            &mut self.states,
            &mut self.backlog,
            self.alloc,
            PlacedRow { id, tree },
        )?;
        put_last(&mut self.before, base);
        self.total = total;
        Ok(())
    }
}

/// Whether a row opens or closes a stream.
fn is_of_stream(kind: RowKind) -> bool
    ensures { result ≡ is_of_stream_spec kind }
{
    matches!(kind, RowKind::Open(_) | RowKind::Close)
}

/// How many places there are with those of a row, if they have numbers.
fn sum_of(total: u64, places: usize) -> Option<u64>
    ensures { MatchOption result (Unit {0}) (λ sum. (sum ≡ total + places) × (sum ≤ 2 ^ 32)) }
{
    match total.checked_add(places as u64) {
        Some(sum) if sum <= 1 << 32 => Some(sum),
        _ => None,
    }
}
