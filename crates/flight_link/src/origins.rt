ghost use Rattle.std.specs.Prelude.{◌≡◌, IfOk, map};
ghost use Rattle.flight_value.specs.Graph.{IsValid};
ghost use Rattle.flight_graph.specs.Canon.{visited_of};
ghost use Rattle.flight_link.specs.Drawing.{graph_in, origin_in};
ghost use Rattle.flight_link.specs.Marks.{IsWhole};
ghost use Rattle.flight_link.specs.Nodes.{id_at as id_of_row};
ghost use Rattle.flight_link.specs.Origins.{AreOrigins};

use crate::draw::{Drawing, Whole};
use crate::key::NodeKey;
use crate::table::{Table, row_at};
use flight_graph::visited;
use flight_meaning::PlacedRow;
use flight_value::{Graph, List, Memory, Node, Slot};
use std::alloc::Global;

impl Table {
    /// For each node of the canon of what the rows mean, in order, the id of the row that holds it.
    pub fn origins(&self, whole: Whole<'_>, alloc: Global) -> Result<List<u32>, Memory>
        requires { IsWhole self.now whole.states.now whole.bases.before.now whole.bases.total }
        ensures { IfOk result (AreOrigins self.now.rows.items) }
    {
        let drawing = self.draw(whole, alloc)?;
        origins_in(alloc, self.rows.as_slice(), drawing)
    }
}

/// The ids of the rows that hold the nodes of a drawing, in the order of its canon.
fn origins_in(alloc: Global, rows: &[PlacedRow], drawing: Drawing) -> Result<List<u32>, Memory>
    requires { IsValid (graph_in drawing) }
    ensures { IfOk result (λ ids. ids ≡ map (origin_in rows.now drawing.keys.items) (visited_of (graph_in drawing))) }
{
    let Drawing { root, nodes, keys } = drawing;
    let graph = graph_of(root, nodes);
    let order = visited(alloc, &graph)?;
    rows_of(alloc, rows, keys.as_slice(), order.as_slice())
}

fn graph_of(root: Slot, nodes: Vec<Node>) -> Graph
    ensures { result ≡ record { root = root; nodes = nodes.items } }
{
    Graph {
        root,
        nodes: List::new(nodes),
    }
}

/// The ids of the rows that hold these nodes.
fn rows_of(
    alloc: Global,
    rows: &[PlacedRow],
    keys: &[NodeKey],
    nodes: &[u32],
) -> Result<List<u32>, Memory>
    ensures { IfOk result (λ ids. ids ≡ map (origin_in rows.now keys.now) nodes.now) }
{
    let mut ids = Vec::with_capacity(alloc, nodes.len())?;
    for node in nodes {
        ids.push(row_of(rows, keys, *node))?;
    }
    Ok(List::new(ids))
}

/// The id of the row that holds a node.
fn row_of(rows: &[PlacedRow], keys: &[NodeKey], node: u32) -> u32
    ensures { result ≡ origin_in rows.now keys.now node }
{
    match keys.get(node as usize) {
        Some(NodeKey::Made(spot)) => id_at(rows, spot.row),
        Some(NodeKey::Promise(id) | NodeKey::Action(id)) => *id,
        // Each node has a key.
        None => 0,
    }
}

/// The id of a row.
fn id_at(rows: &[PlacedRow], row: u32) -> u32
    ensures { result ≡ id_of_row rows.now row }
{
    match row_at(rows, row as usize) {
        Some(row) => row.id,
        // Each key is that of a row.
        None => 0,
    }
}
