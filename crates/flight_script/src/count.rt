ghost use Rattle.std.specs.Prelude.{◌≡◌, length};
ghost use Rattle.std.specs.List.{list_all};
ghost use Rattle.flight_script.specs.Counts.{fits, node_fits, outcome_fits, script_fits};

use flight_syntax::{Data, Flowing, Outcome, Script};
use flight_value::Node;

/// Whether the lists of a script are not too long for numbers of 32 bits.
pub fn script_fits(script: &Script) -> bool
    ensures { result ≡ script_fits script.now }
{
    fits(script.sources.as_slice().len())
        && fits(script.streams.as_slice().len())
        && sources_fit(script.sources.as_slice())
        && streams_fit(script.streams.as_slice())
}

/// Whether so many of something can be numbered.
fn fits(count: usize) -> bool
    ensures { result ≡ fits count }
{
    count < 1 << 32
}

/// Whether the graphs of sources do.
fn sources_fit(sources: &[Data]) -> bool
    ensures { result ≡ list_all (λ d. outcome_fits d.outcome) sources.now }
{
    sources.iter().all(|source| outcome_fits(&source.outcome))
}

/// Whether the items of streams do.
fn streams_fit(streams: &[Flowing]) -> bool
    ensures { result ≡ list_all (λ f. fits (length f.items)) streams.now }
{
    streams
        .iter()
        .all(|stream| fits(stream.items.as_slice().len()))
}

/// Whether the nodes of a graph and their slots do.
fn outcome_fits(outcome: &Outcome) -> bool
    ensures { result ≡ outcome_fits outcome.now }
{
    match outcome {
        Outcome::Value(graph) => {
            fits(graph.nodes.as_slice().len()) && nodes_fit(graph.nodes.as_slice())
        }
        Outcome::Reject(_) => true,
    }
}

/// Whether the slots of nodes do.
fn nodes_fit(nodes: &[Node]) -> bool
    ensures { result ≡ list_all node_fits nodes.now }
{
    nodes.iter().all(|node| node_fits(node))
}

/// Whether the slots of a node do. An entry of a map has two.
fn node_fits(node: &Node) -> bool
    ensures { result ≡ node_fits node.now }
{
    match node {
        Node::Array(slots) => fits(slots.as_slice().len()),
        Node::Object(props) => fits(props.as_slice().len()),
        Node::Map(pairs) => pairs.as_slice().len() < 1 << 31,
        Node::Set(slots) => fits(slots.as_slice().len()),
        _ => true,
    }
}
