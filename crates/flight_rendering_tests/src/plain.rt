ghost use Rattle.std.specs.Prelude.{◌≡◌, ◌∷◌, [], IfOk, codes, pos};
ghost use Rattle.flight_syntax.specs.Term.{term, binary, variable, atom};
ghost use Rattle.flight_syntax.specs.declared.expr.Expr.{Expr};
ghost use Rattle.flight_render.specs.Valid.{IsValidGround};

use flight_render::{Ground, Root};
use flight_seq::{Rendered, plain, rendered};
use flight_syntax::{Declared, Expr, Op, Program, Script, Seen};
use flight_value::{Atom, Graph, List, Memory, Node, Slot, Text};
use sqlite_items::Boxed;
use std::alloc::Global;
use std::test::Fail;

/// `action add(a, b) = (a + b);`
fn add(alloc: Global) -> Result<Declared, Memory>
    ensures { IfOk result (λ d. (body : Expr) × ((d ≡ Declared.Action (codes "add") (codes "a" ∷ codes "b" ∷ []) body) × (term body ≡ binary Op.Plus (variable 0) (variable 1)))) }
{
    let params = vec![in alloc; Text::new(alloc, "a")?, Text::new(alloc, "b")?]?;
    Ok(Declared::Action {
        name: Text::new(alloc, "add")?,
        params: List::new(params),
        body: Expr::Binary {
            op: Op::Plus,
            left: Boxed::new(alloc, Expr::Variable(0))?,
            right: Boxed::new(alloc, Expr::Variable(1))?,
        },
    })
}

/// `server App() = null;`
fn app(alloc: Global) -> Result<Declared, Memory>
    ensures { IfOk result (λ d. (body : Expr) × ((d ≡ Declared.Server (codes "App") [] body) × (term body ≡ atom Atom.Null))) }
{
    Ok(Declared::Server {
        name: Text::new(alloc, "App")?,
        params: List::new(Vec::new(alloc)),
        body: Expr::Atom(Atom::Null),
    })
}

/// The arguments 2 and 3.
fn two_and_three(alloc: Global) -> Result<Graph, Memory>
    ensures { IfOk result (λ g. g ≡ record { root = Slot.Node 0; nodes = Node.Array (Slot.Atom (Atom.Whole (pos 2)) ∷ Slot.Atom (Atom.Whole (pos 3)) ∷ []) ∷ [] }) }
{
    let slots = vec![in alloc; Slot::Atom(Atom::Whole(2)), Slot::Atom(Atom::Whole(3))]?;
    let nodes = vec![in alloc; Node::Array(List::new(slots))]?;
    Ok(Graph {
        root: Slot::Node(0),
        nodes: List::new(nodes),
    })
}

/// A call of the action with the two arguments, over no data.
#[tactic(auto, using(crate::proofs::Called::call_valid))]
fn call(alloc: Global) -> Result<Ground, Memory>
    ensures valid { IfOk result IsValidGround }
    ensures alone { IfOk result (λ g. g.script.sources ≡ []) }
{
    let declared = vec![in alloc; add(alloc)?, app(alloc)?]?;
    Ok(Ground {
        program: Program {
            declared: List::new(declared),
        },
        script: Script {
            sources: List::new(Vec::new(alloc)),
            streams: List::new(Vec::new(alloc)),
            settlers: List::new(Vec::new(alloc)),
        },
        root: Root::Call {
            action: 0,
            args: two_and_three(alloc)?,
        },
    })
}

/// Whether a graph is a number alone.
fn is_number(graph: &Graph, number: i64) -> bool {
    graph.root == Slot::Atom(Atom::Whole(number)) && graph.nodes.as_slice().is_empty()
}

#[test]
fn calls_an_action(rt: HostRuntime) -> Result<(), Fail> {
    let ground = call(rt.alloc())?;
    let seen = Seen {
        settled: List::new(Vec::new(rt.alloc())),
    };
    match rendered(rt.alloc(), &ground, &seen, 1_000_000)? {
        Rendered::Within { total, graph } => {
            assert!(rt; total == 4);
            assert!(rt; is_number(&graph, 5));
            let graph = plain(rt.alloc(), &ground, &seen)?;
            assert!(rt; is_number(&graph, 5));
        }
        Rendered::Over => assert!(rt; false),
    }
    Ok(())
}
