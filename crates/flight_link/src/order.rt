ghost use Rattle.std.specs.Prelude.{◌≡◌, ◌≤◌, ◌++◌, ◌∷◌, [], None, IfOk, OnOk, codes, length, reverse};
ghost use Rattle.flight_value.specs.Graph.{IsValid};
ghost use Rattle.flight_value.specs.Store.{DrawOneGraph, of_graph};
ghost use Rattle.flight_value.specs.declared.graph.Graph.{Graph};
ghost use Rattle.flight_graph.specs.Text.{text_of};
ghost use Rattle.flight_meaning.specs.Meaning.{meaning};
ghost use Rattle.flight_link.specs.Drafted.{DraftsNode, IsDrafted, plain, slot_parts};
ghost use Rattle.flight_link.specs.Marks.{IsWhole};
ghost use Rattle.flight_link.specs.Numbering.{AreNumbered, IsKey, number_of as its_number};
ghost use Rattle.flight_link.specs.Ordering.{IsOrdered, IsOnWay, VisitsKey, key_in, keys_in, turns_left};

use crate::draft::Draft;
use crate::draw::Whole;
use crate::key::NodeKey;
use crate::laid::within;
use crate::numbers::Numbers;
use crate::table::Table;
use crate::target::Target;
use crate::text::{write_line, write_slot};
use flight_value::{Memory, Text};
use std::alloc::Global;

impl Table {
    /// The canonical text of what the rows mean: that of [`Table::graph`], which is not built. The places are gone over
    /// once, since to fetch them from memory costs most.
    pub fn text(&self, whole: Whole<'_>, alloc: Global) -> Result<Text, Memory>
        requires { IsWhole self.now whole.states.now whole.bases.before.now whole.bases.total }
        ensures { IfOk result (λ t. (g : Graph) × IsValid g × DrawOneGraph (of_graph g) (meaning self.now.rows.items) × (t ≡ text_of g)) }
    {
        let mut draft = Draft::new(alloc);
        let numbers = self.in_order(whole, alloc, &mut draft)?;
        within(numbers.keys.len())?;
        self.filled(whole.bases, alloc, &numbers, draft)
    }

    /// The keys of the nodes to which the value of row 0 leads, each under its number in the order of a first visit:
    /// that of the canon of [`Table::graph`]. The text of the nodes is drafted on the way.
    fn in_order(
        &self,
        whole: Whole<'_>,
        alloc: Global,
        draft: &mut Draft,
    ) -> Result<Numbers, Memory>
        requires whole { IsWhole self.now whole.states.now whole.bases.before.now whole.bases.total }
        requires empty { draft.old ≡ [] }
        ensures numbered { IfOk result (AreNumbered self.now.rows.items) }
        ensures ordered { IfOk result (λ n. IsOrdered self.now.rows.items n.keys.items) }
        ensures drafted { IfOk result (λ n. IsDrafted self.now.rows.items n.keys.items draft.new) }
    {
        let mut numbers = Numbers::new(alloc, whole.bases.total)?;
        let mut waiting = Vec::new(alloc);
        let mut targets = Vec::new(alloc);
        let root = self.target_of(whole.states, 0);
        draft_root(draft, &root)?;
        push_key(&mut waiting, root)?;
        'keys: while let Some(key) = waiting.pop() {
            self.meet(whole, draft, &mut numbers, &mut waiting, &mut targets, key)?;
        }
        Ok(numbers)
    }

    /// Meets a key, which is visited if it has no number.
    fn meet<'a>(
        &'a self,
        whole: Whole<'_>,
        draft: &mut Draft,
        numbers: &mut Numbers,
        waiting: &mut Vec<NodeKey>,
        targets: &mut Vec<Target<'a>>,
        key: NodeKey,
    ) -> Result<(), Memory>
        requires whole { IsWhole self.now whole.states.now whole.bases.before.now whole.bases.total }
        requires numbered { AreNumbered self.now.rows.items numbers.old }
        requires on_way { IsOnWay self.now.rows.items numbers.old.keys.items (waiting.old.items ++ key ∷ []) }
        requires drafted { IsDrafted self.now.rows.items numbers.old.keys.items draft.old }
        ensures numbered { OnOk result (AreNumbered self.now.rows.items numbers.new) }
        ensures on_way { OnOk result (IsOnWay self.now.rows.items numbers.new.keys.items waiting.new.items) }
        ensures turns { OnOk result (turns_left numbers.new.keys.items waiting.new.items ≤ turns_left numbers.old.keys.items waiting.old.items) }
        ensures drafted { OnOk result (IsDrafted self.now.rows.items numbers.new.keys.items draft.new) }
    {
        if self.number_of(whole.bases, numbers, key).is_none() {
            self.visit(whole, draft, numbers, waiting, targets, key)?;
        }
        Ok(())
    }

    /// Gives a key the next number, and drafts the line of its node. The keys of the nodes that its slots lead to are the
    /// next to be met.
    fn visit<'a>(
        &'a self,
        whole: Whole<'_>,
        draft: &mut Draft,
        numbers: &mut Numbers,
        waiting: &mut Vec<NodeKey>,
        targets: &mut Vec<Target<'a>>,
        key: NodeKey,
    ) -> Result<(), Memory>
        requires whole { IsWhole self.now whole.states.now whole.bases.before.now whole.bases.total }
        requires numbered { AreNumbered self.now.rows.items numbers.old }
        requires key { IsKey self.now.rows.items key }
        requires fresh { its_number self.now.rows.items numbers.old key ≡ None }
        ensures numbered { OnOk result (AreNumbered self.now.rows.items numbers.new) }
        ensures visits { OnOk result (VisitsKey self.now.rows.items key numbers.old.keys.items numbers.new.keys.items waiting.old.items waiting.new.items) }
        ensures drafts { OnOk result (DraftsNode self.now.rows.items key (length numbers.old.keys.items) draft.old draft.new) }
    {
        let number = numbers.keys.len();
        self.add_key(whole.bases, numbers, key)?;
        let head = self.lay_out(whole, key, targets)?;
        write_line(draft, number, head, targets.as_slice())?;
        push_nodes(waiting, targets.as_slice())
    }
}

/// Drafts the line of the root.
fn draft_root(draft: &mut Draft, root: &Target<'_>) -> Result<(), Memory>
    ensures { OnOk result (draft.new ≡ draft.old ++ plain (codes "root ") ++ slot_parts root.now ++ plain (codes "\n")) }
{
    draft.push_str("root ")?;
    write_slot(draft, root)?;
    draft.push(b'\n')
}

/// Puts the keys of the nodes among targets on top of the waiting ones, the first one last.
fn push_nodes(waiting: &mut Vec<NodeKey>, targets: &[Target<'_>]) -> Result<(), Memory>
    ensures { OnOk result (waiting.new.items ≡ waiting.old.items ++ reverse (keys_in targets.now)) }
{
    let from = waiting.len();
    push_keys(waiting, targets)?;
    waiting[from..].reverse();
    Ok(())
}

/// Puts the keys of the nodes among targets behind the waiting ones, in order.
fn push_keys(waiting: &mut Vec<NodeKey>, targets: &[Target<'_>]) -> Result<(), Memory>
    ensures { OnOk result (waiting.new.items ≡ waiting.old.items ++ keys_in targets.now) }
{
    for target in targets {
        push_key(waiting, *target)?;
    }
    Ok(())
}

/// Puts the key of a target behind the waiting ones, if it is a node.
fn push_key(waiting: &mut Vec<NodeKey>, target: Target<'_>) -> Result<(), Memory>
    ensures { OnOk result (waiting.new.items ≡ waiting.old.items ++ key_in target.entry) }
{
    match target {
        Target::Node(spot) => waiting.push(NodeKey::Made(spot))?,
        Target::Promise(id) => waiting.push(NodeKey::Promise(id))?,
        Target::Action(id) => waiting.push(NodeKey::Action(id))?,
        Target::Atom(_) | Target::Awaits(_) | Target::Lost => {}
    }
    Ok(())
}
