ghost use Rattle.std.specs.Prelude.{◌≡◌};
ghost use Rattle.flight_link.specs.Looking.{IsSeen};
ghost use Rattle.flight_link.specs.Marks.{AreBases};
ghost use Rattle.flight_link.specs.Nodes.{AreLinked, IsTable, place_in};
ghost use Rattle.flight_link.specs.Slots.{IsSeenTarget, IsTargetOfSome, kind_in};

use crate::below::Below;
use crate::found::{Seen, Spot};
use crate::mention::{Bases, Mention};
use crate::node::State;
use crate::table::Table;
use crate::target::Target;
use flight_graph::{Kind, Label};
use flight_meaning::Place;

impl Table {
    /// What a path from the root shows.
    pub fn look(&self, states: &[State], bases: Bases<'_>, path: &[u32]) -> Seen<'_>
        requires linked { AreLinked self.now states.now }
        requires bases { AreBases self.now.rows.items bases.before.now bases.total }
        ensures { IsSeen self.now.rows.items path.now result }
    {
        let mut target = self.target_of(states, 0);
        let mut rest = path;
        'way: while let Some((slot, behind)) = rest.split_first() {
            match self.below(states, target, *slot) {
                Below::Slot(next) => target = next,
                Below::NotYet(id) => return Seen::NotYet { id },
                Below::NoPlace => return Seen::NoPlace,
            }
            rest = behind;
        }
        self.seen(bases, target)
    }

    /// What is seen at a slot that leads to a target.
    fn seen<'a>(&'a self, bases: Bases<'_>, target: Target<'a>) -> Seen<'a>
        requires table { IsTable self.now }
        requires bases { AreBases self.now.rows.items bases.before.now bases.total }
        requires target { IsTargetOfSome self.now.rows.items target }
        ensures { IsSeenTarget self.now.rows.items target.entry result }
    {
        match target {
            Target::Atom(atom) => Seen::Label(Label::Atom(atom)),
            Target::Node(spot) => self.seen_node(bases, spot),
            Target::Promise(id) => self.seen_promise(bases, id),
            Target::Action(id) => self.seen_action(bases, id),
            Target::Awaits(id) => Seen::NotYet { id },
            Target::Lost => Seen::NoPlace,
        }
    }

    fn seen_node(&self, bases: Bases<'_>, spot: Spot) -> Seen<'_>
        requires table { IsTable self.now }
        requires bases { AreBases self.now.rows.items bases.before.now bases.total }
        requires target { IsTargetOfSome self.now.rows.items (Target.Node spot) }
        ensures { IsSeenTarget self.now.rows.items (Target.Node spot) result }
    {
        Seen::Label(Label::Node {
            kind: self.kind(spot),
            mark: self.number(bases, spot),
        })
    }

    fn seen_promise(&self, bases: Bases<'_>, id: u32) -> Seen<'_>
        requires table { IsTable self.now }
        requires bases { AreBases self.now.rows.items bases.before.now bases.total }
        requires target { IsTargetOfSome self.now.rows.items (Target.Promise id) }
        ensures { IsSeenTarget self.now.rows.items (Target.Promise id) result }
    {
        Seen::Label(Label::Node {
            kind: Kind::Promise,
            mark: self.first_mention(bases, Mention::Promise(id)),
        })
    }

    fn seen_action(&self, bases: Bases<'_>, id: u32) -> Seen<'_>
        requires table { IsTable self.now }
        requires bases { AreBases self.now.rows.items bases.before.now bases.total }
        requires target { IsTargetOfSome self.now.rows.items (Target.Action id) }
        ensures { IsSeenTarget self.now.rows.items (Target.Action id) result }
    {
        Seen::Label(Label::Node {
            kind: Kind::Action,
            mark: self.first_mention(bases, Mention::Action(id)),
        })
    }

    /// The kind of the node at a place.
    fn kind(&self, spot: Spot) -> Kind
        ensures { result ≡ kind_in (place_in self.now.rows.items spot) }
    {
        match self.place(spot) {
            Some(Place::Object(_)) => Kind::Object,
            Some(Place::Element { .. }) => Kind::Element,
            Some(Place::Map(_)) => Kind::Map,
            Some(Place::Set(_)) => Kind::Set,
            _ => Kind::Array,
        }
    }
}
