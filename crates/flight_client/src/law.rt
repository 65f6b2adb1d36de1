ghost use Rattle.std.specs.Prelude.{ℕ, List, ◌++◌};
ghost use Rattle.flight_value.specs.Store.{DrawOneGraph, of_graph};
ghost use Rattle.flight_value.specs.declared.graph.Graph.{Graph};
ghost use Rattle.flight_meaning.specs.declared.place.PlacedRow.{PlacedRow};
ghost use Rattle.flight_meaning.specs.Meaning.{Written, meaning};
ghost use Rattle.flight_link.specs.Looking.{Sight, Sees, IsSeen};
ghost use Rattle.flight_link.specs.declared.found.Seen.{Seen};
ghost use Rattle.flight_client.specs.Adding.{Grows};
ghost use Rattle.flight_client.specs.AnyPrefix.{HasOneMark, IsFinal, IsSame, LabelsStay, Lasts, NoPlaceStays, ShowsAlike};
ghost use Rattle.flight_client.specs.OneReading.{HasOneReading, HasOneEnd};

/// A law, which does nothing: a stream has one reading, whatever the pieces in which it comes. What has come of it is
/// rows, or has a fault behind rows, in one way only; a whole stream is good rows, or has a fault, in one way only; and
/// the graphs that good rows mean have one canon.
pub fn one_reading()
    ensures so_far { (text : List ℕ) → HasOneReading text }
    ensures ended { (text : List ℕ) → HasOneEnd text }
{}

/// A law: at each path a graph of the rows has what a look shows there, the same atom or a node of the same kind.
pub fn partial_as_seen()
    ensures { (rows : List PlacedRow) (g : Graph) → DrawOneGraph (of_graph g) (meaning rows) → ShowsAlike rows g }
{}

/// A law: what a look showed stays when more rows come, and its label keeps its mark.
pub fn labels_stay()
    ensures sights { (rows more : List PlacedRow) (path : List ℕ) (w : Written) (sight : Sight) → Sees rows w path sight → Lasts (rows ++ more) w path sight }
    ensures labels { (rows more : List PlacedRow) → LabelsStay rows more }
{}

/// A law: where a path leads to no place, it leads to none when more rows come.
pub fn no_place_stays()
    ensures { (rows more : List PlacedRow) → NoPlaceStays rows more }
{}

/// A law: a node has one mark, and two nodes never have the same.
pub fn marks_tell_nodes()
    ensures { (rows : List PlacedRow) → HasOneMark rows }
{}

/// A law: a look has one answer at a path, and a label, with its mark, or that there is no place, which it answered before
/// a piece came, it answers after it too, since [`crate::Client::feed`] only adds rows.
pub fn looks_stay()
    ensures one { (rows : List PlacedRow) (path : List ℕ) (a b : Seen) → IsSeen rows path a → IsSeen rows path b → IsSame a b }
    ensures stays { (old new : List PlacedRow) (path : List ℕ) (a b : Seen) → Grows old new → IsFinal a → IsSeen old path a → IsSeen new path b → IsSame a b }
{}
