ghost use Rattle.std.specs.Prelude.{◌≡◌, List};
ghost use Rattle.flight_value.specs.Graph.{IsValid};
ghost use Rattle.flight_value.specs.Store.{DrawOneGraph, of_graph};
ghost use Rattle.flight_value.specs.declared.graph.Graph.{Graph};
ghost use Rattle.flight_graph.specs.Canon.{canon_of};
ghost use Rattle.flight_meaning.specs.declared.place.PlacedRow.{PlacedRow};
ghost use Rattle.flight_meaning.specs.Meaning.{meaning};

/// Two graphs of what the same rows mean have one canon.
pub fn one_canon()
    ensures { (rows : List PlacedRow) (g h : Graph) → IsValid g → IsValid h → DrawOneGraph (of_graph g) (meaning rows) → DrawOneGraph (of_graph h) (meaning rows) → canon_of g ≡ canon_of h }
{}
