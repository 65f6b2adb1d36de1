ghost use Rattle.std.specs.Prelude.{ℕ, ◌≡◌, List, length};
ghost use Rattle.flight_value.specs.Graph.{IsValid};
ghost use Rattle.flight_value.specs.Store.{Fits, Paired, DrawOneGraph, of_graph};
ghost use Rattle.flight_value.specs.declared.graph.Graph.{Graph};
ghost use Rattle.flight_graph.specs.Canon.{canon_of, visited_of};
ghost use Rattle.flight_graph.specs.Joined.{Joined};
ghost use Rattle.flight_graph.specs.Ordered.{in_order};
ghost use Rattle.flight_graph.specs.Text.{graph_text, text_of};

/// The law of pairs, which is a fact alone and does nothing: two valid graphs have one canon exactly where
/// some list of pairs of their nodes fits.
pub fn same_by_pairs()
    ensures same { (g h : Graph) → IsValid g → IsValid h → DrawOneGraph (of_graph g) (of_graph h) → canon_of g ≡ canon_of h }
    ensures drawn { (g h : Graph) → IsValid g → IsValid h → canon_of g ≡ canon_of h → DrawOneGraph (of_graph g) (of_graph h) }
{}

/// A fact alone: where pairs of the nodes of two graphs with those of a third fit, the pairs of the two whose partners are
/// one node there fit too. (A clause cannot speak of all stores; `proofs/Drawn.antt` shows it of any.)
pub fn pairs_join()
    ensures { (g h third : Graph) (pairs more : List (ℕ × ℕ)) → Fits (Paired pairs) (of_graph g) (of_graph third) → Fits (Paired more) (of_graph h) (of_graph third) → Fits (Joined (Paired pairs) (Paired more)) (of_graph g) (of_graph h) }
{}

/// A fact alone: the canon of a valid graph is valid.
pub fn canon_is_valid()
    ensures { (g : Graph) → IsValid g → IsValid (canon_of g) }
{}

/// A fact alone: a valid graph whose nodes stand in the order of a first visit is its own canon.
pub fn canon_in_order()
    ensures canon { (g : Graph) → IsValid g → visited_of g ≡ in_order (length g.nodes) → canon_of g ≡ g }
    ensures text { (g : Graph) → IsValid g → visited_of g ≡ in_order (length g.nodes) → text_of g ≡ graph_text g }
{}
