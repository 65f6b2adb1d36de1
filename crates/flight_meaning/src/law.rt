ghost use Rattle.std.specs.Prelude.{ℕ, ◌+◌, ◌≡◌, ◌≢◌, ◌↔◌, List, [], ◌∷◌, ◌++◌, length, Option, Some};
ghost use Rattle.flight_value.specs.Store as store;
ghost use Rattle.flight_value.specs.Store.{FlowState, Shape, Target, Fits, Paired, DrawOneGraph, of_graph};
ghost use Rattle.flight_value.specs.declared.graph.Flow.{Flow};
ghost use Rattle.flight_value.specs.declared.graph.Graph.{Graph};
ghost use Rattle.flight_text.specs.declared.mark.Ref.{Ref};
ghost use Rattle.flight_meaning.specs.declared.place.Place.{Place};
ghost use Rattle.flight_meaning.specs.declared.place.PlaceTree.{PlaceTree};
ghost use Rattle.flight_meaning.specs.declared.place.PlacedRow.{PlacedRow};
ghost use Rattle.flight_meaning.specs.Linked.{rows_of, Standing, goes, after, standing_of, FollowOn, Spot, place_at};
ghost use Rattle.flight_meaning.specs.Resolve.{Path, Stand, to, here, Found, found, stream, not_yet, nowhere, on, ends, turn, Ends, Endless, LeadsNowhere, IsEnd, StopsAt, IsThere, WaitsForNone};
ghost use Rattle.flight_meaning.specs.Meaning.{Written, Identity, stream_of, Token, HasSlots, FailsWith, flowing, flowed, joined, HasShape, pending, Leads, meaning};
ghost use Rattle.flight_meaning.specs.Good.{IsDefined, IsLeastUndefined};
ghost use Rattle.flight_meaning.specs.Lasting.{HasEnded, HasGrown, IsSettled, IsResolvedUnder, IsComplete};

/// A fact alone: the rows of an id are those that came, in order. With more rows, how the id stands and what its stream
/// holds go on from where they were, and rows of which none is refused begin with such rows.
pub fn rows_follow()
    ensures rows { (id : ℕ) (rows more : List PlacedRow) → rows_of id (rows ++ more) ≡ rows_of id rows ++ rows_of id more }
    ensures standing { (id : ℕ) (rows more : List PlacedRow) (s : Standing) → standing_of id rows ≡ Some s → standing_of id (rows ++ more) ≡ after (goes s) (rows_of id more) }
    ensures front { (rows more : List PlacedRow) → FollowOn (rows ++ more) → FollowOn rows }
    ensures items { (id first : ℕ) (trees more : List PlaceTree) → (flowed id first trees).end ≡ flowing → flowed id first (trees ++ more) ≡ joined (flowed id first trees) (flowed id (first + length trees) more) }
{}

/// A fact alone: a walk ends with a turn that ends it, and else where it ends from the stand to which its turn leads. At a
/// place that is no lazy and no value reference it ends at once, where no step is left.
pub fn walks_turn()
    ensures goes_on { (rows : List PlacedRow) (s next : Stand) (f : Found) → turn rows s ≡ on next → (Ends rows s f ↔ Ends rows next f) }
    ensures last { (rows : List PlacedRow) (s : Stand) (f : Found) → turn rows s ≡ ends f → Ends rows s f }
    ensures stops { (rows : List PlacedRow) (s : Spot) → StopsAt rows s → turn rows (here s []) ≡ ends (found s) }
{}

/// A fact alone: a walk has at most one end, and one that ends is not endless. At a place where it ends stands no lazy
/// and no value reference, and an id that it waits for has no row.
pub fn one_end()
    ensures one { (rows : List PlacedRow) (s : Stand) (f g : Found) → Ends rows s f → Ends rows s g → f ≡ g }
    ensures apart { (rows : List PlacedRow) (s : Stand) (f : Found) → Ends rows s f → ¬ Endless rows s }
    ensures stops { (rows : List PlacedRow) (s : Stand) (at : Spot) → Ends rows s (found at) → StopsAt rows at }
    ensures waits { (rows : List PlacedRow) (s : Stand) (id : ℕ) (path : Path) → Ends rows s (not_yet id path) → rows_of id rows ≡ [] }
{}

/// A fact alone: with more steps a walk goes on from where it ended without them.
pub fn steps_go_on()
    ensures from_place { (rows : List PlacedRow) (id : ℕ) (path more : Path) (s : Spot) (f : Found) → Ends rows (to id path) (found s) → (Ends rows (to id (path ++ more)) f ↔ Ends rows (here s more) f) }
    ensures from_absent { (rows : List PlacedRow) (id later : ℕ) (path more rest : Path) → Ends rows (to id path) (not_yet later rest) → Ends rows (to id (path ++ more)) (not_yet later (rest ++ more)) }
    ensures from_stream { (rows : List PlacedRow) (id at : ℕ) (path more : Path) (name : List ℕ) → Ends rows (to id path) (stream at) → Ends rows (to id (path ++ name ∷ more)) nowhere }
    ensures from_nowhere { (rows : List PlacedRow) (id : ℕ) (path more : Path) → LeadsNowhere rows (to id path) → LeadsNowhere rows (to id (path ++ more)) }
{}

/// A fact alone: over more rows a walk goes the same way, and on where its id has come.
pub fn walks_on()
    ensures ended { (rows more : List PlacedRow) (s : Stand) (f : Found) → IsEnd f → Ends rows s f → Ends (rows ++ more) s f }
    ensures waited { (rows more : List PlacedRow) (s : Stand) (id : ℕ) (path : Path) (f : Found) → Ends rows s (not_yet id path) → (Ends (rows ++ more) s f ↔ Ends (rows ++ more) (to id path) f) }
    ensures waited_endless { (rows more : List PlacedRow) (s : Stand) (id : ℕ) (path : Path) → Ends rows s (not_yet id path) → (Endless (rows ++ more) s ↔ Endless (rows ++ more) (to id path)) }
    ensures nowhere { (rows more : List PlacedRow) (s : Stand) → IsThere rows s → LeadsNowhere rows s → LeadsNowhere (rows ++ more) s }
    ensures back { (rows more : List PlacedRow) (s : Stand) (f : Found) → IsThere rows s → WaitsForNone rows s → Ends (rows ++ more) s f → Ends rows s f }
{}

/// A fact alone: each slot leads to one target, and under each identity stands one node. A reference does not lead to
/// slots and to a failure. One id at most is the least that is not defined.
pub fn one_meaning()
    ensures targets { (rows : List PlacedRow) (w : Written) (x y : Target Identity) → Leads rows w x → Leads rows w y → x ≡ y }
    ensures nodes { (rows : List PlacedRow) (k : Identity) (x y : Shape Written) → HasShape rows k x → HasShape rows k y → x ≡ y }
    ensures slots { (rows : List PlacedRow) (token : Token) (r : Ref) (x y : List Written) → HasSlots rows token r x → HasSlots rows token r y → x ≡ y }
    ensures failures { (rows : List PlacedRow) (token : Token) (r : Ref) (slots : List Written) (digest : List ℕ) → HasSlots rows token r slots → ¬ FailsWith rows r digest }
    ensures undefined { (rows : List PlacedRow) (a b : Option ℕ) → IsLeastUndefined rows a → IsLeastUndefined rows b → a ≡ b }
{}

/// A fact alone: what some rows resolved stays, whatever rows follow. A stream that still goes on takes more slots behind
/// its own.
pub fn resolved_stays()
    ensures places { (rows more : List PlacedRow) (s : Spot) (at : Place) → place_at rows s ≡ Some at → place_at (rows ++ more) s ≡ Some at }
    ensures targets { (rows more : List PlacedRow) (w : Written) (x : Target Identity) → x ≢ pending → Leads rows w x → Leads (rows ++ more) w x }
    ensures settled { (rows more : List PlacedRow) (w : Written) (x : Target Identity) → IsSettled rows w → Leads rows w x → Leads (rows ++ more) w x }
    ensures nodes { (rows more : List PlacedRow) (k : Identity) (shape : Shape Written) → HasEnded shape.label → HasShape rows k shape → HasShape (rows ++ more) k shape }
    ensures streams { (rows more : List PlacedRow) (id : ℕ) (flow : Flow) (state : FlowState) (slots : List Written) → HasShape rows (stream_of id) (record { label = store.stream flow state; slots = slots }) → HasGrown (rows ++ more) id flow slots }
    ensures defined { (rows more : List PlacedRow) (at : Place) → IsDefined rows at → IsDefined (rows ++ more) at }
{}

/// A fact alone: a list of pairs for a graph and the meaning of rows stays one when rows are added, where it speaks of
/// what was resolved. So a graph of the rows in which nothing pends stays the graph of the rows.
pub fn pairs_stay()
    ensures pairs { (g : Graph) (pairs : List (ℕ × Identity)) (rows more : List PlacedRow) → IsResolvedUnder (Paired pairs) rows → Fits (Paired pairs) (of_graph g) (meaning rows) → Fits (Paired pairs) (of_graph g) (meaning (rows ++ more)) }
    ensures graphs { (g : Graph) (rows more : List PlacedRow) → IsComplete (of_graph g) → DrawOneGraph (of_graph g) (meaning rows) → DrawOneGraph (of_graph g) (meaning (rows ++ more)) }
{}
