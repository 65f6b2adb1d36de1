ghost use Rattle.std.specs.Prelude.{◌≡◌, All, length};
ghost use Rattle.flight_row.specs.declared.row.Row.{Row};
ghost use Rattle.flight_place.specs.declared.manner.Manner.{Manner};
ghost use Rattle.flight_meaning.specs.declared.place.PlaceTree.{PlaceTree};
ghost use Rattle.flight_place.specs.declared.fault.PlaceKind.{PlaceKind};
ghost use Rattle.flight_place.specs.Parts.{IsWithin, HasOrder};
ghost use Rattle.flight_place.specs.Rows.{IsTree, IsRowFault};

/// Each number in a place is that of a place of the same tree.
pub fn numbers_lead_to_places()
    ensures { (manner : Manner) (row : Row) (t : PlaceTree) → IsTree manner row t → All (IsWithin (length t.places)) t.places }
{}

/// The names of an object ascend by their bytes.
pub fn names_ascend()
    ensures { (manner : Manner) (row : Row) (t : PlaceTree) → IsTree manner row t → All HasOrder t.places }
{}

/// A row has one tree of places or one first fault, and never both.
pub fn one_tree()
    ensures trees { (manner : Manner) (row : Row) (t u : PlaceTree) → IsTree manner row t → IsTree manner row u → t ≡ u }
    ensures faults { (manner : Manner) (row : Row) (j k : PlaceKind) → IsRowFault manner row j → IsRowFault manner row k → j ≡ k }
    ensures apart { (manner : Manner) (row : Row) (t : PlaceTree) (k : PlaceKind) → IsTree manner row t → ¬ IsRowFault manner row k }
{}
