ghost use Rattle.std.specs.Prelude.{ℕ, suc, ◌+◌, ◌≡◌, ◌++◌, ◌∷◌, [], List, Option, length, map, slice_get, option_and_then, Some, None};
ghost use Rattle.flight_value.specs.Listed.{In};
ghost use Rattle.flight_value.specs.Store as store;
ghost use Rattle.flight_value.specs.Store.{Label, Shape};
ghost use Rattle.flight_value.specs.declared.graph.Node.{Node};
ghost use Rattle.flight_value.specs.declared.key.Key.{Key};
ghost use Rattle.flight_value.specs.declared.key.Key.TheVariants as key;
ghost use Rattle.flight_value.specs.declared.made.Made.{Made};
ghost use Rattle.flight_value.specs.declared.name.Name.{Name};
ghost use Rattle.flight_text.specs.declared.mark.Ref.{Ref};
ghost use Rattle.flight_text.specs.Mark.{IsPlace};
ghost use Rattle.flight_home.specs.Homes.{Homes, IsNew};
ghost use Rattle.flight_render.specs.declared.root.Ground.{Ground};
ghost use Rattle.flight_render.specs.Values.{outcomes, node_in};
ghost use Rattle.flight_render.specs.Jobs.{Value, shown};
ghost use Rattle.flight_render.specs.Plain.{label_of_kind};
ghost use Rattle.flight_meaning.specs.Meaning.{Token, token_label};
ghost use Rattle.flight_payload.specs.Tree.{single};
ghost use Rattle.flight_payload.specs.Written.{token_of, IsWritable};
ghost use Rattle.flight_row.specs.declared.row.RowKind.{RowKind};
ghost use Rattle.flight_render.specs.declared.job.What.{What};
ghost use Rattle.flight_render.specs.Run.{End};
ghost use Rattle.flight_meaning.specs.declared.place.Place.{Place};
ghost use Rattle.flight_state.specs.Local.{Seen, Met, shape_seen, Births, RowHere, EmitsHere, StreamsHere};
ghost use Rattle.flight_emit.specs.Sheet.{Form, Sheet, rows_on, meant_of, label_of, below, token_place};
ghost use Rattle.flight_emit.specs.Good.{Gives, IsNode, IsLeaf, HasNames};
ghost use Rattle.flight_emit.specs.Whole.{Use, OnPaper};
ghost use Rattle.flight_emit.specs.Log.{Act, Stage, homes_by, births_by, value_of_key, entries_row, IsMetNode, Took};
ghost use Rattle.flight_emit.specs.Wrote.{WroteLeaf, Wrote, WroteParts, WroteNode, IsReadableForm, name_tokens, opens, closes};
ghost use Rattle.flight_emit.specs.Finished.{uses_of, Finished};
ghost use Rattle.flight_emit.specs.Nodes.{IsPlainNode, slots_of_source};

/// A fact alone: sheets that are good, with homes and births, are what a writer owes: that of a task with a row of its
/// own, and that of a stream's row, which is an atom or a reference.
pub fn sheets_emit()
    ensures alone { (g : Ground) (seen : Seen) (first : Value) (id start : ℕ) (before more : Homes) (sheets : List Sheet) (births : Births) (uses : List Use) → OnPaper g seen first (Some id) start before more sheets births uses → EmitsHere g seen first id start (start + length uses) before (before ++ more) (rows_on sheets) births (meant_of sheets) }
    ensures stream { (g : Ground) (seen : Seen) (first w : Value) (end : End) (task : What) (kind : RowKind) (at : Place) (follower : Option What) (start : ℕ) (before more : Homes) (sheets : List Sheet) (births : Births) (uses : List Use) → OnPaper g seen first None start before more sheets births uses → Gives g seen first w → IsLeaf g seen (before ++ more) sheets at w → RowHere g end task (record { kind = kind; places = at ∷ [] }) ((0, first) ∷ []) births follower → StreamsHere g seen first end task start (start + length uses) before (before ++ more) (record { kind = kind; places = at ∷ [] }) (rows_on sheets) follower births ((0, first) ∷ []) (meant_of sheets) }
{}

/// A fact alone: acts whose rows are all written are on paper.
pub fn acts_emit()
    ensures paper { (g : Ground) (seen : Seen) (first : Value) (own : Option ℕ) (start : ℕ) (before : Homes) (acts : List Act) (done sheets : List Sheet) → Finished g seen first own start before acts done sheets → OnPaper g seen first own start before (homes_by start acts) sheets (births_by start acts) (uses_of acts) }
{}

/// A fact alone, of what writing a value comes to: an atom or a reference stands under any reference; what a server
/// element gives in its place stands for it; a node whose home is put first stands in place.
pub fn values_are_written()
    ensures leaf { (g : Ground) (seen : Seen) (r : Ref) (v : Value) (levels : ℕ) (s u : Stage) → WroteLeaf g seen v s u → Wrote g seen r v levels s u }
    ensures given { (g : Ground) (seen : Seen) (r : Ref) (v w : Value) (levels : ℕ) (s u : Stage) → Gives g seen v w → Met g seen v w → Wrote g seen r w levels s u → Wrote g seen r v levels s u }
    ensures node { (g : Ground) (seen : Seen) (k : Key) (r : Ref) (levels : ℕ) (s a u : Stage) → IsPlace r → a ≡ record s { homes = s.homes ++ (k, r) ∷ [] } → IsNew k s.homes → WroteNode g seen k r levels a u → Wrote g seen r (value_of_key k) levels s u }
{}

/// A fact alone, of a node that is written whole at its home: the parts of a composite stand one after another, and its
/// tokens around them; a Map or a Set is a token, whose entries are still to be written.
pub fn nodes_are_written()
    ensures part { (g : Ground) (seen : Seen) (v w : Value) (form : Form) (r : Ref) (names : List (List ℕ)) (values : List Value) (levels : ℕ) (name : List ℕ) (s t m u : Stage) → WroteParts g seen v form r names values levels s t → m ≡ record t { out = t.out ++ name_tokens form name } → Met g seen v w → Wrote g seen (below r name) w levels m u → WroteParts g seen v form r (names ++ name ∷ []) (values ++ w ∷ []) levels s u }
    ensures composite { (g : Ground) (seen : Seen) (k : Key) (r : Ref) (form : Form) (names : List (List ℕ)) (values : List Value) (levels : ℕ) (s b c u : Stage) → b ≡ record s { out = s.out ++ opens form } → (w : WroteParts g seen (value_of_key k) form r names values levels b c) → u ≡ record c { out = c.out ++ closes form } → IsNode g seen (value_of_key k) k → shape_seen g seen k ≡ Some (record { label = label_of form names; slots = values }) → HasNames form names → IsReadableForm form w.parts → WroteNode g seen k r (suc levels) s u }
    ensures token { (g : Ground) (seen : Seen) (k : Key) (r : Ref) (kind : Token) (levels : ℕ) (slots : List Value) (s t u : Stage) → Took (entries_row k) s t → u ≡ record t { out = t.out ++ token_of (token_place kind s.next) ∷ [] } → IsMetNode g seen (value_of_key k) k → shape_seen g seen k ≡ Some (record { label = token_label kind; slots = slots }) → IsWritable (single (token_place kind s.next)) → WroteNode g seen k r levels s u }
{}

/// A fact alone: the shapes of the nodes that a writer goes through, and what is met from them.
pub fn nodes_are_seen()
    ensures made { (g : Ground) (seen : Seen) (name : Name) (m : Made) (label : Label) → seen.look name ≡ Some m → label_of_kind g m.kind ≡ Some label → shape_seen g seen (key.Made name) ≡ Some (record { label = label; slots = map shown m.slots }) }
    ensures source { (g : Ground) (seen : Seen) (source i : ℕ) (n : Node) → IsPlainNode n → option_and_then (λ o. node_in o i) (slice_get (outcomes g) source) ≡ Some n → shape_seen g seen (key.Source source i) ≡ Some (record { label = store.label_of n; slots = slots_of_source source n }) }
    ensures slots { (g : Ground) (seen : Seen) (k : Key) (shape : Shape Value) (w : Value) → IsNode g seen (value_of_key k) k → shape_seen g seen k ≡ Some shape → In w shape.slots → Met g seen (value_of_key k) w }
{}
