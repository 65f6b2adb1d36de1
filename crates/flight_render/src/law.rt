ghost use Rattle.std.specs.Prelude.{◌≡◌, ◌≤◌, ◌<◌, ℕ, Bool, false, List, [], ◌∷◌, ◌++◌, length, Option, Some, None};
ghost use Rattle.std.specs.List.{AllByRecursion};
ghost use Rattle.flight_value.specs.Store.{Target, Shape, atom as target, node_at as node_at_key};
ghost use Rattle.flight_value.specs.declared.graph.Atom.TheVariants.{Pending};
ghost use Rattle.flight_value.specs.declared.key.Key.{Key};
ghost use Rattle.flight_value.specs.declared.made.Made.{Made};
ghost use Rattle.flight_value.specs.declared.made.Tree.{Tree};
ghost use Rattle.flight_value.specs.declared.name.Name.{Name};
ghost use Rattle.flight_syntax.specs.Term.{Term};
ghost use Rattle.flight_render.specs.declared.root.Ground.{Ground};
ghost use Rattle.flight_render.specs.Run.{Run, End, Machine, waits};
ghost use Rattle.flight_render.specs.Values.{is_settled, made_in};
ghost use Rattle.flight_render.specs.Eval.{Context, eval};
ghost use Rattle.flight_render.specs.Body.{body, root_body};
ghost use Rattle.flight_render.specs.Bodies.{inner, element_of, next_body, body_at, node_at, tables_at, tables_for, TabledFor};
ghost use Rattle.flight_render.specs.Jobs.{Job, element, Value, IsFinal, job_of, comes, value_of, Leads, IsTarget, Stands};
ghost use Rattle.flight_render.specs.Plain.{NodeIs};
ghost use Rattle.flight_value.specs.Listed.{In};
ghost use Rattle.flight_render.specs.Costs.{Reached, Stops, Rendered, Total, TotalOver, IsOver};
ghost use Rattle.flight_render.specs.declared.job.What.{What};
ghost use Rattle.flight_render.specs.Attempt.{job_for, run_for, IsTabled};
ghost use Rattle.flight_render.specs.Valid.{IsValidGround, MadeWell, AreTables, BodyMade, IsKnown, ShowsKnown};
ghost use Rattle.flight_render.specs.Laws.{Grows, Stays, Own, LeadBack, TablesLeadBack, NamesBack, IsLasting, IsThere};

/// A body that finishes, or that waits for a source which still is not settled, is the same with more sources
/// settled, nodes and costs included. More settled sources never lower the cost of a body.
pub fn larger_bodies()
    ensures component { (g : Ground) (few many : List Bool) → Grows few many → (tables : List (List Made)) (number : ℕ) (props : Tree) (address : List ℕ) → Stays many (body g few tables number props address).step → body g many tables number props address ≡ body g few tables number props address }
    ensures first { (g : Ground) (few many : List Bool) → Grows few many → Stays many (root_body g few).step → root_body g many ≡ root_body g few }
    ensures cost { (g : Ground) (few many : List Bool) → Grows few many → (tables : List (List Made)) (number : ℕ) (props : Tree) (address : List ℕ) → (body g few tables number props address).after.cost ≤ (body g many tables number props address).after.cost }
{}

/// Rendering only gains with more sources settled. What is there and is no job does not become one.
pub fn larger_rendering()
    ensures bodies { (g : Ground) (few many : List Bool) → Grows few many → (address : List ℕ) (b : Run Tree) → body_at g few address ≡ Some b → Stays many b.step → body_at g many address ≡ Some b }
    ensures nodes { (g : Ground) (few many : List Bool) → Grows few many → (n : Name) (m : Made) → node_at g few n ≡ Some m → node_at g many n ≡ Some m }
    ensures tables { (g : Ground) (few many : List Bool) → Grows few many → (n : Name) (tables : List (List Made)) → TabledFor g few n tables → TabledFor g many n tables }
    ensures jobs { (g : Ground) (few many : List Bool) → Grows few many → (v : Value) (j : Job) → job_of g few v ≡ Some j → job_of g many v ≡ Some j }
    ensures no_jobs { (g : Ground) (few many : List Bool) → Grows few many → (v : Value) → IsThere g few v → job_of g few v ≡ None → job_of g many v ≡ None }
    ensures ends { (g : Ground) (few many : List Bool) → Grows few many → (j : Job) (end : End) → comes g few j ≡ Some end → Stays many end → comes g many j ≡ Some end }
    ensures chains { (g : Ground) (few many : List Bool) → Grows few many → (v : Value) (js : List Job) (w : Value) → Leads g few v js w → IsFinal w → Leads g many v js w }
    ensures shapes { (g : Ground) (few many : List Bool) → Grows few many → (k : Key) (shape : Shape Value) → IsLasting k → NodeIs g few k shape → NodeIs g many k shape }
    ensures slots { (g : Ground) (few many : List Bool) → Grows few many → (k : Key) (shape : Shape Value) (v : Value) → NodeIs g few k shape → In v shape.slots → (after : Shape Value) × (NodeIs g many k after) × In v after.slots }
    ensures reached { (g : Ground) (few many : List Bool) → Grows few many → (v : Value) → Reached g few v → IsFinal v → Reached g many v }
    ensures rendered { (g : Ground) (few many : List Bool) → Grows few many → (address : List ℕ) (cost : ℕ) → Rendered g few address cost → Rendered g many address cost }
    ensures stands { (g : Ground) → IsValidGround g → (few many : List Bool) → Grows few many → (v : Value) → Reached g few v → (t : Target Key) → Stands g few v t → (t ≡ target Pending → ⊥) → Stands g many v t }
    ensures stops { (g : Ground) (few many : List Bool) → Grows few many → (source : ℕ) → is_settled many source ≡ false → Stops g few source → Stops g many source }
    ensures total { (g : Ground) (few many : List Bool) → Grows few many → (less more : ℕ) → Total g few less → Total g many more → less ≤ more }
    ensures over { (g : Ground) (few many : List Bool) → Grows few many → (fuel : ℕ) → IsOver g few fuel → IsOver g many fuel }
{}

/// A body names only its own lesser nodes, and nodes that were made at proper prefixes of its address before
/// the item that follows there.
pub fn names_lead_back()
    ensures rendered { (g : Ground) (settled : List Bool) (address : List ℕ) (b : Run Tree) → body_at g settled address ≡ Some b → NamesBack address b }
    ensures component { (g : Ground) (settled : List Bool) (address : List ℕ) (serial : ℕ) (tables : List (List Made)) (made : List Made) → TablesLeadBack [] address tables → LeadBack address 0 made → (number : ℕ) (props : Tree) → Own address serial props → NamesBack (address ++ serial ∷ []) (body g settled (tables ++ made ∷ []) number props (address ++ serial ∷ [])) }
    ensures first { (g : Ground) (settled : List Bool) → NamesBack [] (root_body g settled) }
{}

/// The body of a server element is that of its component, with the tables of what the bodies on the way to it
/// made. What an attempt with these tables finds under fewer settled sources, its job comes to; so it is with a task of any kind.
pub fn attempts()
    ensures same { (g : Ground) (settled : List Bool) (n : Name) → body_at g settled (inner n) ≡ next_body g settled (tables_for g settled n) (inner n) (element_of (node_at g settled n)) }
    ensures gives { (g : Ground) (few many : List Bool) → Grows few many → (n : Name) (tables : List (List Made)) (b : Run Tree) → TabledFor g many n tables → next_body g few tables (inner n) (element_of (node_at g many n)) ≡ Some b → Stays many b.step → comes g many (element n) ≡ Some b.step }
    ensures task { (g : Ground) → IsValidGround g → (few many : List Bool) → Grows few many → (what : What) → IsTabled g many what → Stays many (run_for g few what).step → comes g many (job_for g what) ≡ Some (run_for g few what).step }
{}

/// A chain never comes back to a job, and ends, at one value. What is reached stands for one slot. At a key stands one
/// node, and what leads to a key at which one stands is there.
pub fn chains()
    ensures no_loop { (g : Ground) (settled : List Bool) (j : Job) (end : End) (js : List Job) (w : Value) → comes g settled j ≡ Some end → Leads g settled (value_of g settled j end) js w → (job_of g settled w ≡ Some j) → ⊥ }
    ensures ends { (g : Ground) (settled : List Bool) (v : Value) → Reached g settled v → (t : Target Key) × Stands g settled v t }
    ensures one { (g : Ground) (settled : List Bool) (v : Value) (t u : Target Key) → Stands g settled v t → Stands g settled v u → t ≡ u }
    ensures last { (g : Ground) (settled : List Bool) (v : Value) (js ks : List Job) (w x : Value) → Leads g settled v js w → Leads g settled v ks x → job_of g settled w ≡ None → job_of g settled x ≡ None → w ≡ x }
    ensures there { (g : Ground) (settled : List Bool) (v : Value) (k : Key) (shape : Shape Value) → IsTarget g settled v (node_at_key k) → NodeIs g settled k shape → IsThere g settled v }
    ensures node { (g : Ground) (settled : List Bool) (k : Key) (shape other : Shape Value) → NodeIs g settled k shape → NodeIs g settled k other → shape ≡ other }
{}

/// A total is one number, and no less than any cost in it. Bodies whose costs exceed the fuel together take it over the fuel.
pub fn totals()
    ensures one { (g : Ground) (settled : List Bool) (total other : ℕ) → Total g settled total → Total g settled other → total ≡ other }
    ensures within { (g : Ground) (settled : List Bool) (total : ℕ) (address : List ℕ) (cost : ℕ) → Total g settled total → Rendered g settled address cost → cost ≤ total }
    ensures over { (g : Ground) (settled : List Bool) (total fuel : ℕ) → Total g settled total → TotalOver g settled fuel → fuel < total }
{}

/// Over a valid ground the nodes that bodies make are made well, what is reached is there, and every node that
/// a value leads to has its shape.
pub fn made_well()
    ensures bodies { (g : Ground) → IsValidGround g → (settled : List Bool) (address : List ℕ) (b : Run Tree) → body_at g settled address ≡ Some b → BodyMade g (tables_at g settled address) b }
    ensures nodes { (g : Ground) → IsValidGround g → (settled : List Bool) (n : Name) (m : Made) → node_at g settled n ≡ Some m → AllByRecursion (IsKnown g settled) m.slots × MadeWell g (node_at g settled) m.kind m.slots }
    ensures tables { (g : Ground) → IsValidGround g → (settled : List Bool) (n : Name) (tables : List (List Made)) → TabledFor g settled n tables → AreTables g (inner n) tables × (made_in tables n ≡ node_at g settled n) }
    ensures reached { (g : Ground) → IsValidGround g → (settled : List Bool) (v : Value) → Reached g settled v → ShowsKnown g settled v }
    ensures closed { (g : Ground) → IsValidGround g → (settled : List Bool) (v : Value) → Reached g settled v → job_of g settled v ≡ None → (k : Key) → IsTarget g settled v (node_at_key k) → (shape : Shape Value) × NodeIs g settled k shape }
{}

/// Evaluation never lowers the cost.
pub fn charges()
    ensures { (cx : Context) (t : Term) (env : List Tree) (m : Machine) → m.cost ≤ (eval cx t env m).after.cost }
{}

/// A body waits only for a source of the script that is not settled.
pub fn waits_right()
    ensures rendered { (g : Ground) (settled : List Bool) (address : List ℕ) (b : Run Tree) (source : ℕ) → body_at g settled address ≡ Some b → b.step ≡ waits source → (is_settled settled source ≡ false) × (source < length g.script.sources) }
    ensures component { (g : Ground) (settled : List Bool) (tables : List (List Made)) (number : ℕ) (props : Tree) (address : List ℕ) (source : ℕ) → (body g settled tables number props address).step ≡ waits source → (is_settled settled source ≡ false) × (source < length g.script.sources) }
{}
