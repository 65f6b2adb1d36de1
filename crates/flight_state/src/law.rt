ghost use Rattle.std.specs.Prelude.{◌≡◌, ◌≤◌, ◌<◌, ℕ, suc, Bool, List, [], ◌∷◌, ◌++◌, length, map, Some, slice_get};
ghost use Rattle.flight_value.specs.Store.{DrawOneGraph, of_graph};
ghost use Rattle.flight_value.specs.Graph.{IsValid};
ghost use Rattle.flight_value.specs.declared.graph.Graph.{Graph};
ghost use Rattle.flight_graph.specs.Canon.{canon_of};
ghost use Rattle.flight_meaning.specs.declared.place.PlacedRow.{PlacedRow};
ghost use Rattle.flight_render.specs.declared.root.Ground.{Ground};
ghost use Rattle.flight_render.specs.Plain.{plain};
ghost use Rattle.flight_value.specs.Listed.{In, Distinct};
ghost use Rattle.flight_render.specs.Costs.{Rendered, Total, total_of, IsOver};
ghost use Rattle.flight_meaning.specs.Linked.{rows_of, first_place, beside};
ghost use Rattle.flight_meaning.specs.Resolve.{Path, to, found, Ends};
ghost use Rattle.flight_meaning.specs.declared.place.PlaceTree.{PlaceTree};
ghost use Rattle.flight_meaning.specs.Meaning.{meaning};
ghost use Rattle.flight_meaning.specs.Good.{IsGood};
ghost use Rattle.flight_state.specs.State.{State, Task, job_at, IsQuiet, IsClosed};
ghost use Rattle.flight_state.specs.Fits.{Fits, WaitsWithin};
ghost use Rattle.flight_state.specs.declared.status.Status.TheVariants as status;
ghost use Rattle.flight_state.specs.Emits.{Meant, HasValueRow, EmitsWell};
ghost use Rattle.flight_state.specs.Local.{Homes, Tied, Below, WritesHere, StreamsOn, all_meant, HasValue, StepsTo, EndsHere};
ghost use Rattle.flight_render.specs.Run.{End};
ghost use Rattle.flight_render.specs.Bodies.{Finishes};
ghost use Rattle.flight_render.specs.Jobs.{comes};
ghost use Rattle.flight_render.specs.Attempt.{run_for};
ghost use Rattle.flight_state.specs.Steps.{TakeStep, WaitStep, DoneStep, PingStep, AbortStep, Run, opening, NoAborts, PingsWithin};
ghost use Rattle.flight_state.specs.Ended.{ended, IsAborted};
ghost use Rattle.flight_state.specs.declared.event.Event.{Event};
ghost use Rattle.flight_render.specs.Laws.{Grows};
ghost use Rattle.flight_render.specs.Valid.{IsValidGround};

/// Whatever the order of the steps, the rows of a quiet request without an abort mean what sequential rendering
/// means, and what is spent is what sequential rendering costs. Where no task is left, the rows are good.
pub fn any_order()
    ensures same { (g : Ground) (st : State) → Fits g st → IsQuiet st → st.ended ≡ [] → DrawOneGraph (plain g st.settled) (meaning st.rows) }
    ensures spent { (g : Ground) (st : State) → Fits g st → IsQuiet st → st.ended ≡ [] → Total g st.settled (total_of st.counted) }
    ensures good { (g : Ground) (st : State) → Fits g st → IsClosed st → IsGood st.rows }
    ensures aborted { (g : Ground) (st : State) (digest : List ℕ) → Fits g st → IsAborted g st digest → DrawOneGraph (ended digest (plain g st.settled)) (meaning st.rows) }
{}

/// Taking a task, and finding that it waits, keep the facts of a state.
pub fn turns()
    ensures take { (g : Ground) (old new : State) (task : ℕ) → Fits g old → TakeStep old new task → Fits g new }
    ensures wait { (g : Ground) → IsValidGround g → (old new : State) (task source : ℕ) → Fits g old → WaitStep g old new task source → Fits g new }
{}

/// A settlement keeps the facts of a state.
pub fn settles()
    ensures { (g : Ground) (old new : State) (source : ℕ) → Fits g old → PingStep old new source → Fits g new }
{}

/// Every state that a journal leads to has these facts. A journal without an abort that comes to rest leaves rows that
/// mean what sequential rendering means.
pub fn every_journal()
    ensures fits { (g : Ground) (journal : List Event) (st : State) → Run g journal (opening g) st → Fits g st }
    ensures same { (g : Ground) (journal : List Event) (st : State) → Run g journal (opening g) st → NoAborts journal → IsQuiet st → DrawOneGraph (plain g st.settled) (meaning st.rows) }
    ensures spent { (g : Ground) (journal : List Event) (st : State) → Run g journal (opening g) st → NoAborts journal → IsQuiet st → Total g st.settled (total_of st.counted) }
    ensures good { (g : Ground) (journal : List Event) (st : State) → Run g journal (opening g) st → IsClosed st → IsGood st.rows }
    ensures aborted { (g : Ground) (journal : List Event) (st new : State) → Run g journal (opening g) st → NoAborts journal → IsQuiet st → (w : AbortStep st new) → DrawOneGraph (ended w.digest (plain g st.settled)) (meaning new.rows) }
    ensures ended { (g : Ground) (journal : List Event) (st new : State) → Run g journal (opening g) st → AbortStep st new → IsGood new.rows }
{}

/// Where every task is done, and only certain sources settled, the rows mean sequential rendering with all of those
/// settled.
pub fn scripted()
    ensures state { (g : Ground) (st : State) (settled : List Bool) → Fits g st → IsClosed st → st.ended ≡ [] → Grows st.settled settled → DrawOneGraph (plain g settled) (meaning st.rows) }
    ensures same { (g : Ground) (settled : List Bool) (journal : List Event) (st : State) → Run g journal (opening g) st → NoAborts journal → PingsWithin settled journal → IsClosed st → DrawOneGraph (plain g settled) (meaning st.rows) }
    ensures spent { (g : Ground) (settled : List Bool) (journal : List Event) (st : State) → Run g journal (opening g) st → NoAborts journal → PingsWithin settled journal → IsClosed st → Total g settled (total_of st.counted) }
{}

/// What the attempt at a running task finds, its job comes to under all that is settled. The step of a finished task
/// keeps the facts of a state, where each place of the new rows is written as what is meant there.
pub fn finishes()
    ensures gives { (g : Ground) → IsValidGround g → (st : State) (number : ℕ) (t : Task) (turn : ℕ) (end : End) → Fits g st → slice_get st.tasks number ≡ Some t → t.status ≡ status.Running turn → (run_for g t.remembered t.what).step ≡ end → Finishes end → comes g st.settled (job_at g t) ≡ Some end }
    ensures fits { (g : Ground) → IsValidGround g → (old new : State) (number : ℕ) (meant : Meant) → Fits g old → (d : DoneStep g old new number) → EmitsWell g old new d.task d.born d.end meant → Fits g new }
{}

/// An abort keeps the facts of a state. The first one, in a quiet state, leaves the aborted state.
pub fn aborts()
    ensures fits { (g : Ground) (old new : State) → Fits g old → AbortStep old new → Fits g new }
    ensures first { (g : Ground) (old new : State) → Fits g old → IsQuiet old → old.ended ≡ [] → (w : AbortStep old new) → IsAborted g new w.digest }
{}

/// A graph of sequential rendering and a graph of rows that mean the same have one canon; so it is with what an abort
/// left of both.
pub fn one_form()
    ensures same { (g : Ground) (settled : List Bool) (rows : List PlacedRow) → DrawOneGraph (plain g settled) (meaning rows) → (one two : Graph) → IsValid one → IsValid two → DrawOneGraph (of_graph one) (plain g settled) → DrawOneGraph (of_graph two) (meaning rows) → canon_of one ≡ canon_of two }
    ensures ended { (g : Ground) (settled : List Bool) (digest : List ℕ) (rows : List PlacedRow) → DrawOneGraph (ended digest (plain g settled)) (meaning rows) → (one two : Graph) → IsValid one → IsValid two → DrawOneGraph (of_graph one) (ended digest (plain g settled)) → DrawOneGraph (of_graph two) (meaning rows) → canon_of one ≡ canon_of two }
{}

/// What the writer of a task with a row of its own gives by its own arguments, and the request takes over, is what the
/// step asks for, so the facts of a state stay; and the writer's homes and next id are again those of the state.
pub fn lifts()
    ensures well { (g : Ground) → IsValidGround g → (old new : State) (number start next : ℕ) (before behind : Homes) → Fits g old → Tied g old before → Below old start → (w : WritesHere g old new number start next before behind) → EmitsWell g old new w.step.task w.step.born w.step.end w.meant }
    ensures fits { (g : Ground) → IsValidGround g → (old new : State) (number start next : ℕ) (before behind : Homes) → Fits g old → Tied g old before → Below old start → WritesHere g old new number start next before behind → Fits g new }
    ensures tied { (g : Ground) → IsValidGround g → (old new : State) (number start next : ℕ) (before behind : Homes) → Fits g old → Tied g old before → Below old start → WritesHere g old new number start next before behind → Tied g new behind }
    ensures below { (g : Ground) → IsValidGround g → (old new : State) (number start next : ℕ) (before behind : Homes) → Fits g old → Tied g old before → Below old start → WritesHere g old new number start next before behind → Below new next }
{}

/// So it is with the writer of a stream's item, of its final value and of its failure.
pub fn streams()
    ensures well { (g : Ground) → IsValidGround g → (old new : State) (number start next : ℕ) (before behind : Homes) → Fits g old → Tied g old before → Below old start → (w : StreamsOn g old new number start next before behind) → EmitsWell g old new w.step.task w.step.born w.step.end (all_meant w.step.task.id (length (rows_of w.step.task.id old.rows)) w.there w.meant) }
    ensures fits { (g : Ground) → IsValidGround g → (old new : State) (number start next : ℕ) (before behind : Homes) → Fits g old → Tied g old before → Below old start → StreamsOn g old new number start next before behind → Fits g new }
    ensures tied { (g : Ground) → IsValidGround g → (old new : State) (number start next : ℕ) (before behind : Homes) → Fits g old → Tied g old before → Below old start → StreamsOn g old new number start next before behind → Tied g new behind }
    ensures below { (g : Ground) → IsValidGround g → (old new : State) (number start next : ℕ) (before behind : Homes) → Fits g old → Tied g old before → Below old start → StreamsOn g old new number start next before behind → Below new next }
{}

/// The writer's homes and its next id are those of the state at the opening, and stay so in the steps that write no
/// value. An abort takes the next id for its error row.
pub fn ties()
    ensures opening { (g : Ground) → Tied g (opening g) [] × Below (opening g) 1 }
    ensures take { (g : Ground) (old new : State) (task start : ℕ) (homes : Homes) → TakeStep old new task → Tied g old homes → Below old start → Tied g new homes × Below new start }
    ensures wait { (g : Ground) (old new : State) (task source start : ℕ) (homes : Homes) → WaitStep g old new task source → Tied g old homes → Below old start → Tied g new homes × Below new start }
    ensures ping { (g : Ground) (old new : State) (source start : ℕ) (homes : Homes) → PingStep old new source → Tied g old homes → Below old start → Tied g new homes × Below new start }
    ensures abort { (g : Ground) (old new : State) (homes : Homes) → (w : AbortStep old new) → Tied g old homes → Below old w.error → Tied g new homes × Below new (suc w.error) }
{}

/// A quiet request within its fuel renders within it. An answer whose costs would take what is spent over the fuel, and
/// an attempt that runs over it, show that rendering costs more. That the bodies in which tasks wait are within it stays.
pub fn within_fuel()
    ensures within { (g : Ground) (st : State) (fuel : ℕ) → Fits g st → IsQuiet st → st.ended ≡ [] → total_of st.counted ≤ fuel → WaitsWithin g st fuel → ¬ IsOver g st.settled fuel }
    ensures costs { (g : Ground) (st : State) (more : List (List ℕ × ℕ)) (fuel : ℕ) → Fits g st → Distinct (map (λ p. p.0) (st.counted ++ more)) → ((address : List ℕ) (cost : ℕ) → In (address, cost) more → Rendered g st.settled address cost) → fuel < total_of (st.counted ++ more) → IsOver g st.settled fuel }
    ensures attempt { (g : Ground) → IsValidGround g → (st : State) (t : Task) (turn fuel : ℕ) → Fits g st → In t st.tasks → t.status ≡ status.Running turn → fuel < (run_for g t.remembered t.what).after.cost → IsOver g st.settled fuel }
    ensures take { (g : Ground) (old new : State) (task fuel : ℕ) → TakeStep old new task → WaitsWithin g old fuel → WaitsWithin g new fuel }
    ensures wait { (g : Ground) → IsValidGround g → (old new : State) (task source fuel : ℕ) → Fits g old → (w : WaitStep g old new task source) → (run_for g w.task.remembered w.task.what).after.cost ≤ fuel → WaitsWithin g old fuel → WaitsWithin g new fuel }
    ensures finish { (g : Ground) (old new : State) (task fuel : ℕ) → DoneStep g old new task → WaitsWithin g old fuel → WaitsWithin g new fuel }
    ensures ping { (g : Ground) (old new : State) (source fuel : ℕ) → Fits g old → PingStep old new source → WaitsWithin g old fuel → WaitsWithin g new fuel }
{}

/// Within a row the names of the steps from its root lead to the place, where a walk may end there; and the value of an
/// id is that of the root place of its row.
pub fn within_row()
    ensures names { (rows : List PlacedRow) (id : ℕ) (tree : PlaceTree) (behind : List PlaceTree) (path : Path) (last : ℕ) → rows_of id rows ≡ tree ∷ behind → HasValue tree.kind → StepsTo tree.places 0 path last → EndsHere tree.places last → Ends rows (to id path) (found (beside (first_place id) last)) }
    ensures value { (rows : List PlacedRow) (id : ℕ) (tree : PlaceTree) (behind : List PlaceTree) → rows_of id rows ≡ tree ∷ behind → HasValue tree.kind → HasValueRow rows id }
{}
