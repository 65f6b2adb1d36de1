ghost use Rattle.std.specs.Prelude.{[], ◌∷◌, ◌++◌, codes};
ghost use Rattle.flight_value.specs.Store.{DrawOneGraph, of_graph};
ghost use Rattle.flight_render.specs.Plain.{plain};
ghost use Rattle.flight_render.specs.Valid.{IsValidGround};
ghost use Rattle.flight_meaning.specs.Meaning.{meaning};
ghost use Rattle.flight_meaning.specs.Good.{IsGood};
ghost use Rattle.flight_state.specs.declared.event.Event.TheVariants.{Abort};
ghost use Rattle.flight_state.specs.Ended.{ended};
ghost use Rattle.flight_state.specs.State.{IsQuiet, IsClosed};
ghost use Rattle.flight_state.specs.Steps.{Run, opening};
ghost use Rattle.flight_state.specs.Worked.{greeting, greeting_events, greeting_end, greeting_graph, late, late_events, late_waiting, late_rest, late_end, late_graph, late_so_far, late_aborted, aborted_graph, twice, twice_events, twice_end, twice_graph, streamed, streamed_events, streamed_end, streamed_graph, nested, nested_events, nested_end, nested_graph, mapped, mapped_events, mapped_end, mapped_graph, feed_events, feed_waiting, feed_aborted, broken_graph, bound, bound_events, bound_end, bound_graph, boundary, boundary_events, boundary_end, boundary_graph};

/// `function App() { return "hello"; }`: one task and one row, `0:"hello"`.
pub fn plain_value()
    ensures valid { IsValidGround greeting }
    ensures run { Run greeting greeting_events (opening greeting) greeting_end }
    ensures closed { IsClosed greeting_end }
    ensures graph { DrawOneGraph (of_graph greeting_graph) (meaning greeting_end.rows) }
    ensures same { DrawOneGraph (plain greeting greeting_end.settled) (meaning greeting_end.rows) }
{}

/// `<Item/>`, which awaits data: `0:"$L1"` goes out, and the task of row 1 waits. When the data is there it is taken
/// again, and `1:"Ada"` goes out.
pub fn waiting_element()
    ensures valid { IsValidGround late }
    ensures waits { Run late late_events (opening late) late_waiting }
    ensures quiet { IsQuiet late_waiting }
    ensures so_far { DrawOneGraph (of_graph late_so_far) (meaning late_waiting.rows) }
    ensures run { Run late (late_events ++ late_rest) (opening late) late_end }
    ensures closed { IsClosed late_end }
    ensures graph { DrawOneGraph (of_graph late_graph) (meaning late_end.rows) }
    ensures same { DrawOneGraph (plain late late_end.settled) (meaning late_end.rows) }
{}

/// The same request, aborted while the task of row 1 waits: an error row, `2:E{"digest":"stopped"}`, and `1:"$L2"`. The
/// rows are good, and the element failed.
pub fn aborted_wait()
    ensures run { Run late (late_events ++ Abort ∷ []) (opening late) late_aborted }
    ensures closed { IsClosed late_aborted }
    ensures good { IsGood late_aborted.rows }
    ensures graph { DrawOneGraph (of_graph aborted_graph) (meaning late_aborted.rows) }
    ensures ended { DrawOneGraph (ended (codes "stopped") (plain late late_waiting.settled)) (meaning late_aborted.rows) }
{}

/// `[<Item/>, <Item/>]`, where both give one object: it is written where it is met first, `1:{"name":"Ada"}`, and the
/// second task refers to it, `2:"$1"`.
pub fn shared_object()
    ensures valid { IsValidGround twice }
    ensures run { Run twice twice_events (opening twice) twice_end }
    ensures closed { IsClosed twice_end }
    ensures graph { DrawOneGraph (of_graph twice_graph) (meaning twice_end.rows) }
    ensures same { DrawOneGraph (plain twice twice_end.settled) (meaning twice_end.rows) }
{}

/// A stream of one item: `1:R` opens it and `0:"$1"` refers to it; its item, `1:"Ada"`, and its end, `1:C`, follow as
/// rows of the same id.
pub fn stream_of_one()
    ensures valid { IsValidGround streamed }
    ensures run { Run streamed streamed_events (opening streamed) streamed_end }
    ensures closed { IsClosed streamed_end }
    ensures graph { DrawOneGraph (of_graph streamed_graph) (meaning streamed_end.rows) }
    ensures same { DrawOneGraph (plain streamed streamed_end.settled) (meaning streamed_end.rows) }
{}

/// `<p><Item/></p>`, where `Item` waits for nothing: `0:["$","p",null,{"children":"hello"}]` is one row of one task, and
/// both bodies are counted.
pub fn nested_element()
    ensures valid { IsValidGround nested }
    ensures run { Run nested nested_events (opening nested) nested_end }
    ensures closed { IsClosed nested_end }
    ensures graph { DrawOneGraph (of_graph nested_graph) (meaning nested_end.rows) }
    ensures same { DrawOneGraph (plain nested nested_end.settled) (meaning nested_end.rows) }
{}

/// A Map of one entry: the entries are a row of their own, `1:[["a",1]]`, and the Map is `0:"$Q1"`.
pub fn map_of_one()
    ensures valid { IsValidGround mapped }
    ensures run { Run mapped mapped_events (opening mapped) mapped_end }
    ensures closed { IsClosed mapped_end }
    ensures graph { DrawOneGraph (of_graph mapped_graph) (meaning mapped_end.rows) }
    ensures same { DrawOneGraph (plain mapped mapped_end.settled) (meaning mapped_end.rows) }
{}

/// The same stream, aborted while its item is waited for: an error row, `2:E{"digest":"stopped"}`, and the end of the
/// stream, `1:E{"digest":"stopped"}`. The rows are good, and the stream broke.
pub fn aborted_stream()
    ensures waits { Run streamed feed_events (opening streamed) feed_waiting }
    ensures run { Run streamed (feed_events ++ Abort ∷ []) (opening streamed) feed_aborted }
    ensures closed { IsClosed feed_aborted }
    ensures good { IsGood feed_aborted.rows }
    ensures graph { DrawOneGraph (of_graph broken_graph) (meaning feed_aborted.rows) }
    ensures ended { DrawOneGraph (ended (codes "stopped") (plain streamed feed_waiting.settled)) (meaning feed_aborted.rows) }
{}

/// A server function with a bound argument: `2:[1]`, `1:{"bound":"$@2","id":"save"}` and `0:"$F1"`. The promise of the
/// arguments is that of their row, and has no task.
pub fn bound_reference()
    ensures valid { IsValidGround bound }
    ensures run { Run bound bound_events (opening bound) bound_end }
    ensures closed { IsClosed bound_end }
    ensures graph { DrawOneGraph (of_graph bound_graph) (meaning bound_end.rows) }
    ensures same { DrawOneGraph (plain bound bound_end.settled) (meaning bound_end.rows) }
{}

/// A Suspense boundary: its symbol is a row of its own, `1:"$Sreact.suspense"`, to which the element refers,
/// `0:["$","$1",null,{"children":"hello"}]`.
pub fn suspense_boundary()
    ensures valid { IsValidGround boundary }
    ensures run { Run boundary boundary_events (opening boundary) boundary_end }
    ensures closed { IsClosed boundary_end }
    ensures graph { DrawOneGraph (of_graph boundary_graph) (meaning boundary_end.rows) }
    ensures same { DrawOneGraph (plain boundary boundary_end.settled) (meaning boundary_end.rows) }
{}
