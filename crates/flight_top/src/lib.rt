//! The program's one call: words, a source and a sink in, a status out.
//!
//! [`flight_alone`] carries the promises of the whole. Its clauses say, by definitions over the words and the
//! bytes alone (`specs/Due.antt`), which status it tells and which text it appends to the sink, and what is
//! left where the source or the sink fails. Today there are three commands. `view` reads any stream of rows through
//! the client, in pieces of any length (`specs/View.antt`, `specs/Lines.antt`). `plain` renders any bundle
//! sequentially, with its scripted sources settled (`specs/Plain.antt`, `specs/BundleLines.antt`). `run` is of a
//! bundle of one server component whose value is written out (`specs/Run.antt`, `specs/Static.antt`): it is written as
//! row 0 into a sink over memory, that row is read, and the text is that of the graph of the value as it stands in the
//! program (`specs/Drawn.antt`).
//!
//! Reading that row is private to this crate (`one_row`, `model`), and so are reading and writing such a value
//! (`static_code`, `static_word`, `static_read`, `static_program`, `static_row`): they give way to the server's
//! crates, and nothing else may stand on them. `due` says what is owed for words and a source; `alone` prints it.
#![tactic(auto)]

mod alone;
mod bundle_line;
mod due;
mod line;
mod model;
mod one_row;
mod plain;
mod run;
mod static_code;
mod static_program;
mod static_read;
mod static_row;
mod static_word;
mod told;
mod view;
mod words;

pub use alone::flight_alone;
pub use told::{Status, Told};
