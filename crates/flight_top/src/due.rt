ghost use Rattle.std.specs.Prelude.{◌≡◌, IfOk, IfErr};
ghost use Rattle.flight_base.specs.Outside.{Rose};
ghost use Rattle.flight_top.specs.Due.{IsCommand, IsDue, texts};

use crate::plain::plain;
use crate::run::{is_run, run};
use crate::told::Status;
use crate::view::view;
use crate::words::numbered;
use flight_base::Source;
use flight_value::{Memory, Text};
use std::alloc::Global;

/// What is owed to a caller: a status, and the text to print.
#[derive(Drop)]
pub struct Due {
    pub status: Status,
    pub text: Text,
}

/// Why nothing is known to be due.
#[derive(Clone, Copy, Debug, PartialEq, Eq)]
pub enum Undue {
    /// The source failed.
    Read,
    /// Memory was wanting.
    Memory,
}

/// The line of a refusal.
pub fn line(alloc: Global, status: Status, text: &str) -> Result<Due, Undue>
    ensures ok { IfOk result (λ due. (due.status ≡ status) × (due.text ≡ text.now)) }
    ensures err { IfErr result (λ e. e ≡ Undue.Memory) }
{
    match Text::new(alloc, text) {
        Ok(text) => Ok(Due { status, text }),
        Err(_) => Err(Undue::Memory),
    }
}

/// What is owed for these words and the bytes that the source has left. Words that are no command leave it as
/// it was.
pub fn due_for<S: Source>(alloc: Global, words: &[String], source: &mut S) -> Result<Due, Undue>
    ensures due { IfOk result (λ due. IsDue (texts words.now) (S.left source.old) due.status due.text) }
    ensures read { result ≡ Err Undue.Read → IsCommand (texts words.now) × Rose (S.faults source.old) (S.faults source.new) }
    ensures unread { ¬ (IsCommand (texts words.now)) → source.new ≡ source.old }
{
    if let Some(cut) = numbered(words, "view", "--cut", 65_536) {
        return view(alloc, cut, source);
    }
    if let Some(fuel) = numbered(words, "plain", "--fuel", 1_000_000) {
        return plain(alloc, fuel as u32, source);
    }
    if is_run(words) {
        return run(alloc, source);
    }
    line(alloc, Status::Usage, "usage: flight COMMAND [OPTIONS]\n")
}
