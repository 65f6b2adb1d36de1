ghost use Rattle.std.specs.Prelude.{◌≡◌, option_map};
ghost use Rattle.std.specs.Prelude.{ℕ, List};
ghost use Rattle.flight_bundle.specs.Lines.{FirstLine};
ghost use Rattle.flight_bundle.specs.Parts.{HasParts, IsReply, script_mark, reply_mark};

use crate::line::first_line;

/// The parts of a bundle.
#[derive(Clone, Copy)]
pub struct Parts<'a> {
    pub program: &'a [u8],
    pub script: &'a [u8],
    pub reply: Option<&'a [u8]>,
}

/// The parts of a text. Without a line `%%script` the whole is the program, and the script has no sources.
pub fn parts_of(text: &[u8]) -> Parts<'_>
    ensures { HasParts text.now result.program.now result.script.now (option_map (λ r. r.now) result.reply) }
{
    match first_line(text, b"%%script") {
        Some(around) => scripted(around.before, around.behind),
        None => Parts {
            program: text,
            script: br#"{"version":1,"sources":{}}"#,
            reply: None,
        },
    }
}

/// The parts of a text whose program ends before a line `%%script`.
fn scripted<'a>(program: &'a [u8], rest: &'a [u8]) -> Parts<'a>
    ensures { (text : List ℕ) → FirstLine script_mark text program.now rest.now → HasParts text result.program.now result.script.now (option_map (λ r. r.now) result.reply) }
{
    match first_line(rest, b"%%reply") {
        Some(around) => Parts {
            program,
            script: around.before,
            reply: Some(reply_of(around.behind)),
        },
        None => Parts {
            program,
            script: rest,
            reply: None,
        },
    }
}

/// A reply without the one newline at its end.
fn reply_of(rest: &[u8]) -> &[u8]
    ensures { IsReply rest.now result.now }
{
    match rest {
        [reply @ .., b'\n'] => reply,
        _ => rest,
    }
}
