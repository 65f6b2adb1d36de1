ghost use Rattle.std.specs.Prelude.{◌≡◌, ◌↔◌, MatchOption, option_map, IsTrue};
ghost use Rattle.flight_bundle.specs.Lines.{IsLine, from_line, FirstLine, NoLine};

/// What stands before a line, and what stands behind it.
#[derive(Clone, Copy)]
pub struct Around<'a> {
    pub before: &'a [u8],
    pub behind: &'a [u8],
}

/// The first line of a text that is exactly the mark.
pub fn first_line<'a>(text: &'a [u8], mark: &[u8]) -> Option<Around<'a>>
    ensures { MatchOption result (NoLine mark.now text.now) (λ a. FirstLine mark.now text.now a.before.now a.behind.now) }
{
    let mut at = 0;
    let (mut line, mut behind) = split_line(text);
    'lines: while let Some(rest) = behind {
        if is_mark(line, mark) {
            return Some(Around {
                before: &text[..at],
                behind: rest,
            });
        }
        at += line.len() + 1;
        (line, behind) = split_line(rest);
    }
    if is_mark(line, mark) {
        Some(Around {
            before: &text[..at],
            behind: &[],
        })
    } else {
        None
    }
}

/// The first line of a text, and what stands behind its newline, if one ends it.
fn split_line(text: &[u8]) -> (&[u8], Option<&[u8]>)
    ensures line { IsLine result.0.now }
    ensures whole { text.now ≡ from_line result.0.now (option_map (λ rest. rest.now) result.1) }
{
    match text.iter().position(|byte| *byte == b'\n') {
        Some(end) => (&text[..end], Some(&text[end + 1..])),
        None => (text, None),
    }
}

/// Whether a line is the mark.
fn is_mark(line: &[u8], mark: &[u8]) -> bool
    ensures { IsTrue result ↔ (line.now ≡ mark.now) }
{
    line == mark
}
