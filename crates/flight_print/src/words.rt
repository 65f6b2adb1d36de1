ghost use Rattle.std.specs.Prelude.{◌≡◌, ◌++◌, OnOk, string_bytes};
ghost use Rattle.std.specs.Fmt.{signed_decimal};
ghost use Rattle.flight_graph.specs.Text.{string_text};
ghost use Rattle.flight_print.specs.Text.{word, literal, comma_if};

use flight_graph::{Writer, write_string};
use flight_value::{Memory, Text};
use itoa::{Buffer, Integer};

/// Appends a word, and a space.
pub fn write_word(out: &mut String, text: &str) -> Result<(), Memory>
    ensures { OnOk result (string_bytes out.new ≡ string_bytes out.old ++ word text.now) }
{
    out.push_str(text)?;
    out.push_str(" ")?;
    Ok(())
}

/// Appends a text as a literal.
pub fn write_literal(out: &mut String, text: &Text) -> Result<(), Memory>
    ensures { OnOk result (string_bytes out.new ≡ string_bytes out.old ++ literal text.now) }
{
    write_quoted(out, text.as_str())?;
    out.push_str(" ")?;
    Ok(())
}

/// Appends a text as a JSON string.
fn write_quoted(out: &mut String, text: &str) -> Result<(), Memory>
    ensures { OnOk result (string_bytes out.new ≡ string_bytes out.old ++ string_text text.now) }
{
    let mut quoted = Writer::new(*out.allocator());
    write_string(&mut quoted, text)?;
    out.push_str(quoted.into_text()?.as_str())?;
    Ok(())
}

/// Appends a whole number, what is its end, and a space.
pub fn write_number<I: Integer>(out: &mut String, number: I, end: &str) -> Result<(), Memory>
    ensures { OnOk result (string_bytes out.new ≡ string_bytes out.old ++ word (I.text number ++ end.now)) }
{
    out.push_str(Buffer::new().format(number))?;
    write_word(out, end)
}

/// Appends a comma, where something stands before.
pub fn write_comma(out: &mut String, later: bool) -> Result<(), Memory>
    ensures { OnOk result (string_bytes out.new ≡ string_bytes out.old ++ comma_if later) }
{
    if later { write_word(out, ",") } else { Ok(()) }
}
