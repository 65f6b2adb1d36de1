ghost use Rattle.std.specs.Prelude.{◌≡◌, ◌↔◌, IsTrue};
ghost use Rattle.std.specs.List.{AllZip};
ghost use Rattle.flight_value.specs.Date.{IsDate, IsByteOf, HasForm};

/// Whether a byte is that of a form: any digit for `d`, else the byte itself.
fn is_byte_of(form: u8, byte: u8) -> bool
    ensures { IsTrue result ↔ IsByteOf form byte }
{
    if form == b'd' {
        byte.is_ascii_digit()
    } else {
        form == byte
    }
}

/// Whether each byte is that of the form in its place, and none is left.
fn has_form(form: &[u8], text: &[u8]) -> bool
    ensures { IsTrue result ↔ HasForm form.now text.now }
{
    match (form, text) {
        ([], []) => true,
        ([first, form @ ..], [byte, text @ ..]) => {
            is_byte_of(*first, *byte) && has_form(form, text)
        }
        _ => false,
    }
}

/// Whether a text has the form of a date, as JavaScript's `Date.prototype.toISOString` writes it. The form
/// is not checked against a calendar.
pub fn is_date(text: &str) -> bool
    ensures { IsTrue result ↔ IsDate text.now }
{
    let text = text.as_bytes();
    has_form(b"dddd-dd-ddTdd:dd:dd.dddZ", text)
        || has_form(b"+dddddd-dd-ddTdd:dd:dd.dddZ", text)
        || has_form(b"-dddddd-dd-ddTdd:dd:dd.dddZ", text)
}
