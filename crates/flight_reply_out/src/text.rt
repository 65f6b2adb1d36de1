ghost use Rattle.std.specs.Prelude.{◌≡◌, IfOk};
ghost use Rattle.flight_reply_out.specs.Text.{text_of};

use flight_reply::Field;
use flight_value::{List, Memory, Text};
use form_urlencoded::Serializer;
use std::alloc::Global;

/// The text of a form: names in decimal and values, as `application/x-www-form-urlencoded` of the URL Standard.
pub fn fields_text(alloc: Global, fields: &List<Field>) -> Result<Text, Memory>
    ensures { IfOk result (λ text. text ≡ text_of fields.now) }
{
    let fields = fields.as_slice();
    let mut form = Serializer::new(String::new(alloc));
    for field in fields {
        let mut digits = itoa::Buffer::new();
        form.append_pair(digits.format(field.name), field.value.as_str())?;
    }
    Text::from_string(form.finish())
}
