ghost use Rattle.std.specs.Prelude.{◌≡◌, slice_index};
ghost use Rattle.std.specs.Char.{is_ascii_uppercase};
ghost use Rattle.std.specs.List.{list_all, list_any};
ghost use Rattle.std.specs.Str.{bytes_eq};
ghost use Rattle.flight_syntax.specs.Pieces.{is_name, is_name_byte};
ghost use Rattle.flight_syntax.specs.Names.{is_keyword, is_plain_name, is_upper, is_lower};

use crate::piece::{begins_name, is_name_byte};

/// The keywords.
const KEYWORDS: [&str; 25] = [
    "null",
    "undefined",
    "true",
    "false",
    "map",
    "set",
    "date",
    "symbol",
    "use",
    "promise",
    "stream",
    "action",
    "with",
    "throw",
    "let",
    "in",
    "if",
    "then",
    "else",
    "for",
    "give",
    "server",
    "client",
    "NaN",
    "Infinity",
];

/// Whether a name is a keyword.
pub fn is_keyword(name: &[u8]) -> bool
    ensures { result ≡ is_keyword name.now }
{
    is_among(KEYWORDS.as_slice(), name)
}

/// Whether a text is a name that is no keyword. Sources and streams have such names.
pub fn is_plain_name(text: &[u8]) -> bool
    ensures { result ≡ is_plain_name text.now }
{
    is_name(text) && !is_keyword(text)
}

/// Whether a text is a name.
fn is_name(text: &[u8]) -> bool
    ensures { result ≡ is_name text.now }
{
    !text.is_empty() && begins_name(text[0]) && are_name_bytes(&text[1..])
}

/// Whether each byte may stand in a name.
fn are_name_bytes(text: &[u8]) -> bool
    ensures { result ≡ list_all is_name_byte text.now }
{
    text.iter().all(|byte| is_name_byte(*byte))
}

/// Whether a name begins with a capital letter, and is no keyword.
pub fn is_upper(name: &[u8]) -> bool
    ensures { result ≡ is_upper name.now }
{
    begins_upper(name) && !is_keyword(name)
}

/// Whether a name begins with no capital letter, and is no keyword.
pub fn is_lower(name: &[u8]) -> bool
    ensures { result ≡ is_lower name.now }
{
    !begins_upper(name) && !is_keyword(name)
}

/// Whether a name begins with a capital letter.
fn begins_upper(name: &[u8]) -> bool
    ensures { result ≡ is_ascii_uppercase (slice_index name.now 0) }
{
    !name.is_empty() && name[0].is_ascii_uppercase()
}

/// Whether a name is one of some words.
fn is_among(words: &[&str], name: &[u8]) -> bool
    ensures { result ≡ list_any (λ word. bytes_eq word.now name.now) words.now }
{
    words.iter().any(|word| word.as_bytes() == name)
}
