ghost use Rattle.std.specs.Prelude.{◌≡◌, ◌∷◌, ◌++◌, IfOk, MatchOption, All};
ghost use Rattle.flight_text.specs.Reference.{colon, IsName, path_text, IsReference};
ghost use Rattle.flight_text.specs.Answer.{Answers};

use crate::hex::read_id;
use crate::mark::{Marked, Ref};
use flight_value::{List, Memory, Text};
use std::alloc::Global;

/// What stands before the first colon, and what behind it.
fn split_name(text: &str) -> Option<(&str, &str)>
    ensures { MatchOption result (IsName text.now) (λ parts. IsName parts.0.now × (text.now ≡ parts.0.now ++ colon ∷ parts.1.now)) }
{
    text.split_once(':')
}

/// The names between the colons of a text.
fn read_path(alloc: Global, mut path: &str) -> Result<List<Text>, Memory>
    ensures spelled { IfOk result (λ names. path_text names ≡ colon ∷ path.now) }
    ensures names { IfOk result (λ names. All IsName names) }
{
    let mut names = Vec::new(alloc);
    while let Some((name, rest)) = split_name(path) {
        names.push(Text::new(alloc, name)?)?;
        path = rest;
    }
    names.push(Text::new(alloc, path)?)?;
    Ok(List::new(names))
}

/// The place that an id and a path spell.
pub fn read_reference(alloc: Global, text: &str) -> Result<Ref, Marked>
    ensures { Answers (IsReference text.now) result }
{
    match split_name(text) {
        None => Ok(Ref {
            id: read_id(text)?,
            path: List::new(Vec::new(alloc)),
        }),
        Some((digits, path)) => Ok(Ref {
            id: read_id(digits)?,
            path: read_path(alloc, path)?,
        }),
    }
}
