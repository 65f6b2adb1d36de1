ghost use Rattle.std.specs.Prelude.{◌≡◌, [], ◌++◌, Err, IfOk, MatchOption, encode_utf8, codes};
ghost use Rattle.flight_value.specs.Date.{IsDate};
ghost use Rattle.flight_text.specs.declared.mark.Mark.{Mark};
ghost use Rattle.flight_text.specs.declared.mark.Marked.{Marked};
ghost use Rattle.flight_text.specs.declared.mark.Ref.{Ref};
ghost use Rattle.flight_text.specs.Reference.{IsReference};
ghost use Rattle.flight_text.specs.Mark.{IsSpelling, IsNoWord, IsSpellable};
ghost use Rattle.flight_text.specs.Answer.{Answers};

use crate::big::read_big;
use crate::hex::read_id;
use crate::mark::{Mark, Marked};
use crate::reference::read_reference;
use flight_value::{Constant, Text, is_date};
use std::alloc::Global;

/// What a model string stands for. The answer is `BadToken` exactly where it spells no mark. Every mark that
/// was read can be spelled.
pub fn read_mark(alloc: Global, text: &str) -> Result<Mark, Marked>
    ensures spelled { IfOk result (IsSpelling text.now) }
    ensures bad { result ≡ Err Marked.BadToken → (mark : Mark) → ¬ IsSpelling text.now mark }
    ensures spellable { IfOk result IsSpellable }
{
    match text.strip_prefix('$') {
        None => Ok(Mark::Plain(Text::new(alloc, text)?)),
        Some(text) => read_behind(alloc, text),
    }
}

/// The mark of what stands behind a `$`.
fn read_behind(alloc: Global, text: &str) -> Result<Mark, Marked>
    ensures { Answers (IsSpelling (codes "$" ++ text.now)) result }
{
    let Some((sign, rest)) = split_sign(text) else {
        return Ok(Mark::Element);
    };
    match sign {
        '$' => Ok(Mark::Plain(Text::new(alloc, text)?)),
        'L' => Ok(Mark::Lazy(read_id(rest)?)),
        '@' => Ok(Mark::Promise(read_id(rest)?)),
        'F' | 'h' => Ok(Mark::Action(read_id(rest)?)),
        'Q' => Ok(Mark::Map(read_reference(alloc, rest)?)),
        'W' => Ok(Mark::Set(read_reference(alloc, rest)?)),
        'n' => Ok(Mark::Big(read_big(rest)?)),
        'D' => read_date(alloc, rest),
        'S' => Ok(Mark::Symbol(Text::new(alloc, rest)?)),
        _ => read_word_or_place(alloc, text),
    }
}

/// The mark of a word or of the value at a place, which stand behind a `$` alone.
fn read_word_or_place(alloc: Global, text: &str) -> Result<Mark, Marked>
    ensures ok { IfOk result (IsSpelling (codes "$" ++ text.now)) }
    ensures bad { result ≡ Err Marked.BadToken → IsNoWord (codes "$" ++ text.now) × ((place : Ref) → ¬ IsReference text.now place) }
{
    match read_word(text) {
        Some(mark) => Ok(mark),
        None => Ok(Mark::Value(read_reference(alloc, text)?)),
    }
}

/// The mark of a date, which stands behind `$D`.
fn read_date(alloc: Global, date: &str) -> Result<Mark, Marked>
    ensures ok { IfOk result (IsSpelling (codes "$D" ++ date.now)) }
    ensures bad { result ≡ Err Marked.BadToken → ¬ IsDate date.now }
{
    if !is_date(date) {
        return Err(Marked::BadToken);
    }
    Ok(Mark::Date(Text::new(alloc, date)?))
}

/// The first character, and what stands behind it.
fn split_sign(text: &str) -> Option<(char, &str)>
    ensures { MatchOption result (text.now ≡ []) (λ parts. text.now ≡ encode_utf8 parts.0 ++ parts.1.now) }
{
    let mut chars = text.chars();
    let sign = chars.next()?;
    Some((sign, chars.as_str()))
}

/// The mark of a word that stands behind a `$`.
fn read_word(word: &str) -> Option<Mark>
    ensures { MatchOption result (IsNoWord (codes "$" ++ word.now)) (IsSpelling (codes "$" ++ word.now)) }
{
    match word {
        "undefined" => Some(Mark::Undefined),
        "NaN" => Some(Mark::Constant(Constant::NotANumber)),
        "Infinity" => Some(Mark::Constant(Constant::Infinity)),
        "-Infinity" => Some(Mark::Constant(Constant::MinusInfinity)),
        "-0" => Some(Mark::Constant(Constant::MinusZero)),
        _ => None,
    }
}
