ghost use Rattle.std.specs.Prelude.{◌≡◌, None, Some, IfOk, MatchOption};
ghost use Rattle.serde_json.specs.View.{view};
ghost use Rattle.serde_json.specs.Read.{read};
ghost use Rattle.flight_payload.specs.Rows.{IsModuleOf, IsNoModule};

use flight_text::has_whole_numbers;
use flight_value::{Memory, Text};
use serde_json::Value;
use std::alloc::Global;

/// What a bundler says of a client module, as a row has it: the same JSON, compact. None where the text is no JSON, or
/// holds a number that is not whole, or not from −(2^53−1) to 2^53−1 (this project's limit).
pub fn module_text(alloc: Global, json: &str) -> Result<Option<Text>, Memory>
    ensures { IfOk result (λ o. MatchOption o (IsNoModule json.now) (IsModuleOf json.now)) }
{
    let Some(value) = parsed(alloc, json)? else {
        return Ok(None);
    };
    if !has_whole_numbers(&value) {
        return Ok(None);
    }
    let text = Text::from_string(value.to_string(alloc)?)?;
    Ok(Some(text))
}

/// The JSON of a text, if it is JSON.
fn parsed(alloc: Global, json: &str) -> Result<Option<Value>, Memory>
    ensures { IfOk result (λ o. MatchOption o (read json.now ≡ None) (λ value. read json.now ≡ Some (view value))) }
{
    match Value::from_str(alloc, json) {
        Ok(value) => Ok(Some(value)),
        Err(error) if error.is_memory() => Err(Memory::past_limit()),
        Err(_) => Ok(None),
    }
}
