ghost use Rattle.std.specs.Prelude.{◌≡◌, ◌∷◌, [], Some, false, true, map, slice_get, IfOk, IfErr, OnOk, MatchOption};
ghost use Rattle.flight_value.specs.Graph.{Ascend};
ghost use Rattle.flight_script.specs.Entries.{entries};
ghost use Rattle.flight_script.specs.Json.{is_among};
ghost use Rattle.flight_script.specs.Script.{names};
ghost use Rattle.flight_script.specs.Tests.{holds, Refuses};
ghost use Rattle.flight_script.specs.declared.fault.ScriptFault.TheVariants as fault;

use crate::fault::ScriptFault;
use crate::text::number;
use flight_value::Text;
use serde_json::{Map, Value};
use std::alloc::Global;

/// The names of members. They ascend.
pub fn names(alloc: Global, members: &Map<String, Value>) -> Result<Vec<&str>, ScriptFault>
    ensures are { IfOk result (λ out. map (λ n. n.now) out.items ≡ names (entries members.now.entries)) }
    ensures ascend { Ascend (names (entries members.now.entries)) }
    ensures err { IfErr result (λ e. e ≡ fault.Memory) }
{
    let mut out = Vec::with_capacity(alloc, members.len())?;
    for (name, _member) in members.iter() {
        out.push(name.as_str())?;
    }
    Ok(out)
}

/// The number of a name among names that ascend.
pub fn number_of(alloc: Global, names: &[&str], name: &str) -> Result<u32, ScriptFault>
    requires { Ascend (map (λ n. n.now) names.now) }
    ensures is { IfOk result (λ i. slice_get (map (λ n. n.now) names.now) i ≡ Some name.now) }
    ensures among { OnOk result (is_among (map (λ n. n.now) names.now) name.now ≡ true) }
    ensures err { IfErr result (Refuses (holds (is_among (map (λ n. n.now) names.now) name.now) (fault.UnknownSource name.now) ∷ [])) }
{
    match find(names, name) {
        Some(position) => number(position),
        None => Err(ScriptFault::UnknownSource {
            name: Text::new(alloc, name)?,
        }),
    }
}

/// Where a name stands among names that ascend.
fn find(names: &[&str], name: &str) -> Option<usize>
    requires { Ascend (map (λ n. n.now) names.now) }
    ensures is { MatchOption result (is_among (map (λ n. n.now) names.now) name.now ≡ false) (λ i. slice_get (map (λ n. n.now) names.now) i ≡ Some name.now) }
{
    match names.binary_search(&name) {
        Ok(position) => Some(position),
        Err(_) => None,
    }
}
