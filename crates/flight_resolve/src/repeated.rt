ghost use Rattle.std.specs.Prelude.{◌≡◌, ◌∷◌, [], IfOk, OnOk, List, map, if◌then◌else◌};
ghost use Rattle.flight_syntax.specs.Lexicon.{Placed};
ghost use Rattle.flight_syntax.specs.Faults as faults;
ghost use Rattle.flight_syntax.specs.Faults.{is_named};
ghost use Rattle.flight_parse.specs.Code.{placed};
ghost use Rattle.flight_resolve.specs.Names.{IsFirst};
ghost use Rattle.flight_resolve.specs.Seen.{HasSeen};

use crate::name_fault::{NameFault, first_of};
use flight_parse::Name;
use flight_value::{Memory, Text};
use std::alloc::Global;
use std::collections::HashSet;

/// The first name that stands behind the same name.
pub fn repeated(alloc: Global, names: &[&Name]) -> Result<Option<NameFault>, Memory>
    ensures { IfOk result (λ fault. IsFirst fault (faults.repeated [] (map (λ n. placed n.now) names.now))) }
{
    let mut seen = HashSet::new(alloc);
    let mut first = None;
    for name in names {
        let fault = met(&mut seen, *name)?;
        first = first_of(first, fault);
    }
    Ok(first)
}

/// A name is met, for the second time if it was seen.
fn met(seen: &mut HashSet<Text>, name: &Name) -> Result<Option<NameFault>, Memory>
    ensures fault { IfOk result (λ fault. (before : List Placed) → HasSeen seen.old before → IsFirst fault (if is_named (placed name.now).bytes before then faults.twice (placed name.now) ∷ [] else [])) }
    ensures seen { OnOk result ((before : List Placed) → HasSeen seen.old before → HasSeen seen.new (placed name.now ∷ before)) }
{
    if seen.insert(name.bytes.clone()?)? {
        Ok(None)
    } else {
        Ok(Some(NameFault::Twice(name.copy()?)))
    }
}
