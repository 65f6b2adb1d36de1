ghost use Rattle.std.specs.Prelude.{◌≡◌, IfOk, map};
ghost use Rattle.flight_syntax.specs.Tree.{props_of};
ghost use Rattle.flight_syntax.specs.Faults as faults;
ghost use Rattle.flight_parse.specs.Code.{placed, property_of};

use flight_parse::{Name, Property};
use flight_value::Memory;
use std::alloc::Global;

/// The names of properties.
pub fn property_names(alloc: Global, properties: &[Property]) -> Result<Vec<&Name>, Memory>
    ensures { IfOk result (λ names. map (λ n. placed n.now) names.items ≡ faults.property_names (props_of (map property_of properties.now))) }
{
    let mut names = Vec::with_capacity(alloc, properties.len())?;
    for property in properties {
        names.push(&property.name)?;
    }
    Ok(names)
}
