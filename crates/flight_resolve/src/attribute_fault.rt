ghost use Rattle.std.specs.Prelude.{◌≡◌, ◌∷◌, ◌++◌, [], IfOk, List, map, codes, Bool, not, if◌then◌else◌};
ghost use Rattle.std.specs.Str.{bytes_eq};
ghost use Rattle.flight_syntax.specs.Faults as faults;
ghost use Rattle.flight_parse.specs.Code.{placed};
ghost use Rattle.flight_resolve.specs.Names.{IsFirst};

use crate::name_fault::{NameFault, first_of};
use flight_parse::Name;
use flight_value::Memory;

/// The first attribute `children`.
pub fn children_attribute(names: &[&Name]) -> Result<Option<NameFault>, Memory>
    ensures { IfOk result (λ fault. IsFirst fault (faults.children_attributes (map (λ n. placed n.now) names.now))) }
{
    let mut first = None;
    for name in names {
        let fault = if_children(*name)?;
        first = first_of(first, fault);
    }
    Ok(first)
}

/// The fault of an attribute `children`.
fn if_children(name: &Name) -> Result<Option<NameFault>, Memory>
    ensures { IfOk result (λ fault. IsFirst fault (if bytes_eq name.now.bytes (codes "children") then faults.twice (placed name.now) ∷ [] else [])) }
{
    if name.bytes.as_str() == "children" {
        Ok(Some(NameFault::Twice(name.copy()?)))
    } else {
        Ok(None)
    }
}

/// The first attribute `key`.
pub fn key_attribute(names: &[&Name]) -> Result<Option<NameFault>, Memory>
    ensures { IfOk result (λ fault. IsFirst fault (faults.key_attributes (map (λ n. placed n.now) names.now))) }
{
    let mut first = None;
    for name in names {
        let fault = if_key(*name)?;
        first = first_of(first, fault);
    }
    Ok(first)
}

/// The fault of an attribute `key`.
fn if_key(name: &Name) -> Result<Option<NameFault>, Memory>
    ensures { IfOk result (λ fault. IsFirst fault (if bytes_eq name.now.bytes (codes "key") then faults.key_on_server (placed name.now) ∷ [] else [])) }
{
    if name.bytes.as_str() == "key" {
        Ok(Some(NameFault::KeyOnServer(name.copy()?)))
    } else {
        Ok(None)
    }
}
