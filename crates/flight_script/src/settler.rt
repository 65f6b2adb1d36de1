ghost use Rattle.std.specs.Prelude.{◌≡◌, ◌∷◌, ◌++◌, [], ℕ, List, true, map, length, codes, Some, slice_get, slice_set, ◌<◌, IfOk, IfErr, OnOk};
ghost use Rattle.std.specs.List.{AllZip, flat_map, list_all};
ghost use Rattle.serde_json.specs.View.{view};
ghost use Rattle.flight_value.specs.Graph.{Ascend};
ghost use Rattle.flight_script.specs.Json.{as_list, list_of, list_at, text, are_texts};
ghost use Rattle.flight_script.specs.Streams.{IsNumberOf};
ghost use Rattle.flight_script.specs.Settlers.{has_settlers, are_settlers, settle_tests, settled_tests, settler_tests, marks, AreSettled};
ghost use Rattle.flight_script.specs.Tests.{AllPass, Refuses};
ghost use Rattle.flight_script.specs.declared.fault.ScriptFault.TheVariants as ScriptFault;

use crate::fault::ScriptFault;
use crate::look::{are_texts, as_list, list_at, list_of, text};
use crate::names::number_of;
use flight_value::{List, Text};
use serde_json::Value;
use std::alloc::Global;

/// So many settlers there are at most.
const MOST: usize = 64;

/// The settlers of a script, over the names of the sources.
pub fn read_settlers(
    alloc: Global,
    sources: &[&str],
    script: &Value,
) -> Result<Vec<List<u32>>, ScriptFault>
    requires { Ascend (map (λ n. n.now) sources.now) }
    ensures pass { OnOk result (AllPass (settler_tests (map (λ n. n.now) sources.now) (view script.now))) }
    ensures are { IfOk result (λ out. AllZip (AreSettled (map (λ n. n.now) sources.now)) (list_at (codes "settlers") (view script.now)) out.items) }
    ensures err { IfErr result (Refuses (settler_tests (map (λ n. n.now) sources.now) (view script.now))) }
{
    if !has_settlers(script) {
        return Err(ScriptFault::BadShape {
            place: Text::new(alloc, "settlers")?,
        });
    }
    settle_all(alloc, sources, list_at(script, "settlers"))
}

/// Whether the settlers have their form.
fn has_settlers(script: &Value) -> bool
    ensures { result ≡ has_settlers (view script.now) }
{
    match script.get("settlers") {
        Some(settlers) => are_settlers(settlers),
        None => true,
    }
}

/// Whether these are at most 64 arrays of texts.
fn are_settlers(value: &Value) -> bool
    ensures { result ≡ are_settlers (as_list (view value.now)) }
{
    match as_list(value) {
        Some(settlers) => settlers.len() <= MOST && are_all_texts(settlers),
        None => false,
    }
}

/// Whether each of these is an array of texts.
#[tactic(auto, using(crate::proofs::Views::all_map))]
fn are_all_texts(settlers: &[Value]) -> bool
    ensures { result ≡ list_all are_texts (map view settlers.now) }
{
    are_each_texts(settlers)
}

/// Whether each of these is an array of texts.
fn are_each_texts(settlers: &[Value]) -> bool
    ensures { result ≡ list_all (λ v. are_texts (view v)) settlers.now }
{
    settlers.iter().all(|settler| are_texts(settler))
}

/// The sources that each settler settles.
fn settle_all(
    alloc: Global,
    sources: &[&str],
    settlers: &[Value],
) -> Result<Vec<List<u32>>, ScriptFault>
    requires { Ascend (map (λ n. n.now) sources.now) }
    ensures pass { OnOk result (AllPass (settled_tests (map (λ n. n.now) sources.now) [] (flat_map list_of (map view settlers.now)))) }
    ensures are { IfOk result (λ out. AllZip (AreSettled (map (λ n. n.now) sources.now)) (map view settlers.now) out.items) }
    ensures err { IfErr result (Refuses (settled_tests (map (λ n. n.now) sources.now) [] (flat_map list_of (map view settlers.now)))) }
{
    let mut settled = unsettled(alloc, sources)?;
    let mut out = Vec::with_capacity(alloc, settlers.len())?;
    for settler in settlers {
        let numbers = settle(alloc, sources, list_of(settler), &mut settled)?;
        out.push(List::new(numbers))?;
    }
    Ok(out)
}

/// For each source, that it is not settled.
fn unsettled(alloc: Global, sources: &[&str]) -> Result<Vec<bool>, ScriptFault>
    ensures marks { IfOk result (λ out. out.items ≡ marks (map (λ n. n.now) sources.now) []) }
    ensures err { IfErr result (λ e. e ≡ ScriptFault.Memory) }
{
    let mut out = Vec::with_capacity(alloc, sources.len())?;
    for _source in sources {
        out.push(false)?;
    }
    Ok(out)
}

/// The sources that one settler settles. Those that are settled are marked.
fn settle(
    alloc: Global,
    sources: &[&str],
    items: &[Value],
    settled: &mut Vec<bool>,
) -> Result<Vec<u32>, ScriptFault>
    requires ascend { Ascend (map (λ n. n.now) sources.now) }
    requires each { length settled.old.items ≡ length sources.now }
    ensures each { length settled.new.items ≡ length sources.now }
    ensures pass { (earlier : List (List ℕ)) → settled.old.items ≡ marks (map (λ n. n.now) sources.now) earlier → OnOk result (AllPass (settled_tests (map (λ n. n.now) sources.now) earlier (map view items.now))) }
    ensures marks { (earlier : List (List ℕ)) → settled.old.items ≡ marks (map (λ n. n.now) sources.now) earlier → OnOk result (settled.new.items ≡ marks (map (λ n. n.now) sources.now) (earlier ++ map text (map view items.now))) }
    ensures are { IfOk result (λ out. AllZip (IsNumberOf (map (λ n. n.now) sources.now)) (map view items.now) out.items) }
    ensures err { (earlier : List (List ℕ)) → settled.old.items ≡ marks (map (λ n. n.now) sources.now) earlier → IfErr result (Refuses (settled_tests (map (λ n. n.now) sources.now) earlier (map view items.now))) }
{
    let mut numbers = Vec::with_capacity(alloc, items.len())?;
    for item in items {
        numbers.push(settle_one(alloc, sources, text(item), settled)?)?;
    }
    Ok(numbers)
}

/// The source of that name, which is then marked as settled.
fn settle_one(
    alloc: Global,
    sources: &[&str],
    name: &str,
    settled: &mut Vec<bool>,
) -> Result<u32, ScriptFault>
    requires ascend { Ascend (map (λ n. n.now) sources.now) }
    requires each { length settled.old.items ≡ length sources.now }
    ensures each { length settled.new.items ≡ length sources.now }
    ensures pass { (earlier : List (List ℕ)) → settled.old.items ≡ marks (map (λ n. n.now) sources.now) earlier → OnOk result (AllPass (settle_tests (map (λ n. n.now) sources.now) earlier name.now)) }
    ensures marks { (earlier : List (List ℕ)) → settled.old.items ≡ marks (map (λ n. n.now) sources.now) earlier → OnOk result (settled.new.items ≡ marks (map (λ n. n.now) sources.now) (earlier ++ name.now ∷ [])) }
    ensures is { IfOk result (λ i. slice_get (map (λ n. n.now) sources.now) i ≡ Some name.now) }
    ensures err { (earlier : List (List ℕ)) → settled.old.items ≡ marks (map (λ n. n.now) sources.now) earlier → IfErr result (Refuses (settle_tests (map (λ n. n.now) sources.now) earlier name.now)) }
{
    let number = number_of(alloc, sources, name)?;
    if settled[number as usize] {
        return Err(ScriptFault::SettledTwice {
            name: Text::new(alloc, name)?,
        });
    }
    mark(settled, number as usize);
    Ok(number)
}

/// Marks a source as settled.
fn mark(settled: &mut Vec<bool>, at: usize)
    requires { at < length settled.old.items }
    ensures { settled.new.items ≡ slice_set settled.old.items at true }
{
    settled[at] = true;
}
