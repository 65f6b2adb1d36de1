ghost use Rattle.std.specs.Prelude.{◌≡◌, ◌⊎◌, [], Some, None, IsUtf8, IfOk, IfErr, OnOk};
ghost use Rattle.std.specs.List.{list_all};
ghost use Rattle.serde_json.specs.Read.{read};
ghost use Rattle.serde_json.specs.View.{view};
ghost use Rattle.flight_syntax.specs.Names.{is_plain_name};
ghost use Rattle.flight_syntax.specs.Script as syntax;
ghost use Rattle.flight_script.specs.Entries.{entries};
ghost use Rattle.flight_script.specs.Script.{is_version, are_named, has_sources, may_have_streams, is_script, members_at, script_tests, tests, IsScript, IsScriptOf};
ghost use Rattle.flight_script.specs.Tests.{AllPass, Refuses};
ghost use Rattle.flight_script.specs.declared.fault.ScriptFault.TheVariants as ScriptFault;

use crate::count::script_fits;
use crate::fault::ScriptFault;
use crate::look::{as_members, has_only};
use crate::named::check_program;
use crate::names::names;
use crate::settler::read_settlers;
use crate::source::read_sources;
use crate::stream::read_streams;
use flight_syntax::{Declared, Program, Script, is_plain_name};
use flight_value::{List, Text};
use serde_json::{Map, Value};
use std::alloc::Global;
use std::str;

/// The script that a text is, for a program, or its first fault. JSON nests 127 levels at most (this project's
/// limit).
pub fn read_script(alloc: Global, bytes: &[u8], program: &Program) -> Result<Script, ScriptFault>
    requires { IsUtf8 bytes.now }
    ensures is { IfOk result (IsScriptOf bytes.now program.now.declared) }
    ensures form { IfOk result syntax.IsScript }
    ensures err { IfErr result (Refuses (tests (read bytes.now) program.now.declared)) }
{
    let script = parsed(alloc, utf8(bytes))?;
    let script = script_of(alloc, &script, program.declared.as_slice())?;
    if script_fits(&script) {
        Ok(script)
    } else {
        Err(ScriptFault::Memory)
    }
}

/// Bytes that are a text.
fn utf8(bytes: &[u8]) -> &str
    requires { IsUtf8 bytes.now }
    ensures { result.now ≡ bytes.now }
{
    match str::from_utf8(bytes) {
        Ok(text) => text,
        Err(_) => "",
    }
}

/// The JSON of a text.
fn parsed(alloc: Global, text: &str) -> Result<Value, ScriptFault>
    ensures ok { IfOk result (λ value. read text.now ≡ Some (view value)) }
    ensures err { IfErr result (λ e. (e ≡ ScriptFault.Memory) ⊎ ((read text.now ≡ None) × (e ≡ ScriptFault.BadJson))) }
{
    match Value::from_str(alloc, text) {
        Ok(value) => Ok(value),
        Err(error) if error.is_memory() => Err(ScriptFault::Memory),
        Err(_) => Err(ScriptFault::BadJson),
    }
}

/// The script that a value is.
fn script_of(alloc: Global, script: &Value, declared: &[Declared]) -> Result<Script, ScriptFault>
    ensures pass { OnOk result (AllPass (script_tests (view script.now) declared.now)) }
    ensures is { IfOk result (IsScript (view script.now)) }
    ensures err { IfErr result (Refuses (script_tests (view script.now) declared.now)) }
{
    if !is_script(script) {
        return Err(ScriptFault::BadShape {
            place: Text::new(alloc, "script")?,
        });
    }
    let none = Map::new(alloc);
    let source_members = members_at(script, "sources", &none);
    let stream_members = members_at(script, "streams", &none);
    let source_names = names(alloc, source_members)?;
    let stream_names = names(alloc, stream_members)?;
    let sources = read_sources(alloc, source_members)?;
    let streams = read_streams(alloc, source_names.as_slice(), stream_members)?;
    let settlers = read_settlers(alloc, source_names.as_slice(), script)?;
    check_program(
        alloc,
        declared,
        source_names.as_slice(),
        stream_names.as_slice(),
    )?;
    Ok(Script {
        sources: List::new(sources),
        streams: List::new(streams),
        settlers: List::new(settlers),
    })
}

/// Whether a value has the form of a script, as far as its sources and streams go by name.
fn is_script(value: &Value) -> bool
    ensures { result ≡ is_script (view value.now) }
{
    has_only(value, &["version", "sources", "streams", "settlers"])
        && is_version(value)
        && has_sources(value)
        && may_have_streams(value)
}

/// Whether the version is 1.
fn is_version(script: &Value) -> bool
    ensures { result ≡ is_version (view script.now) }
{
    match script.get("version").and_then(Value::as_u64) {
        Some(version) => version == 1,
        None => false,
    }
}

/// Whether the sources have lawful names.
fn has_sources(script: &Value) -> bool
    ensures { result ≡ has_sources (view script.now) }
{
    match script.get("sources") {
        Some(sources) => are_named(sources),
        None => false,
    }
}

/// Whether the streams, if there are any, have lawful names.
fn may_have_streams(script: &Value) -> bool
    ensures { result ≡ may_have_streams (view script.now) }
{
    match script.get("streams") {
        Some(streams) => are_named(streams),
        None => true,
    }
}

/// Whether a value is an object with lawful names.
fn are_named(value: &Value) -> bool
    ensures { result ≡ are_named (view value.now) }
{
    match as_members(value) {
        Some(members) => have_plain_names(members),
        None => false,
    }
}

/// Whether the names of all members are names that are no keywords.
fn have_plain_names(members: &Map<String, Value>) -> bool
    ensures { result ≡ list_all (λ m. is_plain_name m.0) (entries members.now.entries) }
{
    for (name, _member) in members.iter() {
        if !is_plain_name(name.as_bytes()) {
            return false;
        }
    }
    true
}

/// The members of an object in an object, or those of an empty one.
fn members_at<'a>(
    script: &'a Value,
    name: &str,
    none: &'a Map<String, Value>,
) -> &'a Map<String, Value>
    requires { none.now.entries ≡ [] }
    ensures { entries result.now.entries ≡ members_at name.now (view script.now) }
{
    match script.get(name).and_then(as_members) {
        Some(members) => members,
        None => none,
    }
}
