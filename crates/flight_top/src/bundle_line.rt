ghost use Rattle.std.specs.Prelude.{◌≡◌, ◌++◌, OnOk, IfOk, codes, string_bytes};
ghost use Rattle.flight_graph.specs.Text.{string_text};
ghost use Rattle.flight_top.specs.BundleLines.{at_place, lex_words, program_words, node_words, script_words, bundle_words, bundle_line};

use flight_bundle::BundleFault;
use flight_graph::{Writer, write_string};
use flight_resolve::ParseFault;
use flight_script::ScriptFault;
use flight_syntax::LexKind;
use flight_value::{Memory, Text};
use std::alloc::Global;

/// The line that tells why a bundle is refused.
pub fn bundle_refusal(alloc: Global, fault: &BundleFault) -> Result<Text, Memory>
    ensures { IfOk result (λ text. text ≡ bundle_line fault.now) }
{
    let mut out = String::new(alloc);
    write_bundle(&mut out, fault)?;
    out.push_str("\n")?;
    Text::from_string(out)
}

fn write_bundle(out: &mut String, fault: &BundleFault) -> Result<(), Memory>
    ensures { OnOk result (string_bytes out.new ≡ string_bytes out.old ++ bundle_words fault.now) }
{
    match fault {
        BundleFault::TooLong => out.push_str("bundle: too long")?,
        BundleFault::NotUtf8 { at } => write_at(out, "bundle: not UTF-8", *at)?,
        BundleFault::ReplyWanted => out.push_str("bundle: reply wanted")?,
        BundleFault::ReplyNotWanted => out.push_str("bundle: reply not wanted")?,
        BundleFault::Program(fault) => {
            out.push_str("program: ")?;
            write_program(out, fault)?;
        }
        BundleFault::Script(fault) => {
            out.push_str("script: ")?;
            write_script(out, fault)?;
        }
        BundleFault::Memory => out.push_str("bundle: out of memory")?,
    }
    Ok(())
}

fn write_program(out: &mut String, fault: &ParseFault) -> Result<(), Memory>
    ensures { OnOk result (string_bytes out.new ≡ string_bytes out.old ++ program_words fault.now) }
{
    match fault {
        ParseFault::Lex(fault) => write_at(out, lex_fault(fault.kind), fault.at),
        ParseFault::Unexpected { at } => write_at(out, "unexpected", *at),
        ParseFault::TooDeep { at } => write_at(out, "too deep", *at),
        ParseFault::Unknown { name, at } => write_named_at(out, "unknown ", name, *at),
        ParseFault::Twice { name, at } => write_named_at(out, "twice ", name, *at),
        ParseFault::KeyOnServer { at } => write_at(out, "key on server", *at),
        ParseFault::NoApp => write_word(out, "no App"),
        ParseFault::Memory => write_word(out, "out of memory"),
    }
}

fn write_script(out: &mut String, fault: &ScriptFault) -> Result<(), Memory>
    ensures { OnOk result (string_bytes out.new ≡ string_bytes out.old ++ script_words fault.now) }
{
    match fault {
        ScriptFault::BadJson => write_word(out, "bad json"),
        ScriptFault::BadShape { place } => write_named(out, "bad shape ", place),
        ScriptFault::BadNode { source, node } => {
            write_named(out, "bad node ", source)?;
            write_number(out, *node)
        }
        ScriptFault::Number { source } => write_named(out, "number ", source),
        ScriptFault::UnknownSource { name } => write_named(out, "unknown ", name),
        ScriptFault::SettledTwice { name } => write_named(out, "settled twice ", name),
        ScriptFault::Memory => write_word(out, "out of memory"),
    }
}

fn write_word(out: &mut String, word: &str) -> Result<(), Memory>
    ensures { OnOk result (string_bytes out.new ≡ string_bytes out.old ++ word.now) }
{
    out.push_str(word)?;
    Ok(())
}

/// What is wrong, and the place in bytes where it is.
fn write_at(out: &mut String, word: &str, at: u32) -> Result<(), Memory>
    ensures { OnOk result (string_bytes out.new ≡ string_bytes out.old ++ (word.now ++ at_place at)) }
{
    out.push_str(word)?;
    write!(out, " at {at}")?;
    Ok(())
}

/// A word and a name behind it.
fn write_named(out: &mut String, word: &str, name: &Text) -> Result<(), Memory>
    ensures { OnOk result (string_bytes out.new ≡ string_bytes out.old ++ (word.now ++ string_text name.now)) }
{
    let mut piece = Writer::new(*out.allocator());
    write_string(&mut piece, name.as_str())?;
    out.push_str(word)?;
    out.push_str(piece.into_text()?.as_str())?;
    Ok(())
}

fn write_named_at(out: &mut String, word: &str, name: &Text, at: u32) -> Result<(), Memory>
    ensures { OnOk result (string_bytes out.new ≡ string_bytes out.old ++ (word.now ++ string_text name.now ++ at_place at)) }
{
    write_named(out, word, name)?;
    write!(out, " at {at}")?;
    Ok(())
}

/// The number of a node, or that it is the value.
fn write_number(out: &mut String, node: Option<u32>) -> Result<(), Memory>
    ensures { OnOk result (string_bytes out.new ≡ string_bytes out.old ++ codes " " ++ node_words node) }
{
    match node {
        Some(number) => write!(out, " {number}")?,
        None => out.push_str(" value")?,
    }
    Ok(())
}

fn lex_fault(kind: LexKind) -> &'static str
    ensures { result.now ≡ lex_words kind }
{
    match kind {
        LexKind::BadByte => "bad byte",
        LexKind::BadText => "bad text",
        LexKind::BadNumber => "bad number",
    }
}
