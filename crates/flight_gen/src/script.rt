ghost use Rattle.std.specs.Prelude.{◌≡◌, ◌<◌, ◌++◌, OnOk, string_bytes};
ghost use Rattle.flight_gen.specs.Generated.{each_below, comma, between, object, ring, source, sources, settled, settler, settlers, script};

use flight_value::Memory;

const BEFORE_SOURCES: &str = "{\"version\":1,\"sources\":{";

/// Appends the script of so many sources.
pub fn push_script(out: &mut String, count: u32) -> Result<(), Memory>
    ensures { OnOk result (string_bytes out.new ≡ string_bytes out.old ++ script count) }
{
    push_sources(out, count)?;
    out.push_str(",\"settlers\":[")?;
    push_settlers(out, count)?;
    out.push_str("]}\n")?;
    Ok(())
}

#[tactic(auto, unfolding(crate::specs::Generated::sources))]
fn push_sources(out: &mut String, count: u32) -> Result<(), Memory>
    ensures { OnOk result (string_bytes out.new ≡ string_bytes out.old ++ sources count) }
{
    out.push_str(BEFORE_SOURCES)?;
    push_all_sources(out, count)?;
    out.push_str("}")?;
    Ok(())
}

fn push_all_sources(out: &mut String, count: u32) -> Result<(), Memory>
    ensures { OnOk result (string_bytes out.new ≡ string_bytes out.old ++ each_below source count) }
{
    for number in 0..count {
        push_source(out, number)?;
    }
    Ok(())
}

/// Appends a source: an array of four objects, each of which names the next one.
#[tactic(auto, unfolding(crate::specs::Generated::source))]
fn push_source(out: &mut String, number: u32) -> Result<(), Memory>
    ensures { OnOk result (string_bytes out.new ≡ string_bytes out.old ++ source number) }
{
    push_comma(out, 0, number)?;
    push_between(
        out,
        "\"s",
        number,
        "\":{\"value\":\"$0\",\"nodes\":[{\"array\":[\"$1\",\"$2\",\"$3\",\"$4\"]}",
    )?;
    push_ring(out, number)?;
    out.push_str("]}")?;
    Ok(())
}

#[tactic(auto, unfolding(crate::specs::Generated::ring))]
fn push_ring(out: &mut String, number: u32) -> Result<(), Memory>
    ensures { OnOk result (string_bytes out.new ≡ string_bytes out.old ++ ring number) }
{
    push_object(out, number, 1, 2)?;
    push_object(out, number, 2, 3)?;
    push_object(out, number, 3, 4)?;
    push_object(out, number, 4, 1)
}

#[tactic(auto, unfolding(crate::specs::Generated::object))]
fn push_object(out: &mut String, number: u32, own: u32, next: u32) -> Result<(), Memory>
    ensures { OnOk result (string_bytes out.new ≡ string_bytes out.old ++ object number own next) }
{
    push_between(out, ",{\"object\":{\"name\":\"s", number, ".")?;
    push_between(out, "", own, "\",\"next\":\"$")?;
    push_between(out, "", next, "\"}}")?;
    Ok(())
}

/// Appends a number between two texts.
fn push_between(out: &mut String, before: &str, number: u32, after: &str) -> Result<(), Memory>
    ensures { OnOk result (string_bytes out.new ≡ string_bytes out.old ++ between before.now number after.now) }
{
    out.push_str(before)?;
    write!(out, "{number}")?;
    out.push_str(after)?;
    Ok(())
}

/// Appends the four settlers.
fn push_settlers(out: &mut String, count: u32) -> Result<(), Memory>
    ensures { OnOk result (string_bytes out.new ≡ string_bytes out.old ++ settlers count) }
{
    push_settler(out, count, 0)?;
    out.push_str(",")?;
    push_settler(out, count, 1)?;
    out.push_str(",")?;
    push_settler(out, count, 2)?;
    out.push_str(",")?;
    push_settler(out, count, 3)
}

/// Appends a settler: each fourth source, from its own number on.
fn push_settler(out: &mut String, count: u32, own: u32) -> Result<(), Memory>
    requires { own < 4 }
    ensures { OnOk result (string_bytes out.new ≡ string_bytes out.old ++ settler count own) }
{
    out.push_str("[")?;
    push_settlements(out, count, own)?;
    out.push_str("]")?;
    Ok(())
}

fn push_settlements(out: &mut String, count: u32, own: u32) -> Result<(), Memory>
    ensures { OnOk result (string_bytes out.new ≡ string_bytes out.old ++ each_below (settled own) count) }
{
    for number in 0..count {
        push_settlement(out, own, number)?;
    }
    Ok(())
}

fn push_settlement(out: &mut String, own: u32, number: u32) -> Result<(), Memory>
    ensures { OnOk result (string_bytes out.new ≡ string_bytes out.old ++ settled own number) }
{
    if number % 4 == own {
        push_comma(out, own, number)?;
        write!(out, "\"s{number}\"")?;
    }
    Ok(())
}

/// Appends a comma, but before the first.
fn push_comma(out: &mut String, first: u32, number: u32) -> Result<(), Memory>
    ensures { OnOk result (string_bytes out.new ≡ string_bytes out.old ++ comma first number) }
{
    if number != first {
        out.push_str(",")?;
    }
    Ok(())
}
