ghost use Rattle.std.specs.Prelude.{◌≡◌, ◌++◌, OnOk, IfOk, string_bytes};
ghost use Rattle.flight_top.specs.Lines.{feed_words, place_words, link_words, row_words, fault_words, fault_line, id_text};

use flight_client::ClientFault;
use flight_feed::FeedKind;
use flight_link::LinkKind;
use flight_place::PlaceKind;
use flight_value::{Memory, Text};
use std::alloc::Global;

/// The line that tells why a stream is refused.
pub fn refusal_line(alloc: Global, fault: ClientFault) -> Result<Text, Memory>
    ensures { IfOk result (λ text. text ≡ fault_line fault) }
{
    let mut out = String::new(alloc);
    out.push_str("stream: ")?;
    write_fault(&mut out, fault)?;
    out.push_str("\n")?;
    Text::from_string(out)
}

fn write_fault(out: &mut String, fault: ClientFault) -> Result<(), Memory>
    ensures { OnOk result (string_bytes out.new ≡ string_bytes out.old ++ fault_words fault) }
{
    match fault {
        ClientFault::Feed { number, kind } => {
            write_number(out, number)?;
            out.push_str(feed_fault(kind))?;
        }
        ClientFault::Place { number, kind } => {
            write_number(out, number)?;
            out.push_str(place_fault(kind))?;
        }
        ClientFault::Link { number, kind } => {
            write_number(out, number)?;
            write_link(out, kind)?;
        }
        ClientFault::NoRoot => out.push_str("no root")?,
        ClientFault::Undefined { id } => write_id(out, "undefined ", id)?,
        ClientFault::Memory => out.push_str("out of memory")?,
    }
    Ok(())
}

/// The number of a row, before what is wrong with it.
fn write_number(out: &mut String, number: u64) -> Result<(), Memory>
    ensures { OnOk result (string_bytes out.new ≡ string_bytes out.old ++ row_words number) }
{
    write!(out, "row {number}: ")?;
    Ok(())
}

fn write_link(out: &mut String, kind: LinkKind) -> Result<(), Memory>
    ensures { OnOk result (string_bytes out.new ≡ string_bytes out.old ++ link_words kind) }
{
    match kind {
        LinkKind::Twice { id } => write_id(out, "twice ", id),
        LinkKind::NotOpen { id } => write_id(out, "not open ", id),
        LinkKind::Closed { id } => write_id(out, "closed ", id),
        LinkKind::NotBuilt { .. } => {
            out.push_str("not built")?;
            Ok(())
        }
    }
}

/// An id in lower-case hexadecimal, behind a word.
fn write_id(out: &mut String, word: &str, id: u32) -> Result<(), Memory>
    ensures { OnOk result (string_bytes out.new ≡ string_bytes out.old ++ word.now ++ id_text id) }
{
    out.push_str(word)?;
    write!(out, "{id:x}")?;
    Ok(())
}

fn feed_fault(kind: FeedKind) -> &'static str
    ensures { result.now ≡ feed_words kind }
{
    match kind {
        FeedKind::BadId => "bad id",
        FeedKind::BadTag => "bad tag",
        FeedKind::DevRow => "dev row",
        FeedKind::BadLength => "bad length",
        FeedKind::RowTooLong => "row too long",
        FeedKind::BadText => "bad text",
        FeedKind::Cut => "cut",
    }
}

fn place_fault(kind: PlaceKind) -> &'static str
    ensures { result.now ≡ place_words kind }
{
    match kind {
        PlaceKind::BadModel => "bad model",
        PlaceKind::Number => "number",
        PlaceKind::BadToken { .. } => "bad token",
        PlaceKind::BadElement { .. } => "bad element",
    }
}
