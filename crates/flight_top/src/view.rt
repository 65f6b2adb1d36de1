ghost use Rattle.std.specs.Prelude.{◌≡◌, ◌<◌, ◌≤◌, ◌++◌, ℕ, List, [], IfOk, IfErr, OnOk, length, Ok, Err};
ghost use Rattle.flight_base.specs.Outside.{Rose, IsAll, IsMore};
ghost use Rattle.flight_client.specs.Held.{HasTaken};
ghost use Rattle.flight_top.specs.View.{IsDueView, IsDueViewOf, most_stream};

use crate::due::{Due, Undue, line};
use crate::line::refusal_line;
use crate::told::Status;
use flight_base::Source;
use flight_client::{Client, ClientFault};
use flight_value::{Memory, Text};
use std::alloc::Global;
use std::mem;

/// The most bytes of a stream.
const MOST_STREAM: usize = 134_217_728;

/// Why a client did not take all that a source has left.
#[derive(Clone, Copy, Debug, PartialEq, Eq)]
enum Untaken {
    /// The source failed.
    Read,
    /// The source gave more bytes than a stream may have.
    TooLong,
}

/// What `view` owes for the bytes that a source has left, which its client takes in pieces of at most so many bytes.
pub fn view<S: Source>(alloc: Global, cut: usize, source: &mut S) -> Result<Due, Undue>
    requires { 0 < cut }
    ensures due { IfOk result (λ due. IsDueViewOf (S.left source.old) due.status due.text) }
    ensures read { result ≡ Err Undue.Read → Rose (S.faults source.old) (S.faults source.new) }
{
    let mut client = Client::new(alloc);
    match take_stream(&mut client, cut, source) {
        Ok(()) => view_taken(alloc, client),
        Err(Untaken::TooLong) => line(alloc, Status::Stream, "stream: too long\n"),
        Err(Untaken::Read) => Err(Undue::Read),
    }
}

/// Lets a client take all that a source has left. After a fault of the client the source is read on to its end: a
/// stream that is too long is refused as such, whatever stands in it.
fn take_stream<S: Source>(client: &mut Client, cut: usize, source: &mut S) -> Result<(), Untaken>
    requires cut { 0 < cut }
    requires none { HasTaken [] client.old }
    ensures taken { OnOk result ((input : List ℕ) × IsAll (S.left source.old) input × (length input ≤ most_stream) × HasTaken input client.new) }
    ensures too_long { result ≡ Err Untaken.TooLong → IsMore most_stream (S.left source.old) }
    ensures read { result ≡ Err Untaken.Read → Rose (S.faults source.old) (S.faults source.new) }
{
    let mut buf = [0; 65_536];
    let mut taken = 0;
    'turns: while taken <= MOST_STREAM {
        let Ok(count) = source.read(&mut buf) else {
            return Err(Untaken::Read);
        };
        if count == 0 {
            return Ok(());
        }
        take_pieces(client, cut, &buf[..count]);
        taken += count;
    }
    Err(Untaken::TooLong)
}

/// Lets a client take bytes in pieces of at most `cut`. It keeps its first fault, and takes nothing more then.
fn take_pieces(client: &mut Client, cut: usize, bytes: &[u8])
    requires { 0 < cut }
    ensures { (text : List ℕ) → HasTaken text client.old → HasTaken (text ++ bytes.now) client.new }
{
    let mut left = bytes;
    while !left.is_empty() {
        let (piece, rest) = left.split_at(cut.min(left.len()));
        let _kept = client.feed(piece);
        left = rest;
    }
}

/// What `view` owes where a client has taken a whole stream.
fn view_taken(alloc: Global, client: Client) -> Result<Due, Undue>
    ensures due { (input : List ℕ) → length input ≤ most_stream → HasTaken input client → IfOk result (λ due. IsDueView input due.status due.text) }
    ensures err { IfErr result (λ e. e ≡ Undue.Memory) }
{
    let mut client = client;
    match client.end_text(alloc) {
        Ok(text) => {
            // The program ends as soon as the text is printed, and all that it holds is freed at once then. To free
            // the rows one by one before would take a tenth of the time.
            mem::forget(client);
            Ok(Due {
                status: Status::Done,
                text,
            })
        }
        Err(ClientFault::Memory) => Err(Undue::Memory),
        Err(fault) => told(Status::Stream, refusal_line(alloc, fault)),
    }
}

/// What is owed with this status, where memory was not wanting for its text.
pub fn told(status: Status, text: Result<Text, Memory>) -> Result<Due, Undue>
    ensures ok { IfOk result (λ due. (due.status ≡ status) × (text ≡ Ok due.text)) }
    ensures err { IfErr result (λ e. e ≡ Undue.Memory) }
{
    match text {
        Ok(text) => Ok(Due { status, text }),
        Err(_) => Err(Undue::Memory),
    }
}
