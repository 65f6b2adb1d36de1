ghost use Rattle.std.specs.Prelude.{◌≡◌, ◌≢◌, ◌<◌, Err, IfOk};
ghost use Rattle.flight_value.specs.Graph.{IsValid};
ghost use Rattle.flight_client.specs.Faults.{EndsWithFault};
ghost use Rattle.flight_client.specs.Held.{HasTaken};
ghost use Rattle.flight_client.specs.Meant.{IsMeant};
ghost use Rattle.flight_client.specs.declared.fault.ClientFault.{ClientFault};

use crate::client::Client;
use crate::fault::ClientFault;
use flight_value::Graph;
use std::alloc::Global;

/// The graph of a whole stream that is taken in pieces of so many bytes, or its first fault. Neither hangs on the
/// length of the pieces.
pub fn decode_stream(alloc: Global, cut: usize, stream: &[u8]) -> Result<Graph, ClientFault>
    requires { 0 < cut }
    ensures valid { IfOk result IsValid }
    ensures meant { IfOk result (IsMeant stream.now) }
    ensures fault { (f : ClientFault) → result ≡ Err f → f ≢ ClientFault.Memory → EndsWithFault stream.now f }
{
    match taken(alloc, cut, stream) {
        Ok(client) => client.finish(alloc),
        Err(fault) => Err(fault),
    }
}

/// A client that has taken a whole stream in pieces of so many bytes, or the first fault on the way.
fn taken(alloc: Global, cut: usize, stream: &[u8]) -> Result<Client, ClientFault>
    requires { 0 < cut }
    ensures taken { IfOk result (HasTaken stream.now) }
    ensures fault { (f : ClientFault) → result ≡ Err f → f ≢ ClientFault.Memory → EndsWithFault stream.now f }
{
    let mut client = Client::new(alloc);
    let mut left = stream;
    while !left.is_empty() {
        let (piece, rest) = left.split_at(cut.min(left.len()));
        if let Err(fault) = client.feed(piece) {
            return Err(fault);
        }
        left = rest;
    }
    Ok(client)
}
