ghost use Rattle.std.specs.Prelude.{◌≡◌, ◌+◌, ◌≤◌, [], IfOk, OnOk, OnErr};
ghost use Rattle.std.specs.Vec.{vec_len};
ghost use Rattle.flight_base.specs.Outside.{raised, Rose, IsAll, IsMore, TookFront};

use crate::outside::Source;
use std::alloc::Global;

/// Why a source was not read to its end.
#[derive(Clone, Copy, Debug, PartialEq, Eq)]
pub enum ReadAll {
    /// The source failed.
    Read,
    /// The source gave more bytes than the limit.
    TooLong,
    /// There was no memory for the bytes.
    Memory,
}

/// All bytes that the source has left, where they are at most `limit`.
///
/// `Read` comes only where the count of faults rose, and with at most `limit` bytes met. `TooLong`
/// comes exactly where more than `limit` bytes were met. After an error a front of the bytes is
/// gone. There are at most `limit + 2` reads.
pub fn read_all<S: Source>(alloc: Global, source: &mut S, limit: usize) -> Result<Vec<u8>, ReadAll>
    ensures bytes { IfOk result (λ v. IsAll (S.left source.old) v.items) }
    ensures end { OnOk result (IsAll (S.left source.new) []) }
    ensures within { IfOk result (λ v. vec_len v ≤ limit) }
    ensures counted { IfOk result (λ v. S.met source.new ≡ raised (S.met source.old) (vec_len v)) }

    ensures too_long { result ≡ Err ReadAll.TooLong → IsMore limit (S.left source.old) }
    ensures too_many { result ≡ Err ReadAll.TooLong →
        raised (S.met source.old) (limit + 1) ≤ S.met source.new }
    ensures read { result ≡ Err ReadAll.Read → Rose (S.faults source.old) (S.faults source.new) }
    ensures read_within { result ≡ Err ReadAll.Read →
        S.met source.new ≤ raised (S.met source.old) limit }
    ensures err { OnErr result
        (TookFront (S.left source.old) (S.left source.new) (S.met source.old) (S.met source.new)) }

    ensures later { S.faults source.old ≤ S.faults source.new }
    ensures reads { S.reads source.new ≤ S.reads source.old + limit + 2 }
{
    let mut bytes = Vec::new(alloc);
    let mut buf = [0; 8192];
    'turns: while bytes.len() <= limit {
        let Ok(count) = source.read(&mut buf) else {
            return Err(ReadAll::Read);
        };
        if count == 0 {
            return Ok(bytes);
        }
        if bytes.extend_from_slice(&buf[..count]).is_err() {
            return Err(ReadAll::Memory);
        }
    }
    Err(ReadAll::TooLong)
}
