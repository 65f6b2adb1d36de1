ghost use Rattle.std.specs.Prelude.{◌≡◌, Ok, Err, IfOk, List, ℕ, map};
ghost use Rattle.flight_row.specs.Rows.{HasRows, Item, SpellAll};
ghost use Rattle.flight_row.specs.Written.{IsWritable};
ghost use Rattle.flight_row.specs.declared.row.Row.{Row};
ghost use Rattle.flight_feed.specs.Stream.{HasFault, HasOneEnd, HasOneReading, IsReadBack, numbered, text_of};
ghost use Rattle.flight_feed.specs.declared.fault.FeedFault.{FeedFault};
ghost use Rattle.flight_feed.specs.declared.fault.FeedKind.{FeedKind};

use crate::arrived::Arrived;
use crate::fault::FeedFault;
use crate::feed::Feed;
use std::alloc::Global;

/// The rows of a whole stream that comes in these pieces, or its first fault. Neither hangs on how the stream was
/// cut into pieces.
pub fn decode(alloc: Global, pieces: &[Vec<u8>]) -> Result<Vec<Arrived>, FeedFault>
    ensures rows { IfOk result (λ rows. (items : List Item) × SpellAll (text_of pieces.now) items × (rows.items ≡ numbered 1 items)) }
    ensures stream { IfOk result (λ rows. HasRows (text_of pieces.now) (map (λ arrived. arrived.row) rows.items)) }
    ensures only { IfOk result (λ rows. (items : List Item) → SpellAll (text_of pieces.now) items → rows.items ≡ numbered 1 items) }
    ensures fault { (number : ℕ) (kind : FeedKind) → result ≡ Err (FeedFault.Row number kind) → HasFault number kind (text_of pieces.now) }
{
    let mut feed = Feed::new(alloc);
    let mut rows = Vec::new(alloc);
    for piece in pieces {
        feed.feed(piece.as_slice(), &mut rows)?;
    }
    feed.end()?;
    Ok(rows)
}

/// A law: every stream has exactly one reading. What has come of it is rows and the beginning of one, or has a fault
/// behind rows; a stream that ends is rows, or has a first fault; and each of these is in one way only.
pub fn one_reading()
    ensures begun { (text : List ℕ) → HasOneReading text }
    ensures ended { (text : List ℕ) → HasOneEnd text }
{}

/// A law: what `write_row` writes is read again as that row, whatever follows it.
pub fn read_back()
    ensures { (row : Row) (more : List ℕ) → IsWritable row → IsReadBack row more }
{}
