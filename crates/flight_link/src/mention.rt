ghost use Rattle.std.specs.Prelude.{ℕ, ◌≡◌, ◌+◌, ◌<◌, ◌↔◌, IsTrue, length, take, slice_get, Some};
ghost use Rattle.flight_meaning.specs.declared.place.Place.{Place};
ghost use Rattle.flight_meaning.specs.declared.place.Place.TheVariants as the_place;
ghost use Rattle.flight_meaning.specs.declared.place.PlacedRow.{PlacedRow};
ghost use Rattle.flight_meaning.specs.Linked as linked;
ghost use Rattle.flight_meaning.specs.Linked.{place_at};
ghost use Rattle.flight_link.specs.Marks.{AreBases, mentioned, IsFirstIn};
ghost use Rattle.flight_link.specs.Nodes.{IsTable, place_in, spot_of};
ghost use Rattle.flight_link.specs.Numbering.{number_among};
ghost use Rattle.flight_link.specs.Spots.{IsNumber, IsFirst, places_in};

use crate::found::Spot;
use crate::table::Table;
use flight_meaning::Place;

/// What a node without a place of its own is known by.
#[derive(Clone, Copy)]
pub enum Mention {
    Promise(u32),
    Action(u32),
}

/// How many places stand before each row, and how many there are.
#[derive(Clone, Copy)]
pub struct Bases<'a> {
    pub before: &'a [u32],
    pub total: u64,
}

impl Table {
    /// The number of a place among all places.
    pub fn number(&self, bases: Bases<'_>, spot: Spot) -> u32
        requires table { IsTable self.now }
        requires bases { AreBases self.now.rows.items bases.before.now bases.total }
        requires place { (at : Place) × (place_in self.now.rows.items spot ≡ Some at) }
        ensures number { IsNumber self.now.rows.items (spot_of self.now.rows.items spot) result }
        ensures value { result ≡ number_among self.now.rows.items spot }
    {
        base_at(bases.before, spot.row as usize) + spot.place
    }

    /// The number of the first place at which a promise or a server reference is mentioned.
    pub fn first_mention(&self, bases: Bases<'_>, mention: Mention) -> u32
        requires table { IsTable self.now }
        requires bases { AreBases self.now.rows.items bases.before.now bases.total }
        requires mentioned { (s : linked.Spot) × (place_at self.now.rows.items s ≡ Some (mentioned mention)) }
        ensures { IsFirst self.now.rows.items (mentioned mention) result }
    {
        for (row, placed) in self.rows.as_slice().iter().enumerate() {
            if let Some(place) = first_in(placed.tree.places.as_slice(), mention) {
                return self.numbered(bases, row, place);
            }
        }
        // It is mentioned somewhere.
        0
    }

    /// The number of a place of a row.
    fn numbered(&self, bases: Bases<'_>, row: usize, place: usize) -> u32
        requires bases { AreBases self.now.rows.items bases.before.now bases.total }
        requires there { (r : PlacedRow) × (slice_get self.now.rows.items row ≡ Some r) × (place < length r.tree.places) }
        ensures { result ≡ places_in (take row self.now.rows.items) + place }
    {
        let base = base_at(bases.before, row);
        match u32::try_from(place) {
            Ok(place) => base + place,
            // No row has so many places.
            Err(_) => base,
        }
    }
}

/// How many places stand before a row.
fn base_at(bases: &[u32], row: usize) -> u32
    requires { row < length bases.now }
    ensures { slice_get bases.now row ≡ Some result }
{
    bases[row]
}

/// The number of the first place that mentions a promise or a server reference.
fn first_in(places: &[Place], mention: Mention) -> Option<usize>
    ensures { IsFirstIn places.now (mentioned mention) result }
{
    for (number, place) in places.iter().enumerate() {
        if mentions(place, mention) {
            return Some(number);
        }
    }
    None
}

fn mentions(place: &Place, mention: Mention) -> bool
    ensures { IsTrue result ↔ (place.now ≡ mentioned mention) }
{
    match mention {
        Mention::Promise(id) => is_promise(place, id),
        Mention::Action(id) => is_action(place, id),
    }
}

fn is_promise(place: &Place, id: u32) -> bool
    ensures { IsTrue result ↔ (place.now ≡ the_place.Promise id) }
{
    match place {
        Place::Promise(other) => *other == id,
        _ => false,
    }
}

fn is_action(place: &Place, id: u32) -> bool
    ensures { IsTrue result ↔ (place.now ≡ the_place.Action id) }
{
    match place {
        Place::Action(other) => *other == id,
        _ => false,
    }
}
