ghost use Rattle.std.specs.Prelude.{◌≡◌, pos};
ghost use Rattle.std.specs.Fmt.{signed_decimal};
ghost use Rattle.flight_syntax.specs.Pieces.{decimal};

use sqlite_items::Items;

/// A number, by its digits and its value.
#[derive(Drop)]
pub struct Numeral {
    pub digits: Items<u8>,
    pub value: i64,
    ghost spelled: { value ≡ pos (decimal digits) },
    ghost written: { digits ≡ signed_decimal value },
}

/// A big number, by its digits and its value.
#[derive(Drop)]
pub struct BigNumeral {
    pub digits: Items<u8>,
    pub value: i128,
    ghost spelled: { value ≡ pos (decimal digits) },
}
