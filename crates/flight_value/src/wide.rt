ghost use Rattle.std.specs.Prelude.{◌≡◌, ◌^◌, pos, ◌+ℤ◌, ◌*ℤ◌, Some};
ghost use Rattle.std.specs.Ordering.{int_eq};
ghost use Rattle.std.proofs.lemmas.Cmp.{int_eq_equiv};
ghost use Rattle.std.specs.Cmp.{partial_equiv_from_equiv};
ghost use Rattle.std.specs.Fmt.{signed_decimal};

use std::alloc::AllocError;
use std::fmt;
use std::marker::Model;

/// How many numbers a `u64` can hold.
const WORD: u128 = 1 << 64;

/// A whole number of 128 bits with its sign, which contracts see as that number. Its halves align to 8 bytes; an `i128`
/// aligns to 16, and each slot of a graph, which may hold a number, would be half as large again.
#[derive(Drop)]
pub struct Wide {
    high: i64,
    low: u64,
}

impl Model for Wide {
    ghost use Rattle.std.specs.Prelude.{ℤ, ◌^◌, pos, ◌+ℤ◌, ◌*ℤ◌};
    ghost use Rattle.std.specs.Coded.{coded_ℤ};

    ghost Value = { ℤ };

    ghost coded = { coded_ℤ };

    ghost view = { λ w. w.high *ℤ pos (2 ^ 64) +ℤ pos w.low };
}

impl Wide {
    /// A number in halves.
    pub fn new(number: i128) -> Wide
        ensures { result ≡ number }
    {
        if number < 0 {
            let below = !number as u128;
            Wide {
                high: !((below / WORD) as i64),
                low: !((below % WORD) as u64),
            }
        } else {
            let number = number as u128;
            Wide {
                high: (number / WORD) as i64,
                low: (number % WORD) as u64,
            }
        }
    }

    /// The number.
    pub fn get(&self) -> i128
        ensures { result ≡ self.now }
    {
        i128::from(self.high) * (WORD as i128) + i128::from(self.low)
    }
}

impl Clone for Wide {
    ghost is_clone = { λ s t. t ≡ s };

    fn clone(&self) -> Result<Wide, AllocError> {
        Ok(Wide {
            high: self.high,
            low: self.low,
        })
    }
}

impl fmt::Debug for Wide {
    ghost debug_output = { λ w. Some (signed_decimal w) };

    fn fmt<W: fmt::Write>(&self, f: &mut fmt::Formatter<W>) -> fmt::Result {
        fmt::Debug::fmt(&self.get(), f)
    }
}

impl PartialEq for Wide {
    ghost eq = { int_eq };

    ghost laws = { partial_equiv_from_equiv int_eq_equiv };

    fn eq(&self, other: &Self) -> bool {
        self.get() == other.get()
    }
}

impl Eq for Wide {
    ghost laws = { int_eq_equiv };
}
