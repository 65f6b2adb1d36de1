ghost use Rattle.std.specs.Prelude.{◌≡◌, ◌+◌, ◌<◌, ◌^◌, IfOk, None, Some};

use crate::unproved::unproved;
use flight_value::Memory;
use std::alloc::AllocError;
use std::marker::Model;

/// A number or none, in four bytes, where an `Option<u32>` takes eight. Contracts see it as that option.
#[derive(Drop)]
pub struct Cell {
    /// The number plus one, or 0 for none.
    held: u32,
}

impl Model for Cell {
    ghost use Rattle.std.specs.Prelude.{ℕ, Option};
    ghost use Rattle.std.specs.Coded.{coded_option, coded_ℕ};
    ghost use Rattle.std.proofs.Common.{ap};
    ghost use Rattle.flight_link.specs.Cells.{number_held, held_for, held_again};

    ghost Value = { Option ℕ };

    ghost coded = { coded_option coded_ℕ };

    ghost view = { λ c. number_held c.held };

    ghost inverse = { λ o. record { held = held_for o } };

    ghost inverse_ok = { λ a h. ap (λ n. record { held = n }) (held_again a.held) };
}

impl Cell {
    /// No number.
    pub fn none() -> Cell
        ensures { result ≡ None }
    {
        Cell { held: 0 }
    }

    /// A number. The greatest of four bytes has no cell.
    pub fn of(number: u32) -> Cell
        requires { number + 1 < 2 ^ 32 }
        ensures { result ≡ Some number }
    {
        Cell { held: number + 1 }
    }

    /// A number, if it has a cell.
    pub fn try_of(number: u32) -> Result<Cell, Memory>
        ensures { IfOk result (λ c. c ≡ Some number) }
    {
        match number.checked_add(1) {
            Some(held) => Ok(Cell { held }),
            None => Err(unproved()),
        }
    }

    /// The number.
    pub fn get(self) -> Option<u32>
        ensures { result ≡ self }
    {
        self.held.checked_sub(1)
    }
}

impl Clone for Cell {
    ghost is_clone = { λ s t. t ≡ s };

    fn clone(&self) -> Result<Cell, AllocError> {
        Ok(*self)
    }
}

impl Copy for Cell {}
