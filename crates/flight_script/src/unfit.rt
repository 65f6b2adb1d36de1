use flight_value::Memory;
use std::alloc::{AllocError, AllocFailed};

/// Why a value was not read as a slot or a node.
#[derive(Clone, Copy)]
pub enum Unfit {
    /// It has not the form.
    Form,
    Memory,
}

impl From<Memory> for Unfit {
    ghost use Rattle.std.specs.Prelude.{◌≡◌};
    ghost use Rattle.flight_script.specs.declared.unfit.Unfit.TheVariants as unfit;

    ghost from_gives = { λ _ e. e ≡ unfit.Memory };

    fn from(_memory: Memory) -> Unfit {
        Unfit::Memory
    }
}

impl From<AllocError> for Unfit {
    ghost use Rattle.std.specs.Prelude.{◌≡◌};
    ghost use Rattle.flight_script.specs.declared.unfit.Unfit.TheVariants as unfit;

    ghost from_gives = { λ _ e. e ≡ unfit.Memory };

    fn from(_error: AllocError) -> Unfit {
        Unfit::Memory
    }
}

impl<T: Drop> From<AllocFailed<T>> for Unfit {
    ghost use Rattle.std.specs.Prelude.{◌≡◌};
    ghost use Rattle.flight_script.specs.declared.unfit.Unfit.TheVariants as unfit;

    ghost from_gives = { λ _ e. e ≡ unfit.Memory };

    fn from(_error: AllocFailed<T>) -> Unfit {
        Unfit::Memory
    }
}
