ghost use Rattle.std.specs.Prelude.{◌≡◌};
ghost use Rattle.desk_coding.specs.declared.stop.TakeStop.TheVariants.{Memory};

use std::alloc::{AllocError, AllocFailed};

/// Why nothing was taken from bytes.
#[derive(Debug, Drop)]
pub enum TakeStop {
    /// No coding stands in front.
    NoCoding,
    /// There was no memory.
    Memory,
}

impl From<AllocError> for TakeStop {
    ghost from_gives = { λ _ e. e ≡ Memory };

    fn from(_: AllocError) -> TakeStop {
        TakeStop::Memory
    }
}

impl<T: Drop> From<AllocFailed<T>> for TakeStop {
    ghost from_gives = { λ _ e. e ≡ Memory };

    fn from(_: AllocFailed<T>) -> TakeStop {
        TakeStop::Memory
    }
}
