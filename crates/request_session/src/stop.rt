ghost use Rattle.std.specs.Prelude.{◌≡◌};
ghost use Rattle.request_session.specs.declared.stop.SessionStop.TheVariants as stops;

use desk_outside::Failed;
use std::alloc::AllocError;

/// Why a session stopped before its end.
#[derive(Clone, Copy, Debug, PartialEq, Eq)]
pub enum SessionStop {
    /// The link failed, and counted it.
    Link,
    /// There was no memory for a request, for its reply or for the write of it.
    Memory,
}

impl From<Failed> for SessionStop {
    ghost from_gives = { λ _ e. e ≡ stops.Link };

    fn from(_: Failed) -> SessionStop {
        SessionStop::Link
    }
}

impl From<AllocError> for SessionStop {
    ghost from_gives = { λ _ e. e ≡ stops.Memory };

    fn from(_: AllocError) -> SessionStop {
        SessionStop::Memory
    }
}
