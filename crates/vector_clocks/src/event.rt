//! The steps of a run.

/// How a step accesses a cell.
#[derive(Clone, Copy)]
pub enum Access {
    Read,
    Write,
    AtomicRead,
    AtomicWrite,
    /// an atomic read and an atomic write in one step, as an exchange
    AtomicUpdate,
}

/// What a step does. A wait releases its mutex in one step and takes it in another.
#[derive(Clone, Copy)]
pub enum Action {
    Create(u32),
    Join(u32),
    Take(u32),
    Release(u32),
    Access(u32, Access),
    Other,
}

#[derive(Clone, Copy)]
pub struct Event {
    pub thread: u32,
    pub action: Action,
}

impl Access {
    ghost use Rattle.std.specs.Prelude.{◌≡◌, ◌&&◌};
    ghost use Rattle.vector_clocks.specs.Events.{is_plain, is_write, is_atomic_read, is_atomic_write};

    pub fn is_plain(self) -> bool
        ensures { result ≡ is_plain self }
    {
        matches!(self, Access::Read | Access::Write)
    }

    pub fn is_write(self) -> bool
        ensures { result ≡ is_write self }
    {
        matches!(
            self,
            Access::Write | Access::AtomicWrite | Access::AtomicUpdate
        )
    }

    pub fn is_plain_write(self) -> bool
        ensures { result ≡ (is_write self && is_plain self) }
    {
        matches!(self, Access::Write)
    }

    pub fn is_atomic_read(self) -> bool
        ensures { result ≡ is_atomic_read self }
    {
        matches!(self, Access::AtomicRead | Access::AtomicUpdate)
    }

    pub fn is_atomic_write(self) -> bool
        ensures { result ≡ is_atomic_write self }
    {
        matches!(self, Access::AtomicWrite | Access::AtomicUpdate)
    }
}
