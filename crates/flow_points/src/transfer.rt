//! What an action does to control.
ghost use Rattle.std.specs.Prelude.{◌≡◌};
ghost use Rattle.flow_points.specs.Transfers.{callee_of};

/// What an action does to control.
#[derive(Clone, Copy, Debug, PartialEq, Eq)]
pub enum Transfer {
    /// It goes on in its function.
    Next,
    /// It goes on in the function, and behind the call when that returns.
    Call(u32),
    /// It goes on in its function, and a new thread begins with the named one.
    Create(u32),
    Return,
    Exit,
}

impl Transfer {
    /// The function that a call or a creation names.
    pub fn callee(&self) -> Option<u32>
        ensures { result ≡ callee_of self.now }
    {
        match *self {
            Transfer::Call(function) | Transfer::Create(function) => Some(function),
            Transfer::Next | Transfer::Return | Transfer::Exit => None,
        }
    }
}
