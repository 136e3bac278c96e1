//! The states in which paths come to points.
#![tactic(auto)]

ghost use Rattle.std.specs.Prelude.{◌≡◌, ℕ, ◌<◌, true};
ghost use Rattle.flow_reach.specs.Paths.{Transitions};

mod kept;
pub mod laws;
pub mod plain;
mod searching;

pub use kept::Reach;
pub use searching::reach;

/// What is followed along paths.
pub trait Track {
    ghost transitions: { Self → Transitions };

    ghost states: { Self → ℕ };

    /// At which threads and states it may be asked, and at which points.
    ghost can_start: { Self → ℕ → ℕ → Type 0 };

    ghost can_step: { Self → ℕ → ℕ → ℕ → ℕ → Type 0 };

    /// The states are the numbers below this one.
    fn size(&self) -> u32
        ensures { result ≡ states self.now };

    /// Whether the thread may start in the state.
    fn start(&self, thread: u16, state: u32) -> bool
        requires { can_start self.now thread state }
        ensures { result ≡ (transitions self.now).start thread state };

    /// Whether a move from a point to a next one may lead from the state to the other.
    fn step(&self, point: u32, next: u32, state: u32, after: u32) -> bool
        requires { can_step self.now point next state after }
        ensures { result ≡ (transitions self.now).step point next state after };

    ghost start_within: { (t : Self) (thread state : ℕ) → (transitions t).start thread state ≡ true → state < states t };

    ghost step_within: { (t : Self) (point next state after : ℕ) → state < states t → (transitions t).step point next state after ≡ true → after < states t };
}
