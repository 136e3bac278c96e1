//! The races of a whole run.
ghost use Rattle.std.specs.Prelude.{◌≡◌, ℕ, ◌<◌, ◌^◌, ◌-◌, ◌↔◌, IfOk, true, false, length, slice_index_or, vec_len};
ghost use Rattle.vector_clocks.specs.Happens.{RacesAt};
ghost use Rattle.vector_clocks.specs.Events.{run_of};

use crate::detector::Detector;
use crate::event::Event;
use std::alloc::{AllocError, Global};

/// Which steps of the run race with earlier ones.
pub fn races(alloc: Global, events: &[Event]) -> Result<Vec<bool>, AllocError>
    requires { length events.now < 2 ^ 32 - 1 }
    ensures len { IfOk result (λ races. vec_len races ≡ length events.now) }
    ensures exact { IfOk result (λ races. (n : ℕ) → n < length events.now
        → (slice_index_or races.items n false ≡ true ↔ ((cell : ℕ) × RacesAt (run_of events.now) n cell))) }
{
    let mut detector = Detector::new(alloc);
    let mut races = Vec::new(alloc);
    for event in events {
        races.push(detector.step(*event)?)?;
    }
    Ok(races)
}
