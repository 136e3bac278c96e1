//! What is known of each lane.
ghost use Rattle.std.specs.Prelude.{◌≡◌, ℕ, ◌≤◌, ◌↔◌, OnOk, IfOk, IsTrue, ◌<◌, ◌+◌, ◌^◌, vec_len};
ghost use Rattle.vector_clocks.specs.Clocks.{Counts, nothing_known, joined, put_at, ticked};
ghost use Rattle.vector_clocks.specs.Held.{counts_of};

use std::alloc::{AllocError, Global};

/// Of each lane, how many of its steps are known, counted from its first.
#[derive(Drop)]
pub struct Clock {
    /// by the lanes' numbers; 0 behind the end
    counts: Vec<u32>,
}

impl Clock {
    pub fn new(alloc: Global) -> Clock
        ensures { counts_of result ≡ nothing_known }
    {
        Clock {
            counts: Vec::new(alloc),
        }
    }

    pub fn copied(&self, alloc: Global) -> Result<Clock, AllocError>
        ensures { IfOk result (λ clock. counts_of clock ≡ counts_of self.now) }
    {
        Ok(Clock {
            counts: Vec::from_slice(alloc, &self.counts)?,
        })
    }

    /// Behind this many lanes nothing is known.
    pub fn len(&self) -> usize {
        self.counts.len()
    }

    fn at(&self, lane: usize) -> u32
        ensures { result ≡ counts_of self.now lane }
    {
        match self.counts.get(lane) {
            Some(count) => *count,
            None => 0,
        }
    }

    pub fn count(&self, lane: u32) -> u32
        ensures { result ≡ counts_of self.now lane }
    {
        self.at(lane as usize)
    }

    /// Makes room for the first so many lanes.
    fn widen(&mut self, lanes: usize) -> Result<(), AllocError>
        ensures same { OnOk result ((lane : ℕ) → counts_of self.new lane ≡ counts_of self.old lane) }
        ensures room { OnOk result (lanes ≤ vec_len self.new.counts) }
    {
        if self.counts.len() < lanes {
            self.counts.resize(lanes, 0)?;
        }
        Ok(())
    }

    pub fn set(&mut self, lane: u32, count: u32) -> Result<(), AllocError>
        ensures { OnOk result (counts_of self.new ≡ put_at (counts_of self.old) lane count) }
    {
        self.widen(lane as usize + 1)?;
        self.counts[lane as usize] = count;
        Ok(())
    }

    pub fn tick(&mut self, lane: u32) -> Result<(), AllocError>
        requires { counts_of self.old lane + 1 < 2 ^ 32 }
        ensures { OnOk result (counts_of self.new ≡ ticked lane (counts_of self.old)) }
    {
        self.set(lane, self.count(lane) + 1)
    }

    pub fn join(&mut self, other: &Clock) -> Result<(), AllocError>
        ensures { OnOk result (counts_of self.new ≡ joined (counts_of self.old) (counts_of other.now)) }
    {
        self.widen(other.counts.len())?;
        for (lane, count) in other.counts.iter().enumerate() {
            if self.counts[lane] < *count {
                self.counts[lane] = *count;
            }
        }
        Ok(())
    }

    /// Whether more is known here of some lane.
    pub fn exceeds(&self, other: &Clock) -> bool
        ensures { IsTrue result ↔ ((lane : ℕ) × (counts_of other.now lane < counts_of self.now lane)) }
    {
        for (lane, count) in self.counts.iter().enumerate() {
            if other.at(lane) < *count {
                return true;
            }
        }
        false
    }
}
