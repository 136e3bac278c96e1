//! Clocks by numbers: of threads, of mutexes or of cells.
ghost use Rattle.std.specs.Prelude.{◌≡◌, ◌≢◌, ℕ, ◌<◌, ◌↔◌, OnOk, IsTrue};
ghost use Rattle.vector_clocks.specs.Clocks.{nothing_known, joined, put_at};
ghost use Rattle.vector_clocks.specs.Held.{counts_of, clocks_of, all_unknown, changed};

use crate::clock::Clock;
use std::alloc::{AllocError, Global};
use std::collections::BTreeMap;

/// What has no clock knows nothing.
#[derive(Drop)]
pub struct Clocks {
    clocks: BTreeMap<u32, Clock>,
}

impl Clocks {
    pub fn new(alloc: Global) -> Clocks
        ensures { clocks_of result ≡ all_unknown }
    {
        Clocks {
            clocks: BTreeMap::new(alloc),
        }
    }

    /// The other clock learns what the clock at the key knows.
    pub fn tell(&self, key: u32, clock: &mut Clock) -> Result<(), AllocError>
        ensures { OnOk result (counts_of clock.new ≡ joined (counts_of clock.old) (clocks_of self.now key)) }
    {
        match self.clocks.get(&key) {
            Some(own) => clock.join(own),
            None => Ok(()),
        }
    }

    /// Whether the clock at the key knows more than the other one of some lane.
    pub fn exceeds(&self, key: u32, clock: &Clock) -> bool
        ensures { IsTrue result ↔ ((lane : ℕ) × (counts_of clock.now lane < clocks_of self.now key lane)) }
    {
        match self.clocks.get(&key) {
            Some(own) => own.exceeds(clock),
            None => false,
        }
    }

    pub fn put(&mut self, key: u32, clock: Clock) -> Result<(), AllocError>
        ensures { OnOk result (clocks_of self.new ≡ changed (clocks_of self.old) key (λ _. counts_of clock)) }
    {
        self.clocks.insert(key, clock)?;
        Ok(())
    }

    pub fn forget(&mut self, key: u32)
        ensures { clocks_of self.new ≡ changed (clocks_of self.old) key (λ _. nothing_known) }
    {
        self.clocks.remove(&key);
    }

    fn take(&mut self, alloc: Global, key: u32) -> Clock
        ensures here { counts_of result ≡ clocks_of self.old key }
        ensures elsewhere { (other : ℕ) → key ≢ other → clocks_of self.new other ≡ clocks_of self.old other }
    {
        match self.clocks.remove(&key) {
            Some(clock) => clock,
            None => Clock::new(alloc),
        }
    }

    pub fn join(&mut self, alloc: Global, key: u32, clock: &Clock) -> Result<(), AllocError>
        ensures { OnOk result (clocks_of self.new ≡ changed (clocks_of self.old) key (λ own. joined own (counts_of clock.now))) }
    {
        let mut own = self.take(alloc, key);
        own.join(clock)?;
        self.put(key, own)?;
        Ok(())
    }

    pub fn mark(&mut self, alloc: Global, key: u32, lane: u32, count: u32) -> Result<(), AllocError>
        ensures { OnOk result (clocks_of self.new ≡ changed (clocks_of self.old) key (λ own. put_at own lane count)) }
    {
        let mut own = self.take(alloc, key);
        own.set(lane, count)?;
        self.put(key, own)?;
        Ok(())
    }
}
