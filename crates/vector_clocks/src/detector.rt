//! Follows a run and finds its races.
ghost use Rattle.std.specs.Prelude.{◌≡◌, ℕ, suc, ◌<◌, ◌≤◌, ◌==◌, if◌then◌else◌, ◌^◌, ◌+◌, ◌↔◌, OnOk, IfOk, IsTrue};
ghost use Rattle.vector_clocks.specs.Steps.{Run};
ghost use Rattle.vector_clocks.specs.Happens.{RacesAt};
ghost use Rattle.vector_clocks.specs.Kept.{opening, known, moved, HasRival};
ghost use Rattle.vector_clocks.specs.Clocks.{nothing_known, joined, ticked};
ghost use Rattle.vector_clocks.specs.Events.{step_of, taken_by, read_atomically_by};
ghost use Rattle.vector_clocks.specs.Held.{counts_of, clocks_of, last_of, written, heard_by, kept_by, HasFollowed, IsShort};

use crate::accesses::Accesses;
use crate::clock::Clock;
use crate::clocks::Clocks;
use crate::event::{Access, Action, Event};
use std::alloc::{AllocError, Global};
use std::collections::BTreeMap;

/// What is kept of the steps so far.
#[derive(Drop)]
pub struct Detector {
    alloc: Global,
    /// what was known where each thread was created
    births: Clocks,
    /// what is known at the last step of each thread
    threads: Clocks,
    /// what was known at the releases of each mutex, together
    mutexes: Clocks,
    /// what was known at the atomic write of each cell's value
    values: Clocks,
    accesses: Accesses,
    /// how many steps each lane has
    total: Clock,
    /// how many lanes there are
    lanes: u32,
    /// the lane of the last step of each thread
    homes: BTreeMap<u32, u32>,
}

impl Detector {
    pub fn new(alloc: Global) -> Detector
        ensures kept { kept_by result ≡ opening }
        ensures total { counts_of result.total ≡ nothing_known }
        ensures lanes { result.lanes ≡ 0 }
    {
        Detector {
            alloc,
            births: Clocks::new(alloc),
            threads: Clocks::new(alloc),
            mutexes: Clocks::new(alloc),
            values: Clocks::new(alloc),
            accesses: Accesses::new(alloc),
            total: Clock::new(alloc),
            lanes: 0,
            homes: BTreeMap::new(alloc),
        }
    }

    /// The step that begins learns what its action lets it know.
    fn hear(&self, action: Action, clock: &mut Clock) -> Result<(), AllocError>
        ensures { OnOk result (counts_of clock.new ≡ joined (counts_of clock.old) (heard_by (kept_by self.now) action)) }
    {
        match action {
            Action::Join(thread) => self.threads.tell(thread, clock)?,
            Action::Take(mutex) => self.mutexes.tell(mutex, clock)?,
            Action::Access(cell, access) => {
                if access.is_atomic_read() {
                    self.values.tell(cell, clock)?;
                }
            }
            _ => {}
        }
        Ok(())
    }

    /// What the step knows of the earlier ones.
    fn begin(&self, event: Event) -> Result<Clock, AllocError>
        ensures { IfOk result (λ clock. counts_of clock ≡ known (kept_by self.now) (step_of event) (taken_by event.action) (read_atomically_by event.action)) }
    {
        let mut clock = Clock::new(self.alloc);
        self.births.tell(event.thread, &mut clock)?;
        self.threads.tell(event.thread, &mut clock)?;
        self.hear(event.action, &mut clock)?;
        Ok(clock)
    }

    fn has_rival(&self, event: Event, clock: &Clock) -> bool
        ensures { IsTrue result ↔ ((cell : ℕ) × HasRival (kept_by self.now) (step_of event) (counts_of clock.now) cell) }
    {
        match event.action {
            Action::Access(cell, access) => self.accesses.rivals(access).exceeds(cell, clock),
            _ => false,
        }
    }

    /// Keeps what the step lets others know.
    fn share(&mut self, event: Event, lane: u32, clock: &Clock) -> Result<(), AllocError>
        ensures total { OnOk result (self.new.total ≡ self.old.total) }
        ensures lanes { OnOk result (self.new.lanes ≡ self.old.lanes) }
        ensures threads { OnOk result (clocks_of self.new.threads ≡ clocks_of self.old.threads) }
        ensures births { OnOk result (clocks_of self.new.births ≡ (moved (kept_by self.old) (step_of event) lane (counts_of clock.now)).births) }
        ensures mutexes { OnOk result (clocks_of self.new.mutexes ≡ (moved (kept_by self.old) (step_of event) lane (counts_of clock.now)).mutexes) }
        ensures values { OnOk result (clocks_of self.new.values ≡ (moved (kept_by self.old) (step_of event) lane (counts_of clock.now)).values) }
        ensures last { OnOk result (last_of self.new.accesses ≡ (moved (kept_by self.old) (step_of event) lane (counts_of clock.now)).last) }
    {
        match event.action {
            Action::Create(thread) => self.births.join(self.alloc, thread, clock)?,
            Action::Release(mutex) => self.mutexes.join(self.alloc, mutex, clock)?,
            Action::Access(cell, access) => {
                write_value(&mut self.values, self.alloc, cell, access, clock)?;
                let count = clock.count(lane);
                self.accesses.note(self.alloc, cell, access, lane, count)?;
            }
            _ => {}
        }
        Ok(())
    }

    /// A lane all of whose steps are known; where it can be, the thread's last one.
    fn lane(&self, thread: u32, clock: &Clock) -> u32
        requires within { (lane : ℕ) → counts_of clock.now lane ≤ counts_of self.now.total lane }
        requires unused { counts_of self.now.total self.now.lanes ≡ 0 }
        ensures whole { counts_of clock.now result ≡ counts_of self.now.total result }
        ensures used { result ≤ self.now.lanes }
    {
        if let Some(home) = self.homes.get(&thread) {
            if *home < self.lanes && clock.count(*home) == self.total.count(*home) {
                return *home;
            }
        }
        // behind its end the clock knows nothing, so only a lane without steps could be found there
        let known = clock.len().min(self.lanes as usize);
        for lane in 0..known {
            if clock.count(lane as u32) == self.total.count(lane as u32) {
                return lane as u32;
            }
        }
        self.lanes
    }

    /// The thread takes a step in the lane.
    fn enter(&mut self, thread: u32, lane: u32) -> Result<(), AllocError>
        requires room { self.old.lanes + 1 < 2 ^ 32 }
        requires short { counts_of self.old.total lane + 1 < 2 ^ 32 }
        ensures total { OnOk result (counts_of self.new.total ≡ ticked lane (counts_of self.old.total)) }
        ensures lanes { OnOk result (self.new.lanes ≡ (if lane == self.old.lanes then self.old.lanes + 1 else self.old.lanes)) }
        ensures kept { OnOk result (kept_by self.new ≡ kept_by self.old) }
    {
        self.total.tick(lane)?;
        self.homes.insert(thread, lane)?;
        if lane == self.lanes {
            self.lanes += 1;
        }
        Ok(())
    }

    /// Follows one more step, and finds whether it races with an earlier one.
    pub fn step(&mut self, event: Event) -> Result<bool, AllocError>
        requires { IsShort self.old }
        ensures follows { OnOk result ((run : Run ℕ) (n : ℕ) → run n ≡ step_of event → HasFollowed run n self.old → HasFollowed run (suc n) self.new) }
        ensures exact { IfOk result (λ races. (run : Run ℕ) (n : ℕ) → run n ≡ step_of event → HasFollowed run n self.old
            → (IsTrue races ↔ ((cell : ℕ) × RacesAt run n cell))) }
    {
        let mut clock = self.begin(event)?;
        let races = self.has_rival(event, &clock);
        let lane = self.lane(event.thread, &clock);
        clock.tick(lane)?;
        self.share(event, lane, &clock)?;
        self.enter(event.thread, lane)?;
        self.threads.put(event.thread, clock)?;
        Ok(races)
    }
}

/// The value of the cell is known where an atomic write made it.
fn write_value(
    values: &mut Clocks,
    alloc: Global,
    cell: u32,
    access: Access,
    clock: &Clock,
) -> Result<(), AllocError>
    ensures { OnOk result (clocks_of values.new ≡ written (clocks_of values.old) cell access (counts_of clock.now)) }
{
    if access.is_atomic_write() {
        values.put(cell, clock.copied(alloc)?)?;
    } else if access.is_write() {
        values.forget(cell);
    }
    Ok(())
}
