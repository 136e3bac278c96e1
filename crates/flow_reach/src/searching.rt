//! A search for the states in which paths come to points.
ghost use Rattle.std.specs.Prelude.{◌≡◌, ℕ, ◌+◌, ◌*◌, ◌<◌, ◌≤◌, ◌⊎◌, ◌↔◌, OnOk, IfOk, Bool, true, length, vec_len, slice_get, ◌^◌, []};
ghost use Rattle.flow_points.specs.PointLists.{points_of};
ghost use Rattle.flow_points.specs.Threads.{creations_of, count_of_threads};
ghost use Rattle.flow_reach.specs.Paths.{Transitions, Leads, Begins, Arrives};
ghost use Rattle.flow_reach.specs.Searches.{IsMarked, Grows, IsSound, IsDone, Suits, IsStarted, IsClosed, IsFine, IsAskable};

use crate::Track;
use crate::kept::{Mark, Reach};
use flow_points::NumberedPoints;
use flow_points::laws::numbered;
use flow_points::threads::Threads;
use std::alloc::{AllocError, Global};

impl Reach {
    /// Whether the point is marked in the state.
    pub fn may(&self, point: u32, state: u32) -> bool
        requires point { point < self.now.points }
        requires state { state < self.now.size }
        ensures { result ≡ true ↔ IsMarked self.now point state }
    {
        self.marks[point as usize * self.size as usize + state as usize]
    }

    fn new(alloc: Global, points: u32, size: u32) -> Result<Reach, AllocError>
        requires { points * size < 2 ^ 62 }
        ensures points { IfOk result (λ s. s.points ≡ points) }
        ensures size { IfOk result (λ s. s.size ≡ size) }
        ensures work { IfOk result (λ s. s.work.items ≡ []) }
        ensures marks { IfOk result (λ s. (point state : ℕ) → IsMarked s point state → ⊥) }
    {
        let marks = vec![in alloc; false; points as usize * size as usize]?;
        Ok(Reach {
            points,
            size,
            marks,
            work: Vec::new(alloc),
        })
    }

    /// Marks the point in the state, if it is not yet marked.
    fn mark(&mut self, point: u32, state: u32) -> Result<(), AllocError>
        requires point { point < self.old.points }
        requires state { state < self.old.size }
        ensures grows { OnOk result (Grows self.old self.new) }
        ensures here { OnOk result (IsMarked self.new point state) }
        ensures only { OnOk result ((p s : ℕ) → p < self.old.points → s < self.old.size → IsMarked self.new p s → IsMarked self.old p s ⊎ ((p ≡ point) × (s ≡ state))) }
    {
        let at = point as usize * self.size as usize + state as usize;
        if !self.marks[at] {
            self.work.push(Mark { point, state })?;
            self.marks[at] = true;
        }
        Ok(())
    }

    /// Marks a next point in one state, if a move may lead there in it.
    fn mark_step<T: Track>(
        &mut self,
        points: &NumberedPoints,
        track: &T,
        from: Mark,
        next: u32,
        after: u32,
    ) -> Result<(), AllocError>
        requires askable { IsAskable points.now.graph (T.can_start track.now) (T.can_step track.now) (T.states track.now) }
        requires suits { Suits points.now.graph (T.states track.now) self.old }
        requires sound { IsSound points.now.graph (T.transitions track.now) self.old }
        requires arrives { Arrives points.now.graph (T.transitions track.now) from.point from.state }
        requires leads { Leads points.now.graph from.point next }
        requires state { from.state < self.old.size }
        requires after { after < self.old.size }
        ensures grows { OnOk result (Grows self.old self.new) }
        ensures sound { OnOk result (IsSound points.now.graph (T.transitions track.now) self.new) }
        ensures done { OnOk result ((T.transitions track.now).step from.point next from.state after ≡ true → IsMarked self.new next after) }
    {
        if track.step(from.point, next, from.state, after) {
            self.mark(next, after)?;
        }
        Ok(())
    }

    /// Marks a next point in each state in which a move may lead there.
    fn mark_next<T: Track>(
        &mut self,
        points: &NumberedPoints,
        track: &T,
        from: Mark,
        next: u32,
    ) -> Result<(), AllocError>
        requires askable { IsAskable points.now.graph (T.can_start track.now) (T.can_step track.now) (T.states track.now) }
        requires suits { Suits points.now.graph (T.states track.now) self.old }
        requires sound { IsSound points.now.graph (T.transitions track.now) self.old }
        requires arrives { Arrives points.now.graph (T.transitions track.now) from.point from.state }
        requires leads { Leads points.now.graph from.point next }
        requires state { from.state < self.old.size }
        ensures grows { OnOk result (Grows self.old self.new) }
        ensures sound { OnOk result (IsSound points.now.graph (T.transitions track.now) self.new) }
        ensures done { OnOk result ((after : ℕ) → (T.transitions track.now).step from.point next from.state after ≡ true → IsMarked self.new next after) }
    {
        for after in 0..self.size {
            self.mark_step(points, track, from, next, after)?;
        }
        Ok(())
    }

    /// Marks what a mark leads to.
    fn expand<T: Track>(
        &mut self,
        points: &NumberedPoints,
        track: &T,
        from: Mark,
    ) -> Result<(), AllocError>
        requires askable { IsAskable points.now.graph (T.can_start track.now) (T.can_step track.now) (T.states track.now) }
        requires suits { Suits points.now.graph (T.states track.now) self.old }
        requires sound { IsSound points.now.graph (T.transitions track.now) self.old }
        requires arrives { Arrives points.now.graph (T.transitions track.now) from.point from.state }
        requires point { from.point < self.old.points }
        requires state { from.state < self.old.size }
        ensures grows { OnOk result (Grows self.old self.new) }
        ensures sound { OnOk result (IsSound points.now.graph (T.transitions track.now) self.new) }
        ensures done { OnOk result (IsDone points.now.graph (T.transitions track.now) self.new from.point from.state) }
    {
        numbered(points);
        for k in 0..points.next_count(from.point) {
            self.mark_next(points, track, from, points.next_at(from.point, k))?;
        }
        Ok(())
    }

    /// Marks where a thread begins in one state, if the thread may start in it.
    fn start_step<T: Track>(
        &mut self,
        points: &NumberedPoints,
        track: &T,
        thread: u16,
        entry: u32,
        state: u32,
    ) -> Result<(), AllocError>
        requires askable { IsAskable points.now.graph (T.can_start track.now) (T.can_step track.now) (T.states track.now) }
        requires suits { Suits points.now.graph (T.states track.now) self.old }
        requires sound { IsSound points.now.graph (T.transitions track.now) self.old }
        requires begins { Begins points.now.graph thread entry }
        requires state { state < self.old.size }
        ensures grows { OnOk result (Grows self.old self.new) }
        ensures sound { OnOk result (IsSound points.now.graph (T.transitions track.now) self.new) }
        ensures done { OnOk result ((T.transitions track.now).start thread state ≡ true → IsMarked self.new entry state) }
    {
        if track.start(thread, state) {
            self.mark(entry, state)?;
        }
        Ok(())
    }

    /// Marks where a thread begins in each state in which it may start.
    fn start_thread<T: Track>(
        &mut self,
        points: &NumberedPoints,
        track: &T,
        thread: u16,
        entry: u32,
    ) -> Result<(), AllocError>
        requires askable { IsAskable points.now.graph (T.can_start track.now) (T.can_step track.now) (T.states track.now) }
        requires suits { Suits points.now.graph (T.states track.now) self.old }
        requires sound { IsSound points.now.graph (T.transitions track.now) self.old }
        requires begins { Begins points.now.graph thread entry }
        ensures grows { OnOk result (Grows self.old self.new) }
        ensures sound { OnOk result (IsSound points.now.graph (T.transitions track.now) self.new) }
        ensures done { OnOk result ((state : ℕ) → (T.transitions track.now).start thread state ≡ true → IsMarked self.new entry state) }
    {
        for state in 0..self.size {
            self.start_step(points, track, thread, entry, state)?;
        }
        Ok(())
    }

    /// Marks where each thread begins.
    fn start<T: Track>(
        &mut self,
        points: &NumberedPoints,
        threads: &Threads,
        track: &T,
    ) -> Result<(), AllocError>
        requires creations { threads.now.creations.items ≡ creations_of points.now.graph }
        requires few { length threads.now.creations.items ≤ 64 }
        requires askable { IsAskable points.now.graph (T.can_start track.now) (T.can_step track.now) (T.states track.now) }
        requires suits { Suits points.now.graph (T.states track.now) self.old }
        requires sound { IsSound points.now.graph (T.transitions track.now) self.old }
        ensures grows { OnOk result (Grows self.old self.new) }
        ensures sound { OnOk result (IsSound points.now.graph (T.transitions track.now) self.new) }
        ensures done { OnOk result (IsStarted points.now.graph (T.transitions track.now) self.new) }
    {
        numbered(points);
        for thread in 0..threads.count() {
            self.start_thread(points, track, thread, threads.entry(points, thread))?;
        }
        Ok(())
    }

    /// Goes on until nothing is queued.
    fn exhaust<T: Track>(&mut self, points: &NumberedPoints, track: &T) -> Result<(), AllocError>
        requires askable { IsAskable points.now.graph (T.can_start track.now) (T.can_step track.now) (T.states track.now) }
        requires suits { Suits points.now.graph (T.states track.now) self.old }
        requires sound { IsSound points.now.graph (T.transitions track.now) self.old }
        requires closed { IsClosed points.now.graph (T.transitions track.now) self.old }
        requires fine { IsFine self.old }
        ensures suits { OnOk result (Suits points.now.graph (T.states track.now) self.new) }
        ensures sound { OnOk result (IsSound points.now.graph (T.transitions track.now) self.new) }
        ensures kept { OnOk result ((point state : ℕ) → IsMarked self.old point state → IsMarked self.new point state) }
        ensures done { OnOk result ((point state : ℕ) → point < self.new.points → state < self.new.size → IsMarked self.new point state → IsDone points.now.graph (T.transitions track.now) self.new point state) }
    {
        while let Some(from) = self.work.pop() {
            self.expand(points, track, from)?;
        }
        Ok(())
    }
}

/// Marks exactly the points in the states in which paths come there.
pub fn reach<T: Track>(
    alloc: Global,
    points: &NumberedPoints,
    threads: &Threads,
    track: &T,
) -> Result<Reach, AllocError>
    requires creations { threads.now.creations.items ≡ creations_of points.now.graph }
    requires few { length threads.now.creations.items ≤ 64 }
    requires states { T.states track.now < 2 ^ 29 }
    requires askable { IsAskable points.now.graph (T.can_start track.now) (T.can_step track.now) (T.states track.now) }
    ensures suits { IfOk result (λ s. Suits points.now.graph (T.states track.now) s) }
    ensures exact { IfOk result (λ s. (point state : ℕ) → point < length (points_of points.now.graph) → state < T.states track.now
        → IsMarked s point state ↔ Arrives points.now.graph (T.transitions track.now) point state) }
{
    let mut search = Reach::new(alloc, points.count(), track.size())?;
    search.start(points, threads, track)?;
    search.exhaust(points, track)?;
    Ok(search)
}
