//! The readers of the points. None of them takes memory.
ghost use Rattle.std.specs.Prelude.{◌≡◌, ◌<◌, length, slice_get, map, Some};
ghost use Rattle.c_program.specs.Control.{counted};
ghost use Rattle.control_flow.specs.Labels.{round_of};
ghost use Rattle.flow_facts.specs.Points.{count_of, threads_of, point_at, entry_at, IsOfThread, creation_at, nexts_at, place_at, is_reached, is_cyclic};

use crate::points::Points;
use control_flow::flow::Round;
use misra_base::Place;

impl Points {
    /// How many points there are, over all threads and in dead code too.
    pub fn count(&self) -> u32
        ensures { result ≡ count_of self.now }
    {
        self.numbered.count()
    }

    /// How many threads there are: the initial one and one for each creation point.
    pub fn threads(&self) -> u16
        ensures { result ≡ threads_of self.now }
    {
        self.threads.count()
    }

    /// The thread of a point.
    pub fn thread(&self, point: u32) -> u16
        requires { point < count_of self.now }
        ensures within { result < threads_of self.now }
        ensures thread { IsOfThread self.now point result }
    {
        self.threads.thread(&self.numbered, point)
    }

    /// The number of the point's action in the program.
    pub fn action(&self, point: u32) -> u32
        requires { point < count_of self.now }
        ensures { result ≡ (point_at self.now point).spot.action }
    {
        self.spots[self.numbered.action(point) as usize].action
    }

    /// The place of the point's action in the text.
    pub fn place(&self, point: u32) -> Place
        requires { point < count_of self.now }
        ensures { place_at self.now point ≡ Some result }
    {
        self.places[self.numbered.action(point) as usize]
    }

    /// How many moves from the point lead to a point.
    pub fn next_count(&self, point: u32) -> u32
        requires { point < count_of self.now }
        ensures { result ≡ length (nexts_at self.now point) }
    {
        self.numbered.next_count(point)
    }

    /// The point to which the k-th of these moves leads.
    pub fn next_at(&self, point: u32, k: u32) -> u32
        requires point { point < count_of self.now }
        requires k { k < length (nexts_at self.now point) }
        ensures within { result < count_of self.now }
        ensures next { slice_get (nexts_at self.now point) k ≡ Some (point_at self.now result) }
    {
        self.numbered.next_at(point, k)
    }

    /// Where a thread begins.
    pub fn entry(&self, thread: u16) -> u32
        requires { thread < threads_of self.now }
        ensures within { result < count_of self.now }
        ensures entry { point_at self.now result ≡ entry_at self.now thread }
    {
        self.threads.entry(&self.numbered, thread)
    }

    /// The creation point of a thread, and none of the initial one.
    pub fn creation(&self, thread: u16) -> Option<u32>
        requires { thread < threads_of self.now }
        ensures { result ≡ creation_at self.now thread }
    {
        if thread == 0 {
            None
        } else {
            Some(self.threads.creations[thread as usize - 1])
        }
    }

    /// Whether some path leads from the point to itself.
    pub fn cyclic(&self, point: u32) -> bool
        requires { point < count_of self.now }
        ensures { result ≡ is_cyclic self.now point }
    {
        self.cyclic[point as usize]
    }

    /// Whether some path from its thread's entry comes to the point.
    pub fn reached(&self, point: u32) -> bool
        requires { point < count_of self.now }
        ensures { result ≡ is_reached self.now point }
    {
        self.reached[point as usize]
    }

    /// The value of a local at the point, where it is the counter of a counted loop round it there.
    pub fn counter(&self, point: u32, local: u16) -> Option<i64>
        requires { point < count_of self.now }
        ensures { result ≡ counted (point_at self.now point).spot.rounds local }
    {
        let spot = &self.spots[self.numbered.action(point) as usize];
        value_in(spot.rounds.as_slice(), local as u32)
    }
}

/// The value of the counter in the innermost of these turns of counted loops that has it.
fn value_in(rounds: &[Round], local: u32) -> Option<i64>
    ensures { result ≡ counted (map round_of rounds.now) local }
{
    for round in rounds {
        if round.counter == local {
            return Some(round.value);
        }
    }
    None
}
