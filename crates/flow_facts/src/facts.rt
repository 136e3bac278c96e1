//! Which points are ordered, and all facts together.
ghost use Rattle.std.specs.Prelude.{◌≡◌};
ghost use Rattle.flow_facts.specs.Orders.{is_plain_in, is_settled_in, creation_in, thread_in, ordered_at};

use crate::points::Points;
use crate::points_to::PointsTo;
use crate::states::{Held, Lives, ThreadStates};
use c_program::program::Program;

/// Which points are passed in order, by the creation and the joining of threads.
#[derive(Drop)]
pub struct Order {
    /// How many threads there are.
    pub count: u16,
    /// The thread of each point.
    pub threads: Vec<u16>,
    /// The creation point of each thread; of the initial one any number.
    pub creations: Vec<u32>,
    /// Whether a thread is plain.
    pub plain: Vec<bool>,
    /// Whether a thread is not made yet or joined, at each point of the initial thread: at the point's number times the
    /// number of threads, plus the thread.
    pub settled: Vec<bool>,
}

impl Order {
    /// Whether the one point is always passed before the other, or the other before the one.
    pub fn ordered(&self, a: u32, b: u32) -> bool
        ensures { result ≡ ordered_at self.now a b }
    {
        let s = self.thread(a);
        let t = self.thread(b);
        if s == 0 {
            t == 0 || self.is_plain(t) && self.is_settled(a, t)
        } else if t == 0 {
            self.is_plain(s) && self.is_settled(b, s)
        } else if s == t {
            self.is_plain(s)
        } else {
            self.is_plain(s)
                && self.is_plain(t)
                && self.is_settled(self.creation(s), t)
                && self.is_settled(self.creation(t), s)
        }
    }

    fn thread(&self, point: u32) -> u16
        ensures { result ≡ thread_in self.now point }
    {
        if (point as usize) < self.threads.len() {
            self.threads[point as usize]
        } else {
            0
        }
    }

    fn creation(&self, thread: u16) -> u32
        ensures { result ≡ creation_in self.now thread }
    {
        if (thread as usize) < self.creations.len() {
            self.creations[thread as usize]
        } else {
            0
        }
    }

    fn is_plain(&self, thread: u16) -> bool
        ensures { result ≡ is_plain_in self.now thread }
    {
        if (thread as usize) < self.plain.len() {
            self.plain[thread as usize]
        } else {
            false
        }
    }

    fn is_settled(&self, point: u32, thread: u16) -> bool
        ensures { result ≡ is_settled_in self.now point thread }
    {
        let place = point as usize * self.count as usize + thread as usize;
        if place < self.settled.len() {
            self.settled[place]
        } else {
            false
        }
    }
}

/// All that the rules over paths read. `walk` holds the numbers of points, at least one of each class: points of one
/// thread with one action, at which every reader answers the same.
pub struct Facts<'a> {
    pub program: &'a Program,
    pub points: &'a Points,
    pub to: &'a PointsTo,
    pub held: &'a Held,
    pub states: &'a ThreadStates,
    pub lives: &'a Lives,
    pub order: &'a Order,
    pub walk: &'a [u32],
}
