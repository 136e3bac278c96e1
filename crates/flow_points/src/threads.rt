//! The threads of a program.
ghost use Rattle.std.specs.Prelude.{◌≡◌, suc, true, ◌≤◌, ◌<◌, ◌++◌, [], ◌∷◌, MatchResult, length};
ghost use Rattle.flow_points.specs.PointLists.{points_of, point_at, IsAt};
ghost use Rattle.flow_points.specs.Threads.{is_creation, creations_of, first_of_created, entry_point, count_of_threads, BeganBy, IsMade, IsThreadOf};
ghost use Rattle.flow_points.specs.Stops.{CreatesTooMany, IsFullBy};

use crate::counting::ExpandStop;
use crate::points::NumberedPoints;
use crate::transfer::Transfer;
use std::alloc::Global;

/// The greatest number of creation points.
const CREATIONS: usize = 64;

/// The creation points, in their order. Thread 0 is the initial one, and the next ones are theirs.
#[derive(Drop)]
pub struct Threads {
    pub creations: Vec<u32>,
}

/// Adds a creation point, if it is not one too many.
fn add(creations: &mut Vec<u32>, point: u32) -> Result<(), ExpandStop>
    requires { length creations.old.items ≤ 64 }
    ensures { MatchResult result (λ _. (creations.new.items ≡ creations.old.items ++ point ∷ []) × (length creations.new.items ≤ 64)) (IsFullBy (length creations.old.items)) }
{
    if creations.len() == CREATIONS {
        return Err(ExpandStop::TooMany);
    }
    match creations.push(point) {
        Ok(()) => Ok(()),
        Err(_) => Err(ExpandStop::Memory),
    }
}

/// Finds the creation points.
pub fn find_threads(alloc: Global, points: &NumberedPoints) -> Result<Threads, ExpandStop>
    ensures { MatchResult result (λ threads. (threads.creations.items ≡ creations_of points.now.graph) × (length threads.creations.items ≤ 64)) (CreatesTooMany points.now.graph) }
{
    let mut creations = Vec::new(alloc);
    for point in 0..points.count() {
        if points.creates(point) {
            match add(&mut creations, point) {
                Ok(()) => {}
                Err(stop) => return Err(stop),
            }
        }
    }
    Ok(Threads { creations })
}

impl NumberedPoints {
    /// Whether the point creates a thread.
    pub fn creates(&self, point: u32) -> bool
        requires { point < length (points_of self.now.graph) }
        ensures { result ≡ is_creation self.now.graph point }
    {
        matches!(self.graph.transfer(self.action(point)), Transfer::Create(_))
    }

    /// Where the thread begins that a creation point makes.
    fn created(&self, point: u32) -> u32
        requires point { point < length (points_of self.now.graph) }
        requires creates { is_creation self.now.graph point ≡ true }
        ensures { IsAt self.now.graph result (first_of_created self.now.graph (point_at self.now.graph point)) }
    {
        match self.graph.transfer(self.action(point)).callee() {
            Some(callee) => self.number(point + 1, self.graph.function(callee).entry),
            None => unreachable!(),
        }
    }

    /// The creation point at which the point's thread began.
    pub fn creation(&self, point: u32) -> Option<u32>
        requires { point < length (points_of self.now.graph) }
        ensures { BeganBy self.now.graph (point_at self.now.graph point).string result }
    {
        match self.caller(point) {
            Some(call) => {
                if self.creates(call) {
                    Some(call)
                } else {
                    self.creation(call)
                }
            }
            None => None,
        }
    }

    /// Where the initial thread begins.
    fn first(&self) -> u32
        ensures { IsAt self.now.graph result (entry_point self.now.graph 0) }
    {
        self.number(0, self.graph.function(self.graph.main).entry)
    }
}

impl Threads {
    pub fn count(&self) -> u16
        requires { length self.now.creations.items ≤ 64 }
        ensures { result ≡ suc (length self.now.creations.items) }
    {
        self.creations.len() as u16 + 1
    }

    /// Where a thread begins.
    pub fn entry(&self, points: &NumberedPoints, thread: u16) -> u32
        requires creations { self.now.creations.items ≡ creations_of points.now.graph }
        requires thread { thread < count_of_threads points.now.graph }
        ensures { IsAt points.now.graph result (entry_point points.now.graph thread) }
    {
        if thread == 0 {
            points.first()
        } else {
            points.created(self.creations[thread as usize - 1])
        }
    }

    /// The thread that a creation point makes.
    fn made(&self, points: &NumberedPoints, creation: u32) -> u16
        requires creations { self.now.creations.items ≡ creations_of points.now.graph }
        requires few { length self.now.creations.items ≤ 64 }
        requires point { creation < length (points_of points.now.graph) }
        requires creates { is_creation points.now.graph creation ≡ true }
        ensures { IsMade points.now.graph creation result }
    {
        for k in 0..self.creations.len() {
            if self.creations[k] == creation {
                return k as u16 + 1;
            }
        }
        unreachable!()
    }

    /// The thread of a point.
    pub fn thread(&self, points: &NumberedPoints, point: u32) -> u16
        requires creations { self.now.creations.items ≡ creations_of points.now.graph }
        requires few { length self.now.creations.items ≤ 64 }
        requires point { point < length (points_of points.now.graph) }
        ensures { IsThreadOf points.now.graph point result }
    {
        match points.creation(point) {
            Some(creation) => self.made(points, creation),
            None => 0,
        }
    }
}
