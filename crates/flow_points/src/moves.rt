//! Numbers to points, and from point to point.
ghost use Rattle.std.specs.Prelude.{◌≡◌, ℕ, List, ◌+◌, ◌<◌, ◌≤◌, ◌^◌, MatchOption, IfSome, Some, slice_get, slice_index, length};
ghost use Rattle.flow_points.specs.Graphs.{transfer_at, length_of};
ghost use Rattle.flow_points.specs.Transfers.{callee_of};
ghost use Rattle.flow_points.specs.PointLists.{points_of, point_at, next_points, returns_to, IsCalledFrom};
ghost use Rattle.flow_points.specs.Tables.{size_of, weight_of, points_before};
ghost use Rattle.flow_points.specs.Frames.{ComesTo, CallsBy, IsStand, LeadsOn};

use crate::points::NumberedPoints;
use crate::stand::{Caller, Onward, Stand};
use crate::transfer::Transfer;

impl NumberedPoints {
    /// How many points there are.
    pub fn count(&self) -> u32
        ensures { result ≡ length (points_of self.now.graph) }
    {
        self.totals[self.graph.main as usize]
    }

    /// The number of the action's point in the frame that begins at the base.
    pub(crate) fn number(&self, base: u32, action: u32) -> u32
        requires action { action < length self.now.before.items }
        requires small { base + slice_index self.now.before.items action < 2 ^ 32 }
        ensures { result ≡ base + slice_index self.now.before.items action }
    {
        base + self.before[action as usize]
    }

    /// The place of the action, among those of its function, that has this one of the function's points.
    fn place(&self, function: u32, offset: u32) -> u32
        requires function { function < length self.now.graph.functions.items }
        requires offset { offset < size_of self.now.graph function }
        requires small { offset < 4000000001 }
        ensures within { result < length_of self.now.graph function }
        ensures low { points_before self.now.graph function result ≤ offset }
        ensures high { offset < points_before self.now.graph function (result + 1) }
    {
        let f = self.graph.function(function);
        let mut low = 0;
        let mut high = f.length;
        while low + 1 < high {
            let middle = low + (high - low) / 2;
            if self.before[(f.first + middle) as usize] <= offset {
                low = middle;
            } else {
                high = middle;
            }
        }
        low
    }

    /// The function that an action calls, unless the point is the action's own.
    fn entered(&self, action: u32, here: u32, point: u32) -> Option<u32>
        requires action { action < length self.now.graph.nodes.items }
        requires low { here ≤ point }
        requires high { point < here + weight_of self.now.graph action }
        ensures { MatchOption result (here ≡ point) (λ callee. (here < point) × (callee_of (transfer_at self.now.graph action) ≡ Some callee)) }
    {
        if here == point {
            None
        } else {
            self.graph.transfer(action).callee()
        }
    }

    /// Where a point stands among those of a function.
    fn stand_in(&self, function: u32, base: u32, caller: Option<Caller>, point: u32) -> Stand
        requires comes { ComesTo self.now.graph function base caller }
        requires low { base ≤ point }
        requires high { point < base + size_of self.now.graph function }
        requires small { point < 4000000000 }
        ensures { IsStand self.now.graph self.now.before.items point result }
    {
        let action = self.graph.function(function).first + self.place(function, point - base);
        let here = self.number(base, action);
        match self.entered(action, here, point) {
            Some(callee) => {
                let caller = Caller { action, base };
                self.stand_in(callee, here + 1, Some(caller), point)
            }
            None => Stand {
                function,
                action,
                base,
                caller,
            },
        }
    }

    fn stand(&self, point: u32) -> Stand
        requires { point < length (points_of self.now.graph) }
        ensures { IsStand self.now.graph self.now.before.items point result }
    {
        self.stand_in(self.graph.main, 0, None, point)
    }

    /// The number of the point's action.
    pub fn action(&self, point: u32) -> u32
        requires { point < length (points_of self.now.graph) }
        ensures value { result ≡ (point_at self.now.graph point).action }
        ensures within { result < length self.now.graph.nodes.items }
    {
        self.stand(point).action
    }

    /// The point of the innermost call or creation, from which the point's call string goes on outward.
    pub fn caller(&self, point: u32) -> Option<u32>
        requires { point < length (points_of self.now.graph) }
        ensures call { IsCalledFrom self.now.graph (point_at self.now.graph point).string result }
        ensures before { IfSome result (λ call. call < point) }
    {
        match self.stand(point).caller {
            Some(caller) => Some(self.number(caller.base, caller.action)),
            None => None,
        }
    }

    /// Where a return leads: behind the call, or nowhere from the first function of a thread.
    fn behind(&self, caller: Caller) -> Onward
        requires { (string : List ℕ) × CallsBy self.now.graph caller.action string caller }
        ensures { (string : List ℕ) → CallsBy self.now.graph caller.action string caller
            → LeadsOn self.now.graph result (returns_to self.now.graph caller.action string (transfer_at self.now.graph caller.action)) }
    {
        match self.graph.transfer(caller.action) {
            Transfer::Call(_) => Onward::Behind {
                action: caller.action,
                base: caller.base,
            },
            _ => Onward::Nowhere,
        }
    }

    fn onward(&self, point: u32) -> Onward
        requires { point < length (points_of self.now.graph) }
        ensures { LeadsOn self.now.graph result (next_points self.now.graph (point_at self.now.graph point)) }
    {
        let stand = self.stand(point);
        match self.graph.transfer(stand.action) {
            Transfer::Call(callee) => Onward::Enters {
                action: self.graph.function(callee).entry,
                base: point + 1,
            },
            Transfer::Return => match stand.caller {
                Some(caller) => self.behind(caller),
                None => Onward::Nowhere,
            },
            Transfer::Exit => Onward::Nowhere,
            Transfer::Next | Transfer::Create(_) => Onward::Behind {
                action: stand.action,
                base: stand.base,
            },
        }
    }

    /// How many moves from the point lead to a point.
    pub fn next_count(&self, point: u32) -> u32
        requires { point < length (points_of self.now.graph) }
        ensures { result ≡ length (next_points self.now.graph (point_at self.now.graph point)) }
    {
        match self.onward(point) {
            Onward::Enters { action: _, base: _ } => 1,
            Onward::Behind { action, base: _ } => self.graph.next(action).len() as u32,
            Onward::Nowhere => 0,
        }
    }

    /// The point to which one of these moves leads.
    pub fn next_at(&self, point: u32, k: u32) -> u32
        requires point { point < length (points_of self.now.graph) }
        requires k { k < length (next_points self.now.graph (point_at self.now.graph point)) }
        ensures { slice_get (points_of self.now.graph) result ≡ slice_get (next_points self.now.graph (point_at self.now.graph point)) k }
    {
        match self.onward(point) {
            Onward::Enters { action, base } => self.number(base, action),
            Onward::Behind { action, base } => self.number(
                base,
                self.graph.next(action)[k as usize],
            ),
            Onward::Nowhere => unreachable!(),
        }
    }
}
