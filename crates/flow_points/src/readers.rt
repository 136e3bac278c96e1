//! The readers of a graph.
ghost use Rattle.std.specs.Prelude.{◌≡◌, ◌<◌, length};
ghost use Rattle.flow_points.specs.Graphs.{transfer_at, first_of, length_of, entry_of, next_at};

use crate::graph::{Function, Graph};
use crate::transfer::Transfer;

impl Graph {
    pub fn transfer(&self, action: u32) -> Transfer
        requires { action < length self.now.nodes.items }
        ensures { result ≡ transfer_at self.now action }
    {
        self.nodes[action as usize].transfer
    }

    pub fn function(&self, function: u32) -> Function
        requires { function < length self.now.functions.items }
        ensures first { result.first ≡ first_of self.now function }
        ensures length { result.length ≡ length_of self.now function }
        ensures entry { result.entry ≡ entry_of self.now function }
    {
        self.functions[function as usize]
    }

    pub fn next(&self, action: u32) -> &[u32]
        requires { action < length self.now.nodes.items }
        ensures { result.now ≡ next_at self.now action }
    {
        self.nodes[action as usize].next.as_slice()
    }
}
