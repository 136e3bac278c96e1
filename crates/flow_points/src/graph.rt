//! How control goes through the functions of a program.
use crate::transfer::Transfer;

/// An action of a function's body.
#[derive(Drop)]
pub struct Node {
    pub transfer: Transfer,
    /// The actions that may come next in its function, one for each move that leads to one; behind a call, those after it returned.
    pub next: Vec<u32>,
}

/// The numbers of a function's actions follow each other, from the first one on.
#[derive(Clone, Copy)]
pub struct Function {
    pub first: u32,
    pub length: u32,
    /// The action that a call comes to.
    pub entry: u32,
}

/// The actions of all functions in the order of the text. A function stands behind those that it calls.
#[derive(Drop)]
pub struct Graph {
    pub nodes: Vec<Node>,
    pub functions: Vec<Function>,
    pub main: u32,
}
