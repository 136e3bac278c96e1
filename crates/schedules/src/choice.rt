/// A choice of a run: the thread that moves, the position of its move, and the values where the action may answer
/// one of several.
#[derive(Clone, Copy, Debug, PartialEq, Eq)]
pub struct Choice {
    pub thread: u32,
    pub pair: u32,
    /// The first `count` are the values, the others are 0.
    pub values: [i128; 3],
    pub count: u8,
}
