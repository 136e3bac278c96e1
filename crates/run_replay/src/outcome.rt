use crate::rows::StepList;

/// How a replay ends.
#[derive(Clone, Copy, Debug, PartialEq, Eq)]
pub enum End {
    /// The run may go on.
    Unfinished,
    /// Its last step has no meaning.
    Undefined,
    /// `main` has returned.
    Returned,
    /// The choice of this number, from 1, is no step, or follows the end of the run.
    NoStep(u32),
}

/// The steps of the longest prefix of a schedule that is a run, and how it ends.
#[derive(Drop)]
pub struct Replay {
    pub steps: StepList,
    pub end: End,
}
