use misra_base::{Name, Place};

/// What a text may have a limited number of. At one place and code the first of these in this order counts.
#[derive(Clone, Copy, Debug, PartialEq, Eq)]
pub enum Limit {
    Functions,
    Objects,
    Mutexes,
    Conditions,
    Threads,
    Keys,
}

/// The name that a refusal tells.
#[derive(Debug, Drop)]
pub enum FaultName {
    /// A token of the text, or another word.
    Text(Name),
    /// A limit that is passed.
    Limit(Limit),
}

/// What a phase refuses.
#[derive(Debug, Drop)]
pub struct Fault {
    pub place: Place,
    /// The number behind the `U` of the code.
    pub code: u8,
    pub name: FaultName,
}
