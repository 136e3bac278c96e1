ghost use Rattle.std.specs.Prelude.{◌≡◌, ◌<◌, ℕ, List, Bool, length, MatchResult};
ghost use Rattle.std.specs.declared.option.Option.{Option};
ghost use Rattle.request_session.specs.Turns.{Takes, Gives};

use std::alloc::{AllocError, Global};

/// What a service made of the bytes in front of it.
#[derive(Debug, Drop)]
pub enum Turn {
    /// The first request stands there, and this is its answer.
    Answered(Answer),
    /// The first request does not stand there whole. It may with so many bytes.
    Waits(usize),
}

/// A reply to a request that took so many bytes.
#[derive(Debug, Drop)]
pub struct Answer {
    pub reply: Vec<u8>,
    pub taken: usize,
    /// The connection ends behind this reply.
    pub last: bool,
}

/// What reads the requests of a connection, and answers them.
pub trait Service {
    ghost Request: { Type 0 };

    /// What an answer depends on, and what it changes.
    ghost State: { Type 0 };

    ghost state: { Self → State };

    /// Of some bytes the first request is this one, and the bytes behind it are these, or none
    /// where the connection ends with it.
    ghost IsFirst: { List ℕ → Request → Option (List ℕ) → Type 0 };

    /// In this state the request may get this reply, and leave that state.
    ghost Answers: { State → Request → List ℕ → State → Type 0 };

    /// No request has more bytes than this.
    ghost ROOM: { ℕ };

    /// Answers the first request of the bytes, where it is known from these. No bytes come behind
    /// them where `ended`. An `Err` says that there was no memory: then nothing was done, or the
    /// request was acted on and its reply is lost.
    fn serve(&mut self, alloc: Global, bytes: &[u8], ended: bool) -> Result<Turn, AllocError>
        requires some { 0 < length bytes.now }
        ensures turn { MatchResult result (Takes IsFirst Answers ROOM bytes.now ended (state self.old) (state self.new)) (λ _. Gives IsFirst Answers bytes.now ended (state self.old) (state self.new)) };
}
