//! Reads until a request stands whole.
ghost use Rattle.std.specs.Prelude.{◌≡◌, ◌≤◌, ◌<◌, ◌+◌, ◌⊎◌, ℕ, true, IfOk, OnOk, MatchResult, length, max};
ghost use Rattle.desk_outside.specs.Causes.{HasCause};
ghost use Rattle.std.specs.Io.KnownBytes.{Keeps, IsAtEnd, prepend_known};
ghost use Rattle.request_session.specs.Turns.{Gathers, Loses};

use crate::service::{Answer, Service, Turn};
use crate::stop::SessionStop;
use desk_outside::Source;
use std::alloc::Global;

/// So many bytes are read at a time.
const PIECE: usize = 4096;

/// Reads a piece behind the bytes, through the room. False where none is left.
fn read_more<S: Source>(
    source: &mut S,
    room: &mut [u8],
    bytes: &mut Vec<u8>,
) -> Result<bool, SessionStop>
    requires { 0 < length room.old }
    ensures room { length room.new ≡ length room.old }
    ensures stream { OnOk result (Keeps (prepend_known bytes.old.items (S.left source.old)) (prepend_known bytes.new.items (S.left source.new))) }
    ensures grown { IfOk result (λ more. more ≡ true → length bytes.old.items < length bytes.new.items) }
    ensures ended { IfOk result (λ more. (more ≡ true) ⊎ IsAtEnd (S.left source.new)) }
    ensures rest { S.rest source.new ≡ S.rest source.old }
    ensures cause { HasCause SessionStop.Link (S.faults source.old) (S.faults source.new) result }
{
    let count = source.read(room)?;
    bytes.extend_from_slice(&room[..count])?;
    Ok(count > 0)
}

/// Reads until so many bytes are there. True where they ended before.
#[tactic(auto, using(crate::proofs::Known::kept, crate::proofs::Known::same))]
fn fill<S: Source>(source: &mut S, bytes: &mut Vec<u8>, need: usize) -> Result<bool, SessionStop>
    ensures stream { OnOk result (Keeps (prepend_known bytes.old.items (S.left source.old)) (prepend_known bytes.new.items (S.left source.new))) }
    ensures ended { IfOk result (λ ended. ended ≡ true → IsAtEnd (S.left source.new)) }
    ensures enough { IfOk result (λ ended. (ended ≡ true) ⊎ (need ≤ length bytes.new.items)) }
    ensures rest { S.rest source.new ≡ S.rest source.old }
    ensures cause { HasCause SessionStop.Link (S.faults source.old) (S.faults source.new) result }
{
    let mut room = [0; PIECE];
    while bytes.len() < need {
        if !read_more(source, &mut room, bytes)? {
            return Ok(true);
        }
    }
    Ok(false)
}

/// The answer to the first request, or none where no bytes are left.
#[tactic(auto, using(crate::proofs::Known::kept, crate::proofs::Known::same, crate::proofs::Known::settled, crate::proofs::Known::lost))]
pub fn gather<L: Source, S: Service>(
    alloc: Global,
    source: &mut L,
    service: &mut S,
    bytes: &mut Vec<u8>,
) -> Result<Option<Answer>, SessionStop>
    ensures stream { OnOk result (Keeps (prepend_known bytes.old.items (L.left source.old)) (prepend_known bytes.new.items (L.left source.new))) }
    ensures answer { MatchResult result (Gathers S.IsFirst S.Answers bytes.new.items (L.left source.new) (S.state service.old) (S.state service.new)) (λ _. Loses S.IsFirst S.Answers (prepend_known bytes.old.items (L.left source.old)) bytes.new.items (L.left source.new) (S.state service.old) (S.state service.new)) }
    ensures rest { L.rest source.new ≡ L.rest source.old }
    ensures cause { HasCause SessionStop.Link (L.faults source.old) (L.faults source.new) result }
{
    let mut need = 1;
    loop {
        let ended = fill(source, bytes, need)?;
        if bytes.is_empty() {
            return Ok(None);
        }
        match service.serve(alloc, bytes, ended)? {
            Turn::Answered(answer) => return Ok(Some(answer)),
            Turn::Waits(more) => need = more,
        }
    }
}
