//! The session: requests one by one.
ghost use Rattle.std.specs.Prelude.{◌≡◌, ◌≤◌, ℕ, List, Some};
ghost use Rattle.desk_outside.specs.Causes.{HasCause};
ghost use Rattle.std.specs.Io.KnownBytes.{prepend_known};
ghost use Rattle.request_session.specs.Requests.{Session, ending_of};
ghost use Rattle.request_session.specs.Turns.{Replies, Turns};

use crate::buffer::drop_front;
use crate::reading::gather;
use crate::service::Service;
use crate::stop::SessionStop;
use desk_links::Link;
use desk_outside::{WriteStop, write_all};
use std::alloc::Global;

/// A connection has at most so many requests.
const REQUESTS: u32 = 1000;

/// Answers the requests of a connection, up to the first that ends it.
pub fn serve_requests<L: Link, S: Service>(
    alloc: Global,
    link: &mut L,
    service: &mut S,
) -> Result<(), SessionStop>
    ensures served { (bytes : List ℕ) → L.Source.left link.old ≡ Some bytes
        → Session S.IsFirst S.Answers (ending_of result) 1000 bytes (S.state service.old) (S.state service.new) (L.Sink.written link.old) (L.Sink.written link.new) }
    ensures other { L.Link.other link.new ≡ L.Link.other link.old }
    ensures cause { HasCause SessionStop.Link (L.Source.faults link.old) (L.Source.faults link.new) result }
{
    let mut bytes = Vec::new(alloc);
    for _ in 0..REQUESTS {
        match turn(alloc, link, service, &mut bytes) {
            Ok(true) => {}
            Ok(false) => return Ok(()),
            Err(stop) => return Err(stop),
        }
    }
    Ok(())
}

/// Answers one request. False where the connection ends.
fn turn<L: Link, S: Service>(
    alloc: Global,
    link: &mut L,
    service: &mut S,
    bytes: &mut Vec<u8>,
) -> Result<bool, SessionStop>
    ensures turn { (pending : List ℕ) → prepend_known bytes.old.items (L.Source.left link.old) ≡ Some pending
        → Turns S.IsFirst S.Answers pending (S.state service.old) (S.state service.new) (L.Sink.written link.old) (L.Sink.written link.new) (prepend_known bytes.new.items (L.Source.left link.new)) result }
    ensures other { L.Link.other link.new ≡ L.Link.other link.old }
    ensures cause { HasCause SessionStop.Link (L.Source.faults link.old) (L.Source.faults link.new) result }
{
    match gather(alloc, link, service, bytes) {
        Ok(Some(answer)) => match write_reply(link, &answer.reply) {
            Ok(()) => {
                drop_front(bytes, answer.taken);
                Ok(!answer.last)
            }
            Err(stop) => Err(stop),
        },
        Ok(None) => Ok(false),
        Err(stop) => Err(stop),
    }
}

/// Writes a reply, or the first bytes of it before it stops.
fn write_reply<L: Link>(link: &mut L, reply: &[u8]) -> Result<(), SessionStop>
    ensures bytes { Replies (L.Sink.written link.old) (L.Sink.written link.new) reply.now result }
    ensures left { L.Source.left link.new ≡ L.Source.left link.old }
    ensures other { L.Link.other link.new ≡ L.Link.other link.old }
    ensures cause { HasCause SessionStop.Link (L.Source.faults link.old) (L.Source.faults link.new) result }
{
    match write_all(link, reply) {
        Ok(()) => Ok(()),
        Err(WriteStop::Failed) => Err(SessionStop::Link),
        Err(WriteStop::Memory) => Err(SessionStop::Memory),
    }
}
