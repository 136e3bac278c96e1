//! The service of one connection.
ghost use Rattle.std.specs.Prelude.{◌≡◌, MatchResult};
ghost use Rattle.request_session.specs.Turns.{Gives, Takes};
ghost use Rattle.http_requests.specs.Requests.{IsFirst as is_first};
ghost use Rattle.http_requests.specs.Requests.{Request as request};
ghost use Rattle.http_service.specs.Answers.{AnswersOf};

use crate::responder::Responder;
use crate::search::HeadSearch;
use http_requests::{FIELDS, Frame, Reading, front, read_request};
use http_responses::{StatusCode, error_response};
use httparse::spans::EMPTY_HEADER_SPAN;
use request_session::{Answer, Service, Turn};
use std::alloc::{AllocError, Global};

/// Reads the requests of a connection by HTTP, and answers them by a responder.
#[derive(Drop)]
pub struct HttpService<R: Responder + Drop> {
    pub responder: R,
    search: HeadSearch,
}

impl<R: Responder + Drop> HttpService<R> {
    pub fn new(responder: R) -> HttpService<R>
        ensures { R.Responder.state result.responder ≡ R.Responder.state responder }
    {
        HttpService {
            responder,
            search: HeadSearch::new(),
        }
    }
}

impl<R: Responder + Drop> Service for HttpService<R> {
    ghost Request = { request };

    ghost State = { R.State };

    ghost state = { λ s. R.state s.responder };

    ghost IsFirst = { is_first };

    ghost Answers = { AnswersOf R.Replies };

    ghost ROOM = { 308192 };

    fn serve(&mut self, alloc: Global, bytes: &[u8], ended: bool) -> Result<Turn, AllocError> {
        if self.search.waits(bytes, ended) {
            return Ok(Turn::Waits(bytes.len() + 1));
        }
        answer_first(alloc, &mut self.responder, &mut self.search, bytes, ended)
    }
}

/// Answers the first request of the bytes, and begins a new search behind it.
#[tactic(auto, using(crate::proofs::Serving::target_text))]
fn answer_first<R: Responder>(
    alloc: Global,
    responder: &mut R,
    search: &mut HeadSearch,
    bytes: &[u8],
    ended: bool,
) -> Result<Turn, AllocError>
    ensures { MatchResult result (Takes is_first (AnswersOf R.Replies) 308192 bytes.now ended (R.state responder.old) (R.state responder.new)) (λ _. Gives is_first (AnswersOf R.Replies) bytes.now ended (R.state responder.old) (R.state responder.new)) }
{
    let mut fields = [EMPTY_HEADER_SPAN; FIELDS];
    match read_request(bytes, &mut fields, ended) {
        Reading::Unreadable => {
            let reply = error_response(alloc, StatusCode::BadRequest, None)?;
            Ok(Turn::Answered(Answer {
                reply,
                taken: bytes.len(),
                last: true,
            }))
        }
        Reading::TooLong => {
            let reply = error_response(alloc, StatusCode::PayloadTooLarge, None)?;
            Ok(Turn::Answered(Answer {
                reply,
                taken: bytes.len(),
                last: true,
            }))
        }
        Reading::Asked(frame) => {
            let Frame { head, end, closes } = frame;
            let body = &bytes[head.len..end];
            match responder.respond(alloc, front(bytes), &fields, head, body) {
                Ok(reply) => {
                    *search = HeadSearch::new();
                    Ok(Turn::Answered(Answer {
                        reply,
                        taken: end,
                        last: closes,
                    }))
                }
                Err(error) => Err(error),
            }
        }
        Reading::Waits(need) => Ok(Turn::Waits(need)),
    }
}
