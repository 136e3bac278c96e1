ghost use Rattle.std.specs.Prelude.{◌≡◌, ℕ, List, MatchResult};
ghost use Rattle.httparse.specs.Spans.{IsRequestWithin};
ghost use Rattle.http_service.specs.Answers.{Question, WithoutReply, question_at};
ghost use Rattle.httparse.specs.Spans.{span_bytes};
ghost use Rattle.std.specs.Str.{IsUtf8};

use httparse::spans::{HeaderSpan, RequestSpans};
use std::alloc::{AllocError, Global};

/// What answers the questions of requests.
pub trait Responder {
    /// What a reply depends on, and what it changes.
    ghost State: { Type 0 };

    ghost state: { Self → State };

    /// In this state the question may get this reply, and leave that state.
    ghost Replies: { State → Question → List ℕ → State → Type 0 };

    /// The reply to the request whose head the spans tell in the front of its bytes. An `Err` says
    /// that there was no memory: nothing was done, or the request was acted on and its reply is lost.
    fn respond(
        &mut self,
        alloc: Global,
        front: &[u8],
        fields: &[HeaderSpan],
        head: RequestSpans,
        body: &[u8],
    ) -> Result<Vec<u8>, AllocError>
        requires within { IsRequestWithin front.now fields.now head }
        requires text { IsUtf8 (span_bytes front.now head.path) }
        ensures reply { MatchResult result (λ reply. Replies (state self.old) (question_at front.now fields.now head body.now) reply.items (state self.new)) (λ _. WithoutReply Replies (state self.old) (question_at front.now fields.now head body.now) (state self.new)) };
}
