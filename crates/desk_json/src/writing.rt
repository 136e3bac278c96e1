//! The texts of bodies.
ghost use Rattle.std.specs.Prelude.{◌≡◌, IfOk, string_bytes};
ghost use Rattle.serde_json.specs.Written.{compact_text};
ghost use Rattle.desk_json.specs.Refusals.{stop_data};
ghost use Rattle.desk_json.specs.Replies.{refusal_data, reply_data};

use crate::refusals::stop_value;
use crate::replies::{refusal_value, reply_value};
use desk_core::DeskStop;
use desk_tables::Reply;
use misra_base::Refusal;
use std::alloc::{AllocError, Global};

/// The body of the reply to an accepted command.
#[tactic(auto, using(crate::proofs::Floats::reply_has_none))]
pub fn reply_text(alloc: Global, reply: &Reply) -> Result<String, AllocError>
    ensures { IfOk result (λ text. string_bytes text ≡ compact_text (reply_data reply.now)) }
{
    reply_value(alloc, reply)?.to_string(alloc)
}

/// The body of the reply to a submission whose text is refused.
#[tactic(auto, using(crate::proofs::Floats::refusal_has_none))]
pub fn refusal_text(alloc: Global, refusal: &Refusal) -> Result<String, AllocError>
    ensures { IfOk result (λ text. string_bytes text ≡ compact_text (refusal_data refusal.now)) }
{
    refusal_value(alloc, refusal)?.to_string(alloc)
}

/// The body of the reply to a command that the desk refuses.
#[tactic(auto, using(crate::proofs::Floats::stop_has_none))]
pub fn stop_text(alloc: Global, stop: &DeskStop) -> Result<String, AllocError>
    ensures { IfOk result (λ text. string_bytes text ≡ compact_text (stop_data stop.now)) }
{
    stop_value(alloc, stop)?.to_string(alloc)
}
