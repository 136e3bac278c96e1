//! A text cut at a byte.
ghost use Rattle.std.specs.Prelude.{◌≡◌, ◌==◌, ◌∷◌, ◌<◌, length, option_copied, IfSome, IfNone};
ghost use Rattle.std.specs.List.{slice_split};
ghost use Rattle.schedules.specs.Pieces.{pieces_behind};

/// What stands before the first byte that is `at`, and what stands behind it, if there is one.
#[tactic(auto, using(crate::proofs::Cutting::cut_at, crate::proofs::Cutting::cut_nowhere))]
pub fn cut(text: &[u8], at: u8) -> (&[u8], Option<&[u8]>)
    ensures pieces { slice_split (λ b. b == at) text.now ≡ result.0.now ∷ pieces_behind at (option_copied result.1) }
    ensures shorter { IfSome result.1 (λ behind. length behind.now < length text.now) }
    ensures whole { IfNone result.1 (result.0.now ≡ text.now) }
{
    for (i, byte) in text.iter().enumerate() {
        if *byte == at {
            return (&text[..i], Some(&text[i + 1..]));
        }
    }
    (text, None)
}
