//! Pieces of bytes.

ghost use Rattle.std.specs.Prelude.{◌≡◌, ◌++◌, ◌∷◌, IfSome, IfNone};
ghost use Rattle.log_check.specs.Pieces.{HasNo};

/// What stands before the first of this byte, and what stands after it; none where it stands
/// nowhere.
#[tactic(auto, using(crate::proofs::Splits::none_before, crate::proofs::Splits::none_at_all, crate::proofs::Splits::parts_at))]
pub fn split_at_first(byte: u8, text: &[u8]) -> Option<(&[u8], &[u8])>
    ensures parts { IfSome result (λ parts. text.now ≡ parts.0.now ++ (byte ∷ parts.1.now)) }
    ensures first { IfSome result (λ parts. HasNo byte parts.0.now) }
    ensures none { IfNone result (HasNo byte text.now) }
{
    for at in 0..text.len() {
        if text[at] == byte {
            return Some((&text[..at], &text[at + 1..]));
        }
    }
    None
}
