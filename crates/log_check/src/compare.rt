//! Where an image differs from another one.

ghost use Rattle.std.specs.Prelude.{◌≡◌, ◌<◌, ◌^◌, length, IfSome, IfNone};
ghost use Rattle.log_check.specs.Parting.{PartAt};

/// The first byte at which an image differs from a file, or the end of the shorter one where that
/// is a beginning of the other; none where both are the same. The file has fewer than 2^32 bytes.
#[tactic(auto, using(crate::proofs::Parting::bytes_apart, crate::proofs::Parting::ends_differ, crate::proofs::Parting::goes_past, crate::proofs::Parting::same_bytes, crate::proofs::Parting::same_here))]
pub fn first_difference(image: &[u8], file: &[u8]) -> Option<u32>
    requires { length file.now < 2 ^ 32 }
    ensures some { IfSome result (λ byte. PartAt image.now file.now byte) }
    ensures none { IfNone result (image.now ≡ file.now) }
{
    for at in 0..image.len() {
        if at >= file.len() {
            return Some(at as u32);
        }
        if image[at] != file[at] {
            return Some(at as u32);
        }
    }
    if image.len() < file.len() {
        return Some(image.len() as u32);
    }
    None
}
