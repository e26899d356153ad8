//! What is said of a source that is refused.

ghost use Rattle.std.specs.Prelude.{◌≡◌, ◌<◌, ◌≤◌, ◌^◌, IfOk, Some, length};
ghost use Rattle.cc_report.specs.Explained.{refusal_text};
ghost use Rattle.cc_source.specs.Refusal.{refusal_of};
ghost use Rattle.cc_view.specs.Explanation.{IsRefusalText};

use base::NoMemory;
use cc_report::{Refusal, push_refusal};
use cc_source::offset_laws::lines_are_of_offsets;
use cc_source::{CompileFault, offset_of};
use std::alloc::Global;

// The text of a refusal at an offset.
fn refused_at(
    alloc: Global,
    source: &[u8],
    refusal: &Refusal,
    at: usize,
) -> Result<Vec<u8>, NoMemory>
    requires inside { at ≤ length source.now }
    requires small { length source.now < 2 ^ 32 }
    ensures { IfOk result (λ text. text.items ≡ refusal_text refusal.now source.now at) }
{
    let mut out = Vec::new(alloc);
    push_refusal(&mut out, refusal, source, at)?;
    Ok(out)
}

/// What is said of a source that is refused so, for this fault. `NoMemory` only where the allocator
/// has none.
pub fn refused_text(
    alloc: Global,
    source: &[u8],
    fault: CompileFault,
    refusal: &Refusal,
) -> Result<Vec<u8>, NoMemory>
    requires small { length source.now < 2 ^ 32 }
    requires refused { refusal_of fault source.now ≡ Some refusal.now }
    ensures { IfOk result (λ text. IsRefusalText source.now fault refusal.now text.items) }
{
    lines_are_of_offsets();
    match offset_of(fault, source) {
        Some(at) => refused_at(alloc, source, refusal, at),
        None => Ok(Vec::new(alloc)),
    }
}
