//! Segments made of the bounds of names.

ghost use Rattle.std.specs.Prelude.{◌≡◌, ◌<◌, ℕ, [], map, slice_index_or, vec_len, IfOk};
ghost use Rattle.a_share.specs.Bounds.{bounds_of};
ghost use Rattle.a_share.specs.Pairs.{IsMadeOf, pairs};

use crate::toggles::Toggles;
use crate::walk::Segment;
use smallvec::SmallVec;
use std::alloc::{AllocError, Global};

/// The segments of so many names with these bounds, before a position.
pub(crate) fn segments(
    alloc: Global,
    toggles: &Toggles,
    count: usize,
    end: usize,
) -> Result<Vec<SmallVec<Segment, 4>>, AllocError>
    ensures size { IfOk result (λ s. vec_len s ≡ count) }
    ensures made { IfOk result (λ s. (x : ℕ) → x < count → IsMadeOf end
        (bounds_of toggles.now x) (slice_index_or (map (λ v. v.items) s.items) x [])) }
{
    let mut sorted = Vec::new(alloc);
    let mut segments = Vec::with_capacity(alloc, count)?;
    for name in 0..count {
        segments.push(segments_of(alloc, &mut sorted, toggles.list(name), end)?)?;
    }
    Ok(segments)
}

// The segments of a name with these bounds, before a position. They are sorted in a buffer; most
// descend.
fn segments_of(
    alloc: Global,
    sorted: &mut Vec<usize>,
    bounds: &[usize],
    end: usize,
) -> Result<SmallVec<Segment, 4>, AllocError>
    ensures { IfOk result (λ s. IsMadeOf end bounds.now s.items) }
{
    sorted.clear();
    sorted.extend_from_slice(bounds)?;
    sorted.reverse();
    sorted.sort_unstable();
    paired(alloc, sorted.as_slice(), end)
}

// The segments between every two of these bounds, which ascend, before a position.
fn paired(alloc: Global, bounds: &[usize], end: usize) -> Result<SmallVec<Segment, 4>, AllocError>
    ensures { IfOk result (λ segments. segments.items ≡ pairs end bounds.now) }
{
    let mut segments = SmallVec::new(alloc);
    let mut k = 0;
    while bounds.len() - k >= 2 {
        let first = bounds[k];
        let after = bounds[k + 1].min(end);
        if first < after {
            segments.push(Segment {
                first,
                last: after - 1,
            })?;
        }
        k += 2;
    }
    Ok(segments)
}
