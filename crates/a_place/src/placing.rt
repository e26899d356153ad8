//! The places of the names of linear code.

ghost use Rattle.std.specs.Prelude.{◌≡◌, ℕ, ◌<◌, ◌≤◌, [], List, length, IfOk, IsTrue, slice_index_or};
ghost use Rattle.g_graph.specs.WellFormed.{all_of};
ghost use Rattle.s_linear.specs.Lines.{Line, names_below};
ghost use Rattle.a_place.specs.Places.{places, starting};
ghost use Rattle.a_place.specs.Sweep.{spans_of};

use crate::buckets::Buckets;
use crate::spans::{Span, name_count, spans};
use crate::sweep::Sweep;
use base::NoMemory;
use s_linear::{Linear, Places};
use std::alloc::{AllocError, Global};

/// The place of each name up to the greatest of these lines, and how many places there are. A name
/// that does not occur has place 0. Each name is below 4294967295. `NoMemory` only where the
/// allocator has none.
pub fn place(alloc: Global, linear: &Linear) -> Result<Places, NoMemory>
    requires { IsTrue (all_of (names_below 4294967295) linear.now) }
    ensures { IfOk result (λ p. p ≡ places linear.now) }
{
    let lines = linear.lines.as_slice();
    let count = name_count(alloc, lines)?;
    let spans = spans(alloc, lines, count)?;
    let starts = starts(alloc, &spans, lines.len())?;
    let mut sweep = Sweep::new(alloc, count, lines.len())?;
    for position in 0..lines.len() {
        sweep.start(starts.get(position), &spans)?;
        sweep.end(position)?;
    }
    Ok(sweep.places())
}

// The names that start at each position before the end, ascending.
fn starts(alloc: Global, spans: &[Span], end: usize) -> Result<Buckets, AllocError>
    requires { length spans.now ≤ 4294967295 }
    ensures size { IfOk result (λ starts. length starts ≡ end) }
    ensures starts { IfOk result (λ starts. (ls : List Line) (p : ℕ) → spans.now ≡ spans_of ls
        → p < end → slice_index_or starts p [] ≡ starting ls p) }
{
    let mut starts = Buckets::new(alloc, end)?;
    for (name, span) in spans.iter().enumerate() {
        if span.first < end {
            starts.put(span.first, name as u32)?;
        }
    }
    Ok(starts)
}
