//! The functions in the order of their ranks.

ghost use Rattle.std.specs.Prelude.{◌≡◌, ℕ, ◌<◌, ◌^◌, ◌↔◌, length, slice_index_or, Contains, IfOk};
ghost use Rattle.std.specs.List.{range_with_len};
ghost use Rattle.std.specs.List.Sorted.{IsNonDecreasingBy};

use base::NoMemory;
use std::alloc::{AllocError, Global};

// The rank of a function, and 0 for one that is not there.
fn rank_of(ranks: &[u32], function: u32) -> u32
    ensures { result ≡ slice_index_or ranks.now function 0 }
{
    let index = function as usize;
    if index < ranks.len() { ranks[index] } else { 0 }
}

// The numbers of so many functions.
fn functions(alloc: Global, count: u32) -> Result<Vec<u32>, AllocError>
    ensures { IfOk result (λ numbers. numbers.items ≡ range_with_len 0 count) }
{
    (0..count).collect(alloc)
}

/// The numbers of the functions that have these ranks, by rank.
pub fn by_rank(alloc: Global, ranks: &[u32]) -> Result<Vec<u32>, NoMemory>
    requires { length ranks.now < 2 ^ 32 }
    ensures counted { IfOk result (λ turns. length turns.items ≡ length ranks.now) }
    ensures all { IfOk result
        (λ turns. (f : ℕ) → Contains turns.items f ↔ (f < length ranks.now)) }
    ensures sorted { IfOk result
        (λ turns. IsNonDecreasingBy (λ f. slice_index_or ranks.now f 0) turns.items) }
{
    let mut turns = functions(alloc, ranks.len() as u32)?;
    turns.sort_unstable_by_key(|function| rank_of(ranks, *function));
    Ok(turns)
}
