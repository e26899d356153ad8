//! The order of the lambdas of a list, which is what the crate answers.

ghost use Rattle.std.specs.Prelude.{◌<◌, ℕ, length, slice_index};

/// For each lambda of a list its rank, by which lambdas are optimised, and its deps: the functions
/// that it calls and that are not of its unit, increasing.
#[derive(Drop)]
pub struct Order {
    pub ranks: Vec<u32>,
    pub deps: Vec<Vec<u32>>,
}

/// A rank above all of these. It is one more than the greatest, 0 where there are none.
pub fn above_all(ranks: &[u32]) -> usize
    ensures { (j : ℕ) → j < length ranks.now → slice_index ranks.now j < result }
{
    match ranks.iter().copied().max() {
        Some(rank) => rank as usize + 1,
        None => 0,
    }
}
