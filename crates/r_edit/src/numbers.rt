//! What the numbers of the nodes of a region become in a copy.

ghost use Rattle.std.specs.Prelude.{◌≡◌, ℕ, ◌+◌, ◌<◌, ◌^◌, IfOk, length};
ghost use Rattle.std.specs.Ordering.{nat_cmp};
ghost use Rattle.std.specs.BTreeMap.{get};
ghost use Rattle.r_edit.specs.Numbering.{number_among, found_or_same};

use base::NoMemory;
use std::alloc::Global;
use std::collections::BTreeMap;

/// What these numbers become, counted from `next` in their order. It takes time n log n in them.
pub fn numbers_among(alloc: Global, ids: &[u32], next: u32) -> Result<BTreeMap<u32, u32>, NoMemory>
    requires { next + length ids.now < 2 ^ 32 }
    ensures { IfOk result (λ numbers.
        (n : ℕ) → get nat_cmp numbers n ≡ number_among next ids.now n) }
{
    let mut numbers = BTreeMap::new(alloc);
    for i in (0..ids.len()).rev() {
        numbers.insert(ids[i], next + i as u32)?;
    }
    Ok(numbers)
}

/// What the number becomes; one that is not there stays.
pub fn number_of(numbers: &BTreeMap<u32, u32>, id: u32) -> u32
    ensures { result ≡ found_or_same (get nat_cmp numbers.now) id }
{
    match numbers.get(&id) {
        Some(number) => *number,
        None => id,
    }
}
