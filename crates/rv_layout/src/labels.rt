//! Where the labels of a function are marked.

ghost use Rattle.std.specs.Prelude.{◌≡◌, ℕ, ◌+◌, ◌<◌, ◌^◌, IfOk};
ghost use Rattle.std.specs.Ordering.{nat_cmp};
ghost use Rattle.std.specs.BTreeMap.{get};
ghost use Rattle.rv_layout.specs.Items.{items_size, label_at};

use crate::Item;
use crate::sizes::{item_size, items_size};
use base::NoMemory;
use std::alloc::Global;
use std::collections::BTreeMap;

/// The address at which each label of a function is marked first; its items begin at `at`. It takes
/// time n log n in the items.
pub fn labels_of(alloc: Global, items: &[Item], at: u32) -> Result<BTreeMap<u32, u32>, NoMemory>
    requires { at + items_size items.now < 2 ^ 32 }
    ensures { IfOk result (λ labels.
        (label : ℕ) → get nat_cmp labels label ≡ label_at label at items.now) }
{
    let mut labels = BTreeMap::new(alloc);
    let mut here = at + items_size(items);
    for i in (0..items.len()).rev() {
        let item = &items[i];
        here -= item_size(*item);
        if let Item::Mark(label) = item {
            labels.insert(*label, here)?;
        }
    }
    Ok(labels)
}
