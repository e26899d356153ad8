//! The sizes of items and globals in memory.

ghost use Rattle.std.specs.Prelude.{◌≡◌, ◌<◌, ◌^◌};
ghost use Rattle.rv_layout.specs.Items.{item_size, items_size};
ghost use Rattle.rv_layout.specs.Globals.{global_room};

use crate::Item;
use g_graph::Delta;

/// The bytes of an item's instructions.
pub fn item_size(item: Item) -> u32
    ensures { result ≡ item_size item }
{
    match item {
        Item::Mark(_) => 0,
        Item::Word(_) | Item::Jump(_) => 4,
        Item::Call(_) | Item::Stub(_) | Item::Address(..) => 8,
    }
}

/// The bytes of the instructions of items.
pub fn items_size(items: &[Item]) -> u32
    requires { items_size items.now < 2 ^ 32 }
    ensures { result ≡ items_size items.now }
{
    let mut size = 0;
    for item in items {
        size += item_size(*item);
    }
    size
}

/// The bytes of a global in memory.
pub fn global_room(global: &Delta) -> u32
    requires { global_room global.now < 2 ^ 32 }
    ensures { result ≡ global_room global.now }
{
    (global.bytes.len() as u32).next_multiple_of(4) + 4
}
