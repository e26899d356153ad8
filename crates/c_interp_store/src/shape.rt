//! What a block is opened with.

ghost use Rattle.std.specs.Prelude.{IsTrue};
ghost use Rattle.c_interp_store.specs.Ascending.{ascends, leaf_offset};

use val_core::Leaf;

/// The size of an object in bytes, and its leaves in order of offset.
#[derive(Drop)]
pub struct Shape {
    pub size: u32,
    pub leaves: Vec<Leaf>,
    ghost in_order: { IsTrue (ascends leaf_offset 0 leaves.items) },
}
