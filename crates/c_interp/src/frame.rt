//! Calls that are active.

ghost use Rattle.std.specs.Prelude.{◌<◌, ◌^◌};

use c_interp_def::Slot;
use c_interp_store::Objects;

/// A call that is active: its function, the blocks of its objects, and how deep calls within it may
/// nest. A number of an object can be added to that of the first block.
#[derive(Clone, Copy)]
pub(crate) struct Frame {
    pub(crate) function: u32,
    pub(crate) depth: u32,
    pub(crate) objects: Objects,
    ghost fit: { objects.first < 2 ^ 63 },
}

/// The same, with its variables in scope.
#[derive(Drop)]
pub(crate) struct Active {
    pub(crate) frame: Frame,
    pub(crate) slots: Vec<Slot>,
}
