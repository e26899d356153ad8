//! What an expression is read from.

ghost use Rattle.std.specs.Prelude.{◌<◌, ◌^◌};

use c_interp_def::Slot;
use c_interp_store::{Layouts, Store};

/// What an expression is read from: the memory, the variables in scope of a call, the layouts of
/// the program, the function that is called, and the number of the first block of the call.
#[derive(Clone, Copy)]
pub struct Scope<'a> {
    pub store: &'a Store,
    pub slots: &'a [Slot],
    pub layouts: &'a Layouts,
    pub function: u32,
    pub first: u64,
    pub ghost fit: { first < 2 ^ 63 },
}
