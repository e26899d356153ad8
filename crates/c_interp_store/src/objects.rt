//! The blocks of the objects of a call.

ghost use Rattle.std.specs.Prelude.{◌+◌, ◌<◌, ◌^◌};

use val_core::{BlockName, Value};

/// The blocks that were opened together, as those of the objects of a call: the number of the first
/// and how many there are.
#[derive(Clone, Copy)]
pub struct Objects {
    pub first: u64,
    pub count: u64,
    pub ghost fit: { first + count < 2 ^ 64 },
}

impl Objects {
    ghost use Rattle.std.specs.Prelude.{◌≡◌, ◌+◌, Some, None, if◌then◌else◌, nat_lt};
    ghost use Rattle.val_core.specs.Objects.{block_address};

    /// The address of the first byte of object `k`, of this size in bytes; `Bad` where there are no
    /// more than `k` objects.
    pub fn address(self, k: u32, size: u32) -> Value
        ensures { result
            ≡ block_address (self.first + k) (if nat_lt k self.count then Some size else None) }
    {
        if u64::from(k) < self.count {
            Value::At {
                block: BlockName {
                    number: self.first + u64::from(k),
                    size,
                },
                offset: 0,
            }
        } else {
            Value::Bad
        }
    }
}
