//! Where the memory objects of a function begin.

ghost use Rattle.std.specs.Prelude.{◌≡◌, ◌+◌, ◌<◌, ◌^◌, sum_by, IfOk};
ghost use Rattle.s_linear.specs.Frame.{object_room};
ghost use Rattle.s_select.specs.Operands.{offsets_from};

use g_graph::Object;
use std::alloc::{AllocError, Global};

/// The bytes of an object in a frame.
fn object_room(object: &Object) -> u32
    requires { object_room object.now < 2 ^ 32 }
    ensures { result ≡ object_room object.now }
{
    object.size.next_multiple_of(4) + 4
}

/// Where each object begins, the first of them at an offset.
pub fn offsets_from(alloc: Global, start: u32, objects: &[Object]) -> Result<Vec<u32>, AllocError>
    requires { start + sum_by object_room objects.now < 2 ^ 32 }
    ensures { IfOk result (λ all. all.items ≡ offsets_from start objects.now) }
{
    let mut all = Vec::with_capacity(alloc, objects.len())?;
    let mut at = start;
    for object in objects {
        all.push(at)?;
        at += object_room(object);
    }
    Ok(all)
}
