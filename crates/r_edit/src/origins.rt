//! Origins one after another.

ghost use Rattle.std.specs.Prelude.{◌≡◌, ◌≤◌, ◌^◌, IfOk};
ghost use Rattle.g_graph.specs.declared.op.Origin.TheVariants.{Arg, Out};
ghost use Rattle.r_edit.specs.Origins.{origins_from};

use base::NoMemory;
use g_graph::Origin;
use std::alloc::Global;

/// The first `count` arguments of a region.
pub fn arguments(alloc: Global, count: usize) -> Result<Vec<Origin>, NoMemory>
    requires { count ≤ 2 ^ 32 }
    ensures { IfOk result (λ origins. origins.items ≡ origins_from Arg 0 count) }
{
    let mut origins = Vec::new(alloc);
    for i in 0..count {
        origins.push(Origin::Arg(i as u32))?;
    }
    Ok(origins)
}

/// The first `count` outputs of the node of this number.
pub fn outputs_of(alloc: Global, id: u32, count: usize) -> Result<Vec<Origin>, NoMemory>
    requires { count ≤ 2 ^ 32 }
    ensures { IfOk result (λ origins. origins.items ≡ origins_from (Out id) 0 count) }
{
    let mut origins = Vec::new(alloc);
    for i in 0..count {
        origins.push(Origin::Out {
            node: id,
            port: i as u32,
        })?;
    }
    Ok(origins)
}
