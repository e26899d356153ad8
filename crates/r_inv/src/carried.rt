//! What the variables of a node carry.

ghost use Rattle.std.specs.Prelude.{◌≡◌, IfOk, is_some, ◌&&◌};
ghost use Rattle.g_graph.specs.declared.op.Origin.TheVariants.{Out};
ghost use Rattle.g_graph.specs.Nodes.{is_used};
ghost use Rattle.r_edit.specs.Carried.{staying};
ghost use Rattle.r_inv.specs.Rule.{some_used};

use base::NoMemory;
use g_graph::{Origin, Region};
use r_edit::{Source, uses_source};
use std::alloc::Global;

/// What the variables of a node carry.
pub trait Carried {
    ghost use Rattle.std.specs.Prelude.{List, length, slice_get, ◌≡◌, ◌<◌};
    ghost use Rattle.std.specs.declared.option.Option.{Option};
    ghost use Rattle.std.specs.declared.option.Option.TheVariants.{Some};
    ghost use Rattle.g_graph.specs.declared.op.Origin.{Origin};

    ghost carried: { Self → List (Option Origin) };

    fn count(&self) -> usize
        ensures { result ≡ length (carried self.now) };

    fn carries(&self, index: usize) -> Option<Origin>
        requires { index < length (carried self.now) }
        ensures { slice_get (carried self.now) index ≡ Some result };
}

/// Whether an output of the node of this number that carries something is used. It takes the time
/// of a walk through the region for each such output.
pub fn some_used<C: Carried>(region: &Region, id: u32, variables: &C) -> bool
    ensures { result ≡ some_used id region.now 0 (C.carried variables.now) }
{
    for port in 0..variables.count() {
        if is_moved(region, id, port, variables.carries(port)) {
            return true;
        }
    }
    false
}

// Whether an output carries something and is used.
fn is_moved(region: &Region, id: u32, port: usize, carried: Option<Origin>) -> bool
    ensures { result ≡ (is_some carried && is_used (Out id port) region.now) }
{
    carried.is_some() && uses_source(region, Source::Out { node: id, port })
}

/// What each of them carries, as a list.
pub fn list_of<C: Carried>(alloc: Global, variables: &C) -> Result<Vec<Option<Origin>>, NoMemory>
    ensures { IfOk result (λ list. list.items ≡ C.carried variables.now) }
{
    let mut list = Vec::new(alloc);
    for i in 0..variables.count() {
        list.push(variables.carries(i))?;
    }
    Ok(list)
}

/// Which of them carry nothing.
pub fn staying(alloc: Global, carried: &[Option<Origin>]) -> Result<Vec<bool>, NoMemory>
    ensures { IfOk result (λ list. list.items ≡ staying carried.now) }
{
    let mut list = Vec::new(alloc);
    for origin in carried {
        list.push(origin.is_none())?;
    }
    Ok(list)
}
