//! The linear code of a lambda, which is the call of the crate.

ghost use Rattle.std.specs.Prelude.{◌≡◌, ◌<◌, ◌^◌, [], map, IfOk, OnOk};
ghost use Rattle.g_graph.specs.Count.{region_values};
ghost use Rattle.g_graph.specs.WellFormed.{IsWellFormed};
ghost use Rattle.s_linear.specs.Lines.{lines};
ghost use Rattle.s_sequence.specs.Sequence.{sequenced, name_at};
ghost use Rattle.s_sequence.specs.Scope.{name_in};
ghost use Rattle.g_graph.specs.Plain.{results_of};

use crate::moves::numbers;
use crate::ops::name_at;
use crate::regions::write_nodes;
use crate::scope::Scope;
use crate::writer::Writer;
use base::NoMemory;
use g_graph::{Lambda, Region};
use s_linear::{Line, Linear};
use std::alloc::Global;

/// The linear code of a well-formed lambda of fewer than 2^32 values. Its one error is that memory
/// is out. It takes time linear in the values, but for a factor of the logarithm of the nodes of a
/// region where a node is found by its number, and memory for the lines and the names of the
/// regions that it is in.
pub fn sequence(alloc: Global, lambda: &Lambda) -> Result<Linear, NoMemory>
    requires well_formed { IsWellFormed lambda.now }
    requires few { region_values lambda.now.body < 2 ^ 32 }
    ensures { IfOk result (λ linear. linear ≡ lines (sequenced lambda.now)) }
{
    let mut w = Writer::new(alloc);
    write_lambda(alloc, &mut w, lambda)?;
    Ok(w.finished())
}

fn write_lambda(alloc: Global, w: &mut Writer, lambda: &Lambda) -> Result<(), NoMemory>
    requires well_formed { IsWellFormed lambda.now }
    requires few { region_values lambda.now.body < 2 ^ 32 }
    requires first { w.old ≡ record { lines = []; next = 0; label = 0 } }
    ensures { OnOk result (w.new.lines ≡ lines (sequenced lambda.now)) }
{
    let params = numbers(alloc, lambda.params)?;
    w.push(Line::Enter { params })?;
    let boxed = write_nodes(alloc, w, &lambda.body)?;
    let scope = boxed.as_ref();
    let value = value_of(scope, &lambda.body);
    w.push(Line::Leave { value })
}

// The name of the first result of a body.
fn value_of(scope: &Scope, body: &Region) -> u32
    ensures { result ≡ name_at (map (name_in scope.now) (results_of body.now)) 0 }
{
    name_at(scope, &body.results, 0)
}
