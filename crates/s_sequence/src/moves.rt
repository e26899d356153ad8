//! Moves between names, as regions are entered and left.

ghost use Rattle.std.specs.Prelude.{◌≡◌, ◌+◌, ◌<◌, ◌^◌, map, OnOk, IfOk};
ghost use Rattle.std.specs.declared.option.Option.TheVariants.{Some};
ghost use Rattle.s_linear.specs.Lines.{done};
ghost use Rattle.val_core.specs.Numbers.{numbers_from};
ghost use Rattle.s_sequence.specs.Sequence.{values_in, value_args, kept, moves};
ghost use Rattle.s_sequence.specs.Ports.{name_after, port_added, ports_from};
ghost use Rattle.s_sequence.specs.Scope.{name_in, kind_in};
ghost use Rattle.s_sequence.specs.Writer.{with_lines};
ghost use Rattle.s_sequence.specs.Instructions.{exit_lines};

use crate::ports::{Port, Ports};
use crate::scope::Scope;
use crate::writer::Writer;
use base::NoMemory;
use g_graph::{Kind, Origin};
use std::alloc::Global;

#[tactic(auto, using(crate::proofs::MoveLemmas::kept_none))]
/// Writes moves from those of the sources that are values by these kinds, to the names from `first`
/// on.
pub fn write_moves(
    w: &mut Writer,
    kinds: &[Kind],
    sources: &[u32],
    first: u32,
) -> Result<(), NoMemory>
    requires { first + value_args kinds.now + 1 < 2 ^ 32 }
    ensures { OnOk result (w.new ≡ with_lines w.old
        (map done (moves first (kept (map Some kinds.now) sources.now)))) }
{
    let mut target = first;
    for (i, kind) in kinds.iter().enumerate() {
        if i < sources.len() {
            target = write_entry(w, *kind, target, sources[i])?;
        }
    }
    Ok(())
}

// Writes a move from a value, and gives the name after it.
fn write_entry(w: &mut Writer, kind: Kind, target: u32, source: u32) -> Result<u32, NoMemory>
    requires { target + 1 < 2 ^ 32 }
    ensures lines { OnOk result (w.new
        ≡ with_lines w.old (exit_lines (Some kind) target source)) }
    ensures next { IfOk result (λ next. next ≡ name_after (Some kind) target) }
{
    match kind {
        Kind::Value => {
            w.push_move(target, source)?;
            Ok(target + 1)
        }
        _ => Ok(target),
    }
}

/// Writes moves from the results of a region to outputs whose names begin at `first`, and gives the
/// outputs.
pub fn write_exits(
    alloc: Global,
    w: &mut Writer,
    scope: &Scope,
    results: &[Origin],
    first: u32,
) -> Result<Ports, NoMemory>
    requires { first + values_in (map (kind_in scope.now) results.now) + 1 < 2 ^ 32 }
    ensures lines { OnOk result (w.new ≡ with_lines w.old (map done (moves first
        (kept (map (kind_in scope.now) results.now) (map (name_in scope.now) results.now))))) }
    ensures outputs { IfOk result (λ outputs. outputs
        ≡ ports_from first (map (kind_in scope.now) results.now)) }
{
    let mut outputs = Ports::new(alloc, first);
    for result in results {
        write_exit(w, &mut outputs, scope.port(*result))?;
    }
    Ok(outputs)
}

fn write_exit(w: &mut Writer, outputs: &mut Ports, port: Port) -> Result<(), NoMemory>
    requires { outputs.old.end + 1 < 2 ^ 32 }
    ensures lines { OnOk result (w.new
        ≡ with_lines w.old (exit_lines port.kind outputs.old.end port.name)) }
    ensures outputs { OnOk result (outputs.new ≡ port_added outputs.old port.kind) }
{
    if let Some(Kind::Value) = port.kind {
        w.push_move(outputs.end, port.name)?;
    }
    outputs.push(port.kind)
}

/// Writes moves from so many names from `source` on to those from `target` on.
pub fn write_back(w: &mut Writer, target: u32, source: u32, count: u32) -> Result<(), NoMemory>
    requires target { target + count < 2 ^ 32 }
    requires source { source + count < 2 ^ 32 }
    ensures { OnOk result (w.new
        ≡ with_lines w.old (map done (moves target (numbers_from source count)))) }
{
    for i in 0..count {
        w.push_move(target + i, source + i)?;
    }
    Ok(())
}

/// So many numbers from 0 on.
pub fn numbers(alloc: Global, count: u32) -> Result<Vec<u32>, NoMemory>
    ensures { IfOk result (λ numbers. numbers.items ≡ numbers_from 0 count) }
{
    let mut numbers = Vec::with_capacity(alloc, count as usize)?;
    for i in 0..count {
        numbers.push(i)?;
    }
    Ok(numbers)
}
