//! The lines of ops without regions, and the branches of a choice.

ghost use Rattle.std.specs.Prelude.{◌≡◌, ◌+◌, ◌<◌, ◌^◌, [], ◌∷◌, ◌++◌, map, OnOk, IfOk};
ghost use Rattle.std.specs.declared.option.Option.TheVariants.{Some};
ghost use Rattle.g_graph.specs.Signatures.{op_outputs};
ghost use Rattle.s_linear.specs.Lines.{done};
ghost use Rattle.s_sequence.specs.Sequence.{value_args, op_instr};
ghost use Rattle.s_sequence.specs.Ports.{ports_from};
ghost use Rattle.s_sequence.specs.Scope.{name_in};
ghost use Rattle.s_sequence.specs.Writer.{with_lines};
ghost use Rattle.s_sequence.specs.Written.{branch_lines};

use crate::ops::instr;
use crate::ports::{Ports, ports_of};
use crate::scope::Scope;
use crate::writer::Writer;
use base::NoMemory;
use g_graph::{Op, Origin, op_outputs};
use s_linear::Line;
use std::alloc::Global;

#[tactic(auto, using(crate::proofs::PortLemmas::ports_end))]
/// Writes the instruction of an op without regions, and gives its outputs.
pub fn write_plain(
    alloc: Global,
    w: &mut Writer,
    scope: &Scope,
    op: Op,
    inputs: &[Origin],
) -> Result<Ports, NoMemory>
    requires { w.old.next + value_args (op_outputs op) + 1 < 2 ^ 32 }
    ensures lines { OnOk result (w.new.lines ≡ w.old.lines
        ++ done (op_instr op w.old.next (map (name_in scope.now) inputs.now)) ∷ []) }
    ensures next { OnOk result (w.new.next ≡ w.old.next + value_args (op_outputs op)) }
    ensures label { OnOk result (w.new.label ≡ w.old.label) }
    ensures outputs { IfOk result (λ outputs. outputs
        ≡ ports_from w.old.next (map Some (op_outputs op))) }
{
    let instr = instr(alloc, op, w.next, scope, inputs)?;
    w.push(Line::Done { instr })?;
    let outputs = ports_of(alloc, op_outputs(op), w.next)?;
    w.next = outputs.end;
    Ok(outputs)
}

/// Writes branches on so many numbers from 0 on, to as many labels from `first` on.
pub fn write_branches(
    w: &mut Writer,
    predicate: u32,
    first: u32,
    count: u32,
) -> Result<(), NoMemory>
    requires { first + count < 2 ^ 32 }
    ensures { OnOk result (w.new ≡ with_lines w.old (branch_lines predicate 0 first count)) }
{
    for number in 0..count {
        w.push(Line::BranchEqual {
            predicate,
            number,
            label: first + number,
        })?;
    }
    Ok(())
}
