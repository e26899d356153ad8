//! The instructions of ops, over the names of their inputs.

ghost use Rattle.std.specs.Prelude.{◌≡◌, map, IfOk};
ghost use Rattle.s_linear.specs.Views.{instr_of};
ghost use Rattle.s_sequence.specs.Sequence.{name_at, without_states, op_instr};
ghost use Rattle.s_sequence.specs.Instructions.{instr_with};
ghost use Rattle.s_sequence.specs.Scope.{name_in};

use crate::scope::Scope;
use base::NoMemory;
use g_graph::{Op, Origin};
use s_linear::Instr;
use std::alloc::Global;

/// The instruction of an op without regions, with this target and these inputs.
pub fn instr(
    alloc: Global,
    op: Op,
    target: u32,
    scope: &Scope,
    inputs: &[Origin],
) -> Result<Instr, NoMemory>
    ensures { IfOk result (λ i. instr_of i
        ≡ op_instr op target (map (name_in scope.now) inputs.now)) }
{
    match op {
        Op::Apply(function) => {
            let arguments = arguments(alloc, scope, inputs)?;
            Ok(Instr::Call {
                function,
                target,
                arguments,
            })
        }
        _ => Ok(instr_with(
            op,
            target,
            name_at(scope, inputs, 0),
            name_at(scope, inputs, 1),
        )),
    }
}

// The instruction of an op other than Apply, with the names of its first two inputs.
fn instr_with(op: Op, target: u32, first: u32, second: u32) -> Instr
    ensures { instr_of result ≡ instr_with op target first second }
{
    match op {
        Op::Const(word) => Instr::Const { target, word },
        Op::Local(number) => Instr::ObjectAddress { target, number },
        Op::Delta(number) => Instr::GlobalAddress { target, number },
        Op::Bin(op) => Instr::Binary {
            op,
            target,
            left: first,
            right: second,
        },
        Op::Un(op) => Instr::Unary {
            op,
            target,
            input: first,
        },
        Op::Load(width) => Instr::Load {
            width,
            target,
            address: first,
        },
        Op::Store(width) => Instr::Store {
            width,
            address: first,
            value: second,
        },
        Op::Clear(number) => Instr::Clear { number },
        Op::PtrEq => Instr::EqualPointers {
            target,
            left: first,
            right: second,
        },
        Op::Put => Instr::Put { byte: first },
        Op::Get => Instr::Get { target },
        Op::Exit => Instr::Exit { status: first },
        Op::Undef | Op::Apply(_) | Op::Gamma | Op::Theta => Instr::Undef { target },
    }
}

/// The name of the input of this index, or 0.
pub fn name_at(scope: &Scope, inputs: &[Origin], index: usize) -> u32
    ensures { result ≡ name_at (map (name_in scope.now) inputs.now) index }
{
    match inputs.get(index) {
        Some(origin) => scope.port(*origin).name,
        None => 0,
    }
}

#[tactic(auto, using(crate::proofs::MoveLemmas::without_last))]
// The names of all inputs but the last two: the arguments of a call, without its states.
fn arguments(alloc: Global, scope: &Scope, inputs: &[Origin]) -> Result<Vec<u32>, NoMemory>
    ensures { IfOk result (λ names. names.items
        ≡ without_states (map (name_in scope.now) inputs.now)) }
{
    let count = inputs.len().saturating_sub(2);
    scope.names(alloc, &inputs[..count])
}
