//! The lines at the end of a loop.

ghost use Rattle.std.specs.Prelude.{◌≡◌, ◌+◌, ◌<◌, ◌^◌, [], ◌∷◌, ◌++◌, map, OnOk, IfOk};
ghost use Rattle.std.specs.declared.option.Option.TheVariants.{Some};
ghost use Rattle.s_linear.specs.Lines.{done, branch_zero, jump, label};
ghost use Rattle.val_core.specs.Numbers.{numbers_from};
ghost use Rattle.s_sequence.specs.Sequence.{value_args, moves, loop_results, predicate_name};
ghost use Rattle.s_sequence.specs.Ports.{ports_from};
ghost use Rattle.s_sequence.specs.Writer.{with_lines};

use crate::moves::{write_back, write_moves};
use crate::ports::{Ports, ports_of};
use crate::writer::Writer;
use base::NoMemory;
use g_graph::Kind;
use s_linear::Line;
use std::alloc::Global;

#[tactic(auto, using(crate::proofs::PortLemmas::ports_end, crate::proofs::PortLemmas::ports_first))]
/// Writes the end of a loop, whose label is `first`: moves from its results to its outputs, the
/// branch past its end where the predicate is 0, moves back to its arguments, whose names begin at
/// `base`, and the jump to its label.
pub fn write_turn(
    alloc: Global,
    w: &mut Writer,
    args: &[Kind],
    results: &[u32],
    base: u32,
    first: u32,
) -> Result<Ports, NoMemory>
    requires names { w.old.next + value_args args.now + 1 < 2 ^ 32 }
    requires back { base + value_args args.now < 2 ^ 32 }
    requires labels { first + 1 < 2 ^ 32 }
    ensures lines { OnOk result (let outputs = w.old.next in
        w.new.lines ≡ w.old.lines
        ++ map done (moves outputs (loop_results args.now results.now))
        ++ branch_zero (predicate_name results.now) (first + 1)
        ∷ map done (moves base (numbers_from outputs (value_args args.now)))
        ++ jump first ∷ label (first + 1) ∷ []) }
    ensures next { OnOk result (w.new.next ≡ w.old.next + value_args args.now) }
    ensures label { OnOk result (w.new.label ≡ w.old.label) }
    ensures outputs { IfOk result (λ outputs. outputs
        ≡ ports_from w.old.next (map Some args.now)) }
{
    let outputs = ports_of(alloc, args, w.next)?;
    w.next = outputs.end;
    write_results(w, args, results, outputs.first, first + 1)?;
    write_back(w, base, outputs.first, outputs.end - outputs.first)?;
    w.push(Line::Jump { label: first })?;
    w.push(Line::Label { number: first + 1 })?;
    Ok(outputs)
}

// Writes moves from the results of a loop to its outputs, and the branch to its end.
fn write_results(
    w: &mut Writer,
    args: &[Kind],
    results: &[u32],
    outputs: u32,
    end: u32,
) -> Result<(), NoMemory>
    requires { outputs + value_args args.now + 1 < 2 ^ 32 }
    ensures { OnOk result (w.new ≡ with_lines w.old
        (map done (moves outputs (loop_results args.now results.now))
        ++ branch_zero (predicate_name results.now) end ∷ [])) }
{
    let predicate = match results.split_first() {
        Some((predicate, values)) => {
            write_moves(w, args, values, outputs)?;
            *predicate
        }
        None => 0,
    };
    w.push(Line::BranchZero {
        predicate,
        label: end,
    })
}
