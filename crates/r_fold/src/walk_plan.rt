//! The plan for a node without regions, by the words of the constants that were written.

ghost use Rattle.std.specs.Prelude.{◌≡◌, ℕ, option_map};
ghost use Rattle.g_graph.specs.Plain.{NodeTrees, node, RegionTrees};
ghost use Rattle.r_fold.specs.Plan.{planned, bin_case, un_case, plain_case};
ghost use Rattle.r_walk.specs.Around.{AreWords};

use crate::{Plan, operand_plan, operands_plan};
use g_graph::{Op, Origin};
use r_walk::Words;
use val_core::{Op1, Op2};

/// The plan for a node without regions; none where the rule does not fold it.
pub fn plain_plan(words: &Words, op: Op, inputs: &[Origin]) -> Option<Plan>
    ensures { (before : NodeTrees) (id : ℕ) (rs : RegionTrees) → AreWords words.now before →
        result ≡ option_map planned (plain_case before (node id op inputs.now rs)) }
{
    match op {
        Op::Bin(op) => bin_plan(words, op, inputs),
        Op::Un(op) => un_plan(words, op, inputs),
        _ => None,
    }
}

fn bin_plan(words: &Words, op: Op2, inputs: &[Origin]) -> Option<Plan>
    ensures { (before : NodeTrees) → AreWords words.now before →
        result ≡ option_map planned (bin_case before op inputs.now) }
{
    match inputs {
        [a, b] => operands_plan(op, *a, *b, words.constant(*a), words.constant(*b)),
        _ => None,
    }
}

fn un_plan(words: &Words, op: Op1, inputs: &[Origin]) -> Option<Plan>
    ensures { (before : NodeTrees) → AreWords words.now before →
        result ≡ option_map planned (un_case before op inputs.now) }
{
    match inputs {
        [a] => operand_plan(op, words.constant(*a)),
        _ => None,
    }
}
