//! The plan for a node, and that of one without regions.

ghost use Rattle.std.specs.Prelude.{◌≡◌, option_map};
ghost use Rattle.g_graph.specs.Plain.{nodes_of};
ghost use Rattle.val_core.specs.Words.{word1};
ghost use Rattle.r_fold.specs.Rule.{is_word, left_neutral, right_neutral, word, bin_folded};
ghost use Rattle.r_fold.specs.Plan.{planned, bin_case, un_case, plain_case};

use g_graph::{Node, Op, Origin, Region, constant};
use val_core::{Op1, Op2, op1, op2};

/// What comes instead of a node.
#[derive(Drop)]
pub enum Plan {
    /// A constant.
    Word(u32),
    /// Another origin, for its uses.
    Input(Origin),
    /// The nodes and results of a region, whose arguments are origins of the node's region already.
    Replacement(Region),
}

/// The plan for a node without regions; none where the rule does not fold it.
pub fn plain_plan(nodes: &[Node], node: &Node) -> Option<Plan>
    ensures { result ≡ option_map planned (plain_case (nodes_of nodes.now) node.now) }
{
    match node.op {
        Op::Bin(op) => bin_plan(nodes, op, node.inputs.as_slice()),
        Op::Un(op) => un_plan(nodes, op, node.inputs.as_slice()),
        _ => None,
    }
}

fn bin_plan(nodes: &[Node], op: Op2, inputs: &[Origin]) -> Option<Plan>
    ensures { result ≡ option_map planned (bin_case (nodes_of nodes.now) op inputs.now) }
{
    match inputs {
        [a, b] => operands_plan(op, *a, *b, constant(nodes, *a), constant(nodes, *b)),
        _ => None,
    }
}

fn un_plan(nodes: &[Node], op: Op1, inputs: &[Origin]) -> Option<Plan>
    ensures { result ≡ option_map planned (un_case (nodes_of nodes.now) op inputs.now) }
{
    match inputs {
        [a] => operand_plan(op, constant(nodes, *a)),
        _ => None,
    }
}

/// The plan for an operation on an operand, of which this word is known.
pub fn operand_plan(op: Op1, known: Option<u32>) -> Option<Plan>
    ensures { result ≡ option_map planned (option_map (λ u. word (word1 op u)) known) }
{
    match known {
        Some(word) => Some(Plan::Word(op1(op, word))),
        None => None,
    }
}

/// The plan for an operation on these operands, of which these words are known.
pub fn operands_plan(
    op: Op2,
    a: Origin,
    b: Origin,
    left: Option<u32>,
    right: Option<u32>,
) -> Option<Plan>
    ensures { result ≡ option_map planned (bin_folded op a b left right) }
{
    match (left, right) {
        (Some(left), Some(right)) => Some(Plan::Word(op2(op, left, right))),
        _ => {
            if is_word(left_neutral(op), left) {
                Some(Plan::Input(b))
            } else if is_word(right_neutral(op), right) {
                Some(Plan::Input(a))
            } else {
                None
            }
        }
    }
}

// The word with which, on the left, an operation gives its right operand.
fn left_neutral(op: Op2) -> Option<u32>
    ensures { result ≡ left_neutral op }
{
    match op {
        Op2::Add | Op2::Or | Op2::Xor => Some(0),
        Op2::Mul => Some(1),
        _ => None,
    }
}

// The word with which, on the right, an operation gives its left operand.
fn right_neutral(op: Op2) -> Option<u32>
    ensures { result ≡ right_neutral op }
{
    match op {
        Op2::Sub | Op2::Sll | Op2::Srl | Op2::Sra => Some(0),
        _ => left_neutral(op),
    }
}

/// Whether both are the same word.
pub fn is_word(wanted: Option<u32>, found: Option<u32>) -> bool
    ensures { result ≡ is_word wanted found }
{
    match (wanted, found) {
        (Some(wanted), Some(found)) => wanted == found,
        _ => false,
    }
}
