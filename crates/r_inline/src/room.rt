//! Whether a lambda may take in a callee.

ghost use Rattle.std.specs.Prelude.{◌≡◌, ◌+◌, ◌-◌, ◌^◌, nat_le, if◌then◌else◌};
ghost use Rattle.std.specs.declared.option.Option.TheVariants.{Some, None};
ghost use Rattle.base.specs.Limits.{most_callee_values};
ghost use Rattle.g_graph.specs.Plain.{nodes_in};
ghost use Rattle.g_graph.specs.Count.{nodes_values};
ghost use Rattle.g_graph.specs.Program.{lambda_values};
ghost use Rattle.r_edit.specs.Numbering.{node_count};
ghost use Rattle.r_inline.specs.Rule.{may_inline};

use base::MOST_CALLEE_VALUES;
use g_graph::{Lambda, values};
use r_edit::{may_change_size, numbers_left, values_left};

/// The values of a call: the node and its three outputs.
const CALL_VALUES: u64 = 4;

/// Whether a lambda of so many values, whose next node has the number `next`, may take in the
/// callee. It takes no memory, and counts at most `MOST_CALLEE_VALUES + 1` values of the callee.
pub fn may_inline(values: u64, next: u32, callee: &Lambda) -> bool
    ensures { result ≡ may_inline values next callee.now }
{
    match values_of_nodes(callee) {
        Some(nodes) => {
            callee.objects.is_empty()
                && has_numbers(next, callee)
                && may_change_size(values, u128::from(nodes), u128::from(CALL_VALUES))
        }
        None => false,
    }
}

/// How many values the lambda has, where that decides whether it may take in the callee; else 0,
/// and the lambda is not counted.
pub fn values_that_decide(lambda: &Lambda, callee: &Lambda) -> u64
    ensures { may_inline result lambda.now.next callee.now ≡
        may_inline (lambda_values lambda.now) lambda.now.next callee.now }
{
    match values_of_nodes(callee) {
        Some(nodes) => {
            if nodes > CALL_VALUES {
                values(lambda)
            } else {
                0
            }
        }
        None => 0,
    }
}

// How many values the callee's nodes have; none where the callee, counted whole, has more than
// `MOST_CALLEE_VALUES`.
fn values_of_nodes(callee: &Lambda) -> Option<u64>
    ensures { result ≡ (if nat_le (lambda_values callee.now) most_callee_values
        then Some (nodes_values (nodes_in callee.now.body)) else None) }
{
    let left = values_left(&callee.body, MOST_CALLEE_VALUES + 1);
    if left == 0 {
        return None;
    }
    let own = callee.body.args.len() as u64 + callee.body.results.len() as u64 + 1;
    Some(MOST_CALLEE_VALUES + 1 - left - own)
}

// Whether there is a number from `next` on for each node of the callee.
fn has_numbers(next: u32, callee: &Lambda) -> bool
    ensures { result ≡ nat_le (next + node_count callee.now.body) (2 ^ 32 - 1) }
{
    numbers_left(&callee.body, u64::from(u32::MAX) + 1 - u64::from(next)) > 0
}
