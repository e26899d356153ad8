//! The callee that comes in the place of a call.

ghost use Rattle.std.specs.Prelude.{◌≡◌, map, option_copied, IfSome, IsTrue};
ghost use Rattle.std.specs.Arc.{arc_value};
ghost use Rattle.g_graph.specs.WellFormed.{IsWellFormed};
ghost use Rattle.g_pass_def.specs.Answers.{lambdas_of};
ghost use Rattle.r_inline.specs.Rule as inline_rule;
ghost use Rattle.r_inline.specs.Callees.{numbered, inlined_at};

use g_graph::Lambda;
use r_rule::Optimised;
use std::sync::Arc;

/// What the function that the node of this number calls was made into, where inlining applies
/// there; none where the node is no call, or its function is not among the callees.
#[tactic(auto, using(crate::proofs::Inlined::not_called, crate::proofs::Inlined::not_there, crate::proofs::Inlined::not_applied, crate::proofs::Inlined::is_applied))]
pub fn inlined_at<'a>(
    lambda: &Lambda,
    node: u32,
    callees: &'a [Arc<Optimised>],
) -> Option<&'a Lambda>
    ensures callee { option_copied result ≡
        inlined_at (lambdas_of (map arc_value callees.now)) node lambda.now }
    ensures well_formed { IfSome result (λ callee. IsWellFormed callee.now) }
    ensures applies { IfSome result (λ callee.
        IsTrue (inline_rule.applies lambda.now node callee.now)) }
{
    let callee = numbered(callees, r_inline::called_at(lambda, node)?)?;
    if r_inline::applies(lambda, node, callee) {
        Some(callee)
    } else {
        None
    }
}

// The first of the callees that has the number.
fn numbered(callees: &[Arc<Optimised>], function: u32) -> Option<&Lambda>
    ensures callee { option_copied result ≡
        numbered function (lambdas_of (map arc_value callees.now)) }
    ensures well_formed { IfSome result (λ callee. IsWellFormed callee.now) }
{
    for callee in callees {
        if callee.lambda.number == function {
            return Some(&callee.lambda);
        }
    }
    None
}
