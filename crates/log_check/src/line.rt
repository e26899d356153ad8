//! The line that a text begins with.

ghost use Rattle.std.specs.Prelude.{◌≡◌, ◌≢◌, ◌++◌, ℕ, List, IfSome, IfNone};
ghost use Rattle.r_rule.specs.declared.steps.Step.{Step};
ghost use Rattle.cc_watch.specs.Rows.{PlainRow};
ghost use Rattle.cc_watch.specs.Texts.{head_text, step_text};
ghost use Rattle.log_check.specs.Log.{IsHead, IsStep};
ghost use Rattle.log_check.specs.Lines.{head_row};

use crate::pieces::split_at_first;
use crate::row::{Head, read_head, read_step};
use r_rule::Step;

/// The function line that the text begins with, and what follows it.
#[tactic(auto, using(crate::proofs::LineEnds::begins_with_head, crate::proofs::LineEnds::no_head_end, crate::proofs::LineEnds::no_head_line))]
pub fn first_head(text: &[u8]) -> Option<(Head<'_>, &[u8])>
    ensures some { IfSome result (λ first. text.now ≡
        head_text (head_row first.0.name.now first.0.before first.0.after) ++ first.1.now) }
    ensures fine { IfSome result (λ first.
        IsHead (head_row first.0.name.now first.0.before first.0.after)) }
    ensures none { IfNone result ((r : PlainRow) (after : List ℕ) → IsHead r →
        text.now ≢ head_text r ++ after) }
{
    let (line, rest) = split_at_first(b'\n', text)?;
    let head = read_head(line)?;
    Some((head, rest))
}

/// The step line that the text begins with, and what follows it.
#[tactic(auto, using(crate::proofs::LineEnds::begins_with_step, crate::proofs::LineEnds::no_step_end, crate::proofs::LineEnds::no_step_line))]
pub fn first_step(text: &[u8]) -> Option<(Step, &[u8])>
    ensures some { IfSome result (λ first. text.now ≡ step_text first.0 ++ first.1.now) }
    ensures fine { IfSome result (λ first. IsStep first.0) }
    ensures none { IfNone result ((s : Step) (after : List ℕ) → IsStep s →
        text.now ≢ step_text s ++ after) }
{
    let (line, rest) = split_at_first(b'\n', text)?;
    let step = read_step(line)?;
    Some((step, rest))
}
