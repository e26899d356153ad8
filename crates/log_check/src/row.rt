//! What a line says, without the byte 10 that ends it.

ghost use Rattle.std.specs.Prelude.{◌≡◌, ◌≢◌, ◌<◌, ◌≤◌, ◌^◌, ℕ, true, false, length, IfSome, IfNone};
ghost use Rattle.std.specs.List.{list_all};
ghost use Rattle.base.specs.Limits.{most_name_bytes};
ghost use Rattle.c_lex.specs.Classes as class;
ghost use Rattle.c_lex.specs.Grammar.{IsIdentifier};
ghost use Rattle.r_rule.specs.Names.{rule_name};
ghost use Rattle.r_rule.specs.declared.steps.Rule.{Rule};
ghost use Rattle.r_rule.specs.declared.steps.Step.{Step};
ghost use Rattle.cc_watch.specs.Rows.{PlainRow};
ghost use Rattle.log_check.specs.Log.{IsHead, IsStep};
ghost use Rattle.log_check.specs.Lines.{head_line, head_row, step_line};
ghost use Rattle.log_check.specs.Pieces.{named_text, pair_text};

use crate::number::number;
use crate::pieces::split_at_first;
use base::MOST_NAME_BYTES;
use r_rule::{Rule, Step, all_rules, rule_name};

/// What a function line says.
#[derive(Clone, Copy)]
pub struct Head<'a> {
    pub name: &'a [u8],
    pub before: u32,
    pub after: u32,
}

fn is_letter(b: u8) -> bool
    ensures { result ≡ class.is_letter b }
{
    (b >= b'a' && b <= b'z') || (b >= b'A' && b <= b'Z') || b == b'_'
}

fn is_name_byte(b: u8) -> bool
    ensures { result ≡ class.is_name_byte b }
{
    is_letter(b) || (b >= b'0' && b <= b'9')
}

fn are_name_bytes(bytes: &[u8]) -> bool
    ensures { result ≡ list_all class.is_name_byte bytes.now }
{
    bytes.iter().all(|b| is_name_byte(*b))
}

// Whether the bytes are a name of the language, of at most `MOST_NAME_BYTES` bytes.
fn is_name(bytes: &[u8]) -> bool
    ensures yes { result ≡ true →
        IsIdentifier bytes.now × (length bytes.now ≤ most_name_bytes) }
    ensures no { result ≡ false → IsIdentifier bytes.now →
        length bytes.now ≤ most_name_bytes → ⊥ }
{
    match bytes {
        [] => false,
        [first, rest @ ..] => {
            is_letter(*first) && are_name_bytes(rest) && bytes.len() <= MOST_NAME_BYTES
        }
    }
}

// Two numbers with a blank between them.
#[tactic(auto, using(crate::proofs::Words::no_pair_split, crate::proofs::Words::no_pair_first, crate::proofs::Words::no_pair_second))]
fn read_pair(text: &[u8]) -> Option<(u32, u32)>
    ensures some { IfSome result (λ pair. text.now ≡ pair_text pair.0 pair.1) }
    ensures small { IfSome result (λ pair. (pair.0 < 2 ^ 32) × (pair.1 < 2 ^ 32)) }
    ensures none { IfNone result ((before after : ℕ) → before < 2 ^ 32 → after < 2 ^ 32 →
        text.now ≢ pair_text before after) }
{
    let (first, second) = split_at_first(b' ', text)?;
    let before = number(first)?;
    let after = number(second)?;
    Some((before, after))
}

// A name and two numbers, with a blank between them.
#[tactic(auto, using(crate::proofs::Words::no_name_split, crate::proofs::Words::no_name_first, crate::proofs::Words::no_name_second))]
fn read_named(text: &[u8]) -> Option<Head<'_>>
    ensures some { IfSome result (λ head. text.now ≡
        named_text head.name.now head.before head.after) }
    ensures fine { IfSome result (λ head. IsHead (head_row head.name.now head.before head.after)) }
    ensures none { IfNone result ((r : PlainRow) → IsHead r →
        text.now ≢ named_text r.name r.before r.after) }
{
    let (name, numbers) = split_at_first(b' ', text)?;
    let (before, after) = read_pair(numbers)?;
    if is_name(name) {
        Some(Head {
            name,
            before,
            after,
        })
    } else {
        None
    }
}

/// What a function line says.
#[tactic(auto, using(crate::proofs::Words::no_head_split, crate::proofs::Words::no_head_word, crate::proofs::Words::no_head_rest, crate::proofs::Words::is_head))]
pub fn read_head(line: &[u8]) -> Option<Head<'_>>
    ensures some { IfSome result (λ head. line.now ≡
        head_line (head_row head.name.now head.before head.after)) }
    ensures fine { IfSome result (λ head. IsHead (head_row head.name.now head.before head.after)) }
    ensures none { IfNone result ((r : PlainRow) → IsHead r → line.now ≢ head_line r) }
{
    let (word, rest) = split_at_first(b' ', line)?;
    if word == b"function".as_slice() {
        read_named(rest)
    } else {
        None
    }
}

// The rule with this name.
fn rule_named(name: &[u8]) -> Option<Rule>
    ensures some { IfSome result (λ rule. name.now ≡ rule_name rule) }
    ensures none { IfNone result ((k : Rule) → name.now ≢ rule_name k) }
{
    for rule in &all_rules() {
        if rule_name(*rule).as_bytes() == name {
            return Some(*rule);
        }
    }
    None
}

/// What a step line says.
#[tactic(auto, using(crate::proofs::Words::no_step_split, crate::proofs::Words::no_step_rule, crate::proofs::Words::no_step_node))]
pub fn read_step(line: &[u8]) -> Option<Step>
    ensures some { IfSome result (λ step. line.now ≡ step_line step) }
    ensures fine { IfSome result (λ step. IsStep step) }
    ensures none { IfNone result ((s : Step) → IsStep s → line.now ≢ step_line s) }
{
    let (rule, node) = split_at_first(b' ', line)?;
    let rule = rule_named(rule)?;
    let node = number(node)?;
    Some(Step { rule, node })
}
