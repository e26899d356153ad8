//! The watcher that counts functions, steps and values.

ghost use Rattle.std.specs.Prelude.{◌≡◌, ◌++◌, ◌+◌, ◌%◌, ◌^◌, ◌==◌, OnOk, OnErr, slice_index, if◌then◌else◌};
ghost use Rattle.r_rule.specs.declared.steps.Rule.{Rule};
ghost use Rattle.r_rule.specs.Names.{all_rules, rule_place};
ghost use Rattle.cc_watch.specs.Texts.{counts_text, functions_text, rule_text, rules_text, steps_of, values_text, Extends};

use crate::text::{push_bytes, push_number};
use crate::{Row, Watcher};
use base::NoMemory;
use r_rule::{Rule, Step, all_rules, rule_name, rule_place};

/// A watcher that counts: functions, the steps of each rule, and values before and after, each
/// modulo 2^32. Its name is `count`, and its text is one line.
#[derive(Clone, Copy, Debug)]
pub struct Counter {
    functions: u32,
    applied: [u32; 9],
    before: u32,
    after: u32,
}

impl Counter {
    ghost use Rattle.std.specs.Prelude.{[]};
    ghost use Rattle.cc_watch.specs.Counts.{HasSums};

    /// A counter of no rows.
    pub fn new() -> Counter
        ensures { HasSums result [] }
    {
        Counter {
            functions: 0,
            applied: [0; 9],
            before: 0,
            after: 0,
        }
    }
}

fn count_step(applied: &mut [u32; 9], rule: Rule)
    ensures { (k : Rule) → slice_index applied.new (rule_place k) ≡
        (slice_index applied.old (rule_place k)
        + (if rule_place rule == rule_place k then 1 else 0)) % 2 ^ 32 }
{
    let place = rule_place(rule);
    applied[place] = applied[place].wrapping_add(1);
}

fn count_steps(applied: &mut [u32; 9], steps: &[Step])
    ensures { (k : Rule) → slice_index applied.new (rule_place k) ≡
        (slice_index applied.old (rule_place k) + steps_of k steps.now) % 2 ^ 32 }
{
    for step in steps {
        count_step(applied, step.rule);
    }
}

fn push_rule(out: &mut Vec<u8>, applied: &[u32; 9], rule: Rule) -> Result<(), NoMemory>
    ensures ok { OnOk result (out.new.items ≡
        out.old.items ++ rule_text (λ k. slice_index applied.now (rule_place k)) rule) }
    ensures err { OnErr result (Extends out.old.items out.new.items) }
{
    push_bytes(out, b" ")?;
    push_bytes(out, rule_name(rule).as_bytes())?;
    push_number(out, applied[rule_place(rule)])
}

fn push_rules(out: &mut Vec<u8>, applied: &[u32; 9]) -> Result<(), NoMemory>
    ensures ok { OnOk result (out.new.items ≡
        out.old.items ++ rules_text (λ k. slice_index applied.now (rule_place k))) }
    ensures err { OnErr result (Extends out.old.items out.new.items) }
{
    for rule in &all_rules() {
        push_rule(out, applied, *rule)?;
    }
    Ok(())
}

fn push_values(out: &mut Vec<u8>, before: u32, after: u32) -> Result<(), NoMemory>
    ensures ok { OnOk result (out.new.items ≡ out.old.items ++ values_text before after) }
    ensures err { OnErr result (Extends out.old.items out.new.items) }
{
    push_bytes(out, b" before")?;
    push_number(out, before)?;
    push_bytes(out, b" after")?;
    push_number(out, after)?;
    push_bytes(out, b"\n")
}

fn push_functions(out: &mut Vec<u8>, functions: u32) -> Result<(), NoMemory>
    ensures ok { OnOk result (out.new.items ≡ out.old.items ++ functions_text functions) }
    ensures err { OnErr result (Extends out.old.items out.new.items) }
{
    push_bytes(out, b"functions")?;
    push_number(out, functions)
}

fn push_counts(out: &mut Vec<u8>, counter: &Counter) -> Result<(), NoMemory>
    ensures ok { OnOk result (out.new.items ≡ out.old.items ++
        counts_text counter.now.functions (λ k. slice_index counter.now.applied (rule_place k))
        counter.now.before counter.now.after) }
    ensures err { OnErr result (Extends out.old.items out.new.items) }
{
    push_functions(out, counter.functions)?;
    push_rules(out, &counter.applied)?;
    push_values(out, counter.before, counter.after)
}

impl Watcher for Counter {
    ghost use Rattle.std.specs.Prelude.{codes, IsOk, List, ◌∷◌, []};
    ghost use Rattle.cc_watch.specs.Rows.{PlainRow};
    ghost use Rattle.cc_watch.specs.Counts.{HasSums};
    ghost use Rattle.cc_watch.specs.Texts.{count_text};

    ghost named = { λ _. codes "count" };

    ghost stands_for = { λ counter rows. HasSums counter rows };

    ghost text_of = { λ _ rows. count_text rows };

    fn name(&self) -> &str {
        "count"
    }

    /// It answers Ok always.
    fn tell(&mut self, row: &Row) -> Result<(), NoMemory>
        ensures always { IsOk result }
        ensures rows { (rows : List PlainRow) → HasSums self.old rows →
            HasSums self.new (rows ++ row.now ∷ []) }
    {
        self.functions = self.functions.wrapping_add(1);
        self.before = self.before.wrapping_add(row.before);
        self.after = self.after.wrapping_add(row.after);
        count_steps(&mut self.applied, row.steps.as_slice());
        Ok(())
    }

    fn text(&self, out: &mut Vec<u8>) -> Result<(), NoMemory> {
        let length = out.len();
        let pushed = push_counts(out, self);
        if pushed.is_err() {
            out.truncate(length);
        }
        pushed
    }
}
