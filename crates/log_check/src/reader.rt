//! How a log is read.

ghost use Rattle.std.specs.Prelude.{◌≡◌, ◌≢◌, ◌≤◌, ◌++◌, ℕ, List, length, flat_map, IfOk, IfErr};
ghost use Rattle.std.specs.List.{AllByRecursion};
ghost use Rattle.r_rule.specs.declared.steps.Step.{Step};
ghost use Rattle.cc_watch.specs.Texts.{row_text, step_text};
ghost use Rattle.log_check.specs.Log.{most_log_bytes, parts_of, row_of_part, rows_of, IsLogOf, IsRow, IsStep};
ghost use Rattle.log_check.specs.Reading.{IsReadFault, PartFails};

use crate::fault::ReadFault;
use crate::line::{first_head, first_step};
use crate::log::{Log, LogPart};
use crate::row::Head;
use base::{Name, NoMemory};
use r_rule::Step;
use std::alloc::Global;

/// How many bytes a log has at most.
const MOST_LOG_BYTES: usize = 2_147_483_648;

// The step lines that the text begins with, as many as there are, and what follows them.
#[tactic(auto, using(crate::proofs::ReadSoFar::steps_more, crate::proofs::ReadSoFar::steps_fine, crate::proofs::ReadSoFar::shorter))]
fn read_steps(alloc: Global, text: &[u8]) -> Result<(Vec<Step>, &[u8]), NoMemory>
    ensures some { IfOk result (λ read.
        text.now ≡ flat_map step_text read.0.items ++ read.1.now) }
    ensures fine { IfOk result (λ read. AllByRecursion IsStep read.0.items) }
    ensures all { IfOk result (λ read. (s : Step) (after : List ℕ) → IsStep s →
        read.1.now ≢ step_text s ++ after) }
{
    let mut steps = Vec::new(alloc);
    let mut rest = text;
    while let Some((step, after)) = first_step(rest) {
        steps.push(step)?;
        rest = after;
    }
    Ok((steps, rest))
}

// What a function line with this number and the steps after it say.
fn new_part(alloc: Global, line: u32, head: Head<'_>, steps: Vec<Step>) -> Result<LogPart, NoMemory>
    ensures { IfOk result (λ part. part ≡ record {
      name = head.entry.name.now;
      line = line;
      before = head.entry.before;
      after = head.entry.after;
      steps = steps.items;
    }) }
{
    let name = Name::from_slice(alloc, head.name)?;
    Ok(LogPart {
        name,
        line,
        before: head.before,
        after: head.after,
        steps,
    })
}

// What a text says of the function that it begins with, whose line has this number, and what
// follows.
#[tactic(auto, using(crate::proofs::ReadSoFar::row_is, crate::proofs::ReadSoFar::begins_with_row))]
fn read_part(alloc: Global, line: u32, text: &[u8]) -> Result<(LogPart, &[u8]), ReadFault>
    ensures some { IfOk result (λ read. text.now ≡ row_text (row_of_part read.0) ++ read.1.now) }
    ensures fine { IfOk result (λ read. IsRow (row_of_part read.0)) }
    ensures line { IfOk result (λ read. read.0.line ≡ line) }
    ensures all { IfOk result (λ read. (s : Step) (after : List ℕ) → IsStep s →
        read.1.now ≢ step_text s ++ after) }
    ensures err { IfErr result (λ e. PartFails e line text.now) }
{
    let Some((head, rest)) = first_head(text) else {
        return Err(ReadFault::BadLine { line });
    };
    let (steps, rest) = read_steps(alloc, rest)?;
    let part = new_part(alloc, line, head, steps)?;
    Ok((part, rest))
}

/// The log that these bytes are. `LongLog` exactly where there are more than 2^31 of them, and else
/// `BadLine` exactly where they are no log, with the first line that is none of a log's.
#[tactic(auto, using(crate::proofs::ReadSoFar::begins_read, crate::proofs::ReadSoFar::reads_more, crate::proofs::ReadSoFar::all_read, crate::proofs::ReadSoFar::read_breaks, crate::proofs::ReadSoFar::lines_fit, crate::proofs::ReadSoFar::left_shorter))]
pub fn read_log(alloc: Global, bytes: &[u8]) -> Result<Log, ReadFault>
    ensures read { IfOk result (λ log. IsLogOf (rows_of log) bytes.now) }
    ensures lines { IfOk result (λ log. log ≡ parts_of (rows_of log)) }
    ensures short { IfOk result (λ log. length bytes.now ≤ most_log_bytes) }
    ensures fault { IfErr result (λ e. IsReadFault e bytes.now) }
{
    if bytes.len() > MOST_LOG_BYTES {
        return Err(ReadFault::LongLog);
    }
    let mut log = Log::new(alloc);
    let mut line = 1;
    let mut rest = bytes;
    while !rest.is_empty() {
        let (part, after) = read_part(alloc, line, rest)?;
        line += 1 + part.steps.len() as u32;
        log.push(part)?;
        rest = after;
    }
    Ok(log)
}
