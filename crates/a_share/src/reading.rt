//! What instructions and lines write and read.

ghost use Rattle.std.specs.Prelude.{◌≡◌, ◌++◌, map, take, drop, IfOk, OnOk};
ghost use Rattle.s_linear.specs.Lines.{instr_names, line_names};
ghost use Rattle.s_linear.specs.Views.{instr_of, line_of};
ghost use Rattle.a_place.specs.Places.{above, name_count};
ghost use Rattle.a_place.specs.Share.{targets};
ghost use Rattle.a_share.specs.Walk.{names_in, predicates_of};

use s_linear::{Instr, Line};
use std::alloc::{AllocError, Global};

/// The name that an instruction writes.
pub(crate) fn target_of(instr: &Instr) -> Option<u32>
    ensures { names_in result
        ≡ take (targets (instr_of instr.now)) (instr_names (instr_of instr.now)) }
{
    match instr {
        Instr::Const { target, .. }
        | Instr::Undef { target }
        | Instr::ObjectAddress { target, .. }
        | Instr::GlobalAddress { target, .. }
        | Instr::Binary { target, .. }
        | Instr::Unary { target, .. }
        | Instr::Load { target, .. }
        | Instr::EqualPointers { target, .. }
        | Instr::Move { target, .. }
        | Instr::Call { target, .. }
        | Instr::Get { target } => Some(*target),
        Instr::Store { .. } | Instr::Clear { .. } | Instr::Put { .. } | Instr::Exit { .. } => None,
    }
}

// Adds the names that an instruction reads.
fn push_sources(names: &mut Vec<u32>, instr: &Instr) -> Result<(), AllocError>
    ensures { OnOk result (names.new.items ≡ names.old.items
        ++ drop (targets (instr_of instr.now)) (instr_names (instr_of instr.now))) }
{
    match instr {
        Instr::Const { .. }
        | Instr::Undef { .. }
        | Instr::ObjectAddress { .. }
        | Instr::GlobalAddress { .. }
        | Instr::Clear { .. }
        | Instr::Get { .. } => {}
        Instr::Binary { left, right, .. } | Instr::EqualPointers { left, right, .. } => {
            names.push(*left)?;
            names.push(*right)?;
        }
        Instr::Unary { input, .. } => names.push(*input)?,
        Instr::Load { address, .. } => names.push(*address)?,
        Instr::Store { address, value, .. } => {
            names.push(*address)?;
            names.push(*value)?;
        }
        Instr::Move { source, .. } => names.push(*source)?,
        Instr::Call { arguments, .. } => names.extend_from_slice(arguments.as_slice())?,
        Instr::Put { byte } => names.push(*byte)?,
        Instr::Exit { status } => names.push(*status)?,
    }
    Ok(())
}

/// Reads the names of a line in place of those before.
pub(crate) fn read_names(names: &mut Vec<u32>, line: &Line) -> Result<(), AllocError>
    ensures { OnOk result (names.new.items ≡ line_names (line_of line.now)) }
{
    names.clear();
    match line {
        Line::Enter { params } => names.extend_from_slice(params.as_slice())?,
        Line::Leave { value } => names.push(*value)?,
        Line::Done { instr } => push_names(names, instr)?,
        Line::BranchNotZero { predicate, .. }
        | Line::BranchZero { predicate, .. }
        | Line::BranchEqual { predicate, .. } => names.push(*predicate)?,
        Line::Jump { .. } | Line::Label { .. } => {}
    }
    Ok(())
}

// Adds the names of an instruction.
#[tactic(auto, using(crate::proofs::WholeNames::names_whole))]
fn push_names(names: &mut Vec<u32>, instr: &Instr) -> Result<(), AllocError>
    ensures { OnOk result (names.new.items ≡ names.old.items ++ instr_names (instr_of instr.now)) }
{
    if let Some(target) = target_of(instr) {
        names.push(target)?;
    }
    push_sources(names, instr)
}

/// The predicate of a branch.
pub(crate) fn predicate_of(line: &Line) -> Option<u32>
    ensures { names_in result ≡ predicates_of (line_of line.now) }
{
    match line {
        Line::BranchNotZero { predicate, .. }
        | Line::BranchZero { predicate, .. }
        | Line::BranchEqual { predicate, .. } => Some(*predicate),
        _ => None,
    }
}

/// One more than the greatest name of these lines, or 0 where there is none.
pub(crate) fn name_count(alloc: Global, lines: &[Line]) -> Result<usize, AllocError>
    ensures { IfOk result (λ n. n ≡ name_count (map line_of lines.now)) }
{
    let mut count = 0;
    let mut names = Vec::new(alloc);
    for line in lines {
        read_names(&mut names, line)?;
        count = count.max(above(&names));
    }
    Ok(count)
}

fn above(names: &[u32]) -> usize
    ensures { result ≡ above names.now }
{
    let mut count = 0;
    for name in names {
        count = count.max(*name as usize + 1);
    }
    count
}
