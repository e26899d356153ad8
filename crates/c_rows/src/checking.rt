//! Typed programs. A row is a source (`sources`); it is said that it is accepted, or the number of
//! the rule that is broken, its name and the place.

use crate::sources::{length_of, source_of};
use base::NoMemory;
use c_check::{CheckFault, check};
use c_lex::lex;
use c_parse::parse;

fn say_fault(out: &mut String, fault: CheckFault) -> Result<(), NoMemory> {
    let (rule, at) = match fault {
        CheckFault::Unknown { at } => ("31 Unknown", at),
        CheckFault::Redeclared { at } => ("32 Redeclared", at),
        CheckFault::NotAssignable { at } => ("33 NotAssignable", at),
        CheckFault::BadOperands { at } => ("34 BadOperands", at),
        CheckFault::BadCall { at } => ("35 BadCall", at),
        CheckFault::NotConstant { at } => ("36 NotConstant", at),
        CheckFault::BadInitialiser { at } => ("37 BadInitialiser", at),
        CheckFault::BadType { at } => ("38 BadType", at),
        CheckFault::BadReturn { at } => ("39 BadReturn", at),
        CheckFault::BadJump { at } => ("40 BadJump", at),
        CheckFault::NoMain { at } => ("41 NoMain", at),
        CheckFault::BadLabel { at } => ("43 BadLabel", at),
        CheckFault::Limit { at, which, count } => {
            write!(out, "42 Limit {at} which {which} count {count}\n")?;
            return Ok(());
        }
        CheckFault::NoMemory => return Err(NoMemory),
    };
    Ok(write!(out, "{rule} {at}\n")?)
}

/// Says the answer on a row.
pub fn say_checked(out: &mut String, row: &str) -> Result<(), NoMemory> {
    let alloc = *out.allocator();
    let source = source_of(alloc, row)?;
    let length = length_of(source.as_str());
    let Ok(tokens) = lex(alloc, source.as_bytes()) else {
        return Ok(out.push_str("no tokens\n")?);
    };
    let Ok(unit) = parse(alloc, &tokens, length) else {
        return Ok(out.push_str("no tree\n")?);
    };
    match check(alloc, &unit, length) {
        Ok(_) => Ok(out.push_str("accepted\n")?),
        Err(fault) => say_fault(out, fault),
    }
}
