//! Tables of operators. A row asks for a table: its name is said, and then a line for each operand
//! or constant, or one line for all (`operands`, `constants`).
//!
//! A result is its type, after a `*` where it is an lvalue and `k` where that is const, and `-`
//! where there is none. Types are written `c` (char), `sc`, `uc`, `h` (short), `uh`, `i`, `u`,
//! `v` (void), `s` (a structure), `q` (a structure that is not complete), `p` and a type (a
//! pointer) and `a` and a type (an array).

use crate::constants::say_constants;
use crate::layouts::define;
use crate::operands::{OPERANDS, operand_of, type_named};
use crate::signs::{assign_of, binary_of, inc_dec_of, selection_of, unary_of};
use base::NoMemory;
use c_check_def::Operand;
use c_operator::{
    assigned, binary, cast, condition, conditional, index, is_assignable, member, operand_type,
    selected_tag, size_of_type, step, unary,
};
use c_type::{CType, Scalar, TypeForm, Types};
use c_typed::{ExprForm, TExpr};
use std::alloc::Global;

// What an operator makes.
type Made = Result<Option<Operand>, NoMemory>;

fn as_value(e: Result<Option<TExpr>, NoMemory>) -> Made {
    match e {
        Ok(Some(e)) => Ok(Some(Operand::Value(e))),
        Ok(None) => Ok(None),
        Err(fault) => Err(fault),
    }
}

fn both(
    alloc: Global,
    left: (&str, &str),
    right: (&str, &str),
) -> Result<(Operand, Operand), NoMemory> {
    let left = operand_of(alloc, left)?;
    match operand_of(alloc, right) {
        Ok(right) => Ok((left, right)),
        Err(fault) => {
            drop(left);
            Err(fault)
        }
    }
}

fn binary_made(
    alloc: Global,
    types: &Types,
    op: &str,
    left: (&str, &str),
    right: (&str, &str),
) -> Made {
    let Some(op) = binary_of(op) else {
        return Ok(None);
    };
    let (left, right) = both(alloc, left, right)?;
    as_value(binary(alloc, types, op, left, right))
}

fn assigned_made(
    alloc: Global,
    types: &Types,
    op: &str,
    left: (&str, &str),
    right: (&str, &str),
) -> Made {
    let Some(op) = assign_of(op) else {
        return Ok(None);
    };
    let (left, right) = both(alloc, left, right)?;
    as_value(assigned(alloc, types, op, left, right))
}

fn chosen(alloc: Global, left: Operand, right: Operand) -> Made {
    match operand_of(alloc, ("i", "i")) {
        Ok(test) => as_value(conditional(alloc, test, left, right)),
        Err(fault) => {
            drop(left);
            drop(right);
            Err(fault)
        }
    }
}

fn conditional_made(alloc: Global, left: (&str, &str), right: (&str, &str)) -> Made {
    let (left, right) = both(alloc, left, right)?;
    chosen(alloc, left, right)
}

fn index_made(alloc: Global, types: &Types, left: (&str, &str), right: (&str, &str)) -> Made {
    let (left, right) = both(alloc, left, right)?;
    index(alloc, types, left, right)
}

// What a table has for two operands.
fn of_two(
    alloc: Global,
    types: &Types,
    (kind, op): (&str, &str),
    left: (&str, &str),
    right: (&str, &str),
) -> Made {
    match kind {
        "binary" => binary_made(alloc, types, op, left, right),
        "assigned" => assigned_made(alloc, types, op, left, right),
        "conditional" => conditional_made(alloc, left, right),
        _ => index_made(alloc, types, left, right),
    }
}

fn unary_made(alloc: Global, op: &str, of: (&str, &str)) -> Made {
    match unary_of(op) {
        Some(op) => unary(alloc, op, operand_of(alloc, of)?),
        None => Ok(None),
    }
}

fn step_made(alloc: Global, types: &Types, op: &str, of: (&str, &str)) -> Made {
    match inc_dec_of(op) {
        Some(op) => as_value(step(types, op, true, operand_of(alloc, of)?)),
        None => Ok(None),
    }
}

fn cast_made(alloc: Global, to: &str, of: (&str, &str)) -> Made {
    let to = type_named(alloc, to)?;
    as_value(cast(alloc, &to, operand_of(alloc, of)?))
}

fn member_made(alloc: Global, types: &Types, word: &str, of: (&str, &str)) -> Made {
    let (op, number) = word.split_once(' ').unwrap_or((word, ""));
    let number = number.parse::<u32>().unwrap_or(0);
    match selection_of(op) {
        Some(op) => member(alloc, types, op, operand_of(alloc, of)?, number),
        None => Ok(None),
    }
}

// What a table has for an operand.
fn of_one(alloc: Global, types: &Types, (kind, word): (&str, &str), of: (&str, &str)) -> Made {
    match kind {
        "unary" => unary_made(alloc, word, of),
        "step" => step_made(alloc, types, word, of),
        "cast" => cast_made(alloc, word, of),
        "member" => member_made(alloc, types, word, of),
        "condition" => as_value(condition(alloc, operand_of(alloc, of)?)),
        _ => Ok(None),
    }
}

fn scalar_name(s: Scalar) -> &'static str {
    match s {
        Scalar::Char => "c",
        Scalar::SignedChar => "sc",
        Scalar::UnsignedChar => "uc",
        Scalar::Short => "h",
        Scalar::UnsignedShort => "uh",
        Scalar::Int => "i",
        Scalar::UnsignedInt => "u",
    }
}

fn say_type(out: &mut String, t: &CType) -> Result<(), NoMemory> {
    match &t.form {
        TypeForm::Void => Ok(out.push_str("v")?),
        TypeForm::Scalar(s) => Ok(out.push_str(scalar_name(*s))?),
        TypeForm::Pointer(of) => {
            out.push_str("p")?;
            say_type(out, of)
        }
        TypeForm::Array(of, _) => {
            out.push_str("a")?;
            say_type(out, of)
        }
        TypeForm::Struct(tag) => Ok(out.push_str(if *tag == 1 { "s" } else { "q" })?),
    }
}

fn say_operand(out: &mut String, operand: &Operand) -> Result<(), NoMemory> {
    out.push_str(match operand {
        Operand::Place { is_const: true, .. } => " *k",
        Operand::Place {
            is_const: false,
            ..
        } => " *",
        Operand::Value(_) => " ",
    })?;
    say_type(out, operand_type(operand))
}

fn say_made(out: &mut String, made: Option<Operand>) -> Result<(), NoMemory> {
    match made {
        Some(operand) => {
            let said = say_operand(out, &operand);
            drop(operand);
            said
        }
        None => Ok(out.push_str(" -")?),
    }
}

fn say_number(out: &mut String, number: Option<u32>) -> Result<(), NoMemory> {
    match number {
        Some(number) => Ok(write!(out, " {number}")?),
        None => Ok(out.push_str(" -")?),
    }
}

fn size_number(e: Option<TExpr>) -> Option<u32> {
    let e = e?;
    let number = match &e.form {
        ExprForm::Constant(word) => Some(*word),
        _ => None,
    };
    drop(e);
    number
}

fn say_tag(out: &mut String, op: &str, of: (&str, &str)) -> Result<(), NoMemory> {
    let operand = operand_of(*out.allocator(), of)?;
    let tag = selection_of(op).and_then(|op| selected_tag(op, &operand));
    drop(operand);
    say_number(out, tag)
}

fn say_assignable(out: &mut String, of: (&str, &str)) -> Result<(), NoMemory> {
    let operand = operand_of(*out.allocator(), of)?;
    let may = is_assignable(&operand);
    drop(operand);
    Ok(write!(out, " {may}")?)
}

fn say_size(out: &mut String, types: &Types, of: (&str, &str)) -> Result<(), NoMemory> {
    let alloc = *out.allocator();
    let operand = operand_of(alloc, of)?;
    let size = size_of_type(alloc, types, operand_type(&operand));
    drop(operand);
    say_number(out, size_number(size?))
}

fn say_one(
    out: &mut String,
    types: &Types,
    table: (&str, &str),
    of: (&str, &str),
) -> Result<(), NoMemory> {
    match table.0 {
        "tag" => say_tag(out, table.1, of),
        "assignable" => say_assignable(out, of),
        "sizeof" => say_size(out, types, of),
        _ => {
            let made = of_one(*out.allocator(), types, table, of)?;
            say_made(out, made)
        }
    }
}

fn say_all(out: &mut String, types: &Types, table: (&str, &str)) -> Result<(), NoMemory> {
    for of in OPERANDS.iter() {
        write!(out, " {}:", of.0)?;
        say_one(out, types, table, *of)?;
    }
    Ok(out.push_str("\n")?)
}

fn say_square(out: &mut String, types: &Types, table: (&str, &str)) -> Result<(), NoMemory> {
    for left in OPERANDS.iter() {
        write!(out, "{}:", left.0)?;
        for right in OPERANDS.iter() {
            let made = of_two(*out.allocator(), types, table, *left, *right)?;
            say_made(out, made)?;
        }
        out.push_str("\n")?;
    }
    Ok(())
}

/// Says the table that a row asks for.
pub fn say_table(out: &mut String, row: &str) -> Result<(), NoMemory> {
    let mut types = Types::new(*out.allocator());
    define(out, &mut types, 1, "c,i.2,s1.p", 0)?;
    write!(out, "{row}\n")?;
    let (kind, word) = row.split_once(' ').unwrap_or((row, ""));
    match kind {
        "worth" => say_constants(out, &types, word),
        "binary" | "assigned" | "conditional" | "index" => say_square(out, &types, (kind, word)),
        _ => say_all(out, &types, (kind, word)),
    }
}
