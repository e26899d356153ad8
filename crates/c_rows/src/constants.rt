//! Constant expressions. `worth OP` says what the constants are worth by twos under a binary
//! operator, `worth unary OP` what each is worth after a unary one, and `worth null` which are null
//! constants.

use crate::operands::{constant_of, type_named};
use crate::signs::{binary_of, unary_of};
use base::NoMemory;
use c_check_def::Operand;
use c_operator::{binary, constant_value, converted, is_null_constant, unary, value};
use c_type::Types;
use c_typed::TExpr;
use std::alloc::Global;

// The constants: a type and a word of `int` or `unsigned int` that is converted to it.
const CONSTANTS: [(&str, u32); 17] = [
    ("i", 0),
    ("i", 1),
    ("i", 7),
    ("i", 31),
    ("i", 32),
    ("i", 0x7fff_ffff),
    ("i", 0xffff_ffff),
    ("i", 0xffff_fff9),
    ("i", 0x8000_0000),
    ("u", 0),
    ("u", 5),
    ("u", 0xffff_ffff),
    ("c", 200),
    ("sc", 200),
    ("uc", 7),
    ("h", 40000),
    ("uh", 65535),
];

fn constant(alloc: Global, (ty, word): (&str, u32)) -> Result<TExpr, NoMemory> {
    let plain = if ty == "u" { "u" } else { "i" };
    let word = Box::new(alloc, constant_of(alloc, plain, word)?)?;
    let to = type_named(alloc, ty)?;
    Ok(Box::into_inner(converted(alloc, word, &to)?))
}

fn operand(alloc: Global, of: (&str, u32)) -> Result<Operand, NoMemory> {
    Ok(Operand::Value(constant(alloc, of)?))
}

fn say_word(out: &mut String, e: Option<TExpr>) -> Result<(), NoMemory> {
    let Some(e) = e else {
        return Ok(out.push_str(" none")?);
    };
    let word = constant_value(&e);
    drop(e);
    match word {
        Some(word) => Ok(write!(out, " {word}")?),
        None => Ok(out.push_str(" -")?),
    }
}

fn of_two(
    alloc: Global,
    types: &Types,
    op: &str,
    left: (&str, u32),
    right: (&str, u32),
) -> Result<Option<TExpr>, NoMemory> {
    let Some(op) = binary_of(op) else {
        return Ok(None);
    };
    let left = operand(alloc, left)?;
    match operand(alloc, right) {
        Ok(right) => binary(alloc, types, op, left, right),
        Err(fault) => {
            drop(left);
            Err(fault)
        }
    }
}

fn of_one(alloc: Global, op: &str, of: (&str, u32)) -> Result<Option<TExpr>, NoMemory> {
    let Some(op) = unary_of(op) else {
        return Ok(None);
    };
    match unary(alloc, op, operand(alloc, of)?)? {
        Some(made) => value(alloc, made),
        None => Ok(None),
    }
}

fn is_null(alloc: Global, of: (&str, u32)) -> Result<bool, NoMemory> {
    let e = constant(alloc, of)?;
    let is_null = is_null_constant(&e);
    drop(e);
    Ok(is_null)
}

fn say_nulls(out: &mut String) -> Result<(), NoMemory> {
    for of in CONSTANTS.iter() {
        let is_null = is_null(*out.allocator(), *of)?;
        write!(out, " {is_null}")?;
    }
    Ok(out.push_str("\n")?)
}

fn say_unary(out: &mut String, op: &str) -> Result<(), NoMemory> {
    for of in CONSTANTS.iter() {
        let e = of_one(*out.allocator(), op, *of)?;
        say_word(out, e)?;
    }
    Ok(out.push_str("\n")?)
}

fn say_binary(out: &mut String, types: &Types, op: &str) -> Result<(), NoMemory> {
    for left in CONSTANTS.iter() {
        for right in CONSTANTS.iter() {
            let e = of_two(*out.allocator(), types, op, *left, *right)?;
            say_word(out, e)?;
        }
        out.push_str("\n")?;
    }
    Ok(())
}

/// Says what is asked of the constants.
pub fn say_constants(out: &mut String, types: &Types, asked: &str) -> Result<(), NoMemory> {
    match asked.strip_prefix("unary ") {
        Some(op) => say_unary(out, op),
        None if asked == "null" => say_nulls(out),
        None => say_binary(out, types, asked),
    }
}
