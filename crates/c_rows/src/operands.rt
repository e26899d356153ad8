//! The operands of the tables, by their names.

use crate::layouts::type_of;
use base::NoMemory;
use c_check_def::Operand;
use c_type::CType;
use c_typed::{ExprForm, PlaceForm, TExpr, TPlace};
use std::alloc::Global;
use std::sync::Arc;

/// The operands and their types (`layouts`): variables, those after `k` const; the constants 0,
/// `0u` and 1; and a call of a void function.
pub const OPERANDS: [(&str, &str); 21] = [
    ("c", "c"),
    ("sc", "sc"),
    ("uc", "uc"),
    ("h", "h"),
    ("uh", "uh"),
    ("i", "i"),
    ("u", "u"),
    ("pc", "c.p"),
    ("puc", "uc.p"),
    ("pi", "i.p"),
    ("ps", "s1.p"),
    ("pq", "s2.p"),
    ("ai", "i.3"),
    ("s", "s1"),
    ("0", "i"),
    ("0u", "u"),
    ("1", "i"),
    ("v", "v"),
    ("ki", "i"),
    ("kai", "i.3"),
    ("ks", "s1"),
];

/// The type of the operand of this name, to be shared; `int` where there is none.
pub fn type_named(alloc: Global, name: &str) -> Result<Arc<CType>, NoMemory> {
    for (known, ty) in OPERANDS.iter() {
        if *known == name {
            return shared_type(alloc, *ty);
        }
    }
    shared_type(alloc, "i")
}

fn shared_type(alloc: Global, ty: &str) -> Result<Arc<CType>, NoMemory> {
    Ok(Arc::new(alloc, type_of(alloc, ty, 0)?)?)
}

/// The operand of this name and type.
pub fn operand_of(alloc: Global, (name, ty): (&str, &str)) -> Result<Operand, NoMemory> {
    match name {
        "0" | "0u" => Ok(Operand::Value(constant_of(alloc, ty, 0)?)),
        "1" => Ok(Operand::Value(constant_of(alloc, ty, 1)?)),
        "v" => void_call(alloc, ty),
        _ => variable(alloc, ty, name.starts_with('k')),
    }
}

/// A constant of this type.
pub fn constant_of(alloc: Global, ty: &str, word: u32) -> Result<TExpr, NoMemory> {
    Ok(TExpr {
        ty: shared_type(alloc, ty)?,
        form: ExprForm::Constant(word),
    })
}

fn void_call(alloc: Global, ty: &str) -> Result<Operand, NoMemory> {
    Ok(Operand::Value(TExpr {
        ty: shared_type(alloc, ty)?,
        form: ExprForm::Call(0, Vec::new(alloc)),
    }))
}

fn variable(alloc: Global, ty: &str, is_const: bool) -> Result<Operand, NoMemory> {
    Ok(Operand::Place {
        place: TPlace {
            ty: shared_type(alloc, ty)?,
            form: PlaceForm::Local(0),
        },
        is_const,
    })
}
