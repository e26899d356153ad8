//! Typed programs: functions with their variables, and globals.

use crate::Item;
use base::{Bytes, Name};
use c_type::{CType, Types};
use std::marker::Model;
use std::sync::Arc;

/// A program: its struct definitions, its functions in source order, its globals (the variables at
/// file scope and the string literals that are objects) in order of offset, and which function is
/// `main`. Contracts see a plain record.
#[derive(Drop)]
pub struct Typed {
    pub structs: Types,
    pub functions: Vec<TFunction>,
    pub globals: Vec<TGlobal>,
    pub main: u32,
}

/// A function: its name, the offset of that, where its definition begins and ends in the source,
/// its result's type, how many of its variables are parameters (they come first), its variables in
/// order of declaration, and its body.
#[derive(Drop)]
pub struct TFunction {
    pub name: Name,
    pub at: u32,
    pub starts: u32,
    pub ends: u32,
    pub result: Arc<CType>,
    pub params: u32,
    pub variables: Vec<Variable>,
    pub body: Vec<Item>,
}

/// A variable of a function: its type, and whether it is a memory object (its address is taken, or
/// it is no scalar).
#[derive(Drop)]
pub struct Variable {
    pub ty: Arc<CType>,
    pub is_object: bool,
}

/// A global: the offset of its name or of the string literal, its type, whether it never changes,
/// and what it begins with where that is not zero, in order of offset.
#[derive(Drop)]
pub struct TGlobal {
    pub at: u32,
    pub ty: Arc<CType>,
    pub fixed: bool,
    pub written: Vec<Written>,
}

/// What stands at an offset in bytes of a global: a word of 1, 2 or 4 bytes, the address of a
/// global, or characters.
#[derive(Drop)]
pub enum Written {
    Word { offset: u32, width: u8, word: u32 },
    Link { offset: u32, number: u32 },
    Characters { offset: u32, characters: Bytes },
}

impl Model for Typed {
    ghost use Rattle.c_typed.specs.Typed.{ProgramTree};
    ghost use Rattle.c_typed.specs.ProgramEncoding.{coded_program};

    ghost Value = { ProgramTree };

    ghost coded = { coded_program };

    ghost view = { λ p. record {
      structs = p.structs;
      functions = p.functions.items;
      globals = p.globals.items;
      main = p.main;
    } };
}

impl Model for TFunction {
    ghost use Rattle.c_typed.specs.Typed.{FunctionTree};
    ghost use Rattle.c_typed.specs.ProgramEncoding.{coded_function};

    ghost Value = { FunctionTree };

    ghost coded = { coded_function };

    ghost use Rattle.c_typed.specs.StmtViews.{items_of};

    ghost view = { λ f. record {
      name = f.name;
      at = f.at;
      starts = f.starts;
      ends = f.ends;
      result = f.result.value;
      params = f.params;
      variables = f.variables.items;
      body = items_of f.body.items;
    } };
}

impl Model for Variable {
    ghost use Rattle.c_typed.specs.Typed.{VariableTree};
    ghost use Rattle.c_typed.specs.ProgramEncoding.{coded_variable};

    ghost Value = { VariableTree };

    ghost coded = { coded_variable };

    ghost view = { λ v. record { type = v.ty.value; is_object = v.is_object } };
}

impl Model for TGlobal {
    ghost use Rattle.std.specs.Prelude.{map};
    ghost use Rattle.c_typed.specs.Typed.{GlobalTree};
    ghost use Rattle.c_typed.specs.ProgramEncoding.{coded_global};

    ghost Value = { GlobalTree };

    ghost coded = { coded_global };

    ghost use Rattle.c_typed.specs.ProgramEncoding.{written_of};

    ghost view = { λ g. record {
      at = g.at;
      type = g.ty.value;
      fixed = g.fixed;
      written = map written_of g.written.items;
    } };
}
