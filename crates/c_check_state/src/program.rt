//! The typed program that a state holds at the end of the file.

ghost use Rattle.std.specs.Prelude.{◌≡◌, map, unwrap_or, IfOk};
ghost use Rattle.c_type.specs.Trees.{void_type};
ghost use Rattle.c_check_def.specs.Check.{global_tree, main_number, program_of};

use crate::globals::GlobalObject;
use crate::maybe_type::MaybeType;
use crate::state::State;
use base::{Name, NoMemory};
use c_type::CType;
use c_typed::{TFunction, TGlobal, Typed};
use std::alloc::Global;
use std::sync::Arc;

impl State {
    /// The functions that are defined so far, in source order.
    pub fn functions(&self) -> &[TFunction]
        ensures { result.now ≡ self.now.functions }
    {
        self.functions.as_slice()
    }

    /// The program of the whole file (ISO/IEC 9899:2011, 6.9).
    pub fn into_program(self) -> Result<Typed, NoMemory>
        ensures { IfOk result (λ r. r ≡ program_of self) }
    {
        let alloc = self.alloc();
        let main = main_number(&self)?;
        let globals = globals(alloc, self.globals)?;
        Ok(Typed {
            structs: self.structs,
            functions: self.functions,
            globals,
            main,
        })
    }
}

// The number of `main`; 0 where the file does not define it.
fn main_number(state: &State) -> Result<u32, NoMemory>
    ensures { IfOk result (λ r. r ≡ main_number state.now) }
{
    let name = Name::from_slice(state.alloc(), b"main")?;
    Ok(state.defined_number(&name).unwrap_or(0))
}

fn globals(alloc: Global, objects: Vec<GlobalObject>) -> Result<Vec<TGlobal>, NoMemory>
    ensures { IfOk result (λ r. r.items ≡ map global_tree objects.items) }
{
    let mut globals = Vec::new(alloc);
    for object in objects {
        globals.push(global(alloc, object)?)?;
    }
    Ok(globals)
}

fn global(alloc: Global, object: GlobalObject) -> Result<TGlobal, NoMemory>
    ensures { IfOk result (λ r. r ≡ global_tree object) }
{
    let ty = or_void(alloc, object.ty)?;
    Ok(TGlobal {
        at: object.offset,
        ty,
        fixed: object.fixed,
        written: object.written,
    })
}

/// The type that there is, or else `void`. `NoMemory` only where the allocator has none.
pub fn or_void(alloc: Global, ty: MaybeType) -> Result<Arc<CType>, NoMemory>
    ensures { IfOk result (λ r. r.value ≡ unwrap_or ty void_type) }
{
    match ty.ty {
        Some(ty) => Ok(ty),
        None => Ok(Arc::new(alloc, CType::void())?),
    }
}
