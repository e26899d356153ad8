//! The state at the beginning of a file.

ghost use Rattle.std.specs.Prelude.{◌≡◌, ◌∷◌, [], codes, true, Some, IfOk};
ghost use Rattle.c_typed.specs.WellTyped.{int};
ghost use Rattle.c_check_def.specs.Calls.{predeclared};
ghost use Rattle.c_check_def.specs.Check.{predeclared_names, initial_state};

use crate::declared::Declared;
use crate::maybe_type::MaybeType;
use crate::state::State;
use base::{Name, NoMemory};
use c_check_def::Meaning;
use c_check_scope::{Members, Names, Scopes, Tags};
use c_type::{CType, Scalar, Types};
use std::alloc::Global;

impl State {
    /// The state at the beginning of a file that defines functions of these names: `putchar`,
    /// `getchar` and `exit` are declared.
    pub fn new(alloc: Global, defined: Names) -> Result<State, NoMemory>
        ensures { IfOk result (λ r. r ≡ initial_state defined) }
    {
        let scopes = predeclared_names(alloc)?;
        let declared = predeclared(alloc)?;
        Ok(State {
            broken: None,
            scopes,
            tags: Tags::new(alloc),
            structs: Types::new(alloc),
            members: Members::new(alloc),
            defined,
            declared,
            globals: Vec::new(alloc),
            variables: Vec::new(alloc),
            slots: Vec::new(alloc),
            functions: Vec::new(alloc),
        })
    }
}

fn predeclared_names(alloc: Global) -> Result<Scopes<Meaning>, NoMemory>
    ensures { IfOk result (λ r. r ≡ predeclared_names ∷ []) }
{
    let mut scopes = Scopes::new(alloc);
    scopes.bind(&putchar(alloc)?, Meaning::Function(0))?;
    scopes.bind(&getchar(alloc)?, Meaning::Function(1))?;
    scopes.bind(&exit(alloc)?, Meaning::Function(2))?;
    Ok(scopes)
}

fn putchar(alloc: Global) -> Result<Name, NoMemory>
    ensures { IfOk result (λ r. r ≡ codes "putchar") }
{
    Ok(Name::from_slice(alloc, b"putchar")?)
}

fn getchar(alloc: Global) -> Result<Name, NoMemory>
    ensures { IfOk result (λ r. r ≡ codes "getchar") }
{
    Ok(Name::from_slice(alloc, b"getchar")?)
}

fn exit(alloc: Global) -> Result<Name, NoMemory>
    ensures { IfOk result (λ r. r ≡ codes "exit") }
{
    Ok(Name::from_slice(alloc, b"exit")?)
}

fn predeclared(alloc: Global) -> Result<Vec<Declared>, NoMemory>
    ensures { IfOk result (λ r. r.items ≡ predeclared) }
{
    let mut functions = Vec::new(alloc);
    let int = MaybeType::of(alloc, CType::scalar(Scalar::Int))?;
    let params = one_int(alloc)?;
    functions.push(defined(int, params))?;
    let int = MaybeType::of(alloc, CType::scalar(Scalar::Int))?;
    functions.push(defined(int, Vec::new(alloc)))?;
    let void = MaybeType::of(alloc, CType::void())?;
    let params = one_int(alloc)?;
    functions.push(defined(void, params))?;
    Ok(functions)
}

fn one_int(alloc: Global) -> Result<Vec<MaybeType>, NoMemory>
    ensures { IfOk result (λ r. r.items ≡ Some int ∷ []) }
{
    let mut params = Vec::new(alloc);
    params.push(MaybeType::of(alloc, CType::scalar(Scalar::Int))?)?;
    Ok(params)
}

fn defined(gives: MaybeType, params: Vec<MaybeType>) -> Declared
    ensures { result ≡ record { result = gives; params = params.items; is_defined = true } }
{
    Declared {
        result: gives,
        params,
        is_defined: true,
    }
}
