//! The lambda of a function.

ghost use Rattle.std.specs.Prelude.{◌≡◌, [], ◌∷◌, ◌++◌, ◌==◌, OnOk, IfOk};
ghost use Rattle.c_type.specs.Layout.{IsLaidOut};
ghost use Rattle.c_typed.specs.WellTyped.{VariablesFit};
ghost use Rattle.g_build_def.specs.Functions.{object_made, objects_made, lambda_made};

use crate::body::build_body;
use base::NoMemory;
use c_type::{Types, leaves, size_of};
use c_typed::{TFunction, Typed, Variable};
use g_graph::{Lambda, Object};
use std::alloc::Global;

fn object(alloc: Global, types: &Types, variable: &Variable) -> Result<Object, NoMemory>
    requires { IsLaidOut types.now variable.now.type }
    ensures { IfOk result (λ object. object ≡ object_made types.now variable.now) }
{
    let size = size_of(types, &variable.ty);
    let leaves = leaves(alloc, types, &variable.ty)?;
    Ok(Object { size, leaves })
}

// Appends the object of a variable, if it is one.
fn push_object(
    alloc: Global,
    types: &Types,
    variable: &Variable,
    objects: &mut Vec<Object>,
) -> Result<(), NoMemory>
    requires { IsLaidOut types.now variable.now.type }
    ensures { OnOk result (objects.new.items ≡
        objects.old.items ++ objects_made types.now (variable.now ∷ [])) }
{
    if variable.is_object {
        objects.push(object(alloc, types, variable)?)?;
        return Ok(());
    }
    Ok(())
}

// The objects of a function, in order of declaration.
fn objects(alloc: Global, types: &Types, variables: &[Variable]) -> Result<Vec<Object>, NoMemory>
    requires { VariablesFit types.now variables.now }
    ensures { IfOk result (λ objects. objects.items ≡ objects_made types.now variables.now) }
{
    let mut objects = Vec::new(alloc);
    for variable in variables {
        push_object(alloc, types, variable, &mut objects)?;
    }
    Ok(objects)
}

/// The lambda of a function of the program, which has this number. `NoMemory` as `build_body`.
pub fn build_lambda(
    alloc: Global,
    typed: &Typed,
    number: u32,
    f: &TFunction,
) -> Result<Lambda, NoMemory>
    requires { VariablesFit typed.now.structs f.now.variables }
    ensures { IfOk result (λ lambda. lambda ≡ lambda_made typed.now number f.now) }
{
    let objects = objects(alloc, &typed.structs, &f.variables)?;
    let body = build_body(alloc, number == typed.main, f)?;
    Ok(Lambda {
        number,
        params: f.params,
        objects,
        body: body.region,
        next: body.next,
    })
}
