//! The parameters of a function: values are arguments of its body, and objects are stored.

ghost use Rattle.std.specs.Prelude.{◌≡◌, ◌++◌, ◌∷◌, ◌<◌, ◌-◌, ◌^◌, [], if◌then◌else◌, length, OnOk};
ghost use Rattle.g_build_def.specs.Writer.{held, object, with_variables};
ghost use Rattle.g_graph.specs.declared.op.Origin.TheVariants.{Arg};
ghost use Rattle.g_build_def.specs.Functions.{params_carried, params_stored};
ghost use Rattle.g_build_expression.specs.Work.{made, moved_to};
ghost use Rattle.g_build_expression.specs.SlotViews.{slot_of};

use crate::{number_after, store_object};
use base::NoMemory;
use c_typed::Variable;
use g_build_expression::{Builder, InScope, access_width};
use g_graph::Origin;

fn in_scope(is_object: bool, number: u32, argument: u32) -> InScope
    ensures { slot_of result ≡
        (if is_object then object number else held (Arg argument)) }
{
    if is_object {
        InScope::Object(number)
    } else {
        InScope::Held(Origin::Arg(argument))
    }
}

/// The parameters come into scope.
pub fn enter(b: &mut Builder, params: &[Variable]) -> Result<(), NoMemory>
    requires { length params.now < 2 ^ 32 - 1 }
    ensures { OnOk result (b.new ≡ moved_to b.old (with_variables b.old.point
        (b.old.point.carried.variables ++ params_carried 0 0 params.now))) }
{
    let mut number: u32 = 0;
    for i in 0..params.len() {
        let param = &params[i];
        let is_object = param.is_object;
        b.push_variable(in_scope(is_object, number, i as u32))?;
        number = number_after(number, is_object);
    }
    Ok(())
}

#[tactic(auto, using(g_build_expression::proofs::lemmas::Made::moved_made))]
fn store_param(
    b: &mut Builder,
    param: &Variable,
    number: u32,
    argument: u32,
) -> Result<(), NoMemory>
    ensures { OnOk result
        (b.new ≡ made b.old (params_stored number argument (param.now ∷ []) b.old.point)) }
{
    if param.is_object {
        return store_object(b, number, access_width(&param.ty), Origin::Arg(argument));
    }
    Ok(())
}

/// The arguments of parameters that are objects are stored.
pub fn store_params(b: &mut Builder, params: &[Variable]) -> Result<(), NoMemory>
    requires { length params.now < 2 ^ 32 - 1 }
    ensures { OnOk result
        (b.new ≡ made b.old (params_stored 0 0 params.now b.old.point)) }
{
    let mut number: u32 = 0;
    for i in 0..params.len() {
        let param = &params[i];
        store_param(b, param, number, i as u32)?;
        number = number_after(number, param.is_object);
    }
    Ok(())
}
