//! Declarations of functions.

ghost use Rattle.std.specs.Prelude.{◌≡◌, [], map, IfOk, OnOk, Some};
ghost use Rattle.c_check_def.specs.declared.meaning.Meaning.TheVariants as means;
ghost use Rattle.c_check_def.specs.Externals.{Param as Record, declare_function, function_meant};

use crate::agreement::may_follow;
use crate::param::Param;
use base::{Name, NoMemory};
use c_check_def::{Meaning, RefusalKind};
use c_check_state::{Declared, MaybeType, State};
use std::alloc::Global;

/// Declares a function whose name is at an offset. It may be declared again with the same types,
/// and is defined once (ISO/IEC 9899:2011, 6.7p4, 6.9p3).
pub fn declare_function(
    state: &mut State,
    name: &Name,
    offset: u32,
    returned: &MaybeType,
    params: &[Param],
    is_defined: bool,
) -> Result<(), NoMemory>
    ensures { OnOk result (state.new ≡ (declare_function name.now offset (record {
      result = returned.now;
      params = map (λ (p : Record). p.type) params.now;
      is_defined = is_defined;
    }) state.old).1) }
{
    match state.meaning_of(name) {
        Some(Meaning::Function(number)) => {
            declare_again(state, number, offset, returned, params, is_defined);
            Ok(())
        }
        Some(_) => {
            state.breaks(RefusalKind::Redeclared, offset);
            Ok(())
        }
        None => {
            let function = declared(state.alloc(), returned, params, is_defined)?;
            state.add_declared(name, function)
        }
    }
}

fn declare_again(
    state: &mut State,
    number: u32,
    offset: u32,
    returned: &MaybeType,
    params: &[Param],
    is_defined: bool,
)
    ensures { state.new ≡ (function_meant [] offset (record {
      result = returned.now;
      params = map (λ (p : Record). p.type) params.now;
      is_defined = is_defined;
    }) (Some (means.Function number)) state.old).1 }
{
    let follows = may_follow(state.declared(number), returned, params, is_defined);
    state.breaks_if(!follows, RefusalKind::Redeclared, offset);
    state.declare_again(number, is_defined);
}

fn declared(
    alloc: Global,
    returned: &MaybeType,
    params: &[Param],
    is_defined: bool,
) -> Result<Declared, NoMemory>
    ensures { IfOk result (λ r. r ≡ record {
      result = returned.now;
      params = map (λ (p : Record). p.type) params.now;
      is_defined = is_defined;
    }) }
{
    let types = types_of(alloc, params)?;
    let returned = returned.copy()?;
    Ok(Declared {
        result: returned,
        params: types,
        is_defined,
    })
}

fn types_of(alloc: Global, params: &[Param]) -> Result<Vec<MaybeType>, NoMemory>
    ensures { IfOk result (λ r. r.items ≡ map (λ (p : Record). p.type) params.now) }
{
    let mut types = Vec::new(alloc);
    for p in params {
        types.push(p.ty.copy()?)?;
    }
    Ok(types)
}
