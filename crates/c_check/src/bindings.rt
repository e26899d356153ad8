//! Parameters of functions that are defined: their names, put into scope.

ghost use Rattle.std.specs.Prelude.{◌≡◌, OnOk};
ghost use Rattle.c_check_def.specs.Externals.{bind_if, bind_params, name_params};

use crate::param::Param;
use base::{Name, NoMemory};
use c_check_def::{Meaning, RefusalKind};
use c_check_state::State;

/// Notes a broken rule at each parameter without a name, as the definition of a function may have
/// none (ISO/IEC 9899:2011, 6.9.1p5).
pub fn name_params(state: &mut State, params: &[Param])
    ensures { state.new ≡ (name_params params.now state.old).1 }
{
    for p in params {
        state.breaks_if(p.name.is_none(), RefusalKind::BadType, p.offset);
    }
}

/// Puts the parameters into scope, the first in slot 0, where the body of a function begins
/// (6.9.1p9).
pub fn bind_params(state: &mut State, params: &[Param]) -> Result<(), NoMemory>
    ensures { OnOk result (state.new ≡ (bind_params 0 params.now state.old).1) }
{
    if params.len() >= u32::MAX as usize {
        return Err(NoMemory);
    }
    let mut slot: u32 = 0;
    for p in params {
        state.add_slot(slot)?;
        let meaning = Meaning::Variable {
            slot,
            is_const: p.is_const,
        };
        bind_if(state, &p.name, meaning)?;
        slot += 1;
    }
    Ok(())
}

fn bind_if(state: &mut State, name: &Option<Name>, meaning: Meaning) -> Result<(), NoMemory>
    ensures { OnOk result (state.new ≡ (bind_if name.now meaning state.old).1) }
{
    match name {
        Some(name) => state.bind(name, meaning),
        None => Ok(()),
    }
}
