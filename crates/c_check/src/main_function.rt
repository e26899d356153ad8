//! The test for `main`.

ghost use Rattle.std.specs.Prelude.{◌≡◌, IfOk};
ghost use Rattle.std.specs.Option.{option_copied};
ghost use Rattle.c_typed.specs.WellTyped.{int};
ghost use Rattle.c_check_def.specs.Types.{same_type};
ghost use Rattle.c_check_def.specs.Check.{has_main, is_main};

use base::{Name, NoMemory};
use c_check_state::State;
use c_operator::same_type;
use c_type::{CType, Scalar};
use c_typed::TFunction;

/// Whether the file defines `main` as `int main(void)` (ISO/IEC 9899:2011, 5.1.2.2.1).
pub(crate) fn has_main(state: &State) -> Result<bool, NoMemory>
    ensures { IfOk result (λ r. r ≡ has_main state.now) }
{
    let name = Name::from_slice(state.alloc(), b"main")?;
    match state.defined_number(&name) {
        Some(number) => Ok(is_main(state.functions().get(number as usize))),
        None => Ok(false),
    }
}

fn is_main(f: Option<&TFunction>) -> bool
    ensures { result ≡ is_main (option_copied f.entry) }
{
    match f {
        Some(f) => is_int(&f.result) && f.params == 0,
        None => false,
    }
}

fn is_int(t: &CType) -> bool
    ensures { result ≡ same_type t.now int }
{
    same_type(t, &CType::scalar(Scalar::Int))
}
