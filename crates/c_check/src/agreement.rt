//! Whether a declaration of a function agrees with an earlier one.

ghost use Rattle.std.specs.Prelude.{◌≡◌, map};
ghost use Rattle.std.specs.Option.{option_copied};
ghost use Rattle.c_check_def.specs.Externals.{Param as Record, agree, all_agree, may_follow};

use crate::param::Param;
use c_check_state::{Declared, MaybeType};
use c_operator::same_type;

// Whether a function may be declared like this after its earlier declaration (ISO/IEC 9899:2011,
// 6.7p4, 6.9p3).
pub(crate) fn may_follow(
    earlier: Option<&Declared>,
    returned: &MaybeType,
    params: &[Param],
    is_defined: bool,
) -> bool
    ensures { result ≡ may_follow (option_copied earlier.entry) (record {
      result = returned.now;
      params = map (λ (p : Record). p.type) params.now;
      is_defined = is_defined;
    }) }
{
    match earlier {
        Some(g) => {
            agree(&g.result, returned)
                && all_agree(g.params.as_slice(), params)
                && !(g.is_defined && is_defined)
        }
        None => false,
    }
}

fn all_agree(types: &[MaybeType], params: &[Param]) -> bool
    ensures { result ≡ all_agree types.now (map (λ (p : Record). p.type) params.now) }
{
    if types.len() != params.len() {
        return false;
    }
    for i in 0..types.len() {
        let p = &params[i];
        if !agree(&types[i], &p.ty) {
            return false;
        }
    }
    true
}

// A type that breaks a rule agrees with every type.
fn agree(t: &MaybeType, u: &MaybeType) -> bool
    ensures { result ≡ agree t.now u.now }
{
    match (&t.ty, &u.ty) {
        (Some(t), Some(u)) => same_type(t, u),
        _ => true,
    }
}
