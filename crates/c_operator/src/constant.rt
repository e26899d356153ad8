//! The value of an integer constant expression, and null pointer constants.

ghost use Rattle.std.specs.Prelude.{◌≡◌};
ghost use Rattle.c_check_def.specs.Constants.{constant_value, is_null_constant};

use crate::conversion::is_integer;
use crate::form::has_constant_form;
use crate::word::expr_word;
use c_typed::TExpr;

/// The word that an integer constant expression is worth (ISO/IEC 9899:2011, 6.6p6). There is none
/// of an expression that has not the form of one, of a division by 0, and of a shift by less than 0
/// or more than 31. Arithmetic wraps.
pub fn constant_value(e: &TExpr) -> Option<u32>
    ensures { result ≡ constant_value e.now }
{
    if has_constant_form(e) {
        expr_word(e)
    } else {
        None
    }
}

/// Whether it is a null pointer constant: an integer constant expression of value 0 (6.3.2.3p3).
pub fn is_null_constant(e: &TExpr) -> bool
    ensures { result ≡ is_null_constant e.now }
{
    is_integer(&e.ty) && constant_value(e) == Some(0)
}
