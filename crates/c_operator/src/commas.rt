//! The comma operator.

ghost use Rattle.std.specs.Prelude.{◌≡◌, IfOk};
ghost use Rattle.c_typed.specs.Typed.{exprs_of};
ghost use Rattle.c_check_def.specs.Operators.{comma_typed};

use crate::types::shared;
use base::NoMemory;
use c_typed::{ExprForm, TExpr};
use std::alloc::Global;

/// Values with commas between them (ISO/IEC 9899:2011, 6.5.17): those that are dropped, in order,
/// and the last, whose value is that of the whole.
pub fn comma(alloc: Global, dropped: Vec<TExpr>, last: TExpr) -> Result<TExpr, NoMemory>
    ensures { IfOk result (λ r. r ≡ comma_typed (exprs_of dropped.items) last) }
{
    let last = Box::new(alloc, last)?;
    let ty = shared(&last.ty)?;
    let form = ExprForm::Comma(dropped, last);
    Ok(TExpr { ty, form })
}
