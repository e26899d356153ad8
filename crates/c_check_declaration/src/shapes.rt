//! The shapes of initialiser lists: their length, and the list `{0}`.
#![tactic(auto, using(c_ast::proofs::lemmas::ExprViews::expr_views, crate::proofs::InitLemmas::selections, c_ast::proofs::lemmas::InitViews::init_views, crate::proofs::InitLemmas::lists))]

ghost use Rattle.std.specs.Prelude.{◌≡◌, IfOk};
ghost use Rattle.c_ast.specs.Declarations.{init_tree, inits};
ghost use Rattle.c_ast.specs.Expressions.{expr_tree};
ghost use Rattle.c_check_def.specs.Initialisers.{count_in, is_zero, is_zero_list, sets_to_zero};

use crate::parts::is_list_type;
use base::NoMemory;
use c_ast::{Expr, Init, Next};
use c_check_state::MaybeType;

// How many initialisers a list has.
pub(crate) fn count_in(first: &Init, more: &[Next<Init>]) -> Result<u32, NoMemory>
    ensures { IfOk result (λ r. r ≡ count_in (inits init_tree first.now more.now)) }
{
    let _first = first;
    if more.len() < u32::MAX as usize {
        Ok(more.len() as u32 + 1)
    } else {
        Err(NoMemory)
    }
}

// Whether the list sets an object of this type to zero.
pub(crate) fn sets_to_zero(ty: &MaybeType, first: &Init, more: &[Next<Init>]) -> bool
    ensures { result ≡ sets_to_zero ty.now (inits init_tree first.now more.now) }
{
    match &ty.ty {
        Some(ty) => is_list_type(ty) && is_zero_list(first, more),
        None => false,
    }
}

// The list `{0}` (ISO/IEC 9899:2011, 6.7.9p21).
fn is_zero_list(first: &Init, more: &[Next<Init>]) -> bool
    ensures { result ≡ is_zero_list (inits init_tree first.now more.now) }
{
    more.is_empty() && is_zero(first)
}

fn is_zero(init: &Init) -> bool
    ensures { result ≡ is_zero (init_tree init.now) }
{
    match init {
        Init::Value(e) => is_zero_number(e),
        Init::List { .. } => false,
    }
}

fn is_zero_number(e: &Expr) -> bool
    ensures { result ≡ is_zero (expr_tree e.now) }
{
    match e {
        Expr::Number {
            value,
            unsigned,
            ..
        } => *value == 0 && !*unsigned,
        Expr::Name(_) => false,
        Expr::Char { .. } => false,
        Expr::Text { .. } => false,
        Expr::Paren { .. } => false,
        Expr::Index { .. } => false,
        Expr::Call { .. } => false,
        Expr::Select { .. } => false,
        Expr::PostIncrement { .. } => false,
        Expr::Increment { .. } => false,
        Expr::Unary { .. } => false,
        Expr::Sizeof { .. } => false,
        Expr::SizeofType { .. } => false,
        Expr::Cast { .. } => false,
        Expr::Binary { .. } => false,
        Expr::Conditional { .. } => false,
        Expr::Assign { .. } => false,
    }
}
