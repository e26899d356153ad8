//! String literals that initialise arrays of characters.
#![tactic(auto, using(c_ast::proofs::lemmas::ExprViews::expr_views, crate::proofs::InitLemmas::selections))]

ghost use Rattle.std.specs.Prelude.{◌≡◌, false, IfOk, OnOk};
ghost use Rattle.c_ast.specs.Expressions.{expr_tree};
ghost use Rattle.c_check_declaration.specs.Parts.{text_in, is_list};

use base::{Bytes, NoMemory};
use c_ast::Expr;
use c_check_expression::characters;
use std::alloc::Global;

// The characters of the string literals that an expression is, outside parentheses.
pub(crate) fn text_of(alloc: Global, e: &Expr) -> Result<Option<Bytes>, NoMemory>
    ensures text { IfOk result (λ r. r ≡ text_in (expr_tree e.now)) }
    ensures plain { OnOk result (is_list (expr_tree e.now) ≡ false) }
{
    match e {
        Expr::Text { first, more } => Ok(Some(characters(alloc, first, more.as_slice())?)),
        Expr::Name(_) => Ok(None),
        Expr::Number { .. } => Ok(None),
        Expr::Char { .. } => Ok(None),
        Expr::Paren { .. } => Ok(None),
        Expr::Index { .. } => Ok(None),
        Expr::Call { .. } => Ok(None),
        Expr::Select { .. } => Ok(None),
        Expr::PostIncrement { .. } => Ok(None),
        Expr::Increment { .. } => Ok(None),
        Expr::Unary { .. } => Ok(None),
        Expr::Sizeof { .. } => Ok(None),
        Expr::SizeofType { .. } => Ok(None),
        Expr::Cast { .. } => Ok(None),
        Expr::Binary { .. } => Ok(None),
        Expr::Conditional { .. } => Ok(None),
        Expr::Assign { .. } => Ok(None),
    }
}
