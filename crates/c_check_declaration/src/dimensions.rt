//! Dimensions of declarators, with constant sizes.

ghost use Rattle.std.specs.Prelude.{◌≡◌, [], ◌∷◌, IfOk, OnOk};
ghost use Rattle.c_ast.specs.Declarations.{open_dimensions as dimension_trees};
ghost use Rattle.c_ast.specs.Expressions.{expr_tree};
ghost use Rattle.c_ast.specs.Nodes.{opt};
ghost use Rattle.c_ast.specs.Productions as l;
ghost use Rattle.c_check_def.specs.Declarators.{open_dimension, open_dimensions};
ghost use Rattle.c_check_state.specs.Frames.{KeepsDeclarations};
ghost use Rattle.c_check_declaration.specs.Bounds.{bound_dimension};

use base::NoMemory;
use c_ast::{Expr, OpenDimension};
use c_check_def::Dimension;
use c_check_expression::expression;
use c_check_state::State;
use c_check_term::size;

/// The dimensions of a declarator, whose sizes are constants, the outermost first (ISO/IEC
/// 9899:2011, 6.7.6.2).
pub fn open_dimensions(
    state: &mut State,
    dimensions: &[OpenDimension],
) -> Result<Vec<Dimension>, NoMemory>
    ensures value { IfOk result
        (λ r. r.items ≡ (open_dimensions (dimension_trees dimensions.now) state.old).0) }
    ensures state { OnOk result
        (state.new ≡ (open_dimensions (dimension_trees dimensions.now) state.old).1) }
    ensures keeps { OnOk result (KeepsDeclarations state.old state.new) }
{
    let mut all = Vec::new(state.alloc());
    for d in dimensions {
        all.push(open_dimension(state, &d.size)?)?;
    }
    Ok(all)
}

fn open_dimension(state: &mut State, bound: &Option<Expr>) -> Result<Dimension, NoMemory>
    ensures value { IfOk result (λ r. r ≡
        (open_dimension (opt l.Size (λ e. expr_tree e ∷ []) bound.now) state.old).0) }
    ensures state { OnOk result (state.new ≡
        (open_dimension (opt l.Size (λ e. expr_tree e ∷ []) bound.now) state.old).1) }
    ensures keeps { OnOk result (KeepsDeclarations state.old state.new) }
{
    match bound {
        Some(bound) => Ok(Dimension::Sized(bound_size(state, bound)?)),
        None => Ok(Dimension::Empty),
    }
}

fn bound_size(state: &mut State, bound: &Expr) -> Result<Option<u32>, NoMemory>
    ensures value { IfOk result
        (λ r. Dimension.Sized r ≡ (bound_dimension (expr_tree bound.now) state.old).0) }
    ensures state { OnOk result
        (state.new ≡ (bound_dimension (expr_tree bound.now) state.old).1) }
    ensures keeps { OnOk result (KeepsDeclarations state.old state.new) }
{
    let a = expression(state, bound)?;
    Ok(size(state, bound.start(), &a))
}
