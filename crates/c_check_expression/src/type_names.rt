//! The walk over type names and their dimensions.

ghost use Rattle.std.specs.Prelude.{◌≡◌, IfOk, OnOk};
ghost use Rattle.c_ast.specs.Expressions.{expr_tree, type_tree, dimensions as dimension_trees};
ghost use Rattle.c_ast.specs.Specifiers.{constant, spec_tree};
ghost use Rattle.c_ast.specs.Tree.{Nil, Cons};
ghost use Rattle.c_check_def.specs.Leaves.{begin_of};
ghost use Rattle.c_check_def.specs.Expressions.{expression, type_name, dimensions, size};
ghost use Rattle.c_check_def.specs.State.{after};
ghost use Rattle.c_check_state.specs.Frames.{KeepsDeclarations};

use crate::expressions::expression;
use base::NoMemory;
use c_ast::{Dimension, Span, Spec, TypeName};
use c_check_state::{MaybeType, State, named_type, specified_type};
use c_check_term::size;

/// The type that a type name names (ISO/IEC 9899:2011, 6.7.7).
#[cycle(expression)]
#[tactic(auto, using(crate::proofs::lemmas::Lists::counts), unfolding(c_ast::specs::Expressions::type_tree))]
pub fn type_name(state: &mut State, t: &TypeName) -> Result<MaybeType, NoMemory>
    ensures value { IfOk result (λ r. r ≡ (type_name (type_tree t.now) state.old).0) }
    ensures state { OnOk result (state.new ≡ (type_name (type_tree t.now) state.old).1) }
    ensures keeps { OnOk result (KeepsDeclarations state.old state.new) }
{
    let x = specified_type(state, &t.spec)?;
    let sizes = dimensions(state, t.dimensions.as_slice())?;
    named_type(
        state,
        begin(t.qualifier, &t.spec),
        &x,
        t.stars.len(),
        &sizes,
    )
}

// The offset at which specifiers begin, after a qualifier.
#[tactic(auto, unfolding(c_ast::specs::Spelling::spelled))]
fn begin(qualifier: Option<Span>, spec: &Spec) -> u32
    ensures { result ≡ begin_of (Cons (constant qualifier) (Cons (spec_tree spec.now) Nil)) }
{
    match qualifier {
        Some(span) => span.at,
        None => spec.start(),
    }
}

/// The sizes that the dimensions of an array give (6.7.6.2), each none where it breaks a rule.
#[cycle(expression)]
#[tactic(auto, using(crate::proofs::lemmas::Lists::grows))]
pub fn dimensions(state: &mut State, ds: &[Dimension]) -> Result<Vec<Option<u32>>, NoMemory>
    ensures value { IfOk result
        (λ r. r.items ≡ (dimensions (dimension_trees ds.now) state.old).0) }
    ensures state { OnOk result
        (state.new ≡ (dimensions (dimension_trees ds.now) state.old).1) }
    ensures keeps { OnOk result (KeepsDeclarations state.old state.new) }
{
    let mut sizes = Vec::new(state.alloc());
    for d in ds {
        let size = dimension(state, d)?;
        sizes.push(size)?;
    }
    Ok(sizes)
}

#[cycle(expression)]
fn dimension(state: &mut State, d: &Dimension) -> Result<Option<u32>, NoMemory>
    ensures value { IfOk result (λ r. r ≡ (after (expression (expr_tree d.now.size) state.old)
        (size (begin_of (expr_tree d.now.size)))).0) }
    ensures state { OnOk result
        (state.new ≡ (after (expression (expr_tree d.now.size) state.old)
        (size (begin_of (expr_tree d.now.size)))).1) }
    ensures keeps { OnOk result (KeepsDeclarations state.old state.new) }
{
    let a = expression(state, &d.size)?;
    Ok(size(state, d.size.start(), &a))
}
