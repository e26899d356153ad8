//! The names of the functions that a file defines.

ghost use Rattle.std.specs.Prelude.{◌≡◌, ◌∷◌, [], IfOk, OnOk};
ghost use Rattle.c_ast.specs.Nodes.{many};
ghost use Rattle.c_ast.specs.Productions as l;
ghost use Rattle.c_ast.specs.Externals.{external_tree, body_tree};
ghost use Rattle.c_check_def.specs.Externals.{is_block};
ghost use Rattle.c_check_def.specs.Check.{defined_in, defined_by, with_defined};

use base::NoMemory;
use c_ast::{Body, External};
use c_check_scope::Names;
use std::alloc::Global;

/// The names of the functions that a file defines, in the order of their definitions.
pub(crate) fn defined_in(alloc: Global, xs: &[External]) -> Result<Names, NoMemory>
    ensures { IfOk result
        (λ r. r ≡ defined_in (many l.Externals (λ x. external_tree x ∷ []) xs.now)) }
{
    let mut names = Names::new(alloc);
    for x in xs {
        define(&mut names, x)?;
    }
    Ok(names)
}

// Inserts the name of a function that is defined.
#[tactic(auto, using(crate::proofs::DefinedLemmas::defined))]
fn define(names: &mut Names, x: &External) -> Result<(), NoMemory>
    ensures { OnOk result
        (names.new ≡ with_defined names.old (defined_by (external_tree x.now))) }
{
    match x {
        External::Function(f) => {
            if is_block(&f.body) {
                names.insert(&f.name.name)?;
            }
            Ok(())
        }
        External::Struct(_) | External::Globals(_) => Ok(()),
    }
}

/// Whether a function has a body.
#[tactic(auto, unfolding(c_ast::specs::Externals::body_tree, c_ast::specs::Statements::block_tree))]
pub(crate) fn is_block(x: &Body) -> bool
    ensures { result ≡ is_block (body_tree x.now) }
{
    matches!(x, Body::Block(_))
}
