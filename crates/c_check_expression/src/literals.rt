//! Neighbouring string literals, which are one.

ghost use Rattle.std.specs.Prelude.{◌≡◌, ◌++◌, IfOk, OnOk};
ghost use Rattle.c_ast.specs.Expressions.{texts};
ghost use Rattle.c_check_def.specs.Operands.{string};
ghost use Rattle.c_check_def.specs.Expressions.{more_characters};
ghost use Rattle.c_check_state.specs.Frames.{KeepsDeclarations};

use base::{Bytes, NoMemory};
use c_ast::Literal;
use c_check_state::{State, Term};
use c_check_term::string;
use std::alloc::Global;

// Neighbouring string literals, which are one.
pub(crate) fn text(state: &mut State, first: &Literal, more: &[Literal]) -> Result<Term, NoMemory>
    ensures value { IfOk result (λ r. r ≡ (string first.now.span.at
        (first.now.bytes ++ more_characters (texts more.now)) state.old).0) }
    ensures state { OnOk result (state.new ≡ (string first.now.span.at
        (first.now.bytes ++ more_characters (texts more.now)) state.old).1) }
    ensures keeps { OnOk result (KeepsDeclarations state.old state.new) }
{
    let characters = characters(state.alloc(), first, more)?;
    string(state, first.span.at, characters)
}

/// The characters of neighbouring string literals, one after another (ISO/IEC 9899:2011,
/// 5.1.1.2p1).
#[tactic(auto, using(crate::proofs::lemmas::Lists::grows))]
pub fn characters(alloc: Global, first: &Literal, more: &[Literal]) -> Result<Bytes, NoMemory>
    ensures { IfOk result
        (λ r. r ≡ first.now.bytes ++ more_characters (texts more.now)) }
{
    let mut bytes = first.bytes.as_slice().to_vec(alloc)?;
    for literal in more {
        bytes.extend_from_slice(literal.bytes.as_slice())?;
    }
    Ok(Bytes::from_vec(bytes))
}
