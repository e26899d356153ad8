//! Terms: what expressions are, unless a rule is broken.

ghost use Rattle.std.specs.Prelude.{◌≡◌, None, Some, IfOk};

use base::NoMemory;
use c_check_def::Operand;
use std::alloc::Global;
use std::marker::Model;

/// What an expression is: an operand, or none where a rule is broken within it. Contracts see an
/// option.
#[derive(Drop)]
pub struct Term {
    pub operand: Option<Box<Operand>>,
}

impl Model for Term {
    ghost use Rattle.c_check_def.specs.Operands.{Term as Tree};
    ghost use Rattle.c_check_state.specs.Codes.{coded_term};

    ghost Value = { Tree };

    ghost coded = { coded_term };

    ghost use Rattle.std.specs.Prelude.{option_map};

    ghost view = { λ t. option_map (λ b. b.value) t.operand };
}

impl Term {
    /// No operand.
    pub fn none() -> Term
        ensures { result ≡ None }
    {
        Term { operand: None }
    }

    /// An operand.
    pub fn of(alloc: Global, operand: Operand) -> Result<Term, NoMemory>
        ensures { IfOk result (λ r. r ≡ Some operand) }
    {
        let operand = Box::new(alloc, operand)?;
        Ok(Term {
            operand: Some(operand),
        })
    }
}
