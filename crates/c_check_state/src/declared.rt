//! Functions that are declared.

use crate::maybe_type::MaybeType;
use std::marker::Model;

/// A function that is declared, as the types of its result and its parameters, and whether it is
/// defined (ISO/IEC 9899:2011, 6.7.6.3, 6.9.1).
#[derive(Drop)]
pub struct Declared {
    pub result: MaybeType,
    pub params: Vec<MaybeType>,
    pub is_defined: bool,
}

impl Model for Declared {
    ghost use Rattle.c_check_def.specs.State.{Declared as Record};
    ghost use Rattle.c_check_state.specs.Codes.{coded_declared};

    ghost Value = { Record };

    ghost coded = { coded_declared };

    ghost view = { λ d. record {
      result = d.result;
      params = d.params.items;
      is_defined = d.is_defined;
    } };
}
