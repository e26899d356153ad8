//! Parameters of functions.

use base::Name;
use c_check_state::MaybeType;
use std::marker::Model;

/// A parameter of a function (ISO/IEC 9899:2011, 6.7.6.3): its name, where it has one; the offset
/// of its name, or else of its first token; its type, none where it breaks a rule; and whether it
/// never changes.
#[derive(Drop)]
pub struct Param {
    pub name: Option<Name>,
    pub offset: u32,
    pub ty: MaybeType,
    pub is_const: bool,
}

impl Model for Param {
    ghost use Rattle.c_check_def.specs.Externals.{Param as Record};
    ghost use Rattle.c_check.specs.Codes.{coded_param};

    ghost Value = { Record };

    ghost coded = { coded_param };

    ghost view = { λ p. record {
      name = p.name;
      offset = p.offset;
      type = p.ty;
      is_const = p.is_const;
    } };
}
