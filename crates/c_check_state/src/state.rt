//! The state of the checker, and the first broken rule in it.

ghost use Rattle.std.specs.Prelude.{◌≡◌};
ghost use Rattle.c_check_def.specs.Refusals.{first_of_both, is_before, rule_number};
ghost use Rattle.c_check_def.specs.State.{breaks, breaks_if};

use crate::declared::Declared;
use crate::globals::GlobalObject;
use crate::variables::Variable;
use c_check_def::{Broken, Meaning, RefusalKind};
use c_check_scope::{Members, Names, Scopes, Tags};
use c_type::Types;
use c_typed::TFunction;
use std::alloc::Global;
use std::marker::Model;

/// What is known at a point of a program: the first broken rule so far; scopes, tags and the
/// definitions of structs; the functions that the file defines anywhere and those that are declared
/// so far; the globals so far; the variables of the function so far, by number, and those in scope,
/// by slot; and the functions that are defined so far. Contracts see a plain record.
#[derive(Drop)]
pub struct State {
    pub(crate) broken: Option<Broken>,
    pub(crate) scopes: Scopes<Meaning>,
    pub(crate) tags: Tags,
    pub(crate) structs: Types,
    pub(crate) members: Members,
    pub(crate) defined: Names,
    pub(crate) declared: Vec<Declared>,
    pub(crate) globals: Vec<GlobalObject>,
    pub(crate) variables: Vec<Variable>,
    pub(crate) slots: Vec<u32>,
    pub(crate) functions: Vec<TFunction>,
}

impl Model for State {
    ghost use Rattle.c_check_def.specs.State.{State as Record};
    ghost use Rattle.c_check_state.specs.Codes.{coded_state};

    ghost Value = { Record };

    ghost coded = { coded_state };

    ghost view = { λ s. record {
      broken = s.broken;
      scopes = s.scopes;
      tags = s.tags;
      structs = s.structs;
      members = s.members;
      defined = s.defined;
      declared = s.declared.items;
      globals = s.globals.items;
      variables = s.variables.items;
      slots = s.slots.items;
      functions = s.functions.items;
    } };
}

impl State {
    /// The allocator that its memory is of.
    pub fn alloc(&self) -> Global {
        *self.slots.allocator()
    }

    /// The first broken rule so far (the least offset decides, then the least number).
    pub fn broken(&self) -> Option<Broken>
        ensures { result ≡ self.now.broken }
    {
        self.broken
    }

    /// Notes a broken rule at an offset.
    pub fn breaks(&mut self, rule: RefusalKind, offset: u32)
        ensures { self.new ≡ (breaks rule offset self.old).1 }
    {
        let broken = Broken { rule, offset };
        self.broken = Some(first_of_both(self.broken, broken));
    }

    /// Notes a broken rule at an offset, if it is one.
    pub fn breaks_if(&mut self, wrong: bool, rule: RefusalKind, offset: u32)
        ensures { self.new ≡ (breaks_if wrong rule offset self.old).1 }
    {
        if wrong {
            self.breaks(rule, offset);
        }
    }
}

// Whether the first of two broken rules is reported.
fn is_before(a: Broken, b: Broken) -> bool
    ensures { result ≡ is_before a b }
{
    a.offset < b.offset || (a.offset == b.offset && rule_number(a.rule) < rule_number(b.rule))
}

// The number of a rule.
fn rule_number(rule: RefusalKind) -> u8
    ensures { result ≡ rule_number rule }
{
    match rule {
        RefusalKind::Unknown => 31,
        RefusalKind::Redeclared => 32,
        RefusalKind::NotAssignable => 33,
        RefusalKind::BadOperands => 34,
        RefusalKind::BadCall => 35,
        RefusalKind::NotConstant => 36,
        RefusalKind::BadInitialiser => 37,
        RefusalKind::BadType => 38,
        RefusalKind::BadReturn => 39,
        RefusalKind::BadJump => 40,
        RefusalKind::BadLabel => 43,
    }
}

// The one of two broken rules that is reported.
fn first_of_both(earlier: Option<Broken>, broken: Broken) -> Broken
    ensures { result ≡ first_of_both earlier broken }
{
    match earlier {
        Some(earlier) => {
            if is_before(broken, earlier) {
                broken
            } else {
                earlier
            }
        }
        None => broken,
    }
}
