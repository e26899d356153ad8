//! Rows: what a recipe did to one function.

use base::{Name, NoMemory};
use r_rule::StepList;
use std::marker::Model;

/// What a recipe did to a function: its name, how many values its graph has before and after, and
/// the steps that were applied, in order. Contracts see it as a plain record.
#[derive(Debug, Drop)]
pub struct Row {
    pub name: Name,
    pub before: u32,
    pub after: u32,
    pub steps: StepList,
}

impl Model for Row {
    ghost use Rattle.cc_watch.specs.Rows.{PlainRow, coded_row};

    ghost Value = { PlainRow };

    ghost coded = { coded_row };

    ghost view = { λ r. record {
      name = r.name;
      before = r.before;
      after = r.after;
      steps = r.steps;
    } };
}
