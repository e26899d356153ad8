//! The steps that a recipe took, and the lambda that they led to.

ghost use Rattle.std.specs.Prelude.{◌≡◌};

use crate::Step;
use g_graph::Lambda;
use std::marker::Model;

/// The steps that a recipe took, in order. Contracts see the list. It is made of a vector and gives
/// it back, and neither takes memory.
#[derive(Debug, Drop)]
pub struct StepList {
    steps: Vec<Step>,
}

impl Model for StepList {
    ghost use Rattle.std.specs.Prelude.{List};
    ghost use Rattle.r_rule.specs.declared.steps.Step.{Step};
    ghost use Rattle.r_rule.specs.Optimised.{coded_steps};

    ghost Value = { List Step };

    ghost coded = { coded_steps };

    ghost view = { λ s. s.steps.items };
}

impl StepList {
    /// The steps, in order.
    pub fn as_slice(&self) -> &[Step]
        ensures { result.now ≡ self.now }
    {
        &self.steps
    }

    /// The vector that holds the steps. It takes no memory.
    pub fn into_vec(self) -> Vec<Step>
        ensures { result.items ≡ self }
    {
        self.steps
    }
}

impl From<Vec<Step>> for StepList {
    ghost from_gives = { λ steps list. list ≡ steps.items };

    fn from(steps: Vec<Step>) -> StepList {
        StepList { steps }
    }
}

/// What a recipe made of a lambda: the lambda as it is now, which is well formed, the steps that
/// led there, and how many values the lambda had before them. Contracts see it as a plain record.
#[derive(Debug, Drop)]
pub struct Optimised {
    pub lambda: Lambda,
    pub steps: StepList,
    pub before: u32,
}

impl Model for Optimised {
    ghost use Rattle.r_rule.specs.Optimised.{PlainOptimised};
    ghost use Rattle.r_rule.specs.Optimised.{coded_optimised};
    ghost use Rattle.g_graph.specs.WellFormed.{IsWellFormed};

    ghost Value = { PlainOptimised };

    ghost coded = { coded_optimised };

    ghost view = { λ o. record { lambda = o.lambda; steps = o.steps; before = o.before } };

    ghost invariant = { λ o. IsWellFormed o.lambda };
}
