//! Choices between two regions: a Gamma begins, its first branch is made, then the other one, and
//! it ends.
ghost use Rattle.std.specs.Prelude.{◌≡◌, ◌∷◌, [], OnOk, IfOk, option_to_list};
ghost use Rattle.g_build_expression.specs.Work.{begun, closed, ended_value};
ghost use Rattle.g_build_expression.specs.Choices.{in_order, chosen};

use crate::builder::Builder;
use base::NoMemory;
use g_graph::{Op, Origin};

/// The region of a choice that is made first, and whose nodes get their numbers first.
#[derive(Clone, Copy)]
pub enum RegionOrder {
    ZeroFirst,
    OneFirst,
}

impl Builder {
    /// A choice on a predicate begins; the branch that is made first stands open.
    pub fn choice(&mut self, predicate: Origin) -> Result<(), NoMemory>
        ensures { OnOk result (self.new ≡ begun (predicate ∷ []) self.old) }
    {
        self.begin(Some(predicate))
    }

    /// The branch that stands open ends and gives this value, if any; the next one stands open.
    pub fn otherwise(&mut self, value: Option<Origin>) -> Result<(), NoMemory>
        ensures { OnOk result (self.new ≡ closed (option_to_list value) self.old) }
    {
        self.close(value)
    }

    // The branches stand in the order of their regions.
    fn put_in_order(&mut self, order: RegionOrder) -> Result<(), NoMemory>
        ensures { OnOk result (self.new ≡ in_order order self.old) }
    {
        match order {
            RegionOrder::ZeroFirst => Ok(()),
            RegionOrder::OneFirst => self.exchange(),
        }
    }

    /// The last branch ends and gives this value, if any, and with it the choice. Its first output
    /// is given.
    #[tactic(auto, using(crate::proofs::Ends::chosen_output))]
    pub fn chosen(&mut self, value: Option<Origin>, order: RegionOrder) -> Result<Origin, NoMemory>
        ensures work { OnOk result (self.new ≡ chosen order value self.old) }
        ensures value { IfOk result (λ v. v ≡ ended_value self.old.enclosing) }
    {
        self.close(value)?;
        self.put_in_order(order)?;
        self.end(Op::Gamma, value.is_some())
    }
}
