//! Rules that look at their lambda alone, and change one region of it.

ghost use Rattle.std.specs.Prelude.{◌≡◌, List, MatchBool, IfOk, OnOk, OnErr, is_some};
ghost use Rattle.std.specs.declared.option.Option.TheVariants.{Some, None};
ghost use Rattle.g_graph.specs.Plain.{PlainLambda};
ghost use Rattle.g_graph.specs.Change.{region_changed, lambda_changed};
ghost use Rattle.g_graph.specs.WellFormed.{IsWellFormed};
ghost use Rattle.r_edit.specs.Steps.{MayStandFor, IsSafeChange};

use g_graph::{CanChange, Change, Lambda, Region, can_change_lambda, change_lambda};

/// A rule at a node, as a change of the region that it changes.
pub trait RegionRule {
    ghost use Rattle.std.specs.declared.option.Option.{Option};
    ghost use Rattle.std.specs.declared.option.Option.TheVariants.{Some, None};
    ghost use Rattle.g_graph.specs.Plain.{RegionTree};

    /// Where `make` takes memory from: `()`, where it takes none.
    type Memory: Copy;

    /// What `make` answers where there is no memory.
    type Fault: Drop;

    ghost here: { Self → RegionTree → Option RegionTree };

    /// Whether the region can be changed. It takes no memory.
    fn can(&self, region: &Region) -> bool
        ensures { result ≡ is_some (here self.now region.now) };

    /// Changes the region where it can be, and answers whether it could. One that could not, or for
    /// which there was no memory, is as it was.
    fn make(&self, memory: Self::Memory, region: &mut Region) -> Result<bool, Self::Fault>
        ensures ok { IfOk result (λ done.
            MatchBool done (here self.now region.old ≡
            Some region.new) ((here self.now region.old ≡ None) × (region.new ≡ region.old))) }
        ensures err { OnErr result (region.new ≡ region.old) };
}

/// Whether the rule can change the lambda's body or a region nested in it. It takes no memory. It
/// takes time linear in the lambda, and the time of the tests.
pub fn applies<R: RegionRule>(rule: &R, lambda: &Lambda) -> bool
    ensures { result ≡ is_some (region_changed (R.here rule.now) lambda.now.body) }
{
    can_change_lambda(lambda, &Testing { rule })
}

/// Changes the first region, in pre-order, of the lambda's body and those nested in it that the rule
/// can change. It takes time linear in the lambda, and the time of `make`.
pub fn apply<R: RegionRule>(
    rule: &R,
    memory: R::Memory,
    lambda: &mut Lambda,
) -> Result<(), R::Fault>
    requires well_formed { IsWellFormed lambda.old }
    requires safe { IsSafeChange (R.here rule.now) lambda.old }
    requires stays { IsWellFormed (lambda_changed (R.here rule.now) lambda.old) }
    ensures ok { OnOk result (lambda.new ≡ lambda_changed (R.here rule.now) lambda.old) }
    ensures step { OnOk result ((held : List PlainLambda) →
        MayStandFor held lambda.old lambda.new) }
    ensures err { OnErr result (lambda.new ≡ lambda.old) }
{
    change_lambda(lambda, &mut Making { rule, memory })?;
    Ok(())
}

#[derive(Drop)]
struct Testing<'a, R> {
    rule: &'a R,
}

impl<R: RegionRule> CanChange for Testing<'_, R> {
    ghost changed = { λ t. R.here t.rule.now };

    fn can_change(&self, region: &Region) -> bool {
        self.rule.can(region)
    }
}

#[derive(Drop)]
struct Making<'a, R, M> {
    rule: &'a R,
    memory: M,
}

impl<R: RegionRule> Change for Making<'_, R, R::Memory> {
    type Fault = R::Fault;

    ghost changed = { λ m. R.here m.rule.now };

    fn make(&mut self, region: &mut Region) -> Result<bool, R::Fault> {
        self.rule.make(self.memory, region)
    }
}
