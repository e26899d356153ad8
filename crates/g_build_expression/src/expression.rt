//! Expressions: the nodes of operands come first, from left to right.

ghost use Rattle.std.specs.Prelude.{◌≡◌, OnOk, IfOk, option_to_list};
ghost use Rattle.c_typed.specs.Typed.{exprs_of, logical_and, logical_or, conditional, comma, compound};
ghost use Rattle.c_typed.specs.WellTyped.{int};
ghost use Rattle.g_build_def.specs.Operations.{apply_made};
ghost use Rattle.g_build_def.specs.Expressions.{conditional_extra, expr_made, form_made, tested, place_made, arguments_made};
ghost use Rattle.g_build_expression.specs.SlotViews.{spot_of};
ghost use Rattle.g_build_expression.specs.Work.{made};
ghost use Rattle.g_build_expression.specs.Parts.{chosen_value, compound_end, step_end};

use crate::builder::Builder;
use crate::choices::RegionOrder;
use crate::places::Spot;
use base::NoMemory;
use c_type::{CType, TypeForm};
use c_typed::{CompoundOp, ExprForm, IncDec, PlaceForm, TExpr, TPlace};
use g_graph::Origin;

// What a region of a `?:` of this type gives, if anything.
fn extra_of(t: &CType, value: Origin) -> Option<Origin>
    ensures { option_to_list result ≡ (conditional_extra t.now value).results value }
{
    match &t.form {
        TypeForm::Void => None,
        _ => Some(value),
    }
}

// The value of a `?:` of this type: the output of its Gamma, or what stands for no value.
fn conditional_value(t: &CType, predicate: Origin, output: Origin) -> Origin
    ensures { result ≡ chosen_value t.now predicate output }
{
    match &t.form {
        TypeForm::Void => predicate,
        _ => output,
    }
}

impl Builder {
    // The operation of a compound assignment, the conversion and the write.
    fn compound_written(
        &mut self,
        op: CompoundOp,
        t: &CType,
        spot: Spot,
        old: Origin,
        operand: Origin,
    ) -> Result<Origin, NoMemory>
        ensures work { OnOk result (self.new ≡
            made self.old (compound_end op t.now (spot_of spot) old operand self.old.point)) }
        ensures value { IfOk result (λ v. v ≡
            (compound_end op t.now (spot_of spot) old operand self.old.point).value) }
    {
        let new = self.compound(op, old, operand)?;
        let value = self.converted(t, new)?;
        self.spot_write(t, spot, value)
    }

    // The read, the step and the write of a place, and its old or new value.
    fn step_place(&mut self, step: &IncDec, t: &CType, spot: Spot) -> Result<Origin, NoMemory>
        ensures work { OnOk result (self.new ≡
            made self.old (step_end step.now t.now (spot_of spot) self.old.point)) }
        ensures value { IfOk result (λ v. v ≡
            (step_end step.now t.now (spot_of spot) self.old.point).value) }
    {
        let old = self.spot_read(t, spot)?;
        let new = self.stepped(step, old)?;
        let value = self.converted(t, new)?;
        self.spot_write(t, spot, value)?;
        Ok(if step.gives_old { old } else { value })
    }

    // The call of a function with these arguments.
    fn call(&mut self, function: u32, arguments: Vec<Origin>) -> Result<Origin, NoMemory>
        ensures work { OnOk result
            (self.new ≡ made self.old (apply_made function arguments.items self.old.point)) }
        ensures value { IfOk result
            (λ v. v ≡ (apply_made function arguments.items self.old.point).value) }
    {
        let mut inputs = arguments;
        inputs.push(self.memory())?;
        inputs.push(self.io())?;
        self.apply(function, &inputs)
    }

    /// The nodes of an expression, and the origin of its value.
    #[cycle(expressions)]
    pub fn expression(&mut self, e: &TExpr) -> Result<Origin, NoMemory>
        ensures work { OnOk result (self.new ≡ made self.old (expr_made e.now self.old.point)) }
        ensures value { IfOk result (λ v. v ≡ (expr_made e.now self.old.point).value) }
    {
        match &e.form {
            ExprForm::Constant(word) => self.constant(*word),
            ExprForm::Read(p) => {
                let spot = self.place(p)?;
                self.spot_read(&e.ty, spot)
            }
            ExprForm::Address(p) => {
                let spot = self.place(p)?;
                Ok(self.spot_address(spot))
            }
            ExprForm::Unary(op, a) => {
                let value = self.expression(a)?;
                self.unary(*op, &e.ty, &a.ty, value)
            }
            ExprForm::Binary(op, a, b) => {
                let left = self.expression(a)?;
                let right = self.expression(b)?;
                self.binary(*op, &a.ty, left, right)
            }
            ExprForm::Assign(p, a) => {
                let spot = self.place(p)?;
                let value = self.expression(a)?;
                self.spot_write(&e.ty, spot, value)
            }
            ExprForm::LogicalAnd(a, b) => self.logical_and(a, b),
            ExprForm::LogicalOr(a, b) => self.logical_or(a, b),
            ExprForm::Conditional(c, a, b) => self.conditional(&e.ty, c, a, b),
            ExprForm::Comma(es, last) => self.comma(es, last),
            ExprForm::Compound(op, p, a) => self.compound_assignment(*op, &e.ty, p, a),
            ExprForm::IncDec(step, p) => {
                let spot = self.place(p)?;
                self.step_place(step, &e.ty, spot)
            }
            ExprForm::Call(function, es) => {
                let arguments = self.arguments(es)?;
                self.call(*function, arguments)
            }
            ExprForm::Get => self.get(),
        }
    }

    #[cycle(expressions)]
    fn logical_and(&mut self, a: &TExpr, b: &TExpr) -> Result<Origin, NoMemory>
        ensures work { OnOk result (self.new ≡
            made self.old (form_made int (logical_and a.now b.now) self.old.point)) }
        ensures value { IfOk result (λ v. v ≡
            (form_made int (logical_and a.now b.now) self.old.point).value) }
    {
        let predicate = self.tested(a)?;
        self.choice(predicate)?;
        let zero = self.constant(0)?;
        self.otherwise(Some(zero))?;
        let second = self.tested(b)?;
        let value = self.is_not_zero(second)?;
        self.chosen(Some(value), RegionOrder::ZeroFirst)
    }

    #[cycle(expressions)]
    fn logical_or(&mut self, a: &TExpr, b: &TExpr) -> Result<Origin, NoMemory>
        ensures work { OnOk result (self.new ≡
            made self.old (form_made int (logical_or a.now b.now) self.old.point)) }
        ensures value { IfOk result (λ v. v ≡
            (form_made int (logical_or a.now b.now) self.old.point).value) }
    {
        let predicate = self.tested(a)?;
        self.choice(predicate)?;
        let second = self.tested(b)?;
        let value = self.is_not_zero(second)?;
        self.otherwise(Some(value))?;
        let one = self.constant(1)?;
        self.chosen(Some(one), RegionOrder::ZeroFirst)
    }

    #[cycle(expressions)]
    fn conditional(
        &mut self,
        t: &CType,
        c: &TExpr,
        a: &TExpr,
        b: &TExpr,
    ) -> Result<Origin, NoMemory>
        ensures work { OnOk result (self.new ≡
            made self.old (form_made t.now (conditional c.now a.now b.now) self.old.point)) }
        ensures value { IfOk result (λ v. v ≡
            (form_made t.now (conditional c.now a.now b.now) self.old.point).value) }
    {
        let predicate = self.tested(c)?;
        self.choice(predicate)?;
        let first = self.expression(b)?;
        self.otherwise(extra_of(t, first))?;
        let second = self.expression(a)?;
        let output = self.chosen(extra_of(t, second), RegionOrder::ZeroFirst)?;
        Ok(conditional_value(t, predicate, output))
    }

    #[cycle(expressions)]
    fn comma(&mut self, es: &[TExpr], last: &TExpr) -> Result<Origin, NoMemory>
        ensures work { OnOk result (self.new ≡
            made self.old (form_made int (comma (exprs_of es.now) last.now) self.old.point)) }
        ensures value { IfOk result (λ v. v ≡
            (form_made int (comma (exprs_of es.now) last.now) self.old.point).value) }
    {
        for dropped in es {
            self.expression(dropped)?;
        }
        self.expression(last)
    }

    #[cycle(expressions)]
    fn compound_assignment(
        &mut self,
        op: CompoundOp,
        t: &CType,
        p: &TPlace,
        a: &TExpr,
    ) -> Result<Origin, NoMemory>
        ensures work { OnOk result (self.new ≡
            made self.old (form_made t.now (compound op p.now a.now) self.old.point)) }
        ensures value { IfOk result (λ v. v ≡
            (form_made t.now (compound op p.now a.now) self.old.point).value) }
    {
        let spot = self.place(p)?;
        let old = self.spot_read(t, spot)?;
        let operand = self.expression(a)?;
        self.compound_written(op, t, spot, old, operand)
    }

    #[cycle(expressions)]
    fn arguments(&mut self, es: &[TExpr]) -> Result<Vec<Origin>, NoMemory>
        ensures work { OnOk result (self.new ≡
            made self.old (arguments_made (exprs_of es.now) self.old.point)) }
        ensures value { IfOk result (λ v. v.items ≡
            (arguments_made (exprs_of es.now) self.old.point).value) }
    {
        let mut inputs = self.no_origins();
        for argument in es {
            inputs.push(self.expression(argument)?)?;
        }
        Ok(inputs)
    }

    /// The nodes of an expression as a condition.
    #[cycle(expressions)]
    pub fn tested(&mut self, e: &TExpr) -> Result<Origin, NoMemory>
        ensures work { OnOk result (self.new ≡ made self.old (tested e.now self.old.point)) }
        ensures value { IfOk result (λ v. v ≡ (tested e.now self.old.point).value) }
    {
        let value = self.expression(e)?;
        self.condition(&e.ty, value)
    }

    #[cycle(expressions)]
    fn place(&mut self, p: &TPlace) -> Result<Spot, NoMemory>
        ensures work { OnOk result (self.new ≡ made self.old (place_made p.now self.old.point)) }
        ensures value { IfOk result (λ v. spot_of v ≡ (place_made p.now self.old.point).value) }
    {
        match &p.form {
            PlaceForm::Local(slot) => self.slot_spot(*slot),
            PlaceForm::Global(number) => {
                let address = self.delta(*number)?;
                Ok(Spot::AtAddress(address))
            }
            PlaceForm::At(e) => {
                let address = self.expression(e)?;
                Ok(Spot::AtAddress(address))
            }
            PlaceForm::Member(whole, offset) => {
                let spot = self.place(whole)?;
                self.member_spot(spot, *offset)
            }
        }
    }
}
