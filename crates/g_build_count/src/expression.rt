//! How many values expressions, conditions and the objects that they designate have.

ghost use Rattle.std.specs.Prelude.{◌≡◌};
ghost use Rattle.g_graph.specs.Count.{saturated};
ghost use Rattle.g_build_count.specs.Values.{expr_values, tested_values, place_values, in_memory};

use crate::operations::{
    binary_values, choice_values, compound_values, condition_values, conditional_extras,
    converted_values, read_values, unary_values,
};
use crate::scope::Scope;
use c_typed::{ExprForm, PlaceForm, TExpr, TPlace};

// How many values the address of a place has, and whether the place is in memory.
#[derive(Clone, Copy)]
struct PlaceCount {
    values: u64,
    in_memory: bool,
}

/// Of an expression.
#[cycle(expressions)]
pub fn expr_values(e: &TExpr, carried: u64, scope: &Scope) -> u64
    ensures { result ≡ saturated (expr_values carried scope.now.objects e.now) }
{
    match &e.form {
        ExprForm::Constant(_) => 2,
        ExprForm::Read(p) => {
            let place = place_values(p, carried, scope);
            place
                .values
                .saturating_add(read_values(place.in_memory, &e.ty))
        }
        ExprForm::Address(p) => place_values(p, carried, scope).values,
        ExprForm::Unary(op, a) => {
            expr_values(a, carried, scope).saturating_add(unary_values(*op, &e.ty))
        }
        ExprForm::Binary(op, a, b) => expr_values(a, carried, scope)
            .saturating_add(expr_values(b, carried, scope))
            .saturating_add(binary_values(*op, &a.ty)),
        ExprForm::LogicalAnd(a, b) | ExprForm::LogicalOr(a, b) => {
            let second = tested_values(b, carried, scope).saturating_add(4);
            tested_values(a, carried, scope).saturating_add(choice_values(carried, 1, 2, second))
        }
        ExprForm::Conditional(c, a, b) => {
            let then = expr_values(a, carried, scope);
            let otherwise = expr_values(b, carried, scope);
            let extra = conditional_extras(&e.ty);
            tested_values(c, carried, scope).saturating_add(choice_values(
                carried, extra, otherwise, then,
            ))
        }
        ExprForm::Comma(es, last) => {
            let mut total = expr_values(last, carried, scope);
            for dropped in es {
                total = total.saturating_add(expr_values(dropped, carried, scope));
            }
            total
        }
        ExprForm::Assign(p, a) => {
            let place = place_values(p, carried, scope);
            let write = if place.in_memory { 2 } else { 0 };
            place
                .values
                .saturating_add(expr_values(a, carried, scope))
                .saturating_add(write)
        }
        ExprForm::Compound(op, p, a) => {
            let place = place_values(p, carried, scope);
            let write = if place.in_memory { 2 } else { 0 };
            let around = read_values(place.in_memory, &e.ty)
                + compound_values(*op)
                + converted_values(&e.ty)
                + write;
            place
                .values
                .saturating_add(expr_values(a, carried, scope))
                .saturating_add(around)
        }
        ExprForm::IncDec(_, p) => {
            let place = place_values(p, carried, scope);
            let write = if place.in_memory { 2 } else { 0 };
            let around = read_values(place.in_memory, &e.ty) + 4 + converted_values(&e.ty) + write;
            place.values.saturating_add(around)
        }
        ExprForm::Call(_, es) => {
            let mut total: u64 = 4;
            for argument in es {
                total = total.saturating_add(expr_values(argument, carried, scope));
            }
            total
        }
        ExprForm::Get => 3,
    }
}

/// Of an expression as a condition.
#[cycle(expressions)]
pub fn tested_values(e: &TExpr, carried: u64, scope: &Scope) -> u64
    ensures { result ≡ saturated (tested_values carried scope.now.objects e.now) }
{
    expr_values(e, carried, scope).saturating_add(condition_values(&e.ty))
}

// Of a place.
#[cycle(expressions)]
fn place_values(p: &TPlace, carried: u64, scope: &Scope) -> PlaceCount
    ensures values { result.values ≡
        saturated (place_values carried scope.now.objects p.now) }
    ensures memory { result.in_memory ≡ in_memory scope.now.objects p.now }
{
    match &p.form {
        PlaceForm::Local(slot) => {
            let in_memory = scope.is_object(*slot);
            let values = if in_memory { 2 } else { 0 };
            PlaceCount { values, in_memory }
        }
        PlaceForm::Global(_) => PlaceCount {
            values: 2,
            in_memory: true,
        },
        PlaceForm::At(e) => PlaceCount {
            values: expr_values(e, carried, scope),
            in_memory: true,
        },
        PlaceForm::Member(whole, _) => {
            let place = place_values(whole, carried, scope);
            let more = if place.in_memory { 4 } else { 0 };
            PlaceCount {
                values: place.values.saturating_add(more),
                in_memory: place.in_memory,
            }
        }
    }
}
