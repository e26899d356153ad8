//! How many values statements, items and groups have, and how they can be left.

ghost use Rattle.std.specs.Prelude.{◌≡◌, true};
ghost use Rattle.c_typed.specs.StmtViews.{items_of, groups_of};
ghost use Rattle.g_graph.specs.Count.{saturated};
ghost use Rattle.g_build_def.specs.Exits.{no_exits, stmt_exits, items_exits, groups_exits};
ghost use Rattle.g_build_count.specs.ExitsViews.{exits_of, returning};
ghost use Rattle.g_build_count.specs.Values.{stmt_values, items_values, groups_values};

use crate::declaration::{declared_object, declared_values};
use crate::exits::Leaves;
use crate::expression::{expr_values, tested_values};
use crate::loops::{do_values, leaving_values, loop_values};
use crate::operations::{choice_values, more_carried};
use crate::scope::Scope;
use crate::switch::{ends_segment, group_values, segments_of, switch_values};
use c_typed::{Group, Item, StmtForm, TStmt, Variable};

/// How many values a part has, and how it can be left.
#[derive(Clone, Copy)]
pub struct Counted {
    pub values: u64,
    pub leaves: Leaves,
}

// A part that cannot be left.
fn plain(values: u64) -> Counted
    ensures values { result.values ≡ values }
    ensures leaves { exits_of result.leaves ≡ no_exits }
{
    Counted {
        values,
        leaves: Leaves::none(),
    }
}

// A `return` with a value of so many values.
fn returned(values: u64) -> Counted
    ensures values { result.values ≡ values }
    ensures leaves { exits_of result.leaves ≡ returning }
{
    Counted {
        values,
        leaves: Leaves {
            returns: true,
            breaks: false,
            continues: false,
        },
    }
}

/// Of a statement.
#[cycle(statements)]
pub fn stmt_values(variables: &[Variable], a: &TStmt, carried: u64, scope: &Scope) -> Counted
    ensures values { result.values ≡
        saturated (stmt_values variables.now carried scope.now.objects a.now) }
    ensures leaves { exits_of result.leaves ≡ stmt_exits a.now }
{
    match &a.form {
        StmtForm::Null => plain(0),
        StmtForm::Value(e) => plain(expr_values(e, carried, scope)),
        StmtForm::Block(items) => items_values(variables, items, carried, scope),
        StmtForm::IfElse(e, then, otherwise) => {
            let first = stmt_values(variables, then, carried, scope);
            let second = stmt_values(variables, otherwise, carried, scope);
            let choice = choice_values(carried, 0, second.values, first.values);
            Counted {
                values: tested_values(e, carried, scope).saturating_add(choice),
                leaves: first.leaves.either(second.leaves),
            }
        }
        StmtForm::Loop {
            condition,
            step,
            body,
        } => {
            let inner = stmt_values(variables, body, carried, scope);
            let leaves = inner.leaves.can_leave();
            Counted {
                values: loop_values(condition, step, leaves, inner.values, carried, scope),
                leaves: inner.leaves.past_loop(),
            }
        }
        StmtForm::DoWhile { body, condition } => {
            let inner = stmt_values(variables, body, carried, scope);
            let leaves = inner.leaves.can_leave();
            Counted {
                values: do_values(condition, leaves, inner.values, carried, scope),
                leaves: inner.leaves.past_loop(),
            }
        }
        StmtForm::Break => Counted {
            values: 2,
            leaves: Leaves {
                returns: false,
                breaks: true,
                continues: false,
            },
        },
        StmtForm::Continue => Counted {
            values: 2,
            leaves: Leaves {
                returns: false,
                breaks: false,
                continues: true,
            },
        },
        StmtForm::ReturnValue(e) => returned(expr_values(e, carried, scope).saturating_add(2)),
        StmtForm::ReturnNone => returned(4),
        StmtForm::Switch(e, groups) => {
            let value = expr_values(e, carried, scope);
            if groups.is_empty() {
                return plain(value);
            }
            let segments = segments_of(groups);
            let within = more_carried(carried, !segments.several);
            let inner = groups_values(variables, groups, within, scope);
            let breaks = inner.leaves.breaks;
            Counted {
                values: switch_values(value, segments, within, inner.values, breaks),
                leaves: inner.leaves.past_switch(),
            }
        }
    }
}

/// Of a list of items. Where many variables are declared in it, the items after them are counted in
/// a scope of their own.
#[cycle(statements)]
pub fn items_values(variables: &[Variable], items: &[Item], carried: u64, scope: &Scope) -> Counted
    ensures values { result.values ≡
        saturated (items_values variables.now carried scope.now.objects (items_of items.now)) }
    ensures leaves { exits_of result.leaves ≡ items_exits (items_of items.now) }
{
    let mut inner = Scope::inside(&*scope);
    let mut carried = carried;
    let mut total: u64 = 0;
    let mut leaves = Leaves::none();
    let mut left = false;
    for i in 0..items.len() {
        total = total.saturating_add(leaving_values(carried, left));
        match &items[i] {
            Item::Statement(a) => {
                let counted = stmt_values(variables, a, carried, &inner);
                total = total.saturating_add(counted.values);
                leaves = leaves.either(counted.leaves);
                left = counted.leaves.can_leave();
            }
            Item::Variable(d) => {
                total = total.saturating_add(declared_values(variables, d, carried, &inner));
                left = false;
                let is_object = declared_object(variables, d);
                carried = more_carried(carried, is_object);
                if !inner.push(is_object) {
                    let more = Scope::with(&inner, is_object);
                    let rest = items_values(variables, &items[i + 1..], carried, &more);
                    return Counted {
                        values: total.saturating_add(rest.values),
                        leaves: leaves.either(rest.leaves),
                    };
                }
            }
        }
    }
    Counted {
        values: total,
        leaves,
    }
}

// Of the groups of a `switch`.
#[cycle(statements)]
fn groups_values(variables: &[Variable], groups: &[Group], carried: u64, scope: &Scope) -> Counted
    ensures values { result.values ≡
        saturated (groups_values variables.now carried scope.now.objects
        true (groups_of groups.now)) }
    ensures leaves { exits_of result.leaves ≡ groups_exits (groups_of groups.now) }
{
    let mut total: u64 = 0;
    let mut leaves = Leaves::none();
    let mut begins = true;
    for i in 0..groups.len() {
        let ends = ends_segment(groups, i);
        let inner = items_values(variables, &groups[i].body, carried, scope);
        let can_leave = inner.leaves.can_leave();
        let values = group_values(carried, begins, ends, can_leave, inner.values);
        total = total.saturating_add(values);
        leaves = leaves.either(inner.leaves);
        begins = ends;
    }
    Counted {
        values: total,
        leaves,
    }
}
