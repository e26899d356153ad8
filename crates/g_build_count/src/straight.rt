//! How many values the body of a function without `go` has, where a `return` that is last gives the
//! value.

ghost use Rattle.std.specs.Prelude.{◌≡◌, not, if◌then◌else◌, ◌&&◌};
ghost use Rattle.c_typed.specs.StmtViews.{items_of};
ghost use Rattle.g_graph.specs.Count.{saturated};
ghost use Rattle.g_build_def.specs.Exits.{is_return};
ghost use Rattle.g_build_count.specs.Values.{stmt_values, returned_values, straight_values};

use crate::declaration::{declared_object, declared_values};
use crate::expression::expr_values;
use crate::jumps::{is_return, items_follow};
use crate::operations::more_carried;
use crate::scope::Scope;
use crate::statement::stmt_values;
use c_typed::{Item, StmtForm, TStmt, Variable};

// How many values a statement of a body without jumps has, and whether it is a `return` at its end.
#[derive(Clone, Copy)]
struct Ended {
    values: u64,
    ends: bool,
}

// Of the value that a `return` gives.
fn returned_values(a: &TStmt, carried: u64, scope: &Scope) -> u64
    ensures { result ≡ saturated (returned_values carried scope.now.objects a.now) }
{
    match &a.form {
        StmtForm::ReturnValue(e) => expr_values(e, carried, scope),
        _ => 2,
    }
}

// Of a statement, which items follow or not.
fn statement_values(
    variables: &[Variable],
    a: &TStmt,
    follows: bool,
    carried: u64,
    scope: &Scope,
) -> Ended
    ensures values { result.values ≡
        (if not follows && is_return a.now
        then saturated (returned_values carried scope.now.objects a.now)
        else saturated (stmt_values variables.now carried scope.now.objects a.now)) }
    ensures ends { result.ends ≡ (not follows && is_return a.now) }
{
    if !follows && is_return(a) {
        return Ended {
            values: returned_values(a, carried, scope),
            ends: true,
        };
    }
    Ended {
        values: stmt_values(variables, a, carried, scope).values,
        ends: false,
    }
}

/// Of the body of a function without `go`, where a `return` that is last gives the value.
pub fn straight_values(variables: &[Variable], items: &[Item], carried: u64, scope: &Scope) -> u64
    ensures { result ≡
        saturated (straight_values variables.now carried scope.now.objects (items_of items.now)) }
{
    let mut inner = Scope::inside(&*scope);
    let mut carried = carried;
    let mut total: u64 = 0;
    for i in 0..items.len() {
        match &items[i] {
            Item::Statement(a) => {
                let follows = items_follow(items, i);
                let ended = statement_values(variables, a, follows, carried, &inner);
                total = total.saturating_add(ended.values);
                if ended.ends {
                    return total;
                }
            }
            Item::Variable(d) => {
                total = total.saturating_add(declared_values(variables, d, carried, &inner));
                let is_object = declared_object(variables, d);
                carried = more_carried(carried, is_object);
                if !inner.push(is_object) {
                    let more = Scope::with(&inner, is_object);
                    let rest = straight_values(variables, &items[i + 1..], carried, &more);
                    return total.saturating_add(rest);
                }
            }
        }
    }
    total.saturating_add(2)
}
