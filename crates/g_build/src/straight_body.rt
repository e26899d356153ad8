//! The body of a function without `go`, where a `return` that is last gives the value.

ghost use Rattle.std.specs.Prelude.{◌≡◌, OnOk, IfOk};
ghost use Rattle.c_typed.specs.StmtViews.{items_of};
ghost use Rattle.g_build_def.specs.Functions.{end_value, straight_made};
ghost use Rattle.g_build_expression.specs.Work.{made};
ghost use Rattle.g_build.specs.Bodies.{returned_made};

use crate::{Objects, declare, statement};
use base::NoMemory;
use c_typed::{Item, StmtForm, TStmt};
use g_build_count::{is_return, items_follow};
use g_build_expression::Builder;
use g_graph::Origin;

/// What a function gives that ends without a `return`: 0 for `main`.
pub fn end_value(b: &mut Builder, is_main: bool) -> Result<Origin, NoMemory>
    ensures work { OnOk result (b.new ≡ made b.old (end_value is_main b.old.point)) }
    ensures value { IfOk result (λ v. v ≡ (end_value is_main b.old.point).value) }
{
    if is_main {
        b.constant(0)
    } else {
        b.undefined()
    }
}

// The value of a `return` that is last.
fn returned(b: &mut Builder, a: &TStmt) -> Result<Origin, NoMemory>
    ensures work { OnOk result (b.new ≡ made b.old (returned_made a.now b.old.point)) }
    ensures value { IfOk result (λ v. v ≡ (returned_made a.now b.old.point).value) }
{
    match &a.form {
        StmtForm::ReturnValue(e) => b.expression(e),
        _ => b.undefined(),
    }
}

/// The items of a body without `go`, and the value of the function.
pub fn straight(
    b: &mut Builder,
    is_main: bool,
    objects: &Objects,
    items: &[Item],
) -> Result<Origin, NoMemory>
    ensures work { OnOk result (b.new ≡
        made b.old (straight_made is_main objects.now (items_of items.now) b.old.point)) }
    ensures value { IfOk result (λ v. v ≡
        (straight_made is_main objects.now (items_of items.now) b.old.point).value) }
{
    for i in 0..items.len() {
        match &items[i] {
            Item::Statement(a) => {
                if !items_follow(items, i) && is_return(a) {
                    return returned(b, a);
                }
                statement(b, objects, a)?;
            }
            Item::Variable(d) => declare(b, objects, d)?,
        }
    }
    end_value(b, is_main)
}
