//! Jumps by the variable `go`, and the conditions of loops that they may leave.

ghost use Rattle.std.specs.Prelude.{◌≡◌, true, false, OnOk, IfOk};
ghost use Rattle.c_typed.specs.Typed.{some_expr};
ghost use Rattle.c_typed.specs.StmtViews.{optional_of};
ghost use Rattle.g_build_def.specs.Jumps.{jump_made, return_made, jump_ended, break_ended, optional_tested, step_made, again_made, do_again_made};
ghost use Rattle.g_build_expression.specs.Work.{made};

use base::NoMemory;
use c_typed::TExpr;
use g_build_expression::{Builder, RegionOrder};
use g_graph::Origin;
use val_core::Op2;

/// `go` becomes a code: 1 after a `break`, 2 after a `continue`.
pub fn jump(b: &mut Builder, code: u32) -> Result<(), NoMemory>
    ensures { OnOk result (b.new ≡ made b.old (jump_made code b.old.point)) }
{
    let go = b.constant(code)?;
    b.set_go(go);
    Ok(())
}

/// `ret` becomes the value, and `go` the code after a `return`.
pub fn return_value(b: &mut Builder, value: Origin) -> Result<(), NoMemory>
    ensures { OnOk result (b.new ≡ made b.old (return_made value b.old.point)) }
{
    let go = b.constant(3)?;
    b.set_go_and_ret(go, value);
    Ok(())
}

/// `go` becomes 0 where it is this code.
pub fn end_jump(b: &mut Builder, code: u32) -> Result<(), NoMemory>
    ensures { OnOk result (b.new ≡ made b.old (jump_ended code b.old.point)) }
{
    let word = b.constant(code)?;
    let go = b.go();
    let other = b.bin(Op2::Ne, go, word)?;
    let go = b.go();
    let left = b.bin(Op2::Mul, go, other)?;
    b.set_go(left);
    Ok(())
}

/// After a loop or a `switch`: its own `break`, if any, has ended.
#[tactic(auto, using(g_build_expression::proofs::lemmas::Made::moved_made))]
pub fn end_break(b: &mut Builder, leaves: bool) -> Result<(), NoMemory>
    ensures { OnOk result (b.new ≡ made b.old (break_ended leaves b.old.point)) }
{
    if leaves {
        return end_jump(b, 1);
    }
    Ok(())
}

/// A condition that may be left out.
pub fn optional_tested(b: &mut Builder, condition: &Option<TExpr>) -> Result<Origin, NoMemory>
    ensures work { OnOk result
        (b.new ≡ made b.old (optional_tested (optional_of condition.now) b.old.point)) }
    ensures value { IfOk result
        (λ v. v ≡ (optional_tested (optional_of condition.now) b.old.point).value) }
{
    match condition {
        Some(e) => b.tested(e),
        None => b.constant(1),
    }
}

// An expression whose value is dropped, where the body was not left.
fn step_unless_left(b: &mut Builder, e: &TExpr) -> Result<(), NoMemory>
    ensures { OnOk result (b.new ≡ made b.old (step_made true (some_expr e.now) b.old.point)) }
{
    let go = b.go();
    b.choice(go)?;
    b.expression(e)?;
    b.otherwise(None)?;
    b.chosen(None, RegionOrder::ZeroFirst)?;
    Ok(())
}

fn step(b: &mut Builder, e: &TExpr) -> Result<(), NoMemory>
    ensures { OnOk result (b.new ≡ made b.old (step_made false (some_expr e.now) b.old.point)) }
{
    b.expression(e)?;
    Ok(())
}

// The step of a loop, which is done unless the body was left.
#[tactic(auto, using(g_build_expression::proofs::lemmas::Made::moved_made))]
fn optional_step(b: &mut Builder, leaves: bool, e: &Option<TExpr>) -> Result<(), NoMemory>
    ensures { OnOk result
        (b.new ≡ made b.old (step_made leaves (optional_of e.now) b.old.point)) }
{
    match e {
        Some(e) => {
            if leaves {
                step_unless_left(b, e)
            } else {
                step(b, e)
            }
        }
        None => Ok(()),
    }
}

/// Whether there is another turn of a loop, after its body.
pub fn again(b: &mut Builder, leaves: bool, e: &Option<TExpr>) -> Result<Origin, NoMemory>
    ensures work { OnOk result
        (b.new ≡ made b.old (again_made leaves (optional_of e.now) b.old.point)) }
    ensures value { IfOk result
        (λ v. v ≡ (again_made leaves (optional_of e.now) b.old.point).value) }
{
    if leaves {
        end_jump(b, 2)?;
        optional_step(b, true, e)?;
        let go = b.go();
        b.is_zero(go)
    } else {
        optional_step(b, false, e)?;
        b.constant(1)
    }
}

fn test_unless_left(b: &mut Builder, condition: &TExpr) -> Result<Origin, NoMemory>
    ensures work { OnOk result
        (b.new ≡ made b.old (do_again_made true condition.now b.old.point)) }
    ensures value { IfOk result (λ v. v ≡ (do_again_made true condition.now b.old.point).value) }
{
    end_jump(b, 2)?;
    let go = b.go();
    b.choice(go)?;
    let asked = b.tested(condition)?;
    b.otherwise(Some(asked))?;
    let zero = b.constant(0)?;
    b.chosen(Some(zero), RegionOrder::ZeroFirst)
}

/// The condition of a `do`, which is asked unless the body was left.
pub fn do_again(b: &mut Builder, leaves: bool, condition: &TExpr) -> Result<Origin, NoMemory>
    ensures work { OnOk result
        (b.new ≡ made b.old (do_again_made leaves condition.now b.old.point)) }
    ensures value { IfOk result
        (λ v. v ≡ (do_again_made leaves condition.now b.old.point).value) }
{
    if leaves {
        return test_unless_left(b, condition);
    }
    b.tested(condition)
}
