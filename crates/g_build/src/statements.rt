//! Statements. Where items follow one that can leave, they stand in a Gamma on `go`.

ghost use Rattle.std.specs.Prelude.{◌≡◌, ◌+◌, ◌-◌, ◌<◌, ◌^◌, true, false, drop, length, OnOk, IfOk, ◌&&◌};
ghost use Rattle.c_typed.specs.Typed.{if_else, loop, do_while, break, continue, return_none};
ghost use Rattle.c_typed.specs.StmtViews.{optional_of, items_of, groups_of};
ghost use Rattle.g_build_def.specs.Writer.{no_value, nothing, choice};
ghost use Rattle.g_build_def.specs.Exits.{stmt_exits, items_exits, groups_exits, past_switch, can_leave, some_items};
ghost use Rattle.g_build_def.specs.Jumps.{unless_left};
ghost use Rattle.g_build_def.specs.Switch.{switch_made, group_made};
ghost use Rattle.g_build_def.specs.Statements.{stmt_made, items_made, segments_made};
ghost use Rattle.g_build_count.specs.ExitsViews.{exits_of};
ghost use Rattle.g_build_expression.specs.Work.{made};
ghost use Rattle.g_build.specs.Variables.{pops};
ghost use Rattle.g_build.specs.Segments.{first_region, regions_closed, segment_exits};

use crate::declaration::declare;
use crate::jumps::{again, do_again, end_break, jump, optional_tested, return_value};
use crate::labels::has_several;
use crate::objects::Objects;
use crate::select::{choose_segment, end_from};
use base::NoMemory;
use c_typed::{Group, Item, StmtForm, TExpr, TStmt};
use g_build_count::{Leaves, ends_segment, items_follow};
use g_build_expression::{Builder, RegionOrder};
use g_graph::{Op, Origin};
use val_core::Op2;

// Groups are numbered from 0 on, and a number above theirs is a word too.
const MOST: usize = (1 << 32) - 2;

fn broken() -> Leaves
    ensures { exits_of result ≡ stmt_exits break }
{
    Leaves {
        returns: false,
        breaks: true,
        continues: false,
    }
}

fn continued() -> Leaves
    ensures { exits_of result ≡ stmt_exits continue }
{
    Leaves {
        returns: false,
        breaks: false,
        continues: true,
    }
}

fn returned() -> Leaves
    ensures { exits_of result ≡ stmt_exits return_none }
{
    Leaves {
        returns: true,
        breaks: false,
        continues: false,
    }
}

// Whether the items after the one at this index may be passed over, since that one can leave.
fn is_passed(left: Leaves, items: &[Item], i: usize) -> bool
    requires { i < length items.now }
    ensures { result ≡
        (can_leave (exits_of left) && some_items (items_of (drop (i + 1) items.now))) }
{
    let follow = items_follow(items, i);
    left.can_leave() && follow
}

// The newest variables leave the scope, so many.
fn pop_variables(b: &mut Builder, count: usize)
    ensures { b.new ≡ pops count b.old }
{
    for i in 0..count {
        b.pop_variable();
    }
}

/// The nodes of a statement, and how it can be left.
#[cycle(statements)]
pub fn statement(b: &mut Builder, variables: &Objects, a: &TStmt) -> Result<Leaves, NoMemory>
    ensures work { OnOk result
        (b.new ≡ made b.old (stmt_made variables.now a.now b.old.point)) }
    ensures leaves { IfOk result (λ v. exits_of v ≡ stmt_exits a.now) }
{
    match &a.form {
        StmtForm::Null => Ok(Leaves::none()),
        StmtForm::Value(e) => {
            b.expression(e)?;
            Ok(Leaves::none())
        }
        StmtForm::Block(items) => list(b, variables, items),
        StmtForm::IfElse(e, then, otherwise) => if_else(b, variables, e, then, otherwise),
        StmtForm::Loop {
            condition,
            step,
            body,
        } => loop_statement(b, variables, condition, step, body),
        StmtForm::DoWhile { body, condition } => do_statement(b, variables, body, condition),
        StmtForm::Break => {
            jump(b, 1)?;
            Ok(broken())
        }
        StmtForm::Continue => {
            jump(b, 2)?;
            Ok(continued())
        }
        StmtForm::ReturnValue(e) => {
            let value = b.expression(e)?;
            return_value(b, value)?;
            Ok(returned())
        }
        StmtForm::ReturnNone => {
            let value = b.undefined()?;
            return_value(b, value)?;
            Ok(returned())
        }
        StmtForm::Switch(e, groups) => {
            let value = b.expression(e)?;
            switch_statement(b, variables, value, groups)
        }
    }
}

// The nodes of region 1, the first branch, get their numbers first.
#[cycle(statements)]
fn if_else(
    b: &mut Builder,
    variables: &Objects,
    e: &TExpr,
    then: &TStmt,
    otherwise: &TStmt,
) -> Result<Leaves, NoMemory>
    ensures work { OnOk result (b.new ≡ made b.old
        (stmt_made variables.now (if_else e.now then.now otherwise.now) b.old.point)) }
    ensures leaves { IfOk result
        (λ v. exits_of v ≡ stmt_exits (if_else e.now then.now otherwise.now)) }
{
    let predicate = b.tested(e)?;
    b.choice(predicate)?;
    let first = statement(b, variables, then)?;
    b.otherwise(None)?;
    let second = statement(b, variables, otherwise)?;
    b.chosen(None, RegionOrder::OneFirst)?;
    Ok(first.either(second))
}

#[cycle(statements)]
fn loop_statement(
    b: &mut Builder,
    variables: &Objects,
    condition: &Option<TExpr>,
    step: &Option<TExpr>,
    body: &TStmt,
) -> Result<Leaves, NoMemory>
    ensures work { OnOk result (b.new ≡ made b.old (stmt_made variables.now
        (loop (optional_of condition.now) (optional_of step.now) body.now) b.old.point)) }
    ensures leaves { IfOk result (λ v. exits_of v ≡
        stmt_exits (loop (optional_of condition.now) (optional_of step.now) body.now)) }
{
    b.begin(None)?;
    let predicate = optional_tested(b, condition)?;
    b.choice(predicate)?;
    let zero = b.constant(0)?;
    b.otherwise(Some(zero))?;
    let inner = statement(b, variables, body)?;
    let more = again(b, inner.can_leave(), step)?;
    let turn = b.chosen(Some(more), RegionOrder::ZeroFirst)?;
    b.close(Some(turn))?;
    b.end(Op::Theta, false)?;
    end_break(b, inner.can_leave())?;
    Ok(inner.past_loop())
}

#[cycle(statements)]
fn do_statement(
    b: &mut Builder,
    variables: &Objects,
    body: &TStmt,
    condition: &TExpr,
) -> Result<Leaves, NoMemory>
    ensures work { OnOk result (b.new ≡ made b.old
        (stmt_made variables.now (do_while body.now condition.now) b.old.point)) }
    ensures leaves { IfOk result
        (λ v. exits_of v ≡ stmt_exits (do_while body.now condition.now)) }
{
    b.begin(None)?;
    let inner = statement(b, variables, body)?;
    let more = do_again(b, inner.can_leave(), condition)?;
    b.close(Some(more))?;
    b.end(Op::Theta, false)?;
    end_break(b, inner.can_leave())?;
    Ok(inner.past_loop())
}

/// The nodes of a list of items, and how it can be left. Its variables leave the scope at its end.
#[cycle(statements)]
pub fn list(b: &mut Builder, variables: &Objects, items: &[Item]) -> Result<Leaves, NoMemory>
    ensures work { OnOk result
        (b.new ≡ made b.old (items_made variables.now (items_of items.now) b.old.point)) }
    ensures leaves { IfOk result (λ v. exits_of v ≡ items_exits (items_of items.now)) }
{
    let mut leaves = Leaves::none();
    let mut count: usize = 0;
    for i in 0..items.len() {
        match &items[i] {
            Item::Statement(a) => {
                let left = statement(b, variables, a)?;
                leaves = leaves.either(left);
                if is_passed(left, items, i) {
                    let rest = unless_left(b, variables, &items[i + 1..])?;
                    pop_variables(b, count);
                    return Ok(leaves.either(rest));
                }
            }
            Item::Variable(d) => {
                declare(b, variables, d)?;
                count += 1;
            }
        }
    }
    pop_variables(b, count);
    Ok(leaves)
}

// Items that stand in a Gamma on `go`: region 0 has them, and region 1 nothing.
#[cycle(statements)]
fn unless_left(b: &mut Builder, variables: &Objects, items: &[Item]) -> Result<Leaves, NoMemory>
    ensures work { OnOk result (b.new ≡ made b.old
        (choice no_value b.old.point b.old.point.carried.go
        (items_made variables.now (items_of items.now)) nothing)) }
    ensures leaves { IfOk result (λ v. exits_of v ≡ items_exits (items_of items.now)) }
{
    let go = b.go();
    b.choice(go)?;
    let leaves = list(b, variables, items)?;
    b.otherwise(None)?;
    b.chosen(None, RegionOrder::ZeroFirst)?;
    Ok(leaves)
}

// The groups of a `switch` on a value: a Gamma on the number of the segment.
#[cycle(statements)]
fn switch_statement(
    b: &mut Builder,
    variables: &Objects,
    value: Origin,
    groups: &[Group],
) -> Result<Leaves, NoMemory>
    ensures work { OnOk result (b.new ≡ made b.old
        (switch_made value (groups_of groups.now)
        (segments_made variables.now true 0 (groups_of groups.now)) b.old.point)) }
    ensures leaves { IfOk result
        (λ v. exits_of v ≡ past_switch (groups_exits (groups_of groups.now))) }
{
    if groups.is_empty() {
        return Ok(Leaves::none());
    }
    if groups.len() > MOST {
        return Err(NoMemory);
    }
    let several = has_several(groups);
    let number = choose_segment(b, value, several, groups)?;
    b.choice(number)?;
    let leaves = segments(b, variables, groups)?;
    b.chosen(None, RegionOrder::ZeroFirst)?;
    end_from(b, several);
    end_break(b, leaves.breaks)?;
    Ok(leaves.past_switch())
}

// A region for each segment.
#[cycle(statements)]
fn segments(b: &mut Builder, variables: &Objects, groups: &[Group]) -> Result<Leaves, NoMemory>
    requires { length groups.now < 2 ^ 32 - 1 }
    ensures work { OnOk result (b.new ≡
        regions_closed b.old (segments_made variables.now true 0 (groups_of groups.now))) }
    ensures leaves { IfOk result (λ v. exits_of v ≡ groups_exits (groups_of groups.now)) }
{
    let mut leaves = Leaves::none();
    let mut begins = true;
    for i in 0..groups.len() {
        if begins {
            let left = segment(b, variables, &groups[i..], i as u32, true)?;
            b.otherwise(None)?;
            leaves = leaves.either(left);
        }
        begins = ends_segment(groups, i);
    }
    Ok(leaves)
}

// The region of the segment that the first of these groups begins, or goes on in.
#[cycle(statements)]
fn segment(
    b: &mut Builder,
    variables: &Objects,
    groups: &[Group],
    number: u32,
    begins: bool,
) -> Result<Leaves, NoMemory>
    requires some { 0 < length groups.now }
    requires few { number + length groups.now < 2 ^ 32 - 1 }
    ensures work { OnOk result (b.new ≡ made b.old
        (first_region (segments_made variables.now begins number (groups_of groups.now))
        b.old.point)) }
    ensures leaves { IfOk result (λ v. exits_of v ≡ segment_exits (groups_of groups.now)) }
{
    let ends = ends_segment(groups, 0);
    if begins && ends {
        return list(b, variables, &groups[0].body);
    }
    let left = group(b, variables, number, &groups[0].body)?;
    if ends {
        return Ok(left);
    }
    let rest = rest_of_segment(b, variables, &groups[1..], number + 1, left.can_leave())?;
    Ok(left.either(rest))
}

// The rest of a segment, which is passed over where the group before it was left.
#[cycle(statements)]
fn rest_of_segment(
    b: &mut Builder,
    variables: &Objects,
    groups: &[Group],
    number: u32,
    can_leave: bool,
) -> Result<Leaves, NoMemory>
    requires some { 0 < length groups.now }
    requires few { number + length groups.now < 2 ^ 32 - 1 }
    ensures work { OnOk result (b.new ≡ made b.old (unless_left can_leave
        (first_region (segments_made variables.now false number (groups_of groups.now)))
        b.old.point)) }
    ensures leaves { IfOk result (λ v. exits_of v ≡ segment_exits (groups_of groups.now)) }
{
    if !can_leave {
        return segment(b, variables, groups, number, false);
    }
    let go = b.go();
    b.choice(go)?;
    let leaves = segment(b, variables, groups, number, false)?;
    b.otherwise(None)?;
    b.chosen(None, RegionOrder::ZeroFirst)?;
    Ok(leaves)
}

// A group of a segment of several: its statements are done where `from` is at most its number.
#[cycle(statements)]
fn group(
    b: &mut Builder,
    variables: &Objects,
    number: u32,
    items: &[Item],
) -> Result<Leaves, NoMemory>
    requires { number < 2 ^ 32 - 1 }
    ensures work { OnOk result (b.new ≡ made b.old
        (group_made number (items_made variables.now (items_of items.now)) b.old.point)) }
    ensures leaves { IfOk result (λ v. exits_of v ≡ items_exits (items_of items.now)) }
{
    let word = b.constant(number + 1)?;
    let from = b.newest();
    let before = b.bin(Op2::Sltu, from, word)?;
    b.choice(before)?;
    b.otherwise(None)?;
    let leaves = list(b, variables, items)?;
    b.chosen(None, RegionOrder::ZeroFirst)?;
    Ok(leaves)
}
