//! Statements of the form `switch`, with their groups.

ghost use Rattle.std.specs.Prelude.{◌≡◌, IfOk, OnOk};
ghost use Rattle.c_ast.specs.Expressions.{list_tree};
ghost use Rattle.c_ast.specs.Statements.{stmt_tree, stmts_tree, group_tree, groups_tree};
ghost use Rattle.c_typed.specs.StmtViews.{items_of, groups_of};
ghost use Rattle.c_check_def.specs.Statements.{next_group, groups, group};
ghost use Rattle.c_check_statement.specs.Parts.{jumps_of, switch_statement, group_items};

use crate::blocks::{statement_item, statements};
use crate::{Jumps, add_group, switch_stmt};
use base::NoMemory;
use c_ast::{Group, Subject};
use c_check_expression::{Labels, group_labels, subject_at};
use c_check_state::{MaybeType, State};
use c_typed::{Group as TGroup, Item, TStmt};

/// A `switch` at an offset (ISO/IEC 9899:2011, 6.8.4.2).
#[cycle(statement)]
pub(crate) fn switch_statement(
    xs: &[Group],
    state: &mut State,
    jumps: Jumps,
    gives: &MaybeType,
    offset: u32,
    subject: &Subject,
) -> Result<TStmt, NoMemory>
    ensures value { IfOk result (λ r. r ≡ (switch_statement (jumps_of jumps gives.now) offset
        (list_tree subject.now.value) (groups_tree xs.now) state.old).0) }
    ensures state { OnOk result (state.new ≡ (switch_statement (jumps_of jumps gives.now) offset
        (list_tree subject.now.value) (groups_tree xs.now) state.old).1) }
{
    let e = subject_at(state, offset, subject.value.get())?;
    let inner = Jumps {
        may_break: true,
        may_continue: jumps.may_continue,
    };
    match groups(xs, state, inner, gives) {
        Ok(made) => Ok(switch_stmt(e, made)),
        Err(fault) => {
            drop(e);
            Err(fault)
        }
    }
}

#[cycle(statement)]
fn groups(
    xs: &[Group],
    state: &mut State,
    jumps: Jumps,
    gives: &MaybeType,
) -> Result<Vec<TGroup>, NoMemory>
    ensures value { IfOk result (λ r. groups_of r.items ≡
        (groups (jumps_of jumps gives.now) (groups_tree xs.now) state.old).0.groups) }
    ensures state { OnOk result
        (state.new ≡ (groups (jumps_of jumps gives.now) (groups_tree xs.now) state.old).1) }
{
    let mut labels = Labels::new(state.alloc());
    let mut out = Vec::new(state.alloc());
    for x in xs {
        labels = group(x, state, jumps, gives, labels, &mut out)?;
    }
    Ok(out)
}

// Appends a group. It gives the labels so far, for the next one.
#[cycle(statement)]
#[tactic(auto, unfolding(c_ast::specs::Statements::group_tree))]
fn group(
    x: &Group,
    state: &mut State,
    jumps: Jumps,
    gives: &MaybeType,
    labels: Labels,
    out: &mut Vec<TGroup>,
) -> Result<Labels, NoMemory>
    ensures labels { IfOk result (λ r. r ≡ next_group (group (jumps_of jumps gives.now)
        (record { labels = labels; groups = groups_of out.old.items })
        (group_tree x.now) state.old).0.labels) }
    ensures groups { OnOk result (groups_of out.new.items ≡ (group (jumps_of jumps gives.now)
        (record { labels = labels; groups = groups_of out.old.items })
        (group_tree x.now) state.old).0.groups) }
    ensures state { OnOk result (state.new ≡ (group (jumps_of jumps gives.now)
        (record { labels = labels; groups = groups_of out.old.items })
        (group_tree x.now) state.old).1) }
{
    let all = group_labels(state, labels, &x.label, x.labels.as_slice())?;
    let body = group_items(x, state, jumps, gives)?;
    add_group(all, body, out)
}

// The statements of a group.
#[cycle(statement)]
fn group_items(
    x: &Group,
    state: &mut State,
    jumps: Jumps,
    gives: &MaybeType,
) -> Result<Vec<Item>, NoMemory>
    ensures value { IfOk result (λ r. items_of r.items ≡ (group_items
        (jumps_of jumps gives.now) (stmt_tree x.now.first) (stmts_tree x.now.more)
        state.old).0) }
    ensures state { OnOk result (state.new ≡ (group_items
        (jumps_of jumps gives.now) (stmt_tree x.now.first) (stmts_tree x.now.more)
        state.old).1) }
{
    let mut body = Vec::new(state.alloc());
    statement_item(x.first.get(), state, jumps, gives, &mut body)?;
    statements(x.more.as_slice(), state, jumps, gives, &mut body)?;
    Ok(body)
}
