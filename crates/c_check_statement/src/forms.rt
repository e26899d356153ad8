//! Typed statements, of their parts.

ghost use Rattle.std.specs.Prelude.{◌≡◌, IfOk, OnOk};
ghost use Rattle.c_typed.specs.StmtViews.{items_of, groups_of};
ghost use Rattle.c_typed.specs.Typed.{if_else, null};
ghost use Rattle.c_check_def.specs.Statements.{if_stmt, with_else, do_stmt, value_items, switch_stmt, next_group, with_group};

use base::NoMemory;
use c_check_expression::Labels;
use c_typed::{Group, Item, StmtForm, TExpr, TStmt};
use std::alloc::Global;

/// An `if` without its `else` (ISO/IEC 9899:2011, 6.8.4.1), or nothing where its condition breaks
/// a rule.
pub fn if_stmt(alloc: Global, c: Option<TExpr>, s: TStmt) -> Result<TStmt, NoMemory>
    ensures { IfOk result (λ r. r ≡ if_stmt c s) }
{
    match c {
        Some(c) => if_then(alloc, c, s),
        None => {
            drop(s);
            Ok(TStmt {
                form: StmtForm::Null,
            })
        }
    }
}

fn if_then(alloc: Global, c: TExpr, s: TStmt) -> Result<TStmt, NoMemory>
    ensures { IfOk result (λ r. r ≡ if_else c s null) }
{
    let then = Box::new(alloc, s)?;
    let null = TStmt {
        form: StmtForm::Null,
    };
    let otherwise = Box::new(alloc, null)?;
    Ok(TStmt {
        form: StmtForm::IfElse(c, then, otherwise),
    })
}

/// An `if` with its `else` (6.8.4.1).
pub fn with_else(alloc: Global, s: TStmt, otherwise: TStmt) -> Result<TStmt, NoMemory>
    ensures { IfOk result (λ r. r ≡ with_else s otherwise) }
{
    match s.form {
        StmtForm::IfElse(c, then, none) => {
            drop(none);
            let otherwise = Box::new(alloc, otherwise)?;
            Ok(TStmt {
                form: StmtForm::IfElse(c, then, otherwise),
            })
        }
        form => {
            drop(otherwise);
            Ok(TStmt { form })
        }
    }
}

/// A `do` of its body and its condition (6.8.5.2), or nothing where the condition breaks a rule.
pub fn do_stmt(body: Box<TStmt>, condition: Option<TExpr>) -> TStmt
    ensures { result ≡ do_stmt body.value condition }
{
    let form = match condition {
        Some(condition) => StmtForm::DoWhile { body, condition },
        None => StmtForm::Null,
    };
    TStmt { form }
}

/// The statement that an expression is, if there is one, as the items of a block.
pub fn value_items(alloc: Global, e: Option<TExpr>) -> Result<Vec<Item>, NoMemory>
    ensures { IfOk result (λ r. items_of r.items ≡ value_items e) }
{
    let mut items = Vec::new(alloc);
    if let Some(e) = e {
        items.push(Item::Statement(TStmt {
            form: StmtForm::Value(e),
        }))?;
    }
    Ok(items)
}

/// A `switch` of the value that it goes by and its groups (6.8.4.2), or nothing where the value
/// breaks a rule.
pub fn switch_stmt(e: Option<TExpr>, groups: Vec<Group>) -> TStmt
    ensures { result ≡ switch_stmt e (groups_of groups.items) }
{
    let form = match e {
        Some(e) => StmtForm::Switch(e, groups),
        None => StmtForm::Null,
    };
    TStmt { form }
}

/// Appends a group of these labels and statements (6.8.4.2). It gives the labels so far, for the
/// next group.
#[tactic(auto, using(crate::proofs::lemmas::Items::joined))]
pub fn add_group(labels: Labels, body: Vec<Item>, out: &mut Vec<Group>) -> Result<Labels, NoMemory>
    ensures labels { IfOk result (λ r. r ≡ next_group labels) }
    ensures groups { OnOk result (groups_of out.new.items ≡
        with_group (groups_of out.old.items) labels.cases labels.is_default
        (items_of body.items)) }
{
    let alloc = *body.allocator();
    out.push(Group {
        cases: labels.cases,
        is_default: labels.is_default,
        body,
    })?;
    Ok(Labels {
        words: labels.words,
        has_default: labels.has_default,
        cases: Vec::new(alloc),
        is_default: false,
    })
}
