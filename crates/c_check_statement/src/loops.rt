//! Loops: `while`, `do` and `for`.

ghost use Rattle.std.specs.Prelude.{◌≡◌, IfOk, OnOk};
ghost use Rattle.c_ast.specs.Expressions.{list_tree};
ghost use Rattle.c_ast.specs.Statements.{clause, start_tree, stmt_tree};
ghost use Rattle.c_typed.specs.StmtViews.{items_of};
ghost use Rattle.c_check_def.specs.Statements.{statement, for_start};
ghost use Rattle.c_check_statement.specs.Parts.{jumps_of, loop, while_statement, do_statement, for_loop, for_items, for_block};

use crate::statements::statement;
use crate::{IN_LOOP, do_stmt, value_items};
use base::NoMemory;
use c_ast::{ExprList, ForClauses, ForStart, Stmt};
use c_check_declaration::locals;
use c_check_expression::{condition_at, condition_clause, value_clause};
use c_check_state::{MaybeType, State};
use c_typed::{Item, StmtForm, TExpr, TStmt};

/// A `while` at an offset (ISO/IEC 9899:2011, 6.8.5.1).
#[cycle(statement)]
pub(crate) fn while_statement(
    x: &Stmt,
    state: &mut State,
    gives: &MaybeType,
    offset: u32,
    condition: &ExprList,
) -> Result<TStmt, NoMemory>
    ensures value { IfOk result (λ r. r ≡ (while_statement (jumps_of IN_LOOP gives.now) offset
        (list_tree condition.now) (stmt_tree x.now) state.old).0) }
    ensures state { OnOk result (state.new ≡ (while_statement (jumps_of IN_LOOP gives.now) offset
        (list_tree condition.now) (stmt_tree x.now) state.old).1) }
{
    let c = condition_at(state, offset, condition)?;
    loop_statement(x, state, gives, c, None)
}

// A loop, from its body on.
#[cycle(statement)]
fn loop_statement(
    x: &Stmt,
    state: &mut State,
    gives: &MaybeType,
    condition: Option<TExpr>,
    step: Option<TExpr>,
) -> Result<TStmt, NoMemory>
    ensures value { IfOk result (λ r. r ≡
        (loop (jumps_of IN_LOOP gives.now) condition step (stmt_tree x.now) state.old).0) }
    ensures state { OnOk result (state.new ≡
        (loop (jumps_of IN_LOOP gives.now) condition step (stmt_tree x.now) state.old).1) }
{
    match body(x, state, gives) {
        Ok(body) => Ok(TStmt {
            form: StmtForm::Loop {
                condition,
                step,
                body,
            },
        }),
        Err(fault) => {
            drop(condition);
            drop(step);
            Err(fault)
        }
    }
}

// What a loop does in each turn.
#[cycle(statement)]
fn body(x: &Stmt, state: &mut State, gives: &MaybeType) -> Result<Box<TStmt>, NoMemory>
    ensures value { IfOk result (λ r. r.value ≡
        (statement (jumps_of IN_LOOP gives.now) (stmt_tree x.now) state.old).0) }
    ensures state { OnOk result (state.new ≡
        (statement (jumps_of IN_LOOP gives.now) (stmt_tree x.now) state.old).1) }
{
    let s = statement(x, state, IN_LOOP, gives)?;
    Ok(Box::new(state.alloc(), s)?)
}

/// A `do` whose `while` stands at an offset (6.8.5.2).
#[cycle(statement)]
pub(crate) fn do_statement(
    x: &Stmt,
    state: &mut State,
    gives: &MaybeType,
    offset: u32,
    condition: &ExprList,
) -> Result<TStmt, NoMemory>
    ensures value { IfOk result (λ r. r ≡ (do_statement (jumps_of IN_LOOP gives.now) offset
        (stmt_tree x.now) (list_tree condition.now) state.old).0) }
    ensures state { OnOk result (state.new ≡ (do_statement (jumps_of IN_LOOP gives.now) offset
        (stmt_tree x.now) (list_tree condition.now) state.old).1) }
{
    let body = body(x, state, gives)?;
    let c = condition_at(state, offset, condition)?;
    Ok(do_stmt(body, c))
}

/// A `for` at an offset (6.8.5.3), which is a block.
#[cycle(statement)]
#[tactic(auto, using(crate::proofs::lemmas::Slots::for_leave))]
pub(crate) fn for_statement(
    x: &Stmt,
    state: &mut State,
    gives: &MaybeType,
    offset: u32,
    clauses: &ForClauses,
) -> Result<TStmt, NoMemory>
    ensures value { IfOk result (λ r. r ≡ (for_block (jumps_of IN_LOOP gives.now) offset
        (start_tree clauses.now.start) (clause clauses.now.condition) (clause clauses.now.step)
        (stmt_tree x.now) state.old).0) }
    ensures state { OnOk result (state.new ≡ (for_block (jumps_of IN_LOOP gives.now) offset
        (start_tree clauses.now.start) (clause clauses.now.condition) (clause clauses.now.step)
        (stmt_tree x.now) state.old).1) }
{
    let slots = state.enter()?;
    let items = for_items(x, state, gives, offset, clauses)?;
    state.leave(slots);
    Ok(TStmt {
        form: StmtForm::Block(items),
    })
}

// What stands in the block that a `for` is.
#[cycle(statement)]
#[tactic(auto, using(crate::proofs::LoopLemmas::joined))]
fn for_items(
    x: &Stmt,
    state: &mut State,
    gives: &MaybeType,
    offset: u32,
    clauses: &ForClauses,
) -> Result<Vec<Item>, NoMemory>
    ensures value { IfOk result (λ r. items_of r.items ≡
        (for_items (jumps_of IN_LOOP gives.now) offset (start_tree clauses.now.start)
        (clause clauses.now.condition) (clause clauses.now.step)
        (stmt_tree x.now) state.old).0) }
    ensures state { OnOk result (state.new ≡
        (for_items (jumps_of IN_LOOP gives.now) offset (start_tree clauses.now.start)
        (clause clauses.now.condition) (clause clauses.now.step)
        (stmt_tree x.now) state.old).1) }
{
    let mut items = for_start(state, &clauses.start)?;
    let s = for_loop(x, state, gives, offset, clauses)?;
    items.push(Item::Statement(s))?;
    Ok(items)
}

// A `for` from its condition on.
#[cycle(statement)]
fn for_loop(
    x: &Stmt,
    state: &mut State,
    gives: &MaybeType,
    offset: u32,
    clauses: &ForClauses,
) -> Result<TStmt, NoMemory>
    ensures value { IfOk result (λ r. r ≡ (for_loop (jumps_of IN_LOOP gives.now) offset
        (clause clauses.now.condition) (clause clauses.now.step)
        (stmt_tree x.now) state.old).0) }
    ensures state { OnOk result (state.new ≡ (for_loop (jumps_of IN_LOOP gives.now) offset
        (clause clauses.now.condition) (clause clauses.now.step)
        (stmt_tree x.now) state.old).1) }
{
    let c = condition_clause(state, offset, &clauses.condition)?;
    match value_clause(state, &clauses.step) {
        Ok(step) => loop_statement(x, state, gives, c, step),
        Err(fault) => {
            drop(c);
            Err(fault)
        }
    }
}

// What a `for` begins with.
#[tactic(auto, unfolding(c_ast::specs::Statements::start_tree, c_ast::specs::Declarations::locals_tree))]
fn for_start(state: &mut State, x: &ForStart) -> Result<Vec<Item>, NoMemory>
    ensures value { IfOk result
        (λ r. items_of r.items ≡ (for_start (start_tree x.now) state.old).0) }
    ensures state { OnOk result (state.new ≡ (for_start (start_tree x.now) state.old).1) }
{
    match x {
        ForStart::Locals(x) => {
            let mut items = Vec::new(state.alloc());
            locals(state, x, &mut items)?;
            Ok(items)
        }
        ForStart::Clause { value, .. } => {
            let e = value_clause(state, value)?;
            value_items(state.alloc(), e)
        }
    }
}
