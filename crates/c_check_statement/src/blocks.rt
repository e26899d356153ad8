//! Blocks, with their statements and declarations.

ghost use Rattle.std.specs.Prelude.{◌≡◌, IfOk, OnOk};
ghost use Rattle.c_ast.specs.Statements.{stmt_tree, item_tree, items_tree, block_tree, stmts_tree};
ghost use Rattle.c_typed.specs.Typed.{stmt_then, no_items};
ghost use Rattle.c_typed.specs.StmtViews.{items_of};
ghost use Rattle.c_check_def.specs.Declarators.{items_joined};
ghost use Rattle.c_check_def.specs.Statements.{statement, items};
ghost use Rattle.c_check_statement.specs.Parts.{jumps_of, item};

use crate::Jumps;
use crate::statements::statement;
use base::NoMemory;
use c_ast::{Block, BlockItem, Stmt};
use c_check_declaration::locals;
use c_check_state::{MaybeType, State};
use c_typed::{Item, StmtForm, TStmt};

/// A compound statement, which is a scope (ISO/IEC 9899:2011, 6.8.2).
#[cycle(statement)]
#[tactic(auto, using(crate::proofs::lemmas::Slots::items_leave), unfolding(c_ast::specs::Statements::block_tree))]
pub(crate) fn block(
    x: &Block,
    state: &mut State,
    jumps: Jumps,
    gives: &MaybeType,
) -> Result<TStmt, NoMemory>
    ensures value { IfOk result
        (λ r. r ≡ (statement (jumps_of jumps gives.now) (block_tree x.now) state.old).0) }
    ensures state { OnOk result
        (state.new ≡ (statement (jumps_of jumps gives.now) (block_tree x.now) state.old).1) }
{
    let slots = state.enter()?;
    let mut inner = Vec::new(state.alloc());
    items(x.items.as_slice(), state, jumps, gives, &mut inner)?;
    state.leave(slots);
    Ok(TStmt {
        form: StmtForm::Block(inner),
    })
}

/// Appends the statements and declarations of a block, in a function that gives a result of this
/// type, to items (6.8.2).
#[cycle(statement)]
pub fn items(
    xs: &[BlockItem],
    state: &mut State,
    jumps: Jumps,
    gives: &MaybeType,
    out: &mut Vec<Item>,
) -> Result<(), NoMemory>
    ensures items { OnOk result (items_of out.new.items ≡ items_joined (items_of out.old.items)
        (items (jumps_of jumps gives.now) (items_tree xs.now) state.old).0) }
    ensures state { OnOk result
        (state.new ≡ (items (jumps_of jumps gives.now) (items_tree xs.now) state.old).1) }
{
    for x in xs {
        item(x, state, jumps, gives, out)?;
    }
    Ok(())
}

#[cycle(statement)]
#[tactic(auto, using(crate::proofs::lemmas::Arms::item_arms))]
fn item(
    x: &BlockItem,
    state: &mut State,
    jumps: Jumps,
    gives: &MaybeType,
    out: &mut Vec<Item>,
) -> Result<(), NoMemory>
    ensures items { OnOk result (items_of out.new.items ≡ items_joined (items_of out.old.items)
        (item (jumps_of jumps gives.now) (item_tree x.now) state.old).0) }
    ensures state { OnOk result
        (state.new ≡ (item (jumps_of jumps gives.now) (item_tree x.now) state.old).1) }
{
    match x {
        BlockItem::Locals(x) => locals(state, x, out),
        BlockItem::Stmt(x) => statement_item(x, state, jumps, gives, out),
    }
}

// Appends a statement.
#[cycle(statement)]
#[tactic(auto, using(crate::proofs::LoopLemmas::joined))]
pub(crate) fn statement_item(
    x: &Stmt,
    state: &mut State,
    jumps: Jumps,
    gives: &MaybeType,
    out: &mut Vec<Item>,
) -> Result<(), NoMemory>
    ensures items { OnOk result (items_of out.new.items ≡ items_joined (items_of out.old.items)
        (stmt_then (statement (jumps_of jumps gives.now) (stmt_tree x.now) state.old).0
        no_items)) }
    ensures state { OnOk result
        (state.new ≡ (statement (jumps_of jumps gives.now) (stmt_tree x.now) state.old).1) }
{
    let s = statement(x, state, jumps, gives)?;
    out.push(Item::Statement(s))?;
    Ok(())
}

/// Appends statements.
#[cycle(statement)]
pub(crate) fn statements(
    xs: &[Stmt],
    state: &mut State,
    jumps: Jumps,
    gives: &MaybeType,
    out: &mut Vec<Item>,
) -> Result<(), NoMemory>
    ensures items { OnOk result (items_of out.new.items ≡ items_joined (items_of out.old.items)
        (items (jumps_of jumps gives.now) (stmts_tree xs.now) state.old).0) }
    ensures state { OnOk result
        (state.new ≡ (items (jumps_of jumps gives.now) (stmts_tree xs.now) state.old).1) }
{
    for x in xs {
        statement_item(x, state, jumps, gives, out)?;
    }
    Ok(())
}
