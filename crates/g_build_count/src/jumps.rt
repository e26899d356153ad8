//! Whether a function holds jumps other than a `return` as its last item.

ghost use Rattle.std.specs.Prelude.{◌≡◌, ◌+◌, ◌<◌, not, if◌then◌else◌, drop, length, ◌&&◌};
ghost use Rattle.c_typed.specs.StmtViews.{items_of, groups_of};
ghost use Rattle.g_build_def.specs.Exits.{stmt_jumps, items_jump, groups_jump, is_return, some_items, body_jumps};

use c_typed::{Group, Item, StmtForm, TStmt};

// Whether a jump stands in a statement, at any depth.
#[cycle(jumps)]
fn stmt_jumps(a: &TStmt) -> bool
    ensures { result ≡ stmt_jumps a.now }
{
    match &a.form {
        StmtForm::Null | StmtForm::Value(_) => false,
        StmtForm::Block(items) => items_jump(items),
        StmtForm::IfElse(_, then, otherwise) => stmt_jumps(then) || stmt_jumps(otherwise),
        StmtForm::Loop { body, .. } => stmt_jumps(body),
        StmtForm::DoWhile { body, .. } => stmt_jumps(body),
        StmtForm::Break | StmtForm::Continue | StmtForm::ReturnValue(_) | StmtForm::ReturnNone =>
            true,
        StmtForm::Switch(_, groups) => groups_jump(groups),
    }
}

#[cycle(jumps)]
fn items_jump(items: &[Item]) -> bool
    ensures { result ≡ items_jump (items_of items.now) }
{
    for item in items {
        if let Item::Statement(a) = item {
            if stmt_jumps(a) {
                return true;
            }
        }
    }
    false
}

#[cycle(jumps)]
fn groups_jump(groups: &[Group]) -> bool
    ensures { result ≡ groups_jump (groups_of groups.now) }
{
    for group in groups {
        if items_jump(&group.body) {
            return true;
        }
    }
    false
}

/// Whether a statement is a `return`.
pub fn is_return(a: &TStmt) -> bool
    ensures { result ≡ is_return a.now }
{
    match &a.form {
        StmtForm::ReturnValue(_) | StmtForm::ReturnNone => true,
        _ => false,
    }
}

/// Whether items follow the one at this index.
pub fn items_follow(items: &[Item], i: usize) -> bool
    requires { i < length items.now }
    ensures { result ≡ some_items (items_of (drop (i + 1) items.now)) }
{
    if i + 1 == items.len() {
        return false;
    }
    true
}

// Whether a statement of a body holds a jump, apart from a `return` as the last item.
fn item_jumps(a: &TStmt, follows: bool) -> bool
    ensures { result ≡
        (if follows then stmt_jumps a.now else (not (is_return a.now) && stmt_jumps a.now)) }
{
    if !follows && is_return(a) {
        return false;
    }
    stmt_jumps(a)
}

/// Whether a jump other than a `return` as the last item stands in a body.
pub fn body_jumps(items: &[Item]) -> bool
    ensures { result ≡ body_jumps (items_of items.now) }
{
    for i in 0..items.len() {
        if let Item::Statement(a) = &items[i] {
            if item_jumps(a, items_follow(items, i)) {
                return true;
            }
        }
    }
    false
}
