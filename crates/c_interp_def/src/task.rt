//! Tasks, slots and flows of the code, which refer to the typed program.

use base::Bytes;
use c_type::CType;
use c_typed::{BinaryOp, CompoundOp, Element, Group, IncDec, Item, TExpr, TPlace, TStmt, UnaryOp};
use val_core::Value;

/// What is left to do of an expression. Operands wait until their operator is applied.
#[derive(Clone, Copy)]
pub enum ExprTask<'a> {
    Evaluate(&'a TExpr),
    /// The address of a place becomes an operand.
    Locate(&'a TPlace),
    /// Expressions whose values are dropped.
    DropEach(&'a [TExpr]),
    /// Arguments, which become operands, the last one the newest.
    PassEach(&'a [TExpr]),
    /// A number becomes an operand.
    Give(u32),
    /// The address of the object at a slot.
    LocalAt(u32),
    GlobalAt(u32),
    MemberAt(u32),
    Discard,
    UseIt,
    /// 1 or 0 by the truth of the newest operand, which is of this type.
    Test(&'a CType),
    Unary(UnaryOp, &'a CType, &'a CType),
    Binary(BinaryOp, &'a CType, &'a CType),
    AndAlso(&'a CType, &'a TExpr),
    OrElse(&'a CType, &'a TExpr),
    Choose(&'a CType, &'a TExpr, &'a TExpr),
    /// A read at an address, which is dropped.
    LoadFrom(&'a CType),
    /// A read at an address, which stays.
    LoadAt(&'a CType),
    StoreAt(&'a CType),
    CompoundAt(CompoundOp, &'a CType, &'a CType),
    StepAt(IncDec, &'a CType),
    LoadSlot(u32, &'a CType),
    StoreSlot(u32, &'a CType),
    CompoundSlot(u32, CompoundOp, &'a CType, &'a CType),
    StepSlot(u32, IncDec, &'a CType),
    ReadByte,
    WriteByte,
    EndProgram,
    /// A call of the function of this number with so many of the newest operands.
    Call(u32, usize),
}

/// What a statement has come to. Turns are those that a loop may still take.
#[derive(Clone, Copy)]
pub enum Stage {
    /// It begins.
    Run,
    /// An `if` whose condition is the newest operand.
    Branch,
    /// A `switch` whose operand is the newest one.
    Select,
    RunTurns(u64),
    /// A loop whose condition is the newest operand.
    TurnIf(u64),
}

/// What is left to do of a statement where no jump is on its way.
#[derive(Clone, Copy)]
pub enum StmtTask<'a> {
    OnStmt(Stage, &'a TStmt),
    RunItems(&'a [Item]),
    RunGroups(&'a [Group]),
    Break,
    Continue,
    ReturnNone,
    ReturnIt,
    Enter(u32),
    BeginSlot,
    BeginObject(u32, &'a CType),
    ClearObject(u32),
    BeginElements(u32, &'a [Element]),
    BeginElement(u32, u32, &'a CType),
    BeginCharacters(u32, u32, &'a Bytes),
}

/// What is done also where a jump is on its way.
#[derive(Clone, Copy)]
pub enum Handler<'a> {
    /// The end of a loop or a `switch`.
    EndSwitch,
    /// A turn of this loop has ended, and so many are left.
    Again(u64, &'a TStmt),
    /// The end of a scope, outside which so many variables are in scope.
    EndScope(usize),
    EndCall,
}

/// What is left to do.
#[derive(Clone, Copy)]
pub enum Task<'a> {
    OfExpr(ExprTask<'a>),
    OfStmt(StmtTask<'a>),
    Handler(Handler<'a>),
}

/// How a statement ends: normally, by a jump, or by a return with a value or none (ISO/IEC
/// 9899:2011, 6.8.6).
#[derive(Clone, Copy)]
pub enum Flow {
    Normal,
    Broke,
    Continued,
    Returned(Option<Value>),
}

/// A variable in scope: a value, which is `Bad` where it has none, or an object of the call, by
/// number.
#[derive(Clone, Copy)]
pub enum Slot {
    Holds(Value),
    Object(u32),
}
