//! The machine: what is left to do, the operands, the active calls and the memory.

use crate::frame::{Active, Frame};
use c_interp_def::{Flow, Slot, Task};
use c_interp_store::{Layouts, Store};
use c_typed::Typed;
use std::alloc::Global;
use val_core::Value;

/// What stays while a program runs: the allocator, the typed program, its layouts, and how many
/// turns a loop may take.
#[derive(Clone, Copy)]
pub(crate) struct Program<'a> {
    pub(crate) alloc: Global,
    pub(crate) typed: &'a Typed,
    pub(crate) layouts: &'a Layouts,
    pub(crate) bound: u64,
}

/// The state of a run: the tasks that are left, the last of which is done first, the operands, the
/// newest last, the newest call, its variables in scope, and the calls that wait for it, the newest
/// last, the jump that is on its way, the memory, the status with which the program ends, and a list
/// of slots that a call has left.
#[derive(Drop)]
pub(crate) struct Machine<'a> {
    pub(crate) tasks: Vec<Task<'a>>,
    pub(crate) operands: Vec<Value>,
    pub(crate) frame: Frame,
    pub(crate) slots: Vec<Slot>,
    pub(crate) callers: Vec<Active>,
    pub(crate) flow: Flow,
    pub(crate) store: Store,
    pub(crate) status: u8,
    pub(crate) spare: Vec<Slot>,
}
