//! What a run of a source holds: its cells, its values and its globals.
//! Promise: shapes, numbers and addresses of objects are those of the definition of the run, and
//! the store holds the memory in which the program begins. Where a store holds a memory of the
//! definitions, each call answers as they do on that memory, and the store then holds what they
//! make of it. Each function computes the definition of the same name, and where a store holds a
//! memory, what the definition says of that memory.
//! Always: what is made depends on the program alone, and on no input. Blocks are listed in
//! ascending order of number, and none that is dead is kept. Nothing takes memory, and nothing
//! changes the store.
#![tactic(auto)]

mod access;
mod address;
mod block;
mod cell;
mod compare;
mod globals;
mod layout;
mod number;
mod objects;
mod operator;
mod shape;
mod store;

pub use address::{member_address, pointer_difference, pointer_moved};
pub use cell::Cell;
pub use compare::{compared, truth};
pub use globals::first_memory;
pub use layout::{Layout, Layouts, lay_out};
pub use number::{access_width, arithmetic, converted, extended};
pub use objects::Objects;
pub use operator::{binary, compound, stepped, unary, used};
pub use shape::Shape;
pub use store::Store;
