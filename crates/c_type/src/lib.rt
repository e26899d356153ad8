//! C types: what each occupies, that is its size, alignment, offsets and leaves. Only `leaves`
//! takes memory; its steps are linear in its result and the height of the type.
//! Always: a defined struct has at most 1,048,576 bytes.
#![tactic(auto)]

mod define_fault;
mod defining;
pub mod laws;
mod layout;
mod listing;
mod normal;
mod same;
mod scalar;
mod structs;
mod trees;

pub use base::Steps;
pub use define_fault::DefineFault;
pub use layout::{
    align_of, are_laid_out, bounded_size, is_complete, is_laid_out, offset_of, size_of,
};
pub use listing::{counted_leaves, leaves};
pub use scalar::Scalar;
pub use structs::Types;
pub use trees::{CType, TypeForm};
pub use val_core::Leaf;
