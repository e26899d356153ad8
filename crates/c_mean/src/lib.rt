//! What a source program does within a bound, and what is undefined (ISO/IEC 9899:2011, clause
//! 6).
//! Nothing in it runs, and it takes no memory.
//! Always: an operation is undefined exactly where its law says so.
#![tactic(auto)]

pub mod laws;
pub mod operation_laws;
