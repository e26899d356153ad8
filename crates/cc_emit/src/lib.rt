//! The image of a whole program, made by sequencing, placing, selecting and laying out.
//! Its sections are exactly those of the definition. Its two halves are calls too: the items of
//! functions, one by one or all, and the image of a program of whose functions the items are
//! there.
//! Always: an image is placed, and its file does what the lambdas do.
#![tactic(auto)]

mod functions;
pub mod image_laws;
pub mod laws;
mod program;

pub use functions::{all_items, function_items};
pub use program::{emit, emit_items};
