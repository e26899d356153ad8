//! The executable file of an image, written and read: ELF for 32-bit RISC-V.
//! It follows the System V ABI, chapters 4 and 5. Promise: `write` gives exactly the file of an
//! image that specs/Written.antt defines, and `read` exactly what specs/Loading.antt says that a
//! file loads as, or its first fault.
//! Always: segments of a view are apart.
#![tactic(auto)]

mod fault;
mod header;
mod image;
pub mod laws;
mod reader;
mod view;
mod writer;

pub use fault::ElfFault;
pub use image::{Image, PAGE, STACK_SIZE, TEXT_AT};
pub use reader::read;
pub use view::{ImageView, Segment};
pub use writer::write;
