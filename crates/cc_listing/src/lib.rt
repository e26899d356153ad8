//! The listing of an image, as an assembler source with its linear code as comments. An assembler
//! makes the same text and data of it, and a debugger has the symbols.
//! Promise: the words of the text are listed each once, in order, with their addresses, those of a
//! function under the lines of linear code whose items have them.
#![tactic(auto)]

mod functions;
mod globals;
mod image;
pub mod laws;
mod lines;
mod push;
mod symbols;
mod words;

pub use image::listing;
