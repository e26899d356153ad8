//! Linear code, its lines, its meaning at a bound, and frames.
//! Its types hold what sequencing, placing and selecting pass on; contracts see plain lists and
//! records.
//! Promise: the text is the one that specs/Texts.antt says.
//! Always: what stood in the buffer before stays before the text.
#![tactic(auto)]

mod frame;
pub mod laws;
mod line;
mod lines;

pub use frame::{CodeForm, Frame, Places};
pub use line::{Instr, Line, Linear};
pub use lines::push_line;
