//! Where the functions and globals of a program stand, and the bytes of its image.
//! Promise: `lay` gives exactly the sections that specs/Layout.antt defines.
#![tactic(auto)]

mod addresses;
mod globals;
mod item;
mod items;
mod labels;
pub mod laws;
mod layout;
mod sequences;
mod sizes;

pub use item::Item;
pub use layout::lay;
pub use sequences::load_address;
