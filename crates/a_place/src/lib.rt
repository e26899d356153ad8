//! Which register or word of the frame holds each name, and the frame of a function.
//! Promise: `place` gives exactly the places that specs/Places.antt defines. No contract says
//! that it takes time n log n in lines and names, and a few words of memory for each.
//! Always: names that clash have different places.
#![tactic(auto)]

mod buckets;
mod frames;
pub mod laws;
mod placing;
pub mod share_laws;
mod spans;
mod sweep;

pub use frames::frame;
pub use placing::place;
