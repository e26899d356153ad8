//! Places by need: the register or word of the frame that each name gets, exactly as the definition says.
//! Always: names that clash have different places (`a_place`). No contract says that it
//! takes time n log n in lines and names, and some words of memory for each line and place.
#![tactic(auto)]

mod counts;
mod facts;
mod giving;
mod held;
mod lists;
mod needs;
mod ordering;
mod reading;
mod segments;
mod sharing;
mod toggles;
mod walk;

pub use sharing::share;
