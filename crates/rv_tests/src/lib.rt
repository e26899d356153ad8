//! Tests of instructions, files and the machine, whose crates are proved without them.
//! It has no function of its own.
#![tactic(auto)]

#[cfg(test)]
mod files;
#[cfg(test)]
mod instructions;
#[cfg(test)]
mod runs;
#[cfg(test)]
mod segments;
