//! The units and ranks of functions, which is what the crate answers.

/// The unit and the rank of each function, by its index in the list.
#[derive(Debug, PartialEq, Eq, Drop)]
pub struct Units {
    /// The name of the unit: the least function that this one reaches by calls and is reached from,
    /// itself included.
    pub unit: Vec<u32>,
    /// The rank: 0 where the unit calls no other unit, else one more than the greatest rank of the
    /// units that it calls.
    pub rank: Vec<u32>,
}
