//! The kinds of edges, the ops of nodes, and origins.

use val_core::{Op1, Op2};

/// What an edge carries: a value, or one of the two states that keep side effects in order.
#[derive(Clone, Copy, PartialEq, Eq, Debug)]
pub enum Kind {
    Value,
    /// The memory of all blocks.
    Memory,
    /// The input that is left and the output so far.
    Io,
}

/// What a node does. The table of inputs and outputs in specs/Signatures.antt has each op's
/// signature.
#[derive(Clone, Copy, PartialEq, Eq, Hash, Debug)]
pub enum Op {
    /// The word.
    Const(u32),
    /// A value without meaning.
    Undef,
    /// The address of an object of the lambda, by its index in the list.
    Local(u32),
    /// The address of a global, by its index in the list.
    Delta(u32),
    Bin(Op2),
    Un(Op1),
    /// The value of this many bytes, 1, 2 or 4, at an address, zero extended.
    Load(u8),
    /// The write of the low bytes, 1, 2 or 4 of them, at an address.
    Store(u8),
    /// Every leaf of an object of the lambda becomes zero.
    Clear(u32),
    /// Whether two pointers are equal.
    PtrEq,
    /// The call of the lambda of this number.
    Apply(u32),
    /// The writing of a byte.
    Put,
    /// The end of the program, with a status.
    Exit,
    /// The reading of a byte.
    Get,
    /// One of its regions, by a predicate: of n regions the one numbered min(predicate, n - 1).
    Gamma,
    /// Its region, again and again while the predicate is not 0.
    Theta,
}

/// Where an input or a result comes from, in the region where it stands.
#[derive(Clone, Copy, PartialEq, Eq, Hash, Debug)]
pub enum Origin {
    /// The region's argument of this index.
    Arg(u32),
    /// An output of the node of this number.
    Out { node: u32, port: u32 },
}

/// The value of the unused slots of a short list of origins.
impl Default for Origin {
    fn default() -> Origin {
        Origin::Arg(0)
    }
}
