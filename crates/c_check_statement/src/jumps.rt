//! The jumps that may stand at a point of a function.

/// Which jumps may stand at a place of a function (ISO/IEC 9899:2011, 6.8.6.2, 6.8.6.3).
#[derive(Clone, Copy)]
pub struct Jumps {
    pub may_break: bool,
    pub may_continue: bool,
}

/// The jumps that may stand in a loop.
pub const IN_LOOP: Jumps = Jumps {
    may_break: true,
    may_continue: true,
};
