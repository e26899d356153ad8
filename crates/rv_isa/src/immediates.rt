//! The immediates of the formats, each of a type that holds what fits and no more.

ghost use Rattle.std.specs.Prelude.{ℕ, ◌≡◌, ◌<◌, ◌↔◌, ◌+◌, ◌%◌, ◌^◌, IsTrue};

use std::marker::Model;

/// A 12-bit immediate of formats I and S: a word that is the sign-extension of its low 12 bits.
#[derive(Clone, Copy, PartialEq, Eq, Debug)]
pub struct Imm12 {
    word: u32,
}

impl Model for Imm12 {
    ghost Value = { ℕ };

    ghost view = { λ i. i.word };

    ghost invariant = { λ i. (i.word + 2048) % 2 ^ 32 < 4096 };

    ghost inverse = { λ n. record { word = n } };
}

impl Imm12 {
    /// The immediate of this word, which is -2048 to 2047 read as signed.
    pub fn new(word: u32) -> Imm12
        requires { (word + 2048) % 2 ^ 32 < 4096 }
        ensures { result ≡ word }
    {
        Imm12 { word }
    }

    /// Whether the word, read as signed, is -2048 to 2047.
    pub fn fits(word: u32) -> bool
        ensures { IsTrue result ↔ ((word + 2048) % 2 ^ 32 < 4096) }
    {
        word.wrapping_add(2048) < 4096
    }

    /// The sign-extended word.
    pub fn word(self) -> u32
        ensures value { result ≡ self }
        ensures range { (result + 2048) % 2 ^ 32 < 4096 }
    {
        self.word
    }
}

/// The offset of a branch (format B), in bytes: an even word that is the sign-extension of its low
/// 13 bits.
#[derive(Clone, Copy, PartialEq, Eq, Debug)]
pub struct BranchOffset {
    word: u32,
}

impl Model for BranchOffset {
    ghost Value = { ℕ };

    ghost view = { λ i. i.word };

    ghost invariant = { λ i. ((i.word + 4096) % 2 ^ 32 < 8192) × (i.word % 2 ≡ 0) };

    ghost inverse = { λ n. record { word = n } };
}

impl BranchOffset {
    /// The offset of this sign-extended word.
    pub fn new(word: u32) -> BranchOffset
        requires range { (word + 4096) % 2 ^ 32 < 8192 }
        requires even { word % 2 ≡ 0 }
        ensures { result ≡ word }
    {
        BranchOffset { word }
    }

    /// Whether the word, read as signed, is even and -4096 to 4094.
    pub fn fits(word: u32) -> bool
        ensures { IsTrue result ↔ (((word + 4096) % 2 ^ 32 < 8192) × (word % 2 ≡ 0)) }
    {
        word.wrapping_add(4096) < 8192 && word % 2 == 0
    }

    /// The sign-extended word.
    pub fn word(self) -> u32
        ensures value { result ≡ self }
        ensures range { (result + 4096) % 2 ^ 32 < 8192 }
        ensures even { result % 2 ≡ 0 }
    {
        self.word
    }
}

/// The offset of a jump (format J), in bytes: an even word that is the sign-extension of its low
/// 21 bits.
#[derive(Clone, Copy, PartialEq, Eq, Debug)]
pub struct JumpOffset {
    word: u32,
}

impl Model for JumpOffset {
    ghost Value = { ℕ };

    ghost view = { λ i. i.word };

    ghost invariant = { λ i. ((i.word + 1048576) % 2 ^ 32 < 2097152) × (i.word % 2 ≡ 0) };

    ghost inverse = { λ n. record { word = n } };
}

impl JumpOffset {
    /// The offset of this sign-extended word.
    pub fn new(word: u32) -> JumpOffset
        requires range { (word + 1048576) % 2 ^ 32 < 2097152 }
        requires even { word % 2 ≡ 0 }
        ensures { result ≡ word }
    {
        JumpOffset { word }
    }

    /// Whether the word, read as signed, is even and -1048576 to 1048574.
    pub fn fits(word: u32) -> bool
        ensures { IsTrue result ↔ (((word + 1048576) % 2 ^ 32 < 2097152) × (word % 2 ≡ 0)) }
    {
        word.wrapping_add(1 << 20) < 1 << 21 && word % 2 == 0
    }

    /// The sign-extended word.
    pub fn word(self) -> u32
        ensures value { result ≡ self }
        ensures range { (result + 1048576) % 2 ^ 32 < 2097152 }
        ensures even { result % 2 ≡ 0 }
    {
        self.word
    }
}

/// The upper 20 bits of a word, as format U holds them.
#[derive(Clone, Copy, PartialEq, Eq, Debug)]
pub struct Upper {
    bits: u32,
}

impl Model for Upper {
    ghost Value = { ℕ };

    ghost view = { λ i. i.bits };

    ghost invariant = { λ i. i.bits < 2 ^ 20 };

    ghost inverse = { λ n. record { bits = n } };
}

impl Upper {
    /// The upper bits of this number, which is below 2^20.
    pub fn new(bits: u32) -> Upper
        requires { bits < 2 ^ 20 }
        ensures { result ≡ bits }
    {
        Upper { bits }
    }

    /// Whether 20 bits hold the number.
    pub fn fits(bits: u32) -> bool
        ensures { IsTrue result ↔ (bits < 2 ^ 20) }
    {
        bits < 1 << 20
    }

    /// The 20 bits, as a number below 2^20; as the upper bits of a word they are this times 4096.
    pub fn bits(self) -> u32
        ensures value { result ≡ self }
        ensures range { result < 2 ^ 20 }
    {
        self.bits
    }
}

/// A shift amount, 0 to 31.
#[derive(Clone, Copy, PartialEq, Eq, Debug)]
pub struct Shamt {
    bits: u32,
}

impl Model for Shamt {
    ghost Value = { ℕ };

    ghost view = { λ i. i.bits };

    ghost invariant = { λ i. i.bits < 32 };

    ghost inverse = { λ n. record { bits = n } };
}

impl Shamt {
    /// The shift by this many bits.
    pub fn new(bits: u32) -> Shamt
        requires { bits < 32 }
        ensures { result ≡ bits }
    {
        Shamt { bits }
    }

    /// Whether 5 bits hold the number.
    pub fn fits(bits: u32) -> bool
        ensures { IsTrue result ↔ (bits < 32) }
    {
        bits < 32
    }

    /// The number of bits to shift by.
    pub fn bits(self) -> u32
        ensures value { result ≡ self }
        ensures range { result < 32 }
    {
        self.bits
    }
}
