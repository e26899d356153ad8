//! The types of code forms, places and frames.

use std::marker::Model;

/// How the names of a function get their places: by their intervals, or by need.
#[derive(Clone, Copy, PartialEq, Eq, Debug)]
pub enum CodeForm {
    Plain,
    Tight,
}

/// Which place each name has, in the order of the names, how many saved registers and words there
/// are, and how many places are registers that a call loses. Contracts see a plain record.
#[derive(Debug, Drop)]
pub struct Places {
    pub of: Vec<u32>,
    pub count: u32,
    pub temporaries: u32,
}

impl Model for Places {
    ghost use Rattle.s_linear.specs.Frame.{PlainPlaces};

    ghost Value = { PlainPlaces };

    ghost view = { λ p. record {
      of = p.of.items;
      count = p.count;
      temporaries = p.temporaries;
    } };
}

/// The frame of a function: its size in bytes, and where its objects begin, in bytes from the stack
/// pointer.
#[derive(Clone, Copy, PartialEq, Eq, Debug)]
pub struct Frame {
    pub size: u32,
    pub objects_at: u32,
}
