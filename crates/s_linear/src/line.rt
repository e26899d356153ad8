//! The types of instructions, lines and linear code.

use std::marker::Model;
use val_core::{Op1, Op2};

/// An instruction over names. What it writes is its target; what it reads are names too.
#[derive(Debug, Drop)]
pub enum Instr {
    Const {
        target: u32,
        word: u32,
    },
    Undef {
        target: u32,
    },
    ObjectAddress {
        target: u32,
        number: u32,
    },
    GlobalAddress {
        target: u32,
        number: u32,
    },
    Binary {
        op: Op2,
        target: u32,
        left: u32,
        right: u32,
    },
    Unary {
        op: Op1,
        target: u32,
        input: u32,
    },
    Load {
        width: u8,
        target: u32,
        address: u32,
    },
    Store {
        width: u8,
        address: u32,
        value: u32,
    },
    Clear {
        number: u32,
    },
    EqualPointers {
        target: u32,
        left: u32,
        right: u32,
    },
    Move {
        target: u32,
        source: u32,
    },
    Call {
        function: u32,
        target: u32,
        arguments: Vec<u32>,
    },
    Put {
        byte: u32,
    },
    Get {
        target: u32,
    },
    Exit {
        status: u32,
    },
}

/// A line of linear code, which is one position of it.
#[derive(Debug, Drop)]
pub enum Line {
    Enter {
        params: Vec<u32>,
    },
    Leave {
        value: u32,
    },
    Done {
        instr: Instr,
    },
    BranchNotZero {
        predicate: u32,
        label: u32,
    },
    BranchZero {
        predicate: u32,
        label: u32,
    },
    BranchEqual {
        predicate: u32,
        number: u32,
        label: u32,
    },
    Jump {
        label: u32,
    },
    Label {
        number: u32,
    },
}

/// The linear code of a function, line by line. Contracts see the list of its lines.
#[derive(Debug, Drop)]
pub struct Linear {
    pub lines: Vec<Line>,
}

impl Model for Linear {
    ghost use Rattle.std.specs.Prelude.{List, map};
    ghost use Rattle.s_linear.specs.Lines.{Line};
    ghost use Rattle.s_linear.specs.Views.{line_of};

    ghost Value = { List Line };

    ghost view = { λ l. map line_of l.lines.items };
}
