//! What is written on a node, and its colour.

use crate::push::{Piece, push, push_all, push_numbered};
use base::{Name, NoMemory};
use g_graph::Op;
use val_core::{Op1, Op2};

// The sign of an operation on two words; a `u` behind it says that both are read as unsigned. Marks
// of HTML are written as entities.
const fn sign(op: Op2) -> &'static str {
    match op {
        Op2::Add => "+",
        Op2::Sub => "&minus;",
        Op2::Mul => "&times;",
        Op2::Div => "/",
        Op2::Rem => "%",
        Op2::Divu => "/u",
        Op2::Remu => "%u",
        Op2::And => "&amp;",
        Op2::Or => "|",
        Op2::Xor => "^",
        Op2::Sll => "&lt;&lt;",
        Op2::Srl => "&gt;&gt;u",
        Op2::Sra => "&gt;&gt;",
        Op2::Eq => "=",
        Op2::Ne => "&ne;",
        Op2::Slt => "&lt;",
        Op2::Sltu => "&lt;u",
    }
}

const fn unary_word(op: Op1) -> &'static str {
    match op {
        Op1::Sext8 => "sext8",
        Op1::Zext8 => "zext8",
        Op1::Sext16 => "sext16",
        Op1::Zext16 => "zext16",
    }
}

// What is written on a node: a word, and a number behind it.
#[derive(Clone, Copy)]
struct Label {
    word: &'static str,
    number: Option<u64>,
}

const fn alone(word: &'static str) -> Label {
    Label { word, number: None }
}

const fn with_number(word: &'static str, number: u64) -> Label {
    Label {
        word,
        number: Some(number),
    }
}

// A word, read as signed.
fn signed(word: u32) -> Label {
    let number = u64::from(word);
    if number < 0x8000_0000 {
        with_number("", number)
    } else {
        with_number("-", 0x1_0000_0000 - number)
    }
}

// Bits of so many bytes.
fn bits(word: &'static str, width: u8) -> Label {
    with_number(word, 8 * u64::from(width))
}

fn label_of(op: Op) -> Label {
    match op {
        Op::Const(word) => signed(word),
        Op::Undef => alone("undef"),
        Op::Local(index) => with_number("object ", u64::from(index)),
        Op::Delta(index) => with_number("global ", u64::from(index)),
        Op::Bin(op) => alone(sign(op)),
        Op::Un(op) => alone(unary_word(op)),
        Op::Load(width) => bits("load ", width),
        Op::Store(width) => bits("store ", width),
        Op::Clear(index) => with_number("clear ", u64::from(index)),
        Op::PtrEq => alone("same address"),
        Op::Apply(function) => with_number("call ", u64::from(function)),
        Op::Put => alone("put"),
        Op::Exit => alone("exit"),
        Op::Get => alone("get"),
        Op::Gamma => alone("Gamma"),
        Op::Theta => alone("Theta"),
    }
}

fn push_words(out: &mut Vec<u8>, label: Label) -> Result<(), NoMemory> {
    match label.number {
        Some(number) => push_numbered(out, label.word, number),
        None => push(out, label.word),
    }
}

// The name of the function that the op calls, where there is one.
fn called(names: &[Name], op: Op) -> Option<&Name> {
    match op {
        Op::Apply(function) => names.get(function as usize),
        _ => None,
    }
}

/// What is written on a node of this op. A function that is called goes by its name.
pub(crate) fn push_label(out: &mut Vec<u8>, names: &[Name], op: Op) -> Result<(), NoMemory> {
    match called(names, op) {
        Some(name) => push_all(out, &[Piece::Text("call "), Piece::Bytes(name.as_slice())]),
        None => push_words(out, label_of(op)),
    }
}

/// The colour of a node of this op.
pub(crate) const fn fill(op: Op) -> &'static str {
    match op {
        Op::Const(_) | Op::Undef => "#f1f5f9",
        Op::Local(_) | Op::Delta(_) => "#e0f2fe",
        Op::Load(_) | Op::Store(_) | Op::Clear(_) | Op::PtrEq => "#fef3c7",
        Op::Apply(_) => "#dcfce7",
        Op::Put | Op::Exit | Op::Get => "#ccfbf1",
        Op::Gamma => "#f5f3ff",
        Op::Theta => "#fff1f2",
        _ => "white",
    }
}
