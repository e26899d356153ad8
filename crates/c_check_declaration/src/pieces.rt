//! The elements that an initialiser writes, for variables in blocks and for globals.
#![tactic(auto, using(crate::proofs::PieceLemmas::grows))]

ghost use Rattle.std.specs.Prelude.{◌≡◌, [], ◌∷◌, ◌*◌, ◌^◌, ◌%◌, map, IfOk, OnOk};
ghost use Rattle.c_type.specs.Layout.{scalar_size};
ghost use Rattle.c_typed.specs.Typed.{no_elements, characters_then, word_at};
ghost use Rattle.c_typed.specs.StmtViews.{elements_of, initial_of as initial_tree};
ghost use Rattle.c_typed.specs.ProgramEncoding.{written_of as written_tree};
ghost use Rattle.c_check_def.specs.Initialisers.{joined, value_at, initial_of, written_of, written_value};
ghost use Rattle.c_check_declaration.specs.Pieces.{trees_of, value_or_elements, written_link};

use base::{Bytes, NoMemory};
use c_operator::expr_word;
use c_type::{CType, Scalar, TypeForm};
use c_typed::{Element, ExprForm, Initial, PlaceForm, TExpr, TPlace, Written};
use std::alloc::Global;
use std::marker::Model;

// A written element of an initialiser at its offset in the object, which is above 32 bits only
// where the object has too many bytes.
#[derive(Drop)]
pub(crate) enum Piece {
    Value {
        object_offset: u64,
        value: TExpr,
    },
    Characters {
        object_offset: u64,
        characters: Bytes,
    },
}

// The written elements of an initialiser so far. Contracts see their tree.
#[derive(Drop)]
pub(crate) struct Pieces {
    pieces: Vec<Piece>,
}

impl Model for Pieces {
    ghost use Rattle.c_typed.specs.Typed.{ElementTrees};

    ghost Value = { ElementTrees };

    ghost use Rattle.c_check_declaration.specs.Pieces.{coded_elements, trees_of};

    ghost coded = { coded_elements };

    ghost view = { λ p. trees_of p.pieces.items };
}

impl Pieces {
    pub(crate) fn new(alloc: Global) -> Pieces
        ensures { result ≡ no_elements }
    {
        Pieces {
            pieces: Vec::new(alloc),
        }
    }

    /// Appends a value at its offset in the object.
    pub(crate) fn push_value(&mut self, object_offset: u64, value: TExpr) -> Result<(), NoMemory>
        ensures { OnOk result (self.new ≡ joined self.old (value_at object_offset value)) }
    {
        self.pieces.push(Piece::Value {
            object_offset,
            value,
        })?;
        Ok(())
    }

    /// Appends the characters of a string at its offset in the object.
    pub(crate) fn push_characters(
        &mut self,
        object_offset: u64,
        characters: Bytes,
    ) -> Result<(), NoMemory>
        ensures { OnOk result
            (self.new ≡ joined self.old (characters_then object_offset characters no_elements)) }
    {
        self.pieces.push(Piece::Characters {
            object_offset,
            characters,
        })?;
        Ok(())
    }

    /// What a variable of this type begins with.
    pub(crate) fn into_initial(self, alloc: Global, ty: &CType) -> Result<Initial, NoMemory>
        ensures { IfOk result (λ i. initial_tree i ≡ initial_of self ty.now) }
    {
        let Pieces { pieces } = self;
        match &ty.form {
            TypeForm::Scalar(_) | TypeForm::Pointer(_) => value_or_elements(alloc, pieces),
            _ => Ok(Initial::Elements(elements(alloc, pieces)?)),
        }
    }

    /// What is written in a global.
    pub(crate) fn into_written(self, alloc: Global) -> Result<Vec<Written>, NoMemory>
        ensures { IfOk result (λ v. map written_tree v.items ≡ written_of self) }
    {
        let Pieces { pieces } = self;
        let mut all = Vec::new(alloc);
        for piece in pieces {
            all.push(written(piece)?)?;
        }
        Ok(all)
    }
}

// A lone value, or else the elements.
fn value_or_elements(alloc: Global, pieces: Vec<Piece>) -> Result<Initial, NoMemory>
    ensures { IfOk result (λ i. initial_tree i ≡ value_or_elements (trees_of pieces.items)) }
{
    let mut pieces = pieces;
    match pieces.pop() {
        Some(last) => {
            if pieces.is_empty() {
                return lone(alloc, last);
            }
            pieces.push(last)?;
            Ok(Initial::Elements(elements(alloc, pieces)?))
        }
        None => Ok(Initial::Elements(Vec::new(alloc))),
    }
}

fn lone(alloc: Global, piece: Piece) -> Result<Initial, NoMemory>
    ensures { IfOk result (λ i. initial_tree i ≡ value_or_elements (trees_of (piece ∷ []))) }
{
    match piece {
        Piece::Value { value, .. } => Ok(Initial::Value(value)),
        Piece::Characters {
            object_offset,
            characters,
        } => {
            let mut all = Vec::new(alloc);
            let object_offset = narrow(object_offset)?;
            all.push(Element::Characters {
                offset: object_offset,
                characters,
            })?;
            Ok(Initial::Elements(all))
        }
    }
}

fn elements(alloc: Global, pieces: Vec<Piece>) -> Result<Vec<Element>, NoMemory>
    ensures { IfOk result (λ v. elements_of v.items ≡ trees_of pieces.items) }
{
    let mut all = Vec::new(alloc);
    for piece in pieces {
        all.push(element(piece)?)?;
    }
    Ok(all)
}

fn element(piece: Piece) -> Result<Element, NoMemory>
    ensures { IfOk result (λ e. elements_of (e ∷ []) ≡ trees_of (piece ∷ [])) }
{
    match piece {
        Piece::Value {
            object_offset,
            value,
        } => match narrow(object_offset) {
            Ok(object_offset) => Ok(Element::Value {
                offset: object_offset,
                value,
            }),
            Err(fault) => {
                drop(value);
                Err(fault)
            }
        },
        Piece::Characters {
            object_offset,
            characters,
        } => {
            let object_offset = narrow(object_offset)?;
            Ok(Element::Characters {
                offset: object_offset,
                characters,
            })
        }
    }
}

// An offset in an object has 32 bits.
fn narrow(object_offset: u64) -> Result<u32, NoMemory>
    ensures { IfOk result (λ r. r ≡ object_offset) }
{
    if object_offset <= u64::from(u32::MAX) {
        Ok(object_offset as u32)
    } else {
        Err(NoMemory)
    }
}

fn written(piece: Piece) -> Result<Written, NoMemory>
    ensures { IfOk result (λ w. written_tree w ∷ [] ≡ written_of (trees_of (piece ∷ []))) }
{
    match piece {
        Piece::Value {
            object_offset,
            value,
        } => match narrow(object_offset) {
            Ok(object_offset) => Ok(written_value(object_offset, &value)),
            Err(fault) => {
                drop(value);
                Err(fault)
            }
        },
        Piece::Characters {
            object_offset,
            characters,
        } => {
            let object_offset = narrow(object_offset)?;
            Ok(Written::Characters {
                offset: object_offset,
                characters,
            })
        }
    }
}

// What a constant is in memory: a word, or the address of a global.
fn written_value(object_offset: u32, value: &TExpr) -> Written
    ensures { written_tree result ≡ written_value object_offset value.now }
{
    match (&value.ty.form, &value.form) {
        (TypeForm::Scalar(s), _) => written_word(object_offset, *s, expr_word(value).unwrap_or(0)),
        (_, ExprForm::Address(place)) => written_address(object_offset, place),
        _ => Written::Word {
            offset: object_offset,
            width: 4,
            word: 0,
        },
    }
}

// The low bytes of a word, as many as a scalar has.
fn written_word(object_offset: u32, s: Scalar, word: u32) -> Written
    ensures { written_tree result ≡
        word_at object_offset (scalar_size s) (word % 2 ^ (8 * scalar_size s)) }
{
    match s {
        Scalar::Char | Scalar::SignedChar | Scalar::UnsignedChar => Written::Word {
            offset: object_offset,
            width: 1,
            word: word % 256,
        },
        Scalar::Short | Scalar::UnsignedShort => Written::Word {
            offset: object_offset,
            width: 2,
            word: word % 65536,
        },
        Scalar::Int | Scalar::UnsignedInt => Written::Word {
            offset: object_offset,
            width: 4,
            word,
        },
    }
}

// The address of a global.
fn written_address(object_offset: u32, of: &TPlace) -> Written
    ensures { written_tree result ≡ written_link object_offset of.now }
{
    match &of.form {
        PlaceForm::Global(number) => Written::Link {
            offset: object_offset,
            number: *number,
        },
        _ => Written::Word {
            offset: object_offset,
            width: 4,
            word: 0,
        },
    }
}
