//! Text at the end of a buffer. Where memory is refused in the middle of a text, its beginning is
//! there.

ghost use Rattle.std.specs.Prelude.{◌≡◌, ◌++◌, OnOk, decimal};
ghost use Rattle.g_text.specs.Edges.{place_text};

use crate::edges::Place;
use base::NoMemory;
use itoa::Buffer;

pub(crate) fn push(out: &mut Vec<u8>, text: &str) -> Result<(), NoMemory>
    ensures { OnOk result (out.new.items ≡ out.old.items ++ text.now) }
{
    Ok(out.extend_from_slice(text.as_bytes())?)
}

pub(crate) fn push_number(out: &mut Vec<u8>, number: u64) -> Result<(), NoMemory>
    ensures { OnOk result (out.new.items ≡ out.old.items ++ decimal number) }
{
    let mut buffer = Buffer::new();
    push(out, buffer.format(number))
}

// A text and a number.
pub(crate) fn push_numbered(out: &mut Vec<u8>, text: &str, number: u64) -> Result<(), NoMemory>
    ensures { OnOk result (out.new.items ≡ out.old.items ++ text.now ++ decimal number) }
{
    push(out, text)?;
    push_number(out, number)
}

// What the names of a region's parts begin with.
pub(crate) fn push_place(out: &mut Vec<u8>, place: Place) -> Result<(), NoMemory>
    ensures { OnOk result (out.new.items ≡ out.old.items ++ place_text place) }
{
    match place {
        Place::Body => push(out, "body"),
        Place::Within { node, index } => {
            push_numbered(out, "n", u64::from(node))?;
            push_numbered(out, "_", index as u64)
        }
    }
}

/// A piece of a text.
#[derive(Clone, Copy)]
pub(crate) enum Piece<'a> {
    Text(&'a str),
    Bytes(&'a [u8]),
    Number(u64),
    /// The name of the node of this number.
    Node(u32),
    /// What the names of the parts of the region at this place begin with.
    Region(Place),
}

fn push_piece(out: &mut Vec<u8>, piece: Piece) -> Result<(), NoMemory> {
    match piece {
        Piece::Text(text) => push(out, text),
        Piece::Bytes(bytes) => Ok(out.extend_from_slice(bytes)?),
        Piece::Number(number) => push_number(out, number),
        Piece::Node(id) => push_numbered(out, "n", u64::from(id)),
        Piece::Region(place) => push_place(out, place),
    }
}

/// The pieces go to the end of the buffer, in order.
pub(crate) fn push_all(out: &mut Vec<u8>, pieces: &[Piece]) -> Result<(), NoMemory> {
    for piece in pieces {
        push_piece(out, *piece)?;
    }
    Ok(())
}
