//! Pieces of a text, and their writing.

ghost use Rattle.std.specs.Prelude.{◌≡◌, OnOk, OnErr};
ghost use Rattle.cc_io.specs.Faults.{HasCause};
ghost use Rattle.cc_io.specs.Sink.{append};
ghost use Rattle.cc_gen.specs.Pieces.{text_of, text_of_all, HoldsPrefix};

use cc_io::{Failed, Sink, write_all};
use itoa::Buffer;

/// A piece of a text.
#[derive(Clone, Copy)]
pub(crate) enum Piece<'a> {
    Text(&'a str),
    /// Written in decimal.
    Number(u32),
}

/// Writes a text. After an `Err` a prefix of it was written.
pub(crate) fn write_text<S: Sink>(out: &mut S, text: &str) -> Result<(), Failed>
    ensures ok { OnOk result (S.held out.new ≡ append (S.held out.old) text.now) }
    ensures err { OnErr result (HoldsPrefix text.now (S.held out.old) (S.held out.new)) }
    ensures rest { S.rest out.new ≡ S.rest out.old }
    ensures cause { HasCause (S.faults out.old) (S.faults out.new) result }
{
    write_all(out, text.as_bytes())
}

fn write_piece<S: Sink>(out: &mut S, piece: &Piece) -> Result<(), Failed>
    ensures ok { OnOk result (S.held out.new ≡ append (S.held out.old) (text_of piece.now)) }
    ensures err { OnErr result (HoldsPrefix (text_of piece.now) (S.held out.old) (S.held out.new)) }
    ensures rest { S.rest out.new ≡ S.rest out.old }
    ensures cause { HasCause (S.faults out.old) (S.faults out.new) result }
{
    match piece {
        Piece::Text(text) => write_text(out, text),
        Piece::Number(number) => {
            let mut buffer = Buffer::new();
            write_text(out, buffer.format(*number))
        }
    }
}

/// Writes the pieces one after the other. After an `Err` a prefix of their text was written.
pub(crate) fn write_pieces<S: Sink>(out: &mut S, pieces: &[Piece]) -> Result<(), Failed>
    ensures ok { OnOk result (S.held out.new ≡ append (S.held out.old) (text_of_all pieces.now)) }
    ensures err { OnErr result
        (HoldsPrefix (text_of_all pieces.now) (S.held out.old) (S.held out.new)) }
    ensures rest { S.rest out.new ≡ S.rest out.old }
    ensures cause { HasCause (S.faults out.old) (S.faults out.new) result }
{
    for piece in pieces {
        write_piece(out, piece)?;
    }
    Ok(())
}
