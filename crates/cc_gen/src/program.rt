//! The texts of functions and of `main`, and the whole program.

ghost use Rattle.std.specs.Prelude.{◌≡◌, Some, OnOk, OnErr, length};
ghost use Rattle.cc_io.specs.Faults.{HasCause};
ghost use Rattle.cc_io.specs.Sink.{append};
ghost use Rattle.cc_gen.specs.Generated.{call_line, function_head, function_text, functions_text, generated, main_line, main_lines, main_text, sign_of};
ghost use Rattle.cc_gen.specs.Pieces.{HoldsPrefix};

use crate::chunks::{Chunks, end};
use crate::draws::{Drawn, Draws};
use crate::pieces::{Piece, write_pieces, write_text};
use cc_io::{Failed, Sink};

const FUNCTION_HEAD: &str = "(int a, int b)\n{\n    int s = a;\n    int k = 0;\n    while (k < ";

const LOOP_END: &str = ";\n        k = k + 1;\n    }\n    if (s & 1) s = s - b; else s = s ^ k;\n";

const FUNCTION_END: &str = "    return s;\n}\n";

const MAIN_HEAD: &str = "int main(void)\n{\n    int s = 0;\n";

const MAIN_END: &str = "    putchar(65 + (s & 15));\n    putchar(10);\n    return s & 255;\n}\n";

/// The sign of a drawn operator.
fn sign_of(operator: u32) -> &'static str
    ensures { result.now ≡ sign_of operator }
{
    match operator {
        0 => "+",
        1 => "-",
        2 => "*",
        _ => "^",
    }
}

fn write_head<S: Sink>(out: &mut S, number: u32, drawn: &Drawn) -> Result<(), Failed>
    ensures ok { OnOk result
        (S.held out.new ≡ append (S.held out.old) (function_head number drawn.now)) }
    ensures err { OnErr result
        (HoldsPrefix (function_head number drawn.now) (S.held out.old) (S.held out.new)) }
    ensures rest { S.rest out.new ≡ S.rest out.old }
    ensures cause { HasCause (S.faults out.old) (S.faults out.new) result }
{
    write_pieces(
        out,
        &[
            Piece::Text("int f"),
            Piece::Number(number),
            Piece::Text(FUNCTION_HEAD),
            Piece::Number(drawn.turns),
            Piece::Text(") {\n        s = (s "),
            Piece::Text(sign_of(drawn.operator)),
            Piece::Text(" b) + "),
            Piece::Number(drawn.constant),
            Piece::Text(LOOP_END),
        ],
    )
}

fn write_call<S: Sink>(out: &mut S, callee: Option<u32>) -> Result<(), Failed>
    ensures ok { OnOk result (S.held out.new ≡ append (S.held out.old) (call_line callee)) }
    ensures err { OnErr result (HoldsPrefix (call_line callee) (S.held out.old) (S.held out.new)) }
    ensures rest { S.rest out.new ≡ S.rest out.old }
    ensures cause { HasCause (S.faults out.old) (S.faults out.new) result }
{
    let Some(callee) = callee else {
        return Ok(());
    };
    write_pieces(
        out,
        &[
            Piece::Text("    s = s + f"),
            Piece::Number(callee),
            Piece::Text("(s & 255, b);\n"),
        ],
    )
}

fn write_function<S: Sink>(out: &mut S, number: u32, drawn: &Drawn) -> Result<(), Failed>
    ensures ok { OnOk result
        (S.held out.new ≡ append (S.held out.old) (function_text number drawn.now)) }
    ensures err { OnErr result
        (HoldsPrefix (function_text number drawn.now) (S.held out.old) (S.held out.new)) }
    ensures rest { S.rest out.new ≡ S.rest out.old }
    ensures cause { HasCause (S.faults out.old) (S.faults out.new) result }
{
    write_head(out, number, drawn)?;
    write_call(out, drawn.callee)?;
    write_text(out, FUNCTION_END)
}

fn write_main_line<S: Sink>(out: &mut S, number: u32) -> Result<(), Failed>
    ensures ok { OnOk result (S.held out.new ≡ append (S.held out.old) (main_line number)) }
    ensures err { OnErr result (HoldsPrefix (main_line number) (S.held out.old) (S.held out.new)) }
    ensures rest { S.rest out.new ≡ S.rest out.old }
    ensures cause { HasCause (S.faults out.old) (S.faults out.new) result }
{
    write_pieces(
        out,
        &[
            Piece::Text("    s = s ^ f"),
            Piece::Number(number),
            Piece::Text("("),
            Piece::Number(number),
            Piece::Text(", 7);\n"),
        ],
    )
}

fn write_main_lines<S: Sink>(out: &mut S, functions: u32) -> Result<(), Failed>
    ensures ok { OnOk result (S.held out.new ≡ append (S.held out.old) (main_lines functions)) }
    ensures err { OnErr result
        (HoldsPrefix (main_lines functions) (S.held out.old) (S.held out.new)) }
    ensures rest { S.rest out.new ≡ S.rest out.old }
    ensures cause { HasCause (S.faults out.old) (S.faults out.new) result }
{
    for number in 0..functions {
        write_main_line(out, number)?;
    }
    Ok(())
}

fn write_main<S: Sink>(out: &mut S, functions: u32) -> Result<(), Failed>
    ensures ok { OnOk result (S.held out.new ≡ append (S.held out.old) (main_text functions)) }
    ensures err { OnErr result
        (HoldsPrefix (main_text functions) (S.held out.old) (S.held out.new)) }
    ensures rest { S.rest out.new ≡ S.rest out.old }
    ensures cause { HasCause (S.faults out.old) (S.faults out.new) result }
{
    write_text(out, MAIN_HEAD)?;
    write_main_lines(out, functions)?;
    write_text(out, MAIN_END)
}

fn write_functions<S: Sink>(out: &mut S, start: u32, functions: u32) -> Result<(), Failed>
    ensures ok { OnOk result
        (S.held out.new ≡ append (S.held out.old) (functions_text start functions)) }
    ensures err { OnErr result
        (HoldsPrefix (functions_text start functions) (S.held out.old) (S.held out.new)) }
    ensures rest { S.rest out.new ≡ S.rest out.old }
    ensures cause { HasCause (S.faults out.old) (S.faults out.new) result }
{
    let mut draws = Draws { state: start };
    for number in 0..functions {
        let drawn = draws.draw_function(number);
        write_function(out, number, &drawn)?;
    }
    Ok(())
}

fn write_program<S: Sink>(start: u32, functions: u32, out: &mut S) -> Result<(), Failed>
    ensures ok { OnOk result
        (S.held out.new ≡ append (S.held out.old) (generated start functions)) }
    ensures err { OnErr result
        (HoldsPrefix (generated start functions) (S.held out.old) (S.held out.new)) }
    ensures rest { S.rest out.new ≡ S.rest out.old }
    ensures cause { HasCause (S.faults out.old) (S.faults out.new) result }
{
    write_functions(out, start, functions)?;
    write_main(out, functions)
}

// Writes the program through chunks that have gathered nothing yet.
fn write_in_chunks<S: Sink>(
    start: u32,
    functions: u32,
    chunks: &mut Chunks<S>,
) -> Result<(), Failed>
    requires empty { length chunks.old.chunk.items ≡ 0 }
    requires first { chunks.old.first.value ≡ chunks.old.out.now }
    ensures ok { OnOk result (S.held chunks.new.out.now
        ≡ append (S.held chunks.old.out.now) (generated start functions)) }
    ensures err { OnErr result (HoldsPrefix (generated start functions)
        (S.held chunks.old.out.now) (S.held chunks.new.out.now)) }
    ensures lender { chunks.new.out.ghost_name ≡ chunks.old.out.ghost_name }
    ensures rest { S.rest chunks.new.out.now ≡ S.rest chunks.old.out.now }
    ensures cause { HasCause (S.faults chunks.old.out.now) (S.faults chunks.new.out.now) result }
{
    write_program(start, functions, chunks)?;
    chunks.send()
}

/// Writes the program of `functions` functions, 1 to 511, and `main`, whose draws begin with the
/// state `start`, in chunks of 4,096 bytes. Takes no memory. `Failed` only where the sink's count
/// of faults increased; a prefix of the program's text was written then.
pub fn generate<S: Sink>(start: u32, functions: u32, out: &mut S) -> Result<(), Failed>
    ensures ok { OnOk result
        (S.held out.new ≡ append (S.held out.old) (generated start functions)) }
    ensures err { OnErr result
        (HoldsPrefix (generated start functions) (S.held out.old) (S.held out.new)) }
    ensures rest { S.rest out.new ≡ S.rest out.old }
    ensures cause { HasCause (S.faults out.old) (S.faults out.new) result }
{
    let mut chunks = Chunks::new(out);
    let done = write_in_chunks(start, functions, &mut chunks);
    end(chunks);
    done
}
