//! The offset of a fault.

ghost use Rattle.std.specs.Prelude.{◌≡◌, ◌≤◌, IfSome, length, min, option_map};
ghost use Rattle.cc_source.specs.Offset.{offset_of, offset_of_text, offset_of_tokens, offset_of_tree, offset_of_values};

use crate::CompileFault;
use c_check::CheckFault;
use c_lex::LexFault;
use c_parse::ParseFault;
use g_build::BuildFault;

fn offset_of_text(fault: LexFault) -> Option<u32>
    ensures { result ≡ offset_of_text fault }
{
    match fault {
        LexFault::BadByte(at)
        | LexFault::OpenComment(at)
        | LexFault::OpenText(at)
        | LexFault::BadText(at)
        | LexFault::TooWide(at)
        | LexFault::LongName(at)
        | LexFault::Directive(at)
        | LexFault::ManyTokens(at)
        | LexFault::BadNumber(at)
        | LexFault::LongSource(at) => Some(at),
        LexFault::NoMemory => None,
    }
}

fn offset_of_tokens(fault: ParseFault) -> Option<u32>
    ensures { result ≡ offset_of_tokens fault }
{
    match fault {
        ParseFault::LeftOut(at) | ParseFault::TooDeep(at) | ParseFault::Syntax(at) => Some(at),
        ParseFault::NoMemory => None,
    }
}

fn offset_of_tree(fault: CheckFault) -> Option<u32>
    ensures { result ≡ offset_of_tree fault }
{
    match fault {
        CheckFault::Unknown { at }
        | CheckFault::Redeclared { at }
        | CheckFault::NotAssignable { at }
        | CheckFault::BadOperands { at }
        | CheckFault::BadCall { at }
        | CheckFault::NotConstant { at }
        | CheckFault::BadInitialiser { at }
        | CheckFault::BadType { at }
        | CheckFault::BadReturn { at }
        | CheckFault::BadJump { at }
        | CheckFault::BadLabel { at }
        | CheckFault::NoMain { at }
        | CheckFault::Limit { at, .. } => Some(at),
        CheckFault::NoMemory => None,
    }
}

fn offset_of_values(fault: BuildFault) -> Option<u32>
    ensures { result ≡ offset_of_values fault }
{
    match fault {
        BuildFault::Limit(passed) => Some(passed.at),
        BuildFault::NoMemory => None,
    }
}

fn offset_of_fault(fault: CompileFault) -> Option<u32>
    ensures { result ≡ offset_of fault }
{
    match fault {
        CompileFault::Lex(fault) => offset_of_text(fault),
        CompileFault::Parse(fault) => offset_of_tokens(fault),
        CompileFault::Check(fault) => offset_of_tree(fault),
        CompileFault::Build(fault) => offset_of_values(fault),
        CompileFault::NoMemory => None,
    }
}

/// The offset of the fault into the source, or the source's length where it is less; `None` where
/// memory ran out.
pub fn offset_of(fault: CompileFault, source: &[u8]) -> Option<usize>
    ensures value { result ≡ option_map (λ at. min at (length source.now)) (offset_of fault) }
    ensures inside { IfSome result (λ at. at ≤ length source.now) }
{
    match offset_of_fault(fault) {
        Some(at) => Some((at as usize).min(source.len())),
        None => None,
    }
}
