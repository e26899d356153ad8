//! The refusal of a source with a fault.

ghost use Rattle.std.specs.Prelude.{◌≡◌, ◌≤◌, ◌<◌, ◌^◌, count_by, length};
ghost use Rattle.cc_source.specs.Refusal.{line_at, refused_at, refusal_of, refusal_of_text, refusal_of_tokens, refusal_of_tree, refusal_of_values, is_line_end};

use crate::CompileFault;
use c_check::CheckFault;
use c_lex::LexFault;
use c_parse::ParseFault;
use cc_report::{Refusal, RefusalKind};
use g_build::BuildFault;

fn line_ends(text: &[u8]) -> u64
    requires { length text.now < 2 ^ 32 }
    ensures { result ≡ count_by is_line_end text.now }
{
    let mut count = 0;
    for byte in text {
        if *byte == b'\n' {
            count += 1;
        }
    }
    count
}

/// The line of an offset into the source, counted from 1.
fn line_at(at: u32, source: &[u8]) -> u64
    ensures value { result ≡ line_at at source.now }
    ensures small { result ≤ 2 ^ 32 }
{
    line_ends(&source[..source.len().min(at as usize)]) + 1
}

fn refused_at(kind: RefusalKind, at: u32, source: &[u8]) -> Refusal
    ensures { result ≡ refused_at kind at source.now }
{
    Refusal {
        kind,
        line: line_at(at, source),
    }
}

fn refusal_of_text(fault: LexFault, source: &[u8]) -> Option<Refusal>
    ensures { result ≡ refusal_of_text fault source.now }
{
    let (kind, at) = match fault {
        LexFault::BadByte(at) => (RefusalKind::BadByte, at),
        LexFault::OpenComment(at) => (RefusalKind::OpenComment, at),
        LexFault::OpenText(at) => (RefusalKind::OpenText, at),
        LexFault::BadText(at) => (RefusalKind::BadText, at),
        LexFault::TooWide(at) => (RefusalKind::TooWide, at),
        LexFault::LongName(at) => (RefusalKind::LongName, at),
        LexFault::Directive(at) => (RefusalKind::Directive, at),
        LexFault::ManyTokens(at) => (RefusalKind::ManyTokens, at),
        LexFault::BadNumber(at) => (RefusalKind::BadNumber, at),
        LexFault::LongSource(at) => (RefusalKind::LongSource, at),
        LexFault::NoMemory => return None,
    };
    Some(refused_at(kind, at, source))
}

fn refusal_of_tokens(fault: ParseFault, source: &[u8]) -> Option<Refusal>
    ensures { result ≡ refusal_of_tokens fault source.now }
{
    let (kind, at) = match fault {
        ParseFault::LeftOut(at) => (RefusalKind::LeftOut, at),
        ParseFault::TooDeep(at) => (RefusalKind::TooDeep, at),
        ParseFault::Syntax(at) => (RefusalKind::Syntax, at),
        ParseFault::NoMemory => return None,
    };
    Some(refused_at(kind, at, source))
}

fn refusal_of_tree(fault: CheckFault, source: &[u8]) -> Option<Refusal>
    ensures { result ≡ refusal_of_tree fault source.now }
{
    let (kind, at) = match fault {
        CheckFault::Unknown { at } => (RefusalKind::Unknown, at),
        CheckFault::Redeclared { at } => (RefusalKind::Redeclared, at),
        CheckFault::NotAssignable { at } => (RefusalKind::NotAssignable, at),
        CheckFault::BadOperands { at } => (RefusalKind::BadOperands, at),
        CheckFault::BadCall { at } => (RefusalKind::BadCall, at),
        CheckFault::NotConstant { at } => (RefusalKind::NotConstant, at),
        CheckFault::BadInitialiser { at } => (RefusalKind::BadInitialiser, at),
        CheckFault::BadType { at } => (RefusalKind::BadType, at),
        CheckFault::BadReturn { at } => (RefusalKind::BadReturn, at),
        CheckFault::BadJump { at } => (RefusalKind::BadJump, at),
        CheckFault::BadLabel { at } => (RefusalKind::BadLabel, at),
        CheckFault::NoMain { at } => (RefusalKind::NoMain, at),
        CheckFault::Limit { at, which, count } => (RefusalKind::Limit { which, count }, at),
        CheckFault::NoMemory => return None,
    };
    Some(refused_at(kind, at, source))
}

fn refusal_of_values(fault: BuildFault, source: &[u8]) -> Option<Refusal>
    ensures { result ≡ refusal_of_values fault source.now }
{
    match fault {
        BuildFault::Limit(passed) => {
            let kind = RefusalKind::Limit {
                which: passed.which,
                count: passed.count,
            };
            Some(refused_at(kind, passed.at, source))
        }
        BuildFault::NoMemory => None,
    }
}

/// The refusal of a source with this fault; `None` where memory ran out.
pub fn refusal_of(fault: CompileFault, source: &[u8]) -> Option<Refusal>
    ensures { result ≡ refusal_of fault source.now }
{
    match fault {
        CompileFault::Lex(fault) => refusal_of_text(fault, source),
        CompileFault::Parse(fault) => refusal_of_tokens(fault, source),
        CompileFault::Check(fault) => refusal_of_tree(fault, source),
        CompileFault::Build(fault) => refusal_of_values(fault, source),
        CompileFault::NoMemory => None,
    }
}
