//! Why a source is not compiled.

ghost use Rattle.std.specs.Prelude.{◌≡◌};
ghost use Rattle.cc_source.specs.Faults.{of_build, of_checker, of_lexer, of_parser};

use c_check::CheckFault;
use c_lex::LexFault;
use c_parse::ParseFault;
use g_build::BuildFault;
use thiserror::Error;

/// Why a source is not compiled: the fault of one of the phases. A fault of a phase is never its
/// `NoMemory`.
#[derive(Clone, Copy, Debug, Error)]
pub enum CompileFault {
    /// The source has no tokens (ISO/IEC 9899:2011, 6.4).
    #[error("{0}")]
    Lex(LexFault),
    /// The tokens have no tree (6.5 to 6.9).
    #[error("{0}")]
    Parse(ParseFault),
    /// The tree breaks a rule (6.5 to 6.9), or a limit of programs is passed.
    #[error("{0}")]
    Check(CheckFault),
    /// A limit of the values of graphs is passed.
    #[error("{0}")]
    Build(BuildFault),
    /// Memory ran out.
    #[error("out of memory")]
    NoMemory,
}

impl From<LexFault> for CompileFault {
    ghost from_gives = { λ fault e. e ≡ of_lexer fault };

    fn from(fault: LexFault) -> CompileFault {
        match fault {
            LexFault::NoMemory => CompileFault::NoMemory,
            fault => CompileFault::Lex(fault),
        }
    }
}

impl From<ParseFault> for CompileFault {
    ghost from_gives = { λ fault e. e ≡ of_parser fault };

    fn from(fault: ParseFault) -> CompileFault {
        match fault {
            ParseFault::NoMemory => CompileFault::NoMemory,
            fault => CompileFault::Parse(fault),
        }
    }
}

impl From<CheckFault> for CompileFault {
    ghost from_gives = { λ fault e. e ≡ of_checker fault };

    fn from(fault: CheckFault) -> CompileFault {
        match fault {
            CheckFault::NoMemory => CompileFault::NoMemory,
            fault => CompileFault::Check(fault),
        }
    }
}

impl From<BuildFault> for CompileFault {
    ghost from_gives = { λ fault e. e ≡ of_build fault };

    fn from(fault: BuildFault) -> CompileFault {
        match fault {
            BuildFault::NoMemory => CompileFault::NoMemory,
            fault => CompileFault::Build(fault),
        }
    }
}
