//! The kinds of refusals, with the numbers and names of reports.

ghost use Rattle.std.specs.Prelude.{◌≡◌, ◌≤◌, length};
ghost use Rattle.cc_report.specs.Refusal.{name_of, number_of};

/// The kind of a refusal: the rule that the source breaks, by the names of reports. 1 to 10 are
/// faults of the text, by the lexer, 21 to 23 of the tokens, by the parser, and 31 to 43 of the
/// program, by the checker; `Limit` is also that of the values of graphs, by construction.
#[derive(Clone, Copy)]
pub enum RefusalKind {
    BadByte,
    OpenComment,
    OpenText,
    BadText,
    TooWide,
    LongName,
    Directive,
    ManyTokens,
    BadNumber,
    LongSource,
    LeftOut,
    TooDeep,
    Syntax,
    Unknown,
    Redeclared,
    NotAssignable,
    BadOperands,
    BadCall,
    NotConstant,
    BadInitialiser,
    BadType,
    BadReturn,
    BadJump,
    NoMain,
    /// The limit of this number, 1 to 6, is passed with this count.
    Limit { which: u8, count: u64 },
    BadLabel,
}

impl RefusalKind {
    /// The number in reports.
    pub fn number(self) -> u32
        ensures { result ≡ number_of self }
    {
        match self {
            RefusalKind::BadByte => 1,
            RefusalKind::OpenComment => 2,
            RefusalKind::OpenText => 3,
            RefusalKind::BadText => 4,
            RefusalKind::TooWide => 5,
            RefusalKind::LongName => 6,
            RefusalKind::Directive => 7,
            RefusalKind::ManyTokens => 8,
            RefusalKind::BadNumber => 9,
            RefusalKind::LongSource => 10,
            RefusalKind::LeftOut => 21,
            RefusalKind::TooDeep => 22,
            RefusalKind::Syntax => 23,
            RefusalKind::Unknown => 31,
            RefusalKind::Redeclared => 32,
            RefusalKind::NotAssignable => 33,
            RefusalKind::BadOperands => 34,
            RefusalKind::BadCall => 35,
            RefusalKind::NotConstant => 36,
            RefusalKind::BadInitialiser => 37,
            RefusalKind::BadType => 38,
            RefusalKind::BadReturn => 39,
            RefusalKind::BadJump => 40,
            RefusalKind::NoMain => 41,
            RefusalKind::Limit { .. } => 42,
            RefusalKind::BadLabel => 43,
        }
    }

    /// The name in reports, at most 14 bytes.
    pub fn name(self) -> &'static str
        ensures name { result.now ≡ name_of self }
        ensures short { length result.now ≤ 14 }
    {
        match self {
            RefusalKind::BadByte => "BadByte",
            RefusalKind::OpenComment => "OpenComment",
            RefusalKind::OpenText => "OpenText",
            RefusalKind::BadText => "BadText",
            RefusalKind::TooWide => "TooWide",
            RefusalKind::LongName => "LongName",
            RefusalKind::Directive => "Directive",
            RefusalKind::ManyTokens => "ManyTokens",
            RefusalKind::BadNumber => "BadNumber",
            RefusalKind::LongSource => "LongSource",
            RefusalKind::LeftOut => "LeftOut",
            RefusalKind::TooDeep => "TooDeep",
            RefusalKind::Syntax => "Syntax",
            RefusalKind::Unknown => "Unknown",
            RefusalKind::Redeclared => "Redeclared",
            RefusalKind::NotAssignable => "NotAssignable",
            RefusalKind::BadOperands => "BadOperands",
            RefusalKind::BadCall => "BadCall",
            RefusalKind::NotConstant => "NotConstant",
            RefusalKind::BadInitialiser => "BadInitialiser",
            RefusalKind::BadType => "BadType",
            RefusalKind::BadReturn => "BadReturn",
            RefusalKind::BadJump => "BadJump",
            RefusalKind::NoMain => "NoMain",
            RefusalKind::Limit { .. } => "Limit",
            RefusalKind::BadLabel => "BadLabel",
        }
    }
}

/// Why a source is refused, and where.
#[derive(Clone, Copy)]
pub struct Refusal {
    /// The rule that it breaks.
    pub kind: RefusalKind,
    /// The line in which it does, counted from 1.
    pub line: u64,
}
