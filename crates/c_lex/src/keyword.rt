//! The keywords of C11, and which of them the language leaves out.

ghost use Rattle.std.specs.Prelude.{◌≡◌, find};
ghost use Rattle.c_lex.specs.Keywords.{keyword_spelling, keyword_of, is_left_out};

/// A keyword of C11 (ISO 9899:2011, 6.4.1). The last 23 are not part of the language that is
/// compiled.
#[derive(Clone, Copy, Debug, PartialEq, Eq)]
pub enum Keyword {
    Break,
    Case,
    Char,
    Const,
    Continue,
    Default,
    Do,
    Else,
    For,
    If,
    Int,
    Return,
    Short,
    Signed,
    Sizeof,
    Static,
    Struct,
    Switch,
    Unsigned,
    Void,
    While,
    Auto,
    Double,
    Enum,
    Extern,
    Float,
    Goto,
    Inline,
    Long,
    Register,
    Restrict,
    Typedef,
    Union,
    Volatile,
    Alignas,
    Alignof,
    Atomic,
    Bool,
    Complex,
    Generic,
    Imaginary,
    Noreturn,
    StaticAssert,
    ThreadLocal,
}

/// Every keyword.
const KEYWORDS: [Keyword; 44] = [
    Keyword::Break,
    Keyword::Case,
    Keyword::Char,
    Keyword::Const,
    Keyword::Continue,
    Keyword::Default,
    Keyword::Do,
    Keyword::Else,
    Keyword::For,
    Keyword::If,
    Keyword::Int,
    Keyword::Return,
    Keyword::Short,
    Keyword::Signed,
    Keyword::Sizeof,
    Keyword::Static,
    Keyword::Struct,
    Keyword::Switch,
    Keyword::Unsigned,
    Keyword::Void,
    Keyword::While,
    Keyword::Auto,
    Keyword::Double,
    Keyword::Enum,
    Keyword::Extern,
    Keyword::Float,
    Keyword::Goto,
    Keyword::Inline,
    Keyword::Long,
    Keyword::Register,
    Keyword::Restrict,
    Keyword::Typedef,
    Keyword::Union,
    Keyword::Volatile,
    Keyword::Alignas,
    Keyword::Alignof,
    Keyword::Atomic,
    Keyword::Bool,
    Keyword::Complex,
    Keyword::Generic,
    Keyword::Imaginary,
    Keyword::Noreturn,
    Keyword::StaticAssert,
    Keyword::ThreadLocal,
];

impl Keyword {
    /// The keyword that these bytes spell, if they spell one.
    pub fn from_bytes(bytes: &[u8]) -> Option<Keyword>
        ensures { result ≡ keyword_of bytes.now }
    {
        KEYWORDS
            .iter()
            .copied()
            .find(|keyword| keyword.spelling() == bytes)
    }

    /// How it is written.
    pub fn spelling(self) -> &'static [u8]
        ensures { result.now ≡ keyword_spelling self }
    {
        match self {
            Keyword::Break => b"break",
            Keyword::Case => b"case",
            Keyword::Char => b"char",
            Keyword::Const => b"const",
            Keyword::Continue => b"continue",
            Keyword::Default => b"default",
            Keyword::Do => b"do",
            Keyword::Else => b"else",
            Keyword::For => b"for",
            Keyword::If => b"if",
            Keyword::Int => b"int",
            Keyword::Return => b"return",
            Keyword::Short => b"short",
            Keyword::Signed => b"signed",
            Keyword::Sizeof => b"sizeof",
            Keyword::Static => b"static",
            Keyword::Struct => b"struct",
            Keyword::Switch => b"switch",
            Keyword::Unsigned => b"unsigned",
            Keyword::Void => b"void",
            Keyword::While => b"while",
            Keyword::Auto => b"auto",
            Keyword::Double => b"double",
            Keyword::Enum => b"enum",
            Keyword::Extern => b"extern",
            Keyword::Float => b"float",
            Keyword::Goto => b"goto",
            Keyword::Inline => b"inline",
            Keyword::Long => b"long",
            Keyword::Register => b"register",
            Keyword::Restrict => b"restrict",
            Keyword::Typedef => b"typedef",
            Keyword::Union => b"union",
            Keyword::Volatile => b"volatile",
            Keyword::Alignas => b"_Alignas",
            Keyword::Alignof => b"_Alignof",
            Keyword::Atomic => b"_Atomic",
            Keyword::Bool => b"_Bool",
            Keyword::Complex => b"_Complex",
            Keyword::Generic => b"_Generic",
            Keyword::Imaginary => b"_Imaginary",
            Keyword::Noreturn => b"_Noreturn",
            Keyword::StaticAssert => b"_Static_assert",
            Keyword::ThreadLocal => b"_Thread_local",
        }
    }

    /// Whether it is one of those that the language leaves out.
    pub fn is_left_out(self) -> bool
        ensures { result ≡ is_left_out self }
    {
        match self {
            Keyword::Break
            | Keyword::Case
            | Keyword::Char
            | Keyword::Const
            | Keyword::Continue
            | Keyword::Default
            | Keyword::Do
            | Keyword::Else
            | Keyword::For
            | Keyword::If
            | Keyword::Int
            | Keyword::Return
            | Keyword::Short
            | Keyword::Signed
            | Keyword::Sizeof
            | Keyword::Static
            | Keyword::Struct
            | Keyword::Switch
            | Keyword::Unsigned
            | Keyword::Void
            | Keyword::While => false,
            _ => true,
        }
    }
}
