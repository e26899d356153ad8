//! The punctuators of the language, and how each is written.

ghost use Rattle.std.specs.Prelude.{◌≡◌, nat_eq, find};
ghost use Rattle.std.specs.List.{starts_with};
ghost use Rattle.c_lex.specs.Punctuators.{punct_spelling, punct_at, puncts_beginning_with};

/// A punctuator (ISO 9899:2011, 6.4.6) of the language that is compiled.
#[derive(Clone, Copy, Debug, PartialEq, Eq)]
pub enum Punct {
    /// `(`
    LParen,
    /// `)`
    RParen,
    /// `[`
    LBracket,
    /// `]`
    RBracket,
    /// `{`
    LBrace,
    /// `}`
    RBrace,
    /// `;`
    Semicolon,
    /// `,`
    Comma,
    /// `.`
    Dot,
    /// `->`
    Arrow,
    /// `++`
    PlusPlus,
    /// `--`
    MinusMinus,
    /// `&`
    Amp,
    /// `*`
    Star,
    /// `+`
    Plus,
    /// `-`
    Minus,
    /// `~`
    Tilde,
    /// `!`
    Bang,
    /// `/`
    Slash,
    /// `%`
    Percent,
    /// `<<`
    ShiftLeft,
    /// `>>`
    ShiftRight,
    /// `<`
    Less,
    /// `>`
    Greater,
    /// `<=`
    LessEqual,
    /// `>=`
    GreaterEqual,
    /// `==`
    EqualEqual,
    /// `!=`
    BangEqual,
    /// `^`
    Caret,
    /// `|`
    Pipe,
    /// `&&`
    AmpAmp,
    /// `||`
    PipePipe,
    /// `?`
    Question,
    /// `:`
    Colon,
    /// `=`
    Equal,
    /// `*=`
    StarEqual,
    /// `/=`
    SlashEqual,
    /// `%=`
    PercentEqual,
    /// `+=`
    PlusEqual,
    /// `-=`
    MinusEqual,
    /// `<<=`
    ShiftLeftEqual,
    /// `>>=`
    ShiftRightEqual,
    /// `&=`
    AmpEqual,
    /// `^=`
    CaretEqual,
    /// `|=`
    PipeEqual,
}

/// The first of these punctuators that the text begins with.
fn first_of(puncts: &[Punct], text: &[u8]) -> Option<Punct>
    ensures { result ≡ find (λ p. starts_with nat_eq text.now (punct_spelling p)) puncts.now }
{
    puncts
        .iter()
        .copied()
        .find(|punct| text.starts_with(punct.spelling()))
}

impl Punct {
    /// The punctuators that begin with this byte, the longer ones first.
    fn beginning_with(first: u8) -> &'static [Punct]
        ensures { result.now ≡ puncts_beginning_with first }
    {
        match first {
            b'(' => &[Punct::LParen],
            b')' => &[Punct::RParen],
            b'[' => &[Punct::LBracket],
            b']' => &[Punct::RBracket],
            b'{' => &[Punct::LBrace],
            b'}' => &[Punct::RBrace],
            b';' => &[Punct::Semicolon],
            b',' => &[Punct::Comma],
            b'.' => &[Punct::Dot],
            b'~' => &[Punct::Tilde],
            b'?' => &[Punct::Question],
            b':' => &[Punct::Colon],
            b'-' => &[
                Punct::Arrow,
                Punct::MinusMinus,
                Punct::MinusEqual,
                Punct::Minus,
            ],
            b'+' => &[Punct::PlusPlus, Punct::PlusEqual, Punct::Plus],
            b'<' => &[
                Punct::ShiftLeftEqual,
                Punct::ShiftLeft,
                Punct::LessEqual,
                Punct::Less,
            ],
            b'>' => &[
                Punct::ShiftRightEqual,
                Punct::ShiftRight,
                Punct::GreaterEqual,
                Punct::Greater,
            ],
            b'=' => &[Punct::EqualEqual, Punct::Equal],
            b'!' => &[Punct::BangEqual, Punct::Bang],
            b'&' => &[Punct::AmpAmp, Punct::AmpEqual, Punct::Amp],
            b'|' => &[Punct::PipePipe, Punct::PipeEqual, Punct::Pipe],
            b'*' => &[Punct::StarEqual, Punct::Star],
            b'/' => &[Punct::SlashEqual, Punct::Slash],
            b'%' => &[Punct::PercentEqual, Punct::Percent],
            b'^' => &[Punct::CaretEqual, Punct::Caret],
            _ => &[],
        }
    }

    /// The longest punctuator that the text begins with, if it begins with one.
    pub fn at_front(text: &[u8]) -> Option<Punct>
        ensures { result ≡ punct_at text.now }
    {
        match text {
            [] => None,
            [first, ..] => first_of(Punct::beginning_with(*first), text),
        }
    }

    /// How it is written.
    pub fn spelling(self) -> &'static [u8]
        ensures { result.now ≡ punct_spelling self }
    {
        match self {
            Punct::LParen => b"(",
            Punct::RParen => b")",
            Punct::LBracket => b"[",
            Punct::RBracket => b"]",
            Punct::LBrace => b"{",
            Punct::RBrace => b"}",
            Punct::Semicolon => b";",
            Punct::Comma => b",",
            Punct::Dot => b".",
            Punct::Arrow => b"->",
            Punct::PlusPlus => b"++",
            Punct::MinusMinus => b"--",
            Punct::Amp => b"&",
            Punct::Star => b"*",
            Punct::Plus => b"+",
            Punct::Minus => b"-",
            Punct::Tilde => b"~",
            Punct::Bang => b"!",
            Punct::Slash => b"/",
            Punct::Percent => b"%",
            Punct::ShiftLeft => b"<<",
            Punct::ShiftRight => b">>",
            Punct::Less => b"<",
            Punct::Greater => b">",
            Punct::LessEqual => b"<=",
            Punct::GreaterEqual => b">=",
            Punct::EqualEqual => b"==",
            Punct::BangEqual => b"!=",
            Punct::Caret => b"^",
            Punct::Pipe => b"|",
            Punct::AmpAmp => b"&&",
            Punct::PipePipe => b"||",
            Punct::Question => b"?",
            Punct::Colon => b":",
            Punct::Equal => b"=",
            Punct::StarEqual => b"*=",
            Punct::SlashEqual => b"/=",
            Punct::PercentEqual => b"%=",
            Punct::PlusEqual => b"+=",
            Punct::MinusEqual => b"-=",
            Punct::ShiftLeftEqual => b"<<=",
            Punct::ShiftRightEqual => b">>=",
            Punct::AmpEqual => b"&=",
            Punct::CaretEqual => b"^=",
            Punct::PipeEqual => b"|=",
        }
    }
}
