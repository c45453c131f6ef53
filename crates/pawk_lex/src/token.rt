//! Tokens.

ghost use Rattle.std.specs.Prelude.{◌≡◌};

/// What has one spelling only: newline, the signs and the reserved words.
#[derive(Clone, Copy, PartialEq, Eq)]
pub enum Mark {
    Newline,
    LeftBrace,
    RightBrace,
    LeftParenthesis,
    RightParenthesis,
    LeftBracket,
    RightBracket,
    Semicolon,
    Comma,
    Plus,
    Minus,
    Star,
    Slash,
    Percent,
    Caret,
    Not,
    Greater,
    Less,
    Question,
    Colon,
    Tilde,
    Dollar,
    Assign,
    PlusAssign,
    MinusAssign,
    StarAssign,
    SlashAssign,
    PercentAssign,
    CaretAssign,
    Equal,
    LessEqual,
    GreaterEqual,
    NotEqual,
    NotMatch,
    PlusPlus,
    MinusMinus,
    And,
    Or,
    Begin,
    End,
    Function,
    If,
    Else,
    While,
    For,
    Do,
    In,
    Break,
    Continue,
    Next,
    NextFile,
    Exit,
    Return,
    Delete,
    Print,
    Printf,
}

/// A built-in function.
#[derive(Clone, Copy, PartialEq, Eq)]
pub enum Builtin {
    Length,
    Index,
    Substr,
    Split,
    Sub,
    Gsub,
    Match,
    Sprintf,
    Tolower,
    Toupper,
    Int,
}

/// What a token is.
#[derive(Drop)]
pub enum TokenValue {
    /// A numeral's number, at most 9223372036854775807.
    Number(u64),
    /// A string's bytes, with its escapes read.
    String(Vec<u8>),
    /// The bytes between two slashes, as they are.
    Ere(Vec<u8>),
    /// A name.
    Name(Vec<u8>),
    /// A name with `(` directly after it.
    FunctionName(Vec<u8>),
    /// The name of a built-in function.
    Builtin(Builtin),
    /// A newline, a sign or a reserved word.
    Mark(Mark),
}

/// Which bytes of a text a token is: from `start` up to, and without, `end`, counted from 0.
#[derive(Clone, Copy)]
pub struct Span {
    pub start: usize,
    pub end: usize,
}

/// A token, and its place in the text.
#[derive(Drop)]
pub struct Token {
    pub value: TokenValue,
    pub span: Span,
}

impl TokenValue {
    ghost use Rattle.pawk_lex.specs.Tokens.{tok, divides_after};

    /// Whether a slash after this token divides.
    pub fn divides(&self) -> bool
        ensures { result ≡ divides_after (tok self.now) }
    {
        match self {
            TokenValue::Mark(mark) => matches!(
                mark,
                Mark::RightParenthesis | Mark::RightBracket | Mark::PlusPlus | Mark::MinusMinus
            ),
            _ => true,
        }
    }
}

impl Mark {
    ghost use Rattle.pawk_lex.specs.Vocabulary.{mark_text};

    /// How the mark is written.
    pub fn text(self) -> &'static [u8]
        ensures { result.now ≡ mark_text self }
    {
        match self {
            Mark::Newline => b"\n",
            Mark::LeftBrace => b"{",
            Mark::RightBrace => b"}",
            Mark::LeftParenthesis => b"(",
            Mark::RightParenthesis => b")",
            Mark::LeftBracket => b"[",
            Mark::RightBracket => b"]",
            Mark::Semicolon => b";",
            Mark::Comma => b",",
            Mark::Plus => b"+",
            Mark::Minus => b"-",
            Mark::Star => b"*",
            Mark::Slash => b"/",
            Mark::Percent => b"%",
            Mark::Caret => b"^",
            Mark::Not => b"!",
            Mark::Greater => b">",
            Mark::Less => b"<",
            Mark::Question => b"?",
            Mark::Colon => b":",
            Mark::Tilde => b"~",
            Mark::Dollar => b"$",
            Mark::Assign => b"=",
            Mark::PlusAssign => b"+=",
            Mark::MinusAssign => b"-=",
            Mark::StarAssign => b"*=",
            Mark::SlashAssign => b"/=",
            Mark::PercentAssign => b"%=",
            Mark::CaretAssign => b"^=",
            Mark::Equal => b"==",
            Mark::LessEqual => b"<=",
            Mark::GreaterEqual => b">=",
            Mark::NotEqual => b"!=",
            Mark::NotMatch => b"!~",
            Mark::PlusPlus => b"++",
            Mark::MinusMinus => b"--",
            Mark::And => b"&&",
            Mark::Or => b"||",
            Mark::Begin => b"BEGIN",
            Mark::End => b"END",
            Mark::Function => b"function",
            Mark::If => b"if",
            Mark::Else => b"else",
            Mark::While => b"while",
            Mark::For => b"for",
            Mark::Do => b"do",
            Mark::In => b"in",
            Mark::Break => b"break",
            Mark::Continue => b"continue",
            Mark::Next => b"next",
            Mark::NextFile => b"nextfile",
            Mark::Exit => b"exit",
            Mark::Return => b"return",
            Mark::Delete => b"delete",
            Mark::Print => b"print",
            Mark::Printf => b"printf",
        }
    }
}

impl Builtin {
    ghost use Rattle.pawk_lex.specs.Vocabulary.{builtin_text};

    /// The name of the function, as programs write it.
    pub fn name(self) -> &'static [u8]
        ensures { result.now ≡ builtin_text self }
    {
        match self {
            Builtin::Length => b"length",
            Builtin::Index => b"index",
            Builtin::Substr => b"substr",
            Builtin::Split => b"split",
            Builtin::Sub => b"sub",
            Builtin::Gsub => b"gsub",
            Builtin::Match => b"match",
            Builtin::Sprintf => b"sprintf",
            Builtin::Tolower => b"tolower",
            Builtin::Toupper => b"toupper",
            Builtin::Int => b"int",
        }
    }
}
