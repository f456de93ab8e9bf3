//! The reserved words and the signs of the language, each with the bytes that it is written as.

ghost use Rattle.std.specs.Prelude.{◌≡◌};
ghost use Rattle.sgl_lexer.specs.Kinds.{word_text, sign_text};

// The variants of an enum that are named, in this order.
macro_rules! each_of {
    ($kind:ident: $($name:ident),*) => {
        [$($kind::$name),*]
    };
}

/// A reserved word, named as it is written with a capital first letter.
#[derive(Clone, Copy, Debug, PartialEq, Eq)]
pub enum Word {
    Attr,
    Const,
    Sum,
    Min,
    Max,
    Aggregate,
    Action,
    Routine,
    Main,
    Post,
    Count,
    Lowest,
    Highest,
    Where,
    Else,
    On,
    Let,
    If,
    Perform,
    Remove,
    When,
    And,
    Or,
    Not,
    True,
    False,
    Random,
    Top,
    By,
    Spawn,
    Nearest,
    Within,
}

impl Word {
    // Every reserved word once.
    pub(crate) const ALL: [Word; 32] = each_of!(Word:
        Attr, Const, Sum, Min, Max, Aggregate, Action, Routine, Main, Post, Count, Lowest,
        Highest, Where, Else, On, Let, If, Perform, Remove, When, And, Or, Not, True,
        False, Random, Top, By, Spawn, Nearest, Within
    );

    // The bytes of the word.
    pub(crate) fn text(self) -> &'static [u8]
        ensures { result.now ≡ word_text self }
    {
        match self {
            Word::Attr => b"attr",
            Word::Const => b"const",
            Word::Sum => b"sum",
            Word::Min => b"min",
            Word::Max => b"max",
            Word::Aggregate => b"aggregate",
            Word::Action => b"action",
            Word::Routine => b"routine",
            Word::Main => b"main",
            Word::Post => b"post",
            Word::Count => b"count",
            Word::Lowest => b"lowest",
            Word::Highest => b"highest",
            Word::Where => b"where",
            Word::Else => b"else",
            Word::On => b"on",
            Word::Let => b"let",
            Word::If => b"if",
            Word::Perform => b"perform",
            Word::Remove => b"remove",
            Word::When => b"when",
            Word::And => b"and",
            Word::Or => b"or",
            Word::Not => b"not",
            Word::True => b"true",
            Word::False => b"false",
            Word::Random => b"random",
            Word::Top => b"top",
            Word::By => b"by",
            Word::Spawn => b"spawn",
            Word::Nearest => b"nearest",
            Word::Within => b"within",
        }
    }
}

/// A sign of one or two bytes.
#[derive(Clone, Copy, Debug, PartialEq, Eq)]
pub enum Sign {
    /// `(`
    ParenOpen,
    /// `)`
    ParenClose,
    /// `{`
    BraceOpen,
    /// `}`
    BraceClose,
    /// `,`
    Comma,
    /// `;`
    Semicolon,
    /// `.`
    Dot,
    /// `+`
    Plus,
    /// `-`
    Minus,
    /// `*`
    Star,
    /// `/`
    Slash,
    /// `%`
    Percent,
    /// `=`
    Equal,
    /// `<>`
    NotEqual,
    /// `<`
    Less,
    /// `<=`
    LessEqual,
    /// `>`
    Greater,
    /// `>=`
    GreaterEqual,
    /// `<-`
    Arrow,
}

impl Sign {
    // Every sign once, the longer ones first, so that the first one that fits is the longest.
    pub(crate) const ALL: [Sign; 19] = each_of!(Sign:
        NotEqual, LessEqual, GreaterEqual, Arrow, ParenOpen, ParenClose, BraceOpen,
        BraceClose, Comma, Semicolon, Dot, Plus, Minus, Star, Slash, Percent, Equal, Less,
        Greater
    );

    // The bytes of the sign.
    pub(crate) fn text(self) -> &'static [u8]
        ensures { result.now ≡ sign_text self }
    {
        match self {
            Sign::ParenOpen => b"(",
            Sign::ParenClose => b")",
            Sign::BraceOpen => b"{",
            Sign::BraceClose => b"}",
            Sign::Comma => b",",
            Sign::Semicolon => b";",
            Sign::Dot => b".",
            Sign::Plus => b"+",
            Sign::Minus => b"-",
            Sign::Star => b"*",
            Sign::Slash => b"/",
            Sign::Percent => b"%",
            Sign::Equal => b"=",
            Sign::NotEqual => b"<>",
            Sign::Less => b"<",
            Sign::LessEqual => b"<=",
            Sign::Greater => b">",
            Sign::GreaterEqual => b">=",
            Sign::Arrow => b"<-",
        }
    }
}
