//! Takes a tag, a fold over an attribute, or a comparison from the front of the tokens.

ghost use Rattle.std.specs.Prelude.{◌≡◌, IfOk, IfErr, Some, length, ◌∷◌};
ghost use Rattle.std.specs.Option.{is_some};
ghost use Rattle.sgl_parser.specs.Breaks.{NoneAt};
ghost use Rattle.sgl_parser.specs.Operators.{comparison, tag, fold};
ghost use Rattle.sgl_parser.specs.Shape.{kinds_of};
ghost use Rattle.sgl_parser.specs.declared.reading.Stop.TheVariants as stops;

use crate::precedence::comparison;
use crate::reading::{Stop, split};
use sgl_lexer::{Token, TokenKind, Word};
use sgl_values::{CmpOp, FoldKind, Tag};

// The variant that is named as a token's word is, of those that are listed.
macro_rules! by_word {
    ($kind:expr, $of:ident: $($word:ident),*) => {
        match $kind {
            $(TokenKind::Word(Word::$word) => Some($of::$word),)*
            _ => None,
        }
    };
}

/// What a token alone can be: a tag, a fold over an attribute, or a comparison.
pub trait OfToken: Copy {
    ghost use Rattle.std.specs.Prelude.{◌≡◌, Option};
    ghost use Rattle.sgl_lexer.specs.declared.lexeme.TokenKind.{TokenKind};

    /// The one that a kind of token is.
    ghost of_kind: { TokenKind → Option Self };

    /// The one that a token of this kind is.
    fn of(kind: TokenKind) -> Option<Self>
        ensures { result ≡ of_kind kind };
}

impl OfToken for Tag {
    ghost of_kind = { tag };

    fn of(kind: TokenKind) -> Option<Tag> {
        by_word!(kind, Tag: Sum, Min, Max, Top)
    }
}

impl OfToken for FoldKind {
    ghost of_kind = { fold };

    fn of(kind: TokenKind) -> Option<FoldKind> {
        by_word!(kind, FoldKind: Sum, Min, Max, Lowest, Highest)
    }
}

impl OfToken for CmpOp {
    ghost of_kind = { comparison };

    fn of(kind: TokenKind) -> Option<CmpOp> {
        comparison(kind)
    }
}

/// The token at the front with what it is, where such a token has to stand there, and the tokens behind it.
pub fn expect_as<'t, T: OfToken>(tokens: &'t [Token]) -> Result<(&'t Token, T, &'t [Token]), Stop>
    ensures list { IfOk result (λ found. tokens.now ≡ found.0.now ∷ found.2.now) }
    ensures kind { IfOk result (λ found. T.of_kind found.0.now.kind ≡ Some found.1) }
    ensures err { IfErr result (λ stop. (stop ≡ stops.Syntax (length tokens.now)) × NoneAt (λ k. is_some (T.of_kind k)) (kinds_of tokens.now)) }
{
    if let Some((first, rest)) = split(tokens)
        && let Some(value) = T::of(first.kind)
    {
        return Ok((first, value, rest));
    }
    Err(Stop::Syntax { left: tokens.len() })
}
