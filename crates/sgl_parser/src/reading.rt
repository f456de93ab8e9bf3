//! The reader of a text's tokens, why it stops, and the steps on its first token.

ghost use Rattle.std.specs.Prelude.{◌≡◌, IfOk, IfErr, IfSome, IfNone, MatchOption, true, false, length, [], ◌∷◌};
ghost use Rattle.sgl_lexer.specs.Slices.{IsSliceOf};
ghost use Rattle.sgl_lexer.specs.declared.lexeme.TokenKind.TheVariants as kinds;
ghost use Rattle.sgl_parser.specs.Grammar.{name_of};
ghost use Rattle.sgl_parser.specs.Breaks.{At, NotAt, NoneAt, EndsBlock, GoesOnInBlock};
ghost use Rattle.sgl_parser.specs.Follow.{IsNotAt};
ghost use Rattle.sgl_parser.specs.Operators.{is_number};
ghost use Rattle.sgl_parser.specs.Shape.{kinds_of};
ghost use Rattle.sgl_parser.specs.declared.reading.Stop.TheVariants as stops;

use sgl_lexer::{Sign, Token, TokenKind};
use sgl_tree::Name;
use sgl_values::{Memory, Text};
use std::alloc::{AllocError, Global};
use std::str::from_utf8;

/// Why reading stopped: at a token, told by how many are left, or for want of memory.
#[derive(Clone, Copy, Debug, PartialEq, Eq)]
pub enum Stop {
    Syntax { left: usize },
    Memory,
}

impl From<Memory> for Stop {
    ghost from_gives = { λ _ stop. stop ≡ stops.Memory };

    fn from(_memory: Memory) -> Stop {
        Stop::Memory
    }
}

impl From<AllocError> for Stop {
    ghost from_gives = { λ _ stop. stop ≡ stops.Memory };

    fn from(_error: AllocError) -> Stop {
        Stop::Memory
    }
}

/// What was read and the tokens behind it, or why reading stopped.
pub type Reading<'t, T> = Result<(T, &'t [Token]), Stop>;

/// Reads parts of a text.
#[derive(Drop)]
pub struct Reader<'a> {
    pub alloc: Global,
    pub text: &'a [u8],
}

impl<'a> Reader<'a> {
    /// A reader of the tokens of this text.
    pub fn new(alloc: Global, text: &'a [u8]) -> Reader<'a>
        ensures { result.text.now ≡ text.now }
    {
        Reader { alloc, text }
    }
}

impl Reader<'_> {
    /// The name that a token is.
    pub fn name(&self, token: &Token) -> Result<Name, Stop>
        requires slice { IsSliceOf self.now.text.now token.now }
        requires kind { token.now.kind ≡ kinds.Name }
        ensures name { IfOk result (λ n. n ≡ name_of self.now.text.now token.now) }
        ensures err { IfErr result (λ stop. stop ≡ stops.Memory) }
    {
        let Ok(text) = from_utf8(&self.text[token.start as usize..token.end as usize]) else {
            unreachable!()
        };
        Ok(Name {
            text: Text::of(self.alloc, text)?,
            place: token.place,
        })
    }
}

/// The token at the front, and those behind it.
pub fn split<'t>(tokens: &'t [Token]) -> Option<(&'t Token, &'t [Token])>
    ensures { MatchOption result (tokens.now ≡ []) (λ found. tokens.now ≡ found.0.now ∷ found.1.now) }
{
    tokens.split_first()
}

/// The token at the front, where it is of this kind, and those behind it.
pub fn eat<'t>(tokens: &'t [Token], kind: TokenKind) -> Option<(&'t Token, &'t [Token])>
    ensures none { IfNone result (IsNotAt kind tokens.now) }
    ensures list { IfSome result (λ found. tokens.now ≡ found.0.now ∷ found.1.now) }
    ensures kind { IfSome result (λ found. found.0.now.kind ≡ kind) }
{
    match split(tokens) {
        Some((first, rest)) if first.kind == kind => Some((first, rest)),
        _ => None,
    }
}

/// The same, where the token has to stand there.
pub fn expect<'t>(tokens: &'t [Token], kind: TokenKind) -> Reading<'t, &'t Token>
    ensures list { IfOk result (λ found. tokens.now ≡ found.0.now ∷ found.1.now) }
    ensures kind { IfOk result (λ found. found.0.now.kind ≡ kind) }
    ensures err { IfErr result (λ stop. (stop ≡ stops.Syntax (length tokens.now)) × IsNotAt kind tokens.now) }
{
    match eat(tokens, kind) {
        Some(found) => Ok(found),
        None => Err(Stop::Syntax { left: tokens.len() }),
    }
}

/// The token at the front with the number that it is, where one has to stand there, and the tokens behind it.
pub fn number<'t>(tokens: &'t [Token]) -> Result<(&'t Token, u64, &'t [Token]), Stop>
    ensures list { IfOk result (λ found. tokens.now ≡ found.0.now ∷ found.2.now) }
    ensures kind { IfOk result (λ found. found.0.now.kind ≡ kinds.Number found.1) }
    ensures err { IfErr result (λ stop. (stop ≡ stops.Syntax (length tokens.now)) × NoneAt is_number (kinds_of tokens.now)) }
{
    if let Some((first, rest)) = split(tokens)
        && let TokenKind::Number(value) = first.kind
    {
        return Ok((first, value, rest));
    }
    Err(Stop::Syntax { left: tokens.len() })
}

// Goes on behind the first of these words that stands at the front, or else as is said last.
macro_rules! by_front {
    ($tokens:expr; $($word:ident $found:pat => $reading:expr,)* _ => $otherwise:expr) => {{
        $(if let Some($found) = eat($tokens, TokenKind::Word(Word::$word)) {
            return $reading;
        })*
        $otherwise
    }};
}

pub(crate) use by_front;

/// Whether a token of this kind stands at the front.
pub fn stands_at(tokens: &[Token], kind: TokenKind) -> bool
    ensures here { result ≡ true → At kind (kinds_of tokens.now) }
    ensures not_here { result ≡ false → NotAt kind (kinds_of tokens.now) }
{
    eat(tokens, kind).is_some()
}

/// Whether a closing brace stands at the front, or no token is left.
pub fn ends_block(tokens: &[Token]) -> bool
    ensures here { result ≡ true → EndsBlock (kinds_of tokens.now) }
    ensures not_here { result ≡ false → GoesOnInBlock (kinds_of tokens.now) }
{
    match split(tokens) {
        Some((first, _)) => first.kind == TokenKind::Sign(Sign::BraceClose),
        None => true,
    }
}
