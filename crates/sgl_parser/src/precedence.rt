//! The four chains of operators, loosest first, the two prefixes, and the six comparisons.

ghost use Rattle.std.specs.Prelude.{◌≡◌};
ghost use Rattle.sgl_parser.specs.Operators.{operator, prefix_kind, comparison};

use sgl_lexer::{Sign, TokenKind, Word};
use sgl_values::{BinOp, CmpOp};

/// Operators of one strength, which group to the left. The looser ones come first.
#[derive(Clone, Copy, Debug, PartialEq, Eq)]
pub enum Chain {
    Or,
    And,
    Sum,
    Product,
}

/// The operator of a chain that a token is.
pub fn operator(chain: Chain, kind: TokenKind) -> Option<BinOp>
    ensures { result ≡ operator chain kind }
{
    match (chain, kind) {
        (Chain::Or, TokenKind::Word(Word::Or)) => Some(BinOp::Or),
        (Chain::And, TokenKind::Word(Word::And)) => Some(BinOp::And),
        (Chain::Sum, TokenKind::Sign(Sign::Plus)) => Some(BinOp::Add),
        (Chain::Sum, TokenKind::Sign(Sign::Minus)) => Some(BinOp::Sub),
        (Chain::Product, TokenKind::Sign(Sign::Star)) => Some(BinOp::Mul),
        (Chain::Product, TokenKind::Sign(Sign::Slash)) => Some(BinOp::Div),
        (Chain::Product, TokenKind::Sign(Sign::Percent)) => Some(BinOp::Rem),
        _ => None,
    }
}

/// An operator that stands before its one operand, any number of times.
#[derive(Clone, Copy, Debug, PartialEq, Eq)]
pub enum Prefix {
    Not,
    Minus,
}

/// The kind of token that a prefix is.
pub fn prefix_kind(prefix: Prefix) -> TokenKind
    ensures { result ≡ prefix_kind prefix }
{
    match prefix {
        Prefix::Not => TokenKind::Word(Word::Not),
        Prefix::Minus => TokenKind::Sign(Sign::Minus),
    }
}

/// The comparison that a token is.
pub fn comparison(kind: TokenKind) -> Option<CmpOp>
    ensures { result ≡ comparison kind }
{
    match kind {
        TokenKind::Sign(Sign::Equal) => Some(CmpOp::Eq),
        TokenKind::Sign(Sign::NotEqual) => Some(CmpOp::Ne),
        TokenKind::Sign(Sign::Less) => Some(CmpOp::Lt),
        TokenKind::Sign(Sign::LessEqual) => Some(CmpOp::Le),
        TokenKind::Sign(Sign::Greater) => Some(CmpOp::Gt),
        TokenKind::Sign(Sign::GreaterEqual) => Some(CmpOp::Ge),
        _ => None,
    }
}
