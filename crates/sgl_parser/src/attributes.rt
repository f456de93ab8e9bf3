//! Reads `attr`: const, or with a tag and a starting value; and numbers with a sign.

ghost use Rattle.std.specs.Prelude.{◌≡◌};
ghost use Rattle.sgl_lexer.specs.Slices.{AreSlicesOf};
ghost use Rattle.sgl_parser.specs.Breaks.{Anywhere};
ghost use Rattle.sgl_parser.specs.ItemShape.{AttributeShape, SortShape, LiteralShape};
ghost use Rattle.sgl_parser.specs.Scripts.{SpellsAttribute, SpellsSort, SpellsLiteral};
ghost use Rattle.sgl_parser.specs.Reads.{Reads};

use crate::reading::{Reader, Reading, eat, expect, number};
use crate::words::expect_as;
use sgl_lexer::{Sign, Token, TokenKind, Word};
use sgl_tree::{Item, Literal};
use sgl_values::{Place, Tag};

// The tag and the starting value of an attribute, which a const attribute has not.
type Sort = (Option<Tag>, Option<Literal>);

impl Reader<'_> {
    /// An attribute, behind its word.
    pub fn attribute<'t>(&self, tokens: &'t [Token]) -> Reading<'t, Item>
        requires { AreSlicesOf self.now.text.now tokens.now }
        ensures { Reads AttributeShape Anywhere 1 (SpellsAttribute self.now.text.now) self.now.text.now tokens.now result }
    {
        let (name, rest) = expect(tokens, TokenKind::Name)?;
        let (sort, rest) = self.sort(rest)?;
        let name = self.name(name)?;
        let (tag, init) = sort;
        Ok((Item::Attr { name, tag, init }, rest))
    }

    // What stands behind the name of an attribute.
    fn sort<'t>(&self, tokens: &'t [Token]) -> Reading<'t, Sort>
        requires { AreSlicesOf self.now.text.now tokens.now }
        ensures { Reads SortShape Anywhere 1 (λ ts us sort. SpellsSort ts us sort.0 sort.1) self.now.text.now tokens.now result }
    {
        if let Some((_, rest)) = eat(tokens, TokenKind::Word(Word::Const)) {
            let (_, rest) = expect(rest, TokenKind::Sign(Sign::Semicolon))?;
            return Ok(((None, None), rest));
        }
        let (_, tag, rest) = expect_as::<Tag>(tokens)?;
        let (_, rest) = expect(rest, TokenKind::Sign(Sign::Equal))?;
        let (init, rest) = self.literal(rest)?;
        let (_, rest) = expect(rest, TokenKind::Sign(Sign::Semicolon))?;
        Ok(((Some(tag), Some(init)), rest))
    }

    /// A number, perhaps behind a minus.
    pub fn literal<'t>(&self, tokens: &'t [Token]) -> Reading<'t, Literal>
        requires { AreSlicesOf self.now.text.now tokens.now }
        ensures { Reads LiteralShape Anywhere 1 SpellsLiteral self.now.text.now tokens.now result }
    {
        if let Some((_, rest)) = eat(tokens, TokenKind::Sign(Sign::Minus)) {
            let (token, value, rest) = number(rest)?;
            return Ok((literal(true, value, token.place), rest));
        }
        let (token, value, rest) = number(tokens)?;
        Ok((literal(false, value, token.place), rest))
    }
}

// A number with its sign.
fn literal(negative: bool, value: u64, place: Place) -> Literal
    ensures { result ≡ record { negative = negative; value = value; place = place } }
{
    Literal {
        negative,
        value,
        place,
    }
}
