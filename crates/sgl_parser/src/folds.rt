//! Reads the fold of an aggregate: a count, the nearest row, or a fold over one attribute.

ghost use Rattle.sgl_lexer.specs.Slices.{AreSlicesOf};
ghost use Rattle.sgl_parser.specs.Breaks.{Anywhere};
ghost use Rattle.sgl_parser.specs.ItemShape.{CountShape, PointShape, NearestShape, MeasureShape, FoldShape};
ghost use Rattle.sgl_parser.specs.Scripts.{SpellsCount, SpellsPoint, SpellsNearest, SpellsMeasure, SpellsFold};
ghost use Rattle.sgl_parser.specs.Reads.{Reads};

use crate::reading::{Reader, Reading, by_front, eat, expect};
use crate::words::expect_as;
use sgl_lexer::{Sign, Token, TokenKind, Word};
use sgl_tree::{Fold, Name};
use sgl_values::{FoldKind, Place};

impl Reader<'_> {
    /// A fold at the front.
    pub fn fold<'t>(&self, tokens: &'t [Token]) -> Reading<'t, Fold>
        requires { AreSlicesOf self.now.text.now tokens.now }
        ensures { Reads FoldShape Anywhere 1 (SpellsFold self.now.text.now) self.now.text.now tokens.now result }
    {
        by_front!(tokens;
            Count (word, rest) => self.count(word.place, rest),
            Nearest (word, rest) => self.nearest(word.place, rest),
            _ => self.measure(tokens)
        )
    }

    // A count, behind its word, which stands at this place.
    fn count<'t>(&self, place: Place, tokens: &'t [Token]) -> Reading<'t, Fold>
        requires { AreSlicesOf self.now.text.now tokens.now }
        ensures { Reads CountShape Anywhere 1 (SpellsCount self.now.text.now place) self.now.text.now tokens.now result }
    {
        let (row, rest) = expect(tokens, TokenKind::Name)?;
        let row = self.name(row)?;
        let fold = Fold {
            kind: FoldKind::Count,
            place,
            row,
            attr: None,
            second: None,
        };
        Ok((fold, rest))
    }

    /// An opening bracket, and the two attributes of a point with a comma between them.
    pub fn point<'t>(&self, tokens: &'t [Token]) -> Reading<'t, (Name, Name)>
        requires { AreSlicesOf self.now.text.now tokens.now }
        ensures { Reads PointShape Anywhere 1 (SpellsPoint self.now.text.now) self.now.text.now tokens.now result }
    {
        let (_, rest) = expect(tokens, TokenKind::Sign(Sign::ParenOpen))?;
        let (x, rest) = expect(rest, TokenKind::Name)?;
        let (_, rest) = expect(rest, TokenKind::Sign(Sign::Comma))?;
        let (y, rest) = expect(rest, TokenKind::Name)?;
        let x = self.name(x)?;
        let y = self.name(y)?;
        Ok(((x, y), rest))
    }

    // The nearest row by two attributes, behind its word, which stands at this place.
    fn nearest<'t>(&self, place: Place, tokens: &'t [Token]) -> Reading<'t, Fold>
        requires { AreSlicesOf self.now.text.now tokens.now }
        ensures { Reads NearestShape Anywhere 1 (SpellsNearest self.now.text.now place) self.now.text.now tokens.now result }
    {
        let (row, rest) = expect(tokens, TokenKind::Name)?;
        let (point, rest) = self.point(rest)?;
        let (first, second) = point;
        let (_, rest) = expect(rest, TokenKind::Sign(Sign::ParenClose))?;
        let row = self.name(row)?;
        let fold = Fold {
            kind: FoldKind::Nearest,
            place,
            row,
            attr: Some(first),
            second: Some(second),
        };
        Ok((fold, rest))
    }

    // A fold over one attribute.
    fn measure<'t>(&self, tokens: &'t [Token]) -> Reading<'t, Fold>
        requires { AreSlicesOf self.now.text.now tokens.now }
        ensures { Reads MeasureShape Anywhere 1 (SpellsMeasure self.now.text.now) self.now.text.now tokens.now result }
    {
        let (word, kind, rest) = expect_as::<FoldKind>(tokens)?;
        let (row, rest) = expect(rest, TokenKind::Name)?;
        let (_, rest) = expect(rest, TokenKind::Sign(Sign::Dot))?;
        let (attr, rest) = expect(rest, TokenKind::Name)?;
        let row = self.name(row)?;
        let attr = self.name(attr)?;
        let fold = Fold {
            kind,
            place: word.place,
            row,
            attr: Some(attr),
            second: None,
        };
        Ok((fold, rest))
    }
}
