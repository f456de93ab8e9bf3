//! Reads the tests behind `where`: circles and comparisons of an attribute, joined by `and`.

ghost use Rattle.sgl_lexer.specs.Slices.{AreSlicesOf};
ghost use Rattle.sgl_parser.specs.Breaks.{Many, Anywhere};
ghost use Rattle.sgl_parser.specs.ItemShape.{CircleShape, ComparisonShape, TestShape, MoreTestShape, TestsShape, WhereShape, BehindTests};
ghost use Rattle.sgl_parser.specs.Scripts.{SpellsCircle, SpellsComparison, SpellsTest, SpellsMoreTest, SpellsTests, SpellsWhere};
ghost use Rattle.sgl_parser.specs.Grammar.{sum};
ghost use Rattle.sgl_parser.specs.Reads.{Reads, ListingBehind};
ghost use Rattle.sgl_parser.specs.Shape.{StopsAt};

use crate::reading::{Reader, Reading, by_front, eat, expect};
use crate::words::expect_as;
use sgl_lexer::{Sign, Token, TokenKind, Word};
use sgl_tree::Test;
use sgl_values::{CmpOp, List, Place};

impl Reader<'_> {
    /// The tests behind `where`, or none without that word.
    pub fn where_tests<'t>(&self, tokens: &'t [Token]) -> Reading<'t, List<Test>>
        requires { AreSlicesOf self.now.text.now tokens.now }
        ensures { Reads WhereShape BehindTests 0 (SpellsWhere self.now.text.now) self.now.text.now tokens.now result }
    {
        let Some((_, rest)) = eat(tokens, TokenKind::Word(Word::Where)) else {
            return Ok((List::new(self.alloc), tokens));
        };
        let (tests, rest) = self.tests(rest)?;
        Ok((tests, rest))
    }

    // One or more tests, joined by `and`.
    fn tests<'t>(&self, tokens: &'t [Token]) -> Reading<'t, List<Test>>
        requires { AreSlicesOf self.now.text.now tokens.now }
        ensures { Reads TestsShape BehindTests 1 (SpellsTests self.now.text.now) self.now.text.now tokens.now result }
    {
        let (first, rest) = self.test(tokens)?;
        let mut before = List::new(self.alloc);
        before.push(first)?;
        let (tests, rest) = self.more_tests(before, rest)?;
        Ok((tests, rest))
    }

    // Tests, each behind `and`, as many as stand there; they go behind those that are given.
    fn more_tests<'t>(&self, before: List<Test>, tokens: &'t [Token]) -> Reading<'t, List<Test>>
        requires { AreSlicesOf self.now.text.now tokens.now }
        ensures { Reads (Many MoreTestShape) BehindTests 0 (ListingBehind before (SpellsMoreTest self.now.text.now)) self.now.text.now tokens.now result }
    {
        let mut tests = before;
        let mut rest = tokens;
        'tests: while let Some((_, after)) = eat(rest, TokenKind::Word(Word::And)) {
            let (test, behind) = self.test(after)?;
            tests.push(test)?;
            rest = behind;
        }
        Ok((tests, rest))
    }

    // A test of the scanned row.
    fn test<'t>(&self, tokens: &'t [Token]) -> Reading<'t, Test>
        requires { AreSlicesOf self.now.text.now tokens.now }
        ensures { Reads TestShape (StopsAt sum) 1 (SpellsTest self.now.text.now) self.now.text.now tokens.now result }
    {
        by_front!(tokens;
            Within (word, rest) => self.circle(word.place, rest),
            _ => self.comparison(tokens)
        )
    }

    // Whether the row lies in a circle, behind the word, which stands at this place.
    fn circle<'t>(&self, place: Place, tokens: &'t [Token]) -> Reading<'t, Test>
        requires { AreSlicesOf self.now.text.now tokens.now }
        ensures { Reads CircleShape Anywhere 1 (SpellsCircle self.now.text.now place) self.now.text.now tokens.now result }
    {
        let (point, rest) = self.point(tokens)?;
        let (x, y) = point;
        let (_, rest) = expect(rest, TokenKind::Sign(Sign::Comma))?;
        let (radius, rest) = self.sum(rest)?;
        let (_, rest) = expect(rest, TokenKind::Sign(Sign::ParenClose))?;
        let test = Test::Within {
            place,
            x,
            y,
            radius,
        };
        Ok((test, rest))
    }

    // An attribute of the row, compared with a sum.
    fn comparison<'t>(&self, tokens: &'t [Token]) -> Reading<'t, Test>
        requires { AreSlicesOf self.now.text.now tokens.now }
        ensures { Reads ComparisonShape (StopsAt sum) 1 (SpellsComparison self.now.text.now) self.now.text.now tokens.now result }
    {
        let (row, rest) = expect(tokens, TokenKind::Name)?;
        let (_, rest) = expect(rest, TokenKind::Sign(Sign::Dot))?;
        let (attr, rest) = expect(rest, TokenKind::Name)?;
        let (_, op, rest) = expect_as::<CmpOp>(rest)?;
        let (right, rest) = self.sum(rest)?;
        let row = self.name(row)?;
        let attr = self.name(attr)?;
        let test = Test::Compare {
            row,
            attr,
            op,
            right,
        };
        Ok((test, rest))
    }
}
