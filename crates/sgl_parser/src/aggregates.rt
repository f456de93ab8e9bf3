//! Reads `aggregate` with its fold, tests and `else`, and the name and parameters of any item.

ghost use Rattle.sgl_lexer.specs.Slices.{AreSlicesOf};
ghost use Rattle.sgl_lexer.specs.declared.lexeme.TokenKind.TheVariants as kinds;
ghost use Rattle.sgl_lexer.specs.declared.vocabulary.Sign.TheVariants as signs;
ghost use Rattle.sgl_parser.specs.Breaks.{Many, Anywhere, At};
ghost use Rattle.sgl_parser.specs.ItemShape.{AggregateShape, HeadingShape, ParametersShape, MoreNameShape, OtherwiseShape};
ghost use Rattle.sgl_parser.specs.Scripts.{SpellsAggregate, SpellsHeading, SpellsParameters, SpellsMoreName, SpellsOtherwise};
ghost use Rattle.sgl_parser.specs.Reads.{Reads, ListingBehind};

use crate::reading::{Reader, Reading, eat, expect};
use sgl_lexer::{Sign, Token, TokenKind, Word};
use sgl_tree::{Item, Literal, Name};
use sgl_values::{List, Place};

impl Reader<'_> {
    /// An aggregate, behind its word.
    pub fn aggregate<'t>(&self, tokens: &'t [Token]) -> Reading<'t, Item>
        requires { AreSlicesOf self.now.text.now tokens.now }
        ensures { Reads AggregateShape Anywhere 1 (SpellsAggregate self.now.text.now) self.now.text.now tokens.now result }
    {
        let (heading, rest) = self.heading(tokens)?;
        let (_, rest) = expect(rest, TokenKind::Sign(Sign::Equal))?;
        let (fold, rest) = self.fold(rest)?;
        let (tests, rest) = self.where_tests(rest)?;
        let (otherwise, rest) = self.otherwise(rest)?;
        let (_, rest) = expect(rest, TokenKind::Sign(Sign::Semicolon))?;
        let (name, params) = heading;
        let item = Item::Aggregate {
            name,
            params,
            fold,
            tests,
            otherwise,
        };
        Ok((item, rest))
    }

    /// The name of an item and its parameters.
    pub fn heading<'t>(&self, tokens: &'t [Token]) -> Reading<'t, (Name, List<Name>)>
        requires { AreSlicesOf self.now.text.now tokens.now }
        ensures { Reads HeadingShape Anywhere 1 (SpellsHeading self.now.text.now) self.now.text.now tokens.now result }
    {
        let (name, rest) = expect(tokens, TokenKind::Name)?;
        let (params, rest) = self.parameters(rest)?;
        let name = self.name(name)?;
        Ok(((name, params), rest))
    }

    // Names in brackets, of which the first is the unit.
    fn parameters<'t>(&self, tokens: &'t [Token]) -> Reading<'t, List<Name>>
        requires { AreSlicesOf self.now.text.now tokens.now }
        ensures { Reads ParametersShape Anywhere 1 (SpellsParameters self.now.text.now) self.now.text.now tokens.now result }
    {
        let (_, rest) = expect(tokens, TokenKind::Sign(Sign::ParenOpen))?;
        let (unit, rest) = expect(rest, TokenKind::Name)?;
        let unit = self.name(unit)?;
        let mut first = List::new(self.alloc);
        first.push(unit)?;
        let (names, rest) = self.more_names(first, rest)?;
        let (_, rest) = expect(rest, TokenKind::Sign(Sign::ParenClose))?;
        Ok((names, rest))
    }

    // Names, each behind a comma, as many as stand there; they go behind those that are given.
    fn more_names<'t>(&self, before: List<Name>, tokens: &'t [Token]) -> Reading<'t, List<Name>>
        requires { AreSlicesOf self.now.text.now tokens.now }
        ensures { Reads (Many MoreNameShape) (At (kinds.Sign signs.ParenClose)) 0 (ListingBehind before (SpellsMoreName self.now.text.now)) self.now.text.now tokens.now result }
    {
        let mut names = before;
        let mut rest = tokens;
        'names: while let Some((_, after)) = eat(rest, TokenKind::Sign(Sign::Comma)) {
            let (name, behind) = expect(after, TokenKind::Name)?;
            let name = self.name(name)?;
            names.push(name)?;
            rest = behind;
        }
        Ok((names, rest))
    }

    // What stands behind `else`, with the place of that word.
    fn otherwise<'t>(&self, tokens: &'t [Token]) -> Reading<'t, Option<(Place, Literal)>>
        requires { AreSlicesOf self.now.text.now tokens.now }
        ensures { Reads OtherwiseShape (At (kinds.Sign signs.Semicolon)) 0 SpellsOtherwise self.now.text.now tokens.now result }
    {
        let Some((word, rest)) = eat(tokens, TokenKind::Word(Word::Else)) else {
            return Ok((None, tokens));
        };
        let (literal, rest) = self.literal(rest)?;
        Ok((Some((word.place, literal)), rest))
    }
}
