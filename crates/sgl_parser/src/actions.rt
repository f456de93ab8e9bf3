//! Reads `action` with its `on` clauses, and in each the writes with their priorities.

ghost use Rattle.sgl_lexer.specs.Slices.{AreSlicesOf};
ghost use Rattle.sgl_lexer.specs.declared.lexeme.TokenKind.TheVariants as kinds;
ghost use Rattle.sgl_lexer.specs.declared.vocabulary.Sign.TheVariants as signs;
ghost use Rattle.sgl_lexer.specs.declared.vocabulary.Word.TheVariants as words;
ghost use Rattle.sgl_parser.specs.Breaks.{Many, Then, Anywhere, At, NotAt};
ghost use Rattle.sgl_parser.specs.ItemShape.{ActionShape, OnShape, WriteShape, PriorityShape};
ghost use Rattle.sgl_parser.specs.Scripts.{SpellsAction, SpellsOn, SpellsMoreOn, SpellsWrite, SpellsPriority};
ghost use Rattle.sgl_parser.specs.Reads.{Reads, ListingBehind};

use crate::reading::{Reader, Reading, eat, expect, stands_at};
use sgl_lexer::{Sign, Token, TokenKind, Word};
use sgl_tree::{Expr, Item, OnClause, Write};
use sgl_values::{List, Place};

impl Reader<'_> {
    /// An action, behind its word.
    pub fn action<'t>(&self, tokens: &'t [Token]) -> Reading<'t, Item>
        requires { AreSlicesOf self.now.text.now tokens.now }
        ensures { Reads ActionShape (NotAt (kinds.Word words.On)) 1 (SpellsAction self.now.text.now) self.now.text.now tokens.now result }
    {
        let (heading, rest) = self.heading(tokens)?;
        let (word, rest) = expect(rest, TokenKind::Word(Word::On))?;
        let (first, rest) = self.on(word.place, rest)?;
        let mut before = List::new(self.alloc);
        before.push(first)?;
        let (ons, rest) = self.more_ons(before, rest)?;
        let (name, params) = heading;
        Ok((Item::Action { name, params, ons }, rest))
    }

    // Clauses, as many as stand there; they go behind those that are given.
    fn more_ons<'t>(
        &self,
        before: List<OnClause>,
        tokens: &'t [Token],
    ) -> Reading<'t, List<OnClause>>
        requires { AreSlicesOf self.now.text.now tokens.now }
        ensures { Reads (Many (Then (kinds.Word words.On) OnShape)) (NotAt (kinds.Word words.On)) 0 (ListingBehind before (SpellsMoreOn self.now.text.now)) self.now.text.now tokens.now result }
    {
        let mut ons = before;
        let mut rest = tokens;
        'clauses: while let Some((word, after)) = eat(rest, TokenKind::Word(Word::On)) {
            let (on, behind) = self.on(word.place, after)?;
            ons.push(on)?;
            rest = behind;
        }
        Ok((ons, rest))
    }

    // A clause, behind its word, which stands at this place.
    fn on<'t>(&self, place: Place, tokens: &'t [Token]) -> Reading<'t, OnClause>
        requires { AreSlicesOf self.now.text.now tokens.now }
        ensures { Reads OnShape Anywhere 1 (SpellsOn self.now.text.now place) self.now.text.now tokens.now result }
    {
        let (row, rest) = expect(tokens, TokenKind::Name)?;
        let (tests, rest) = self.where_tests(rest)?;
        let (_, rest) = expect(rest, TokenKind::Sign(Sign::BraceOpen))?;
        let (first, rest) = self.write(rest)?;
        let mut before = List::new(self.alloc);
        before.push(first)?;
        let (writes, rest) = self.more_writes(before, rest)?;
        let (_, rest) = expect(rest, TokenKind::Sign(Sign::BraceClose))?;
        let row = self.name(row)?;
        Ok((
            OnClause {
                place,
                row,
                tests,
                writes,
            },
            rest,
        ))
    }

    // Writes, as many as stand there; they go behind those that are given.
    fn more_writes<'t>(&self, before: List<Write>, tokens: &'t [Token]) -> Reading<'t, List<Write>>
        requires { AreSlicesOf self.now.text.now tokens.now }
        ensures { Reads (Many WriteShape) (NotAt kinds.Name) 0 (ListingBehind before (SpellsWrite self.now.text.now)) self.now.text.now tokens.now result }
    {
        let mut writes = before;
        let mut rest = tokens;
        'writes: while stands_at(rest, TokenKind::Name) {
            let (write, behind) = self.write(rest)?;
            writes.push(write)?;
            rest = behind;
        }
        Ok((writes, rest))
    }

    // An amount for an attribute.
    fn write<'t>(&self, tokens: &'t [Token]) -> Reading<'t, Write>
        requires { AreSlicesOf self.now.text.now tokens.now }
        ensures { Reads WriteShape Anywhere 1 (SpellsWrite self.now.text.now) self.now.text.now tokens.now result }
    {
        let (attr, rest) = expect(tokens, TokenKind::Name)?;
        let (_, rest) = expect(rest, TokenKind::Sign(Sign::Arrow))?;
        let (value, rest) = self.expression(rest)?;
        let (by, rest) = self.priority(rest)?;
        let (_, rest) = expect(rest, TokenKind::Sign(Sign::Semicolon))?;
        let attr = self.name(attr)?;
        Ok((Write { attr, value, by }, rest))
    }

    // The priority behind `by`, with the place of that word.
    fn priority<'t>(&self, tokens: &'t [Token]) -> Reading<'t, Option<(Place, Expr)>>
        requires { AreSlicesOf self.now.text.now tokens.now }
        ensures { Reads PriorityShape (At (kinds.Sign signs.Semicolon)) 0 (SpellsPriority self.now.text.now) self.now.text.now tokens.now result }
    {
        let Some((word, rest)) = eat(tokens, TokenKind::Word(Word::By)) else {
            return Ok((None, tokens));
        };
        let (priority, rest) = self.expression(rest)?;
        Ok((Some((word.place, priority)), rest))
    }
}
