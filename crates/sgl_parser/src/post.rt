//! Reads `post`: the assignments to a row, the child that it spawns, and its removal.

ghost use Rattle.sgl_lexer.specs.Slices.{AreSlicesOf};
ghost use Rattle.sgl_lexer.specs.declared.lexeme.TokenKind.TheVariants as kinds;
ghost use Rattle.sgl_lexer.specs.declared.vocabulary.Sign.TheVariants as signs;
ghost use Rattle.sgl_lexer.specs.declared.vocabulary.Word.TheVariants as words;
ghost use Rattle.sgl_parser.specs.Breaks.{Many, Anywhere, At, NotAt};
ghost use Rattle.sgl_parser.specs.ItemShape.{RuleShape, ChildShape, SpawnShape, RemovalShape, PostShape};
ghost use Rattle.sgl_parser.specs.Scripts.{Listing, SpellsRule, SpellsChild, SpellsSpawn, SpellsRemoval, SpellsPost};
ghost use Rattle.sgl_parser.specs.Reads.{Reads};

use crate::reading::{Reader, Reading, eat, expect, stands_at};
use sgl_lexer::{Sign, Token, TokenKind, Word};
use sgl_tree::{Expr, Item, Rule, Spawn};
use sgl_values::{List, Place};

impl Reader<'_> {
    /// How each row changes, behind the word `post`, which stands at this place.
    pub fn post<'t>(&self, place: Place, tokens: &'t [Token]) -> Reading<'t, Item>
        requires { AreSlicesOf self.now.text.now tokens.now }
        ensures { Reads PostShape Anywhere 1 (SpellsPost self.now.text.now place) self.now.text.now tokens.now result }
    {
        let (_, rest) = expect(tokens, TokenKind::Sign(Sign::BraceOpen))?;
        let (rules, rest) = self.rules(rest)?;
        let (spawn, rest) = self.spawn(rest)?;
        let (removal, rest) = self.removal(rest)?;
        let (_, rest) = expect(rest, TokenKind::Sign(Sign::BraceClose))?;
        let item = Item::Post {
            place,
            rules,
            spawn,
            removal,
        };
        Ok((item, rest))
    }

    // Assignments, as many as stand there.
    fn rules<'t>(&self, tokens: &'t [Token]) -> Reading<'t, List<Rule>>
        requires { AreSlicesOf self.now.text.now tokens.now }
        ensures { Reads (Many RuleShape) (NotAt kinds.Name) 0 (Listing (SpellsRule self.now.text.now)) self.now.text.now tokens.now result }
    {
        let mut rules = List::new(self.alloc);
        let mut rest = tokens;
        'rules: while stands_at(rest, TokenKind::Name) {
            let (assigned, behind) = self.assignment(rest)?;
            let (attr, value) = assigned;
            rules.push(Rule { attr, value })?;
            rest = behind;
        }
        Ok((rules, rest))
    }

    // A child, or none without that word.
    fn spawn<'t>(&self, tokens: &'t [Token]) -> Reading<'t, Option<Spawn>>
        requires { AreSlicesOf self.now.text.now tokens.now }
        ensures { Reads SpawnShape (NotAt (kinds.Word words.Spawn)) 0 (SpellsSpawn self.now.text.now) self.now.text.now tokens.now result }
    {
        let Some((_, rest)) = eat(tokens, TokenKind::Word(Word::Spawn)) else {
            return Ok((None, tokens));
        };
        let (child, rest) = self.child(rest)?;
        Ok((Some(child), rest))
    }

    // The condition of a child and the assignments to it, behind its word.
    fn child<'t>(&self, tokens: &'t [Token]) -> Reading<'t, Spawn>
        requires { AreSlicesOf self.now.text.now tokens.now }
        ensures { Reads ChildShape Anywhere 1 (SpellsChild self.now.text.now) self.now.text.now tokens.now result }
    {
        let (_, rest) = expect(tokens, TokenKind::Word(Word::When))?;
        let (cond, rest) = self.expression(rest)?;
        let (_, rest) = expect(rest, TokenKind::Sign(Sign::BraceOpen))?;
        let (rules, rest) = self.rules(rest)?;
        let (_, rest) = expect(rest, TokenKind::Sign(Sign::BraceClose))?;
        Ok((Spawn { cond, rules }, rest))
    }

    // The condition of a removal, or none without that word.
    fn removal<'t>(&self, tokens: &'t [Token]) -> Reading<'t, Option<Expr>>
        requires { AreSlicesOf self.now.text.now tokens.now }
        ensures { Reads RemovalShape (At (kinds.Sign signs.BraceClose)) 0 (SpellsRemoval self.now.text.now) self.now.text.now tokens.now result }
    {
        let Some((_, rest)) = eat(tokens, TokenKind::Word(Word::Remove)) else {
            return Ok((None, tokens));
        };
        let (_, rest) = expect(rest, TokenKind::Word(Word::When))?;
        let (condition, rest) = self.value(rest)?;
        Ok((Some(condition), rest))
    }
}
