//! Reads the items of a script one by one, and `routine` and `main` themselves.

ghost use Rattle.std.specs.Prelude.{IfOk, IfErr, []};
ghost use Rattle.sgl_lexer.specs.Slices.{AreSlicesOf};
ghost use Rattle.sgl_lexer.specs.declared.lexeme.TokenKind.TheVariants as kinds;
ghost use Rattle.sgl_lexer.specs.declared.vocabulary.Word.TheVariants as words;
ghost use Rattle.sgl_parser.specs.Breaks.{HasBroken, Many, Anywhere, NotAt, AtEnd};
ghost use Rattle.sgl_parser.specs.ItemShape.{RoutineShape, MainShape, ItemShape};
ghost use Rattle.sgl_parser.specs.Scripts.{Listing, SpellsRoutine, SpellsMain, SpellsItem};
ghost use Rattle.sgl_parser.specs.Reads.{Reads};
ghost use Rattle.sgl_parser.specs.Shape.{kinds_of};

use crate::reading::{Reader, Reading, Stop, by_front, eat, expect};
use sgl_lexer::{Sign, Token, TokenKind, Word};
use sgl_tree::Item;
use sgl_values::{List, Place};

impl Reader<'_> {
    /// All items, up to the end of the tokens.
    pub fn items(&self, tokens: &[Token]) -> Result<List<Item>, Stop>
        requires { AreSlicesOf self.now.text.now tokens.now }
        ensures fails { IfErr result (HasBroken (Many ItemShape) AtEnd (kinds_of tokens.now)) }
        ensures spells { IfOk result (λ items. Listing (SpellsItem self.now.text.now) tokens.now [] items) }
    {
        let mut items = List::new(self.alloc);
        let mut rest = tokens;
        'items: while !rest.is_empty() {
            let (item, behind) = self.item(rest)?;
            items.push(item)?;
            rest = behind;
        }
        Ok(items)
    }

    // An item at the front, and the tokens behind it.
    fn item<'t>(&self, tokens: &'t [Token]) -> Reading<'t, Item>
        requires { AreSlicesOf self.now.text.now tokens.now }
        ensures { Reads ItemShape (NotAt (kinds.Word words.On)) 1 (SpellsItem self.now.text.now) self.now.text.now tokens.now result }
    {
        by_front!(tokens;
            Attr (_, rest) => self.attribute(rest),
            Aggregate (_, rest) => self.aggregate(rest),
            Action (_, rest) => self.action(rest),
            Routine (_, rest) => self.routine(rest),
            Main (word, rest) => self.main(word.place, rest),
            Post (word, rest) => self.post(word.place, rest),
            _ => Err(Stop::Syntax { left: tokens.len() })
        )
    }

    // Statements under a name, behind their word.
    fn routine<'t>(&self, tokens: &'t [Token]) -> Reading<'t, Item>
        requires { AreSlicesOf self.now.text.now tokens.now }
        ensures { Reads RoutineShape Anywhere 1 (SpellsRoutine self.now.text.now) self.now.text.now tokens.now result }
    {
        let (heading, rest) = self.heading(tokens)?;
        let (body, rest) = self.block(rest)?;
        let (name, params) = heading;
        Ok((Item::Routine { name, params, body }, rest))
    }

    // What each unit does, behind its word, which stands at this place.
    fn main<'t>(&self, place: Place, tokens: &'t [Token]) -> Reading<'t, Item>
        requires { AreSlicesOf self.now.text.now tokens.now }
        ensures { Reads MainShape Anywhere 1 (SpellsMain self.now.text.now place) self.now.text.now tokens.now result }
    {
        let (_, rest) = expect(tokens, TokenKind::Sign(Sign::ParenOpen))?;
        let (unit, rest) = expect(rest, TokenKind::Name)?;
        let (_, rest) = expect(rest, TokenKind::Sign(Sign::ParenClose))?;
        let (body, rest) = self.block(rest)?;
        let unit = self.name(unit)?;
        Ok((Item::Main { place, unit, body }, rest))
    }
}
