//! Finds the first token that nests deeper than 64 levels of operators, brackets and braces.

ghost use Rattle.std.specs.Prelude.{◌≡◌, ◌≤◌, OnOk, IfOk, MatchOption};
ghost use Rattle.sgl_parser.specs.Nesting.{Levels, ground_level, step_of, counted, nesting, IsShallow, IsFirstDeep};
ghost use Rattle.sgl_parser.specs.Shape.{kinds_of};

use sgl_lexer::{Sign, Token, TokenKind, Word};
use sgl_values::{List, Memory, NESTING_MAX};
use std::alloc::Global;
use std::marker::Model;

/// What a token does to the nesting.
#[derive(Clone, Copy, Debug, PartialEq, Eq)]
pub enum Step {
    /// An operator: adds 1 to the counter of the top level.
    Counts,
    /// A comma or a semicolon: sets that counter to 0.
    Resets,
    OpensParen,
    OpensBrace,
    ClosesParen,
    ClosesBrace,
    /// Any other token: changes nothing.
    Rests,
}

// The levels that are open, each with its counter, and their nesting.
#[derive(Drop)]
struct Counters {
    top: usize,
    below: List<usize>,
    total: usize,
}

impl Model for Counters {
    ghost use Rattle.std.specs.Prelude.{◌≡◌, reverse};
    ghost use Rattle.sgl_parser.specs.Nesting.{Levels, nesting};

    ghost Value = { Levels };

    ghost view = { λ c. record { top = c.top; below = reverse c.below } };

    ghost invariant = { λ c. c.total ≡ nesting (record { top = c.top; below = reverse c.below }) };
}

impl Counters {
    // One level, with its counter at 0.
    fn new(alloc: Global) -> Counters
        ensures { result ≡ ground_level }
    {
        Counters {
            top: 0,
            below: List::new(alloc),
            total: 0,
        }
    }

    // All counters, and 1 for each level but the first.
    fn nesting(&self) -> usize
        ensures { result ≡ nesting self.now }
    {
        self.total
    }

    // Sets the counter of the top level to 0.
    fn reset(&mut self)
        ensures { self.new ≡ counted Step.Resets self.old }
    {
        self.total -= self.top;
        self.top = 0;
    }

    // Opens a level.
    fn open(&mut self) -> Result<(), Memory>
        requires { nesting self.old ≤ NESTING_MAX }
        ensures { OnOk result (self.new ≡ counted Step.OpensParen self.old) }
    {
        self.below.push(self.top)?;
        self.top = 0;
        self.total += 1;
        Ok(())
    }

    // Closes the top level, where it is not the only one.
    fn close(&mut self)
        ensures { self.new ≡ counted Step.ClosesParen self.old }
    {
        if let Some(under) = self.below.pop() {
            self.total -= self.top + 1;
            self.top = under;
        }
    }

    // Counts one token.
    fn count(&mut self, step: Step) -> Result<(), Memory>
        requires { nesting self.old ≤ NESTING_MAX }
        ensures { OnOk result (self.new ≡ counted step self.old) }
    {
        match step {
            Step::Counts => {
                self.top += 1;
                self.total += 1;
            }
            Step::Resets => self.reset(),
            Step::OpensParen => self.open()?,
            Step::OpensBrace => {
                self.reset();
                self.open()?;
            }
            Step::ClosesParen => self.close(),
            Step::ClosesBrace => {
                self.close();
                self.reset();
            }
            Step::Rests => {}
        }
        Ok(())
    }
}

// What a kind of token does to the nesting.
fn step_of(kind: TokenKind) -> Step
    ensures { result ≡ step_of kind }
{
    match kind {
        TokenKind::Sign(
            Sign::Plus
            | Sign::Minus
            | Sign::Star
            | Sign::Slash
            | Sign::Percent
            | Sign::Equal
            | Sign::NotEqual
            | Sign::Less
            | Sign::LessEqual
            | Sign::Greater
            | Sign::GreaterEqual,
        )
        | TokenKind::Word(Word::And | Word::Or | Word::Not) => Step::Counts,
        TokenKind::Sign(Sign::Comma | Sign::Semicolon) => Step::Resets,
        TokenKind::Sign(Sign::ParenOpen) => Step::OpensParen,
        TokenKind::Sign(Sign::BraceOpen) => Step::OpensBrace,
        TokenKind::Sign(Sign::ParenClose) => Step::ClosesParen,
        TokenKind::Sign(Sign::BraceClose) => Step::ClosesBrace,
        _ => Step::Rests,
    }
}

/// The number of the first token, counted from 0, whose nesting is above 64.
///
/// Open brackets and braces are levels of a stack, each with a counter of operators; the nesting is the sum of all
/// counters and the number of open levels. A comma or a semicolon sets the counter of its level to 0, and so do a brace
/// that opens before its level and a brace that closes behind it.
pub fn first_deep(alloc: Global, tokens: &[Token]) -> Result<Option<usize>, Memory>
    ensures { IfOk result (λ deep. MatchOption deep (IsShallow (kinds_of tokens.now)) (IsFirstDeep (kinds_of tokens.now))) }
{
    let mut levels = Counters::new(alloc);
    for (at, token) in tokens.iter().enumerate() {
        levels.count(step_of(token.kind))?;
        if levels.nesting() > NESTING_MAX {
            return Ok(Some(at));
        }
    }
    Ok(None)
}
