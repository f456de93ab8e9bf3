//! Reads one expression by precedence, from `or` down to a number, a name or a bracket.

ghost use Rattle.std.specs.Prelude.{◌≡◌, ◌<◌, ◌≤◌, IfOk, IfErr, ℕ, List, length, ◌∷◌};
ghost use Rattle.sgl_tree.specs.declared.expression.Expr.TheVariants as trees;
ghost use Rattle.sgl_lexer.specs.Slices.{IsSliceOf, AreSlicesOf};
ghost use Rattle.sgl_lexer.specs.declared.lexeme.TokenKind.TheVariants as kinds;
ghost use Rattle.sgl_lexer.specs.declared.vocabulary.Word.TheVariants as words;
ghost use Rattle.sgl_parser.specs.Grammar.{Spells, SpellsArguments, Chained, Comparison, Primary, operand, prefixed, unprefixed, prefix_tree, expression, sum, literal};
ghost use Rattle.sgl_parser.specs.Reads.{ReadsPart};
ghost use Rattle.sgl_parser.specs.Shape.{HasStopped, ListHasStopped, Listed, Opens, kinds_of};
ghost use Rattle.sgl_parser.specs.Follow.{Stops, StopsArguments, opens_more};
ghost use Rattle.sgl_parser.specs.declared.reading.Stop.TheVariants as stops;

use crate::precedence::{Chain, Prefix, comparison, operator, prefix_kind};
use crate::reading::{Reader, Reading, Stop, eat, expect, number, split};
use sgl_lexer::{Sign, Token, TokenKind, Word};
use sgl_tree::Expr;
use sgl_values::{BinOp, Boxed, List, Memory, Place};
use std::alloc::Global;

impl Reader<'_> {
    /// An expression at the front, as long as it can be, and the tokens behind it. It stops at the least token that no
    /// expression can have there.
    pub fn expression<'t>(&self, tokens: &'t [Token]) -> Reading<'t, Expr>
        requires { AreSlicesOf self.now.text.now tokens.now }
        ensures { ReadsPart expression self.now.text.now tokens.now result }
    {
        self.chain(Chain::Or, tokens)
    }

    /// A sum at the front: what stands on each side of a comparison.
    pub fn sum<'t>(&self, tokens: &'t [Token]) -> Reading<'t, Expr>
        requires { AreSlicesOf self.now.text.now tokens.now }
        ensures { ReadsPart sum self.now.text.now tokens.now result }
    {
        self.chain(Chain::Sum, tokens)
    }

    // Operands of a chain, joined by its operators from the left.
    #[cycle(expressions)]
    fn chain<'t>(&self, chain: Chain, tokens: &'t [Token]) -> Reading<'t, Expr>
        requires { AreSlicesOf self.now.text.now tokens.now }
        ensures { ReadsPart (Chained chain) self.now.text.now tokens.now result }
    {
        let (mut left, mut rest) = self.operand(chain, tokens)?;
        'operands: while let Some((first, after)) = split(rest) {
            let Some(op) = operator(chain, first.kind) else {
                break;
            };
            let (right, behind) = self.operand(chain, after)?;
            left = binary(self.alloc, op, left, right, first.place)?;
            rest = behind;
        }
        Ok((left, rest))
    }

    // What stands between the operators of a chain.
    #[cycle(expressions)]
    fn operand<'t>(&self, chain: Chain, tokens: &'t [Token]) -> Reading<'t, Expr>
        requires { AreSlicesOf self.now.text.now tokens.now }
        ensures { ReadsPart (operand chain) self.now.text.now tokens.now result }
    {
        match chain {
            Chain::Or => self.chain(Chain::And, tokens),
            Chain::And => self.prefixed(Prefix::Not, tokens),
            Chain::Sum => self.chain(Chain::Product, tokens),
            Chain::Product => self.prefixed(Prefix::Minus, tokens),
        }
    }

    // A prefix any number of times, and what it stands before.
    #[cycle(expressions)]
    fn prefixed<'t>(&self, prefix: Prefix, tokens: &'t [Token]) -> Reading<'t, Expr>
        requires { AreSlicesOf self.now.text.now tokens.now }
        ensures { ReadsPart (prefixed prefix) self.now.text.now tokens.now result }
    {
        if let Some((first, after)) = eat(tokens, prefix_kind(prefix)) {
            let (inner, rest) = self.prefixed(prefix, after)?;
            let tree = under_prefix(self.alloc, prefix, inner, first.place)?;
            return Ok((tree, rest));
        }
        self.unprefixed(prefix, tokens)
    }

    // What a prefix stands before: a comparison behind `not`, a primary behind `-`.
    #[cycle(expressions)]
    fn unprefixed<'t>(&self, prefix: Prefix, tokens: &'t [Token]) -> Reading<'t, Expr>
        requires { AreSlicesOf self.now.text.now tokens.now }
        ensures { ReadsPart (unprefixed prefix) self.now.text.now tokens.now result }
    {
        match prefix {
            Prefix::Not => self.compare(tokens),
            Prefix::Minus => self.primary(tokens),
        }
    }

    // A sum, or two sums with a comparison between them.
    #[cycle(expressions)]
    fn compare<'t>(&self, tokens: &'t [Token]) -> Reading<'t, Expr>
        requires { AreSlicesOf self.now.text.now tokens.now }
        ensures { ReadsPart Comparison self.now.text.now tokens.now result }
    {
        let (left, rest) = self.chain(Chain::Sum, tokens)?;
        let Some((first, after)) = split(rest) else {
            return Ok((left, rest));
        };
        let Some(op) = comparison(first.kind) else {
            return Ok((left, rest));
        };
        let (right, rest) = self.chain(Chain::Sum, after)?;
        // Comparisons do not chain.
        if let Some((next, _)) = split(rest)
            && comparison(next.kind).is_some()
        {
            return Err(Stop::Syntax { left: rest.len() });
        }
        let op = BinOp::Cmp(op);
        Ok((binary(self.alloc, op, left, right, first.place)?, rest))
    }

    // A number, a truth, something that begins with a name, a random number, or an expression in brackets.
    #[cycle(expressions)]
    fn primary<'t>(&self, tokens: &'t [Token]) -> Reading<'t, Expr>
        requires { AreSlicesOf self.now.text.now tokens.now }
        ensures { ReadsPart Primary self.now.text.now tokens.now result }
    {
        let Some((first, rest)) = split(tokens) else {
            return Err(Stop::Syntax { left: 0 });
        };
        if let Some(expr) = literal(first) {
            return alone(expr, rest);
        }
        if let Some((name, rest)) = eat(tokens, TokenKind::Name) {
            return self.named(name, rest);
        }
        if let Some((word, rest)) = eat(tokens, TokenKind::Word(Word::Random)) {
            return random(word, rest);
        }
        let (_, rest) = expect(tokens, TokenKind::Sign(Sign::ParenOpen))?;
        let (inner, rest) = self.chain(Chain::Or, rest)?;
        let (_, rest) = expect(rest, TokenKind::Sign(Sign::ParenClose))?;
        alone(inner, rest)
    }

    // A name, a name of a name, or a call.
    #[cycle(expressions)]
    fn named<'t>(&self, first: &Token, rest: &'t [Token]) -> Reading<'t, Expr>
        requires is_name { first.now.kind ≡ kinds.Name }
        requires of_first { IsSliceOf self.now.text.now first.now }
        requires of { AreSlicesOf self.now.text.now rest.now }
        ensures { ReadsPart Primary self.now.text.now (first.now ∷ rest.now) result }
    {
        let name = self.name(first)?;
        if let Some((_, rest)) = eat(rest, TokenKind::Sign(Sign::Dot)) {
            let (attr, rest) = expect(rest, TokenKind::Name)?;
            let attr = self.name(attr)?;
            return alone(Expr::Field { of: name, attr }, rest);
        }
        if let Some((_, rest)) = eat(rest, TokenKind::Sign(Sign::ParenOpen)) {
            let (unit, rest) = expect(rest, TokenKind::Name)?;
            let unit = self.name(unit)?;
            let (args, rest) = self.arguments(rest)?;
            let (_, rest) = expect(rest, TokenKind::Sign(Sign::ParenClose))?;
            return alone(Expr::Call { name, unit, args }, rest);
        }
        Ok((Expr::Local { name }, rest))
    }

    /// Expressions, each behind a comma, as many as stand there.
    #[cycle(expressions)]
    pub fn arguments<'t>(&self, tokens: &'t [Token]) -> Reading<'t, List<Expr>>
        requires { AreSlicesOf self.now.text.now tokens.now }
        ensures fails { IfErr result (ListHasStopped (kinds_of tokens.now)) }
        ensures listed { IfOk result (λ found. Listed (kinds_of tokens.now) (kinds_of found.1.now)) }
        ensures spells { IfOk result (λ found. SpellsArguments self.now.text.now tokens.now found.1.now found.0) }
        ensures stops { IfOk result (λ found. StopsArguments found.1.now) }
        ensures shorter { IfOk result (λ found. length found.1.now ≤ length tokens.now) }
        ensures of { IfOk result (λ found. AreSlicesOf self.now.text.now found.1.now) }
    {
        let mut args = List::new(self.alloc);
        let mut rest = tokens;
        'commas: while let Some((_, after)) = eat(rest, TokenKind::Sign(Sign::Comma)) {
            let (arg, behind) = self.chain(Chain::Or, after)?;
            args.push(arg)?;
            rest = behind;
        }
        Ok((args, rest))
    }
}

// A random number, behind its word.
fn random<'t>(word: &Token, tokens: &'t [Token]) -> Reading<'t, Expr>
    requires { word.now.kind ≡ kinds.Word words.Random }
    ensures fails { IfErr result (HasStopped Primary (kinds_of (word.now ∷ tokens.now))) }
    ensures spells { (text : List ℕ) → IfOk result (λ found. Spells text Primary (word.now ∷ tokens.now) found.1.now found.0) }
    ensures stops { IfOk result (λ found. Stops Primary found.1.now) }
    ensures shorter { IfOk result (λ found. length found.1.now < length tokens.now) }
    ensures of { (text : List ℕ) → AreSlicesOf text tokens.now → IfOk result (λ found. AreSlicesOf text found.1.now) }
{
    let (_, rest) = expect(tokens, TokenKind::Sign(Sign::ParenOpen))?;
    let (token, index, rest) = number(rest)?;
    let (_, rest) = expect(rest, TokenKind::Sign(Sign::ParenClose))?;
    let (place, index_place) = (word.place, token.place);
    let expr = Expr::Random {
        place,
        index,
        index_place,
    };
    alone(expr, rest)
}

// An expression that ends here: no dot and no bracket may stand behind it.
fn alone<'t>(expr: Expr, rest: &'t [Token]) -> Reading<'t, Expr>
    ensures same { IfOk result (λ found. (found.0 ≡ expr) × (found.1.now ≡ rest.now)) }
    ensures err { IfErr result (λ stop. (stop ≡ stops.Syntax (length rest.now)) × Opens rest.now) }
    ensures stops { IfOk result (λ found. Stops Primary found.1.now) }
{
    match split(rest) {
        Some((next, _)) if opens_more(next.kind) => Err(Stop::Syntax { left: rest.len() }),
        _ => Ok((expr, rest)),
    }
}

// A dot or a bracket.
fn opens_more(kind: TokenKind) -> bool
    ensures { result ≡ opens_more kind }
{
    matches!(kind, TokenKind::Sign(Sign::Dot | Sign::ParenOpen))
}

// The expression that a token alone is: a number, `true` or `false`.
fn literal(token: &Token) -> Option<Expr>
    ensures { result ≡ literal token.now.kind token.now.place }
{
    let place = token.place;
    match token.kind {
        TokenKind::Number(value) => Some(Expr::Number { value, place }),
        TokenKind::Word(Word::True) => Some(Expr::Truth { value: true, place }),
        TokenKind::Word(Word::False) => Some(Expr::Truth {
            value: false,
            place,
        }),
        _ => None,
    }
}

// A prefix at this place, and what it stands before.
fn under_prefix(alloc: Global, prefix: Prefix, inner: Expr, place: Place) -> Result<Expr, Memory>
    ensures { IfOk result (λ e. e ≡ prefix_tree prefix inner place) }
{
    let inner = Boxed::new(alloc, inner)?;
    match prefix {
        Prefix::Not => Ok(Expr::Not { inner, place }),
        Prefix::Minus => Ok(Expr::Neg { inner, place }),
    }
}

fn binary(alloc: Global, op: BinOp, left: Expr, right: Expr, place: Place) -> Result<Expr, Memory>
    ensures { IfOk result (λ e. e ≡ trees.Binary op left right place) }
{
    let left = Boxed::new(alloc, left)?;
    let right = Boxed::new(alloc, right)?;
    Ok(Expr::Binary {
        op,
        left,
        right,
        place,
    })
}
