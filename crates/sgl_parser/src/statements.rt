//! Reads a block in braces: `let`, `if` with `else`, and `perform`.

ghost use Rattle.sgl_lexer.specs.Slices.{AreSlicesOf};
ghost use Rattle.sgl_lexer.specs.declared.lexeme.TokenKind.TheVariants as kinds;
ghost use Rattle.sgl_lexer.specs.declared.vocabulary.Word.TheVariants as words;
ghost use Rattle.sgl_lexer.specs.declared.vocabulary.Sign.TheVariants as signs;
ghost use Rattle.sgl_parser.specs.Breaks.{Anywhere, At, NotAt};
ghost use Rattle.sgl_parser.specs.Reads.{Reads, SpellsAssignment};
ghost use Rattle.sgl_parser.specs.StatementShape.{BlockShape, StatementsShape, StatementShape, BranchShape, ValueShape, LetShape, IfShape, PerformShape};
ghost use Rattle.sgl_parser.specs.Statements.{SpellsBlock, SpellsStatements, SpellsStatement, SpellsBranch, SpellsValue, SpellsLet, SpellsIf, SpellsPerform};

use crate::reading::{Reader, Reading, Stop, by_front, eat, ends_block, expect};
use sgl_lexer::{Sign, Token, TokenKind, Word};
use sgl_tree::{Expr, Name, Stmt};
use sgl_values::{List, Place};

impl Reader<'_> {
    /// Statements in braces.
    #[cycle(statements)]
    pub fn block<'t>(&self, tokens: &'t [Token]) -> Reading<'t, List<Stmt>>
        requires { AreSlicesOf self.now.text.now tokens.now }
        ensures { Reads BlockShape Anywhere 1 (SpellsBlock self.now.text.now) self.now.text.now tokens.now result }
    {
        let (_, rest) = expect(tokens, TokenKind::Sign(Sign::BraceOpen))?;
        let (statements, rest) = self.statements(rest)?;
        let (_, rest) = expect(rest, TokenKind::Sign(Sign::BraceClose))?;
        Ok((statements, rest))
    }

    // Statements up to a closing brace.
    #[cycle(statements)]
    fn statements<'t>(&self, tokens: &'t [Token]) -> Reading<'t, List<Stmt>>
        requires { AreSlicesOf self.now.text.now tokens.now }
        ensures { Reads StatementsShape (At (kinds.Sign signs.BraceClose)) 0 (SpellsStatements self.now.text.now) self.now.text.now tokens.now result }
    {
        let mut statements = List::new(self.alloc);
        let mut rest = tokens;
        'statements: while !ends_block(rest) {
            let (statement, behind) = self.statement(rest)?;
            statements.push(statement)?;
            rest = behind;
        }
        Ok((statements, rest))
    }

    // A statement.
    #[cycle(statements)]
    fn statement<'t>(&self, tokens: &'t [Token]) -> Reading<'t, Stmt>
        requires { AreSlicesOf self.now.text.now tokens.now }
        ensures { Reads StatementShape (NotAt (kinds.Word words.Else)) 1 (SpellsStatement self.now.text.now) self.now.text.now tokens.now result }
    {
        by_front!(tokens;
            Let (_, rest) => self.let_behind(rest),
            If (_, rest) => self.if_behind(rest),
            Perform (word, rest) => self.perform(word.place, rest),
            _ => Err(Stop::Syntax { left: tokens.len() })
        )
    }

    // A name for a value, behind its word.
    fn let_behind<'t>(&self, tokens: &'t [Token]) -> Reading<'t, Stmt>
        requires { AreSlicesOf self.now.text.now tokens.now }
        ensures { Reads LetShape Anywhere 1 (SpellsLet self.now.text.now) self.now.text.now tokens.now result }
    {
        let (assigned, rest) = self.assignment(tokens)?;
        let (name, value) = assigned;
        Ok((Stmt::Let { name, value }, rest))
    }

    /// A name and a value with an equal sign between them, up to a semicolon.
    pub fn assignment<'t>(&self, tokens: &'t [Token]) -> Reading<'t, (Name, Expr)>
        requires { AreSlicesOf self.now.text.now tokens.now }
        ensures { Reads LetShape Anywhere 1 (SpellsAssignment self.now.text.now) self.now.text.now tokens.now result }
    {
        let (name, rest) = expect(tokens, TokenKind::Name)?;
        let (_, rest) = expect(rest, TokenKind::Sign(Sign::Equal))?;
        let (value, rest) = self.value(rest)?;
        let name = self.name(name)?;
        Ok(((name, value), rest))
    }

    /// An expression up to a semicolon.
    pub fn value<'t>(&self, tokens: &'t [Token]) -> Reading<'t, Expr>
        requires { AreSlicesOf self.now.text.now tokens.now }
        ensures { Reads ValueShape Anywhere 1 (SpellsValue self.now.text.now) self.now.text.now tokens.now result }
    {
        let (value, rest) = self.expression(tokens)?;
        let (_, rest) = expect(rest, TokenKind::Sign(Sign::Semicolon))?;
        Ok((value, rest))
    }

    // A condition with its blocks, behind its word.
    #[cycle(statements)]
    fn if_behind<'t>(&self, tokens: &'t [Token]) -> Reading<'t, Stmt>
        requires { AreSlicesOf self.now.text.now tokens.now }
        ensures { Reads IfShape (NotAt (kinds.Word words.Else)) 1 (SpellsIf self.now.text.now) self.now.text.now tokens.now result }
    {
        let (cond, rest) = self.expression(tokens)?;
        let (yes, rest) = self.block(rest)?;
        let (no, rest) = self.branch(rest)?;
        Ok((Stmt::If { cond, yes, no }, rest))
    }

    // The block behind `else`, or an empty one without that word.
    #[cycle(statements)]
    fn branch<'t>(&self, tokens: &'t [Token]) -> Reading<'t, List<Stmt>>
        requires { AreSlicesOf self.now.text.now tokens.now }
        ensures { Reads BranchShape (NotAt (kinds.Word words.Else)) 0 (SpellsBranch self.now.text.now) self.now.text.now tokens.now result }
    {
        let Some((_, rest)) = eat(tokens, TokenKind::Word(Word::Else)) else {
            return Ok((List::new(self.alloc), tokens));
        };
        let (block, rest) = self.block(rest)?;
        Ok((block, rest))
    }

    // A call of an action or routine, behind its word, which stands at this place.
    fn perform<'t>(&self, place: Place, tokens: &'t [Token]) -> Reading<'t, Stmt>
        requires { AreSlicesOf self.now.text.now tokens.now }
        ensures { Reads PerformShape Anywhere 1 (SpellsPerform self.now.text.now place) self.now.text.now tokens.now result }
    {
        let (name, rest) = expect(tokens, TokenKind::Name)?;
        let (_, rest) = expect(rest, TokenKind::Sign(Sign::ParenOpen))?;
        let (unit, rest) = expect(rest, TokenKind::Name)?;
        let (args, rest) = self.arguments(rest)?;
        let (_, rest) = expect(rest, TokenKind::Sign(Sign::ParenClose))?;
        let (_, rest) = expect(rest, TokenKind::Sign(Sign::Semicolon))?;
        let name = self.name(name)?;
        let unit = self.name(unit)?;
        Ok((
            Stmt::Perform {
                place,
                name,
                unit,
                args,
            },
            rest,
        ))
    }
}
