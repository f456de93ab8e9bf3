//! A text has one list of tokens and one ending.

ghost use Rattle.sgl_lexer.specs.Uniqueness.{HasOneLexing};

/// A law, and no work: a text has one list of tokens and one ending.
///
/// So the tokens of `lex` are the only ones, and its fault is the first.
pub fn one_lexing()
    ensures { HasOneLexing }
{}
