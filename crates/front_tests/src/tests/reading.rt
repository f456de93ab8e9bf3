//! Texts that are read, for the tests.

ghost use Rattle.std.specs.Prelude.{IfOk};
ghost use Rattle.sgl_lexer.specs.Lexing.{AreTokensOf};

use sgl_lexer::{Tokens, lex};
use sgl_parser::{ParseFault, parse};
use sgl_tree::Script;
use sgl_values::SCRIPT_BYTES_MAX;
use std::alloc::Global;
use std::process::Abort;
use std::test::Fail;

/// The tokens of a text that has no fault of theirs.
pub fn tokens_of(rt: &impl Abort, alloc: Global, text: &[u8]) -> Result<Tokens, Fail>
    ensures { IfOk result (AreTokensOf text.now) }
{
    assert!(rt; text.len() <= SCRIPT_BYTES_MAX);
    Ok(lex(alloc, text)?)
}

/// The tree of a text, or what is told of it.
pub fn read(
    rt: &impl Abort,
    alloc: Global,
    text: &[u8],
) -> Result<Result<Script, ParseFault>, Fail> {
    let tokens = tokens_of(rt, alloc, text)?;
    Ok(parse(alloc, text, &tokens))
}

/// The tree of a text that is a script.
pub fn script_of(rt: &impl Abort, alloc: Global, text: &[u8]) -> Result<Script, Fail> {
    Ok(read(rt, alloc, text)??)
}
