//! The script that all tokens of a text spell, or the one fault that is told of them.

ghost use Rattle.std.specs.Prelude.{◌≡◌, ◌≤◌, IfOk, IfErr, IfSome, IfNone, OnOk, length};
ghost use Rattle.sgl_tree.specs.Plain.{HasShortNames, HasClauses};
ghost use Rattle.sgl_tree.specs.declared.item.Script.{Script as ScriptTree};
ghost use Rattle.sgl_lexer.specs.Lexing.{AreTokensOf};
ghost use Rattle.sgl_lexer.specs.Slices.{AreSlicesOf};
ghost use Rattle.sgl_parser.specs.Breaks.{HasBroken, Many, AtEnd};
ghost use Rattle.sgl_parser.specs.ItemShape.{ItemShape, HasScriptShape};
ghost use Rattle.sgl_parser.specs.Nesting.{IsShallow, IsFirstDeep};
ghost use Rattle.sgl_parser.specs.Readings.{HasFault, place_of};
ghost use Rattle.sgl_parser.specs.Scripts.{IsScript};
ghost use Rattle.sgl_parser.specs.Shape.{kinds_of};
ghost use Rattle.sgl_parser.specs.declared.parser.ParseFault.TheVariants as faults;

use crate::depth::first_deep;
use crate::reading::{Reader, Stop};
use sgl_lexer::{Token, Tokens};
use sgl_tree::Script;
use sgl_values::{Memory, Place};
use std::alloc::Global;

/// Why tokens give no script.
#[derive(Clone, Copy, Debug, PartialEq, Eq)]
pub enum ParseFault {
    /// A token that no script can have there, the first such one, by its number from 0 and at its place; or, where
    /// there is none, the tokens begin a script and are no whole one: then `token` is their number, and `place` is the
    /// end of the text.
    Syntax { token: u32, place: Place },
    /// A token nests deeper than 64, and no token before it is one that no script can have there. It is the first so
    /// deep, at its place.
    TooDeep { place: Place },
    /// Memory ran out; says nothing of the tokens.
    Memory,
}

impl From<Memory> for ParseFault {
    ghost from_gives = { λ _ fault. fault ≡ faults.Memory };

    fn from(_memory: Memory) -> ParseFault {
        ParseFault::Memory
    }
}

/// The script that all tokens of a text spell.
///
/// A script is any number of items, as `docs/language.md` writes them. Unless memory runs out, the answer is `Ok` exactly
/// where the tokens spell one and none nests deeper than 64, as operators, brackets and braces are counted: what is deeper
/// is not read, so reading needs a bounded stack. It takes time linear in the number of tokens.
pub fn parse(alloc: Global, text: &[u8], tokens: &Tokens) -> Result<Script, ParseFault>
    requires { AreTokensOf text.now tokens.now }
    ensures spells { IfOk result (IsScript text.now tokens.now) }
    ensures shallow { OnOk result (IsShallow (kinds_of tokens.now.list)) }
    ensures one { IfOk result (λ script. (other : ScriptTree) → IsScript text.now tokens.now other → other ≡ script) }
    ensures short_names { IfOk result HasShortNames }
    ensures clauses { IfOk result HasClauses }
    ensures fault { IfErr result (HasFault tokens.now) }
{
    let list = tokens.list.as_slice();
    match first_deep(alloc, list)? {
        None => read_whole(alloc, text, tokens),
        Some(at) => Err(deep_fault(alloc, text, tokens, at)),
    }
}

// The script of tokens none of which is too deep.
fn read_whole(alloc: Global, text: &[u8], tokens: &Tokens) -> Result<Script, ParseFault>
    requires tokens { AreTokensOf text.now tokens.now }
    requires shallow { IsShallow (kinds_of tokens.now.list) }
    ensures spells { IfOk result (IsScript text.now tokens.now) }
    ensures fault { IfErr result (HasFault tokens.now) }
{
    let list = tokens.list.as_slice();
    match Reader::new(alloc, text).items(list) {
        Ok(items) => Ok(Script {
            items,
            end: tokens.end,
        }),
        Err(Stop::Syntax { left }) => Err(syntax_fault(text, tokens, list.len() - left)),
        Err(Stop::Memory) => Err(ParseFault::Memory),
    }
}

// What is told of tokens of which the one with this number is the first too deep: a fault before it, or it.
fn deep_fault(alloc: Global, text: &[u8], tokens: &Tokens, at: usize) -> ParseFault
    requires tokens { AreTokensOf text.now tokens.now }
    requires deep { IsFirstDeep (kinds_of tokens.now.list) at }
    ensures { HasFault tokens.now result }
{
    let list = tokens.list.as_slice();
    match first_stop(alloc, text, &list[..at]) {
        None => too_deep(tokens, at),
        Some(Stop::Memory) => ParseFault::Memory,
        Some(Stop::Syntax { left }) => {
            if left == 0 {
                return too_deep(tokens, at);
            }
            syntax_fault(text, tokens, at - left)
        }
    }
}

// Why tokens are no script.
fn first_stop(alloc: Global, text: &[u8], tokens: &[Token]) -> Option<Stop>
    requires { AreSlicesOf text.now tokens.now }
    ensures none { IfNone result (HasScriptShape (kinds_of tokens.now)) }
    ensures stop { IfSome result (HasBroken (Many ItemShape) AtEnd (kinds_of tokens.now)) }
{
    match Reader::new(alloc, text).items(tokens) {
        Ok(_) => None,
        Err(stop) => Some(stop),
    }
}

// The fault of a token that nests too deep, by its number.
fn too_deep(tokens: &Tokens, number: usize) -> ParseFault
    ensures { result ≡ faults.TooDeep (place_of tokens.now number) }
{
    ParseFault::TooDeep {
        place: place_of(tokens, number),
    }
}

// A fault of syntax at the token with this number, or at the end.
fn syntax_fault(text: &[u8], tokens: &Tokens, number: usize) -> ParseFault
    requires tokens { AreTokensOf text.now tokens.now }
    requires within { number ≤ length tokens.now.list }
    ensures { result ≡ faults.Syntax number (place_of tokens.now number) }
{
    let place = place_of(tokens, number);
    let Some(last) = tokens.list.as_slice().last() else {
        return ParseFault::Syntax { token: 0, place };
    };
    let token = number_within(number, last.end);
    ParseFault::Syntax { token, place }
}

// The number of a token: each token has a byte of its own, so they are no more than the last one ends at.
fn number_within(number: usize, end: u32) -> u32
    requires { number ≤ end }
    ensures { result ≡ number }
{
    number as u32
}

// The place of the token with this number, or the end.
fn place_of(tokens: &Tokens, number: usize) -> Place
    ensures { result ≡ place_of tokens.now number }
{
    match tokens.list.as_slice().get(number) {
        Some(token) => token.place,
        None => tokens.end,
    }
}
