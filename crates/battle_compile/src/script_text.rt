//! The script of a text.
ghost use Rattle.std.specs.Prelude.{◌≤◌, IfOk, IfErr, length};
ghost use Rattle.battle_compile.specs.ScriptText.{IsRead, IsScriptFault, IsScriptText, IsTypedText};
ghost use Rattle.sgl_tree.specs.Plain.{HasClauses, HasShortNames};

use crate::fault::ScriptFault;
use sgl_expand::expand;
use sgl_lexer::lex;
use sgl_parser::parse;
use sgl_tree::Script;
use sgl_typed::TScript;
use sgl_types::check;
use sgl_values::SCRIPT_BYTES_MAX;
use std::alloc::Global;

/// Reads the text of a script of at most 1,048,576 bytes: the script that it spells, with its names resolved and its
/// routines written out. A fault is the first that the text has: `Lex` of the text, `Parse` of its tokens, `Types` of the
/// script that they spell, `TooLarge` or `TooNested` of that script with its routines written out.
pub fn read_script(alloc: Global, text: &[u8]) -> Result<TScript, ScriptFault>
    requires { length text.now ≤ SCRIPT_BYTES_MAX }
    ensures script { IfOk result (IsScriptText text.now) }
    ensures fault { IfErr result (IsScriptFault text.now) }
{
    let script = parsed(alloc, text)?;
    let typed = typed(alloc, text, &script)?;
    written(alloc, text, &script, &typed)
}

// The script that a text spells.
fn parsed(alloc: Global, text: &[u8]) -> Result<Script, ScriptFault>
    requires { length text.now ≤ SCRIPT_BYTES_MAX }
    ensures read { IfOk result (IsRead text.now) }
    ensures short_names { IfOk result HasShortNames }
    ensures clauses { IfOk result HasClauses }
    ensures fault { IfErr result (IsScriptFault text.now) }
{
    let tokens = lex(alloc, text)?;
    let script = parse(alloc, text, &tokens)?;
    Ok(script)
}

// The script of a text with its names resolved.
fn typed(alloc: Global, text: &[u8], script: &Script) -> Result<TScript, ScriptFault>
    requires read { IsRead text.now script.now }
    requires short_names { HasShortNames script.now }
    requires clauses { HasClauses script.now }
    ensures typed { IfOk result (IsTypedText text.now script.now) }
    ensures fault { IfErr result (IsScriptFault text.now) }
{
    let typed = check(alloc, script)?;
    Ok(typed)
}

// The same with its routines written out.
fn written(
    alloc: Global,
    text: &[u8],
    script: &Script,
    typed: &TScript,
) -> Result<TScript, ScriptFault>
    requires { IsTypedText text.now script.now typed.now }
    ensures written { IfOk result (IsScriptText text.now) }
    ensures fault { IfErr result (IsScriptFault text.now) }
{
    let written = expand(alloc, typed)?;
    Ok(written)
}
