//! The script of a text, with its plan.
ghost use Rattle.std.specs.Prelude.{◌≡◌, ◌≤◌, true, IfOk, IfErr, length};
ghost use Rattle.sgl_typed.specs.WrittenOut.{is_written_out};
ghost use Rattle.std.specs.Coded.{Coded-set, coded_list};
ghost use Rattle.battle_algebra.specs.Tree.{numbered};
ghost use Rattle.battle_algebra.specs.contracts.plan.Node as node;
ghost use Rattle.plan_translate.specs.Translation.{translation, translation_slots};
ghost use Rattle.battle_compile.specs.ScriptText.{IsScriptFault, IsScriptText};

use crate::fault::ScriptFault;
use crate::script_text::read_script;
use battle_algebra::Plan;
use plan_translate::translate;
use sgl_typed::TScript;
use sgl_values::SCRIPT_BYTES_MAX;
use std::alloc::Global;

/// A script whose routines are written out, of at most 20,000 nodes and 256 blocks in one another, and the plan that it is
/// translated to.
#[derive(Debug, Drop)]
pub struct Compiled {
    pub script: TScript,
    pub plan: Plan,
    pub ghost small: { is_written_out script ≡ true },
    pub ghost nodes: { plan.nodes ≡ numbered (translation script) 0 } by { Coded-set (coded_list node.the_row.coded) plan.nodes (numbered (translation script) 0) },
    pub ghost slots: { plan.slots ≡ translation_slots script },
}

/// Reads the text of a script of at most 1,048,576 bytes: the script that it spells, with its names resolved and its
/// routines written out, and its plan. A fault is the first that the text has: `Lex` of the text, `Parse` of its tokens,
/// `Types` of the script that they spell, `TooLarge` or `TooNested` of that script with its routines written out.
pub fn compile(alloc: Global, text: &[u8]) -> Result<Compiled, ScriptFault>
    requires { length text.now ≤ SCRIPT_BYTES_MAX }
    ensures script { IfOk result (λ compiled. IsScriptText text.now compiled.script) }
    ensures fault { IfErr result (IsScriptFault text.now) }
{
    let script = read_script(alloc, text)?;
    let plan = translate(alloc, &script)?;
    Ok(Compiled { script, plan })
}
