//! The front as a whole: the script of a text, with its names resolved and its routines written out, and its plan; or the
//! first fault.
#![tactic(auto)]

mod compiled;
mod fault;
mod script_text;

pub use compiled::{Compiled, compile};
pub use fault::ScriptFault;
pub use plan_translate::translate;
pub use script_text::read_script;
