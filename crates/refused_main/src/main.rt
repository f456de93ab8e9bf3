//! A program of the tests: the same as `battle`, run over a table of units that is missing.
#![tactic(auto)]

use battle_program::run_program;
use std::process::ExitCode;

fn main(rt: HostRuntime) -> ExitCode {
    ExitCode::from(run_program(&rt, &rt).exit_status())
}
