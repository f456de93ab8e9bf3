//! The program `battle`: runs the battle that its words ask for, and ends with the number of the status.
#![tactic(auto)]

use battle_program::run_program;
use std::process::ExitCode;

fn main(rt: HostRuntime) -> ExitCode {
    ExitCode::from(run_program(&rt, &rt).exit_status())
}
