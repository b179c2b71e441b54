//! The program `lockd` once more, with a stored run of a drill.
#![tactic(auto)]

use std::process::ExitCode;

fn main(rt: HostRuntime) -> ExitCode {
    lr_program::run(&rt, &rt.stderr())
}
