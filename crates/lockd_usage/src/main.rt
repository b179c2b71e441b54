//! The program `lockd` once more, with a stored run that ends at words that are no command.
#![tactic(auto)]

use std::process::ExitCode;

fn main(rt: HostRuntime) -> ExitCode {
    lr_program::run(&rt, &rt.stderr())
}
