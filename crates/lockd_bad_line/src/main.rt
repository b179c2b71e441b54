//! The program `lockd` once more, with a stored run that ends at a line that is no event.
#![tactic(auto)]

use std::process::ExitCode;

fn main(rt: HostRuntime) -> ExitCode {
    lr_program::run(&rt, &rt.stderr())
}
