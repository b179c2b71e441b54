//! The program `lockd` once more, with a stored run of some of the stories of `examples/`, and of a
//! schedule that looks like chance.
#![tactic(auto)]

use std::process::ExitCode;

fn main(rt: HostRuntime) -> ExitCode {
    lr_program::run(&rt, &rt.stderr())
}
