//! The program `lockd`: distributed locks with leases, after Redisson's.
#![tactic(auto)]

use std::process::ExitCode;

fn main(rt: HostRuntime) -> ExitCode {
    lr_program::run(&rt, &rt.stderr())
}
