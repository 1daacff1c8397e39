//! The voting desk of a Project Secretary, as a program: it does what the machine's words ask for.
//! All that it does is of `gr_desk`.
#![tactic(auto)]

use gr_desk::program::run_machine;
use std::process::ExitCode;

/// Does what the machine's words ask for, over its streams and by its clock.
fn main(rt: HostRuntime) -> ExitCode {
    ExitCode::from(run_machine(&rt))
}
