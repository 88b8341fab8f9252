//! Runs a script on standard input against a client group, and writes the replies on standard output. The status is 0
//! where the script ran, 2 where it is faulty, and 3 where memory was refused or a stream failed; what is wrong is told
//! on standard error. Arguments are not read.
#![tactic(auto)]

use script_runner::program;
use std::process::ExitCode;

fn main(rt: HostRuntime) -> ExitCode {
    let status = program(&rt, &mut rt.stdin(), &mut rt.stdout(), &mut rt.stderr());
    ExitCode::from(status)
}
