//! Answers the lines of a script on standard input, each at once, on standard output. The status is 0 where the input
//! was answered to its end, and 3 where memory was refused or a stream failed; what failed is told on standard error.
//! Arguments are not read.
#![tactic(auto)]

use script_server::program;
use std::process::ExitCode;

fn main(rt: HostRuntime) -> ExitCode {
    let status = program(&rt, rt.stdin(), &mut rt.stdout(), &mut rt.stderr());
    ExitCode::from(status)
}
