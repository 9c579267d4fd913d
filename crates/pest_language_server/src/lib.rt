//! A language server for pest grammars, over standard input and output.
#![tactic(auto)]

mod arguments;
mod capabilities;
mod frames;
mod replies;
mod requests;
mod server;
mod session;

pub use arguments::command;
use session::run;
use std::io::BufReader;
use std::process::ExitCode;

/// Answers the messages on standard input, and returns the status: 0 after `shutdown` and `exit`. It is 1 if
/// the input ends before, or if a read, a write or the allocation of a buffer fails.
pub fn serve(rt: &HostRuntime) -> ExitCode {
    let Ok(mut input) = BufReader::new(rt.alloc(), rt.stdin()) else {
        return ExitCode::from(1);
    };
    ExitCode::from(run(rt.alloc(), &mut input, &mut rt.stdout()))
}
