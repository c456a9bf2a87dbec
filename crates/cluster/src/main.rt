// Plays a cluster of replicas from a script, and prints each event with its answer. Every event is refused.
#![tactic(auto)]

mod refusing;

use refusing::Refusing;
use stage::program::Program;
use std::process::ExitCode;

const PROGRAM: Program<'static> = Program {
    usage: "cluster [FILE]",
    help: None,
    at_once: false,
    progress: false,
};

// What went wrong was said where it happened; an error from `main` would be said again.
fn main(rt: HostRuntime) -> ExitCode {
    match PROGRAM.run::<Refusing, HostRuntime>(&rt) {
        Ok(()) => ExitCode::SUCCESS,
        Err(_) => ExitCode::FAILURE,
    }
}
