// Plays a cluster of replicas from a script, and prints each event with its answer.
#![tactic(auto)]

mod made;
mod played;
mod replicas;
mod usage;

use played::Played;
use stage::program::Program;
use std::io;
use std::io::IsTerminal;
use std::process::ExitCode;
use usage::USAGE;

// On a terminal each answer is shown at once, and a long play says how far it is.
fn run(rt: &HostRuntime) -> io::Result<()> {
    let program = Program {
        usage: "cluster [FILE], or cluster --help",
        help: Some(USAGE),
        at_once: rt.stdout().is_terminal(),
        progress: rt.stderr().is_terminal(),
    };
    program.run::<Played, HostRuntime>(rt)
}

// What went wrong was said where it happened; an error from `main` would be said again.
fn main(rt: HostRuntime) -> ExitCode {
    match run(&rt) {
        Ok(()) => ExitCode::SUCCESS,
        Err(_) => ExitCode::FAILURE,
    }
}
