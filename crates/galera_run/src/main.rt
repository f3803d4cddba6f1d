//! The program: it runs a schedule that it reads and prints what each step is answered.
#![tactic(auto)]

mod args;
mod fault;
mod finish;
mod laws;
mod line;
mod load;
mod output;
mod place;
mod print;
mod program;
mod run;
mod script;
mod words;
mod workload;

use args::words_of;
pub use fault::{Finished, RunFault};
pub use laws::{right_laws, run_laws};
pub use load::run_load;
use outside_io::{StdSink, StdSource};
pub use program::galera_steps;
pub use run::run_steps;
use std::env;
use std::process::ExitCode;

fn main(rt: HostRuntime) -> ExitCode {
    let status = match words_of(rt.alloc(), env::args(&rt)) {
        Ok(words) => run_words(rt, &words),
        Err(_) => 6,
    };
    ExitCode::from(status)
}

// Does the command over standard input and output.
fn run_words(rt: HostRuntime, words: &[String]) -> u8 {
    match StdSink::new(rt.alloc(), rt.stdout()) {
        Ok(mut out) => {
            let mut input = StdSource::new(rt.stdin());
            galera_steps(
                rt.alloc(),
                words,
                &mut input,
                &mut out,
                Vec::new(rt.alloc()),
            )
        }
        Err(_) => 6,
    }
}
