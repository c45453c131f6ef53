//! `pawk`: awk in whole numbers, whose main rules run over chunks of the input.
#![tactic(auto)]

mod command;
mod count;
mod explanations;
mod feeds;
mod joining;
mod map;
mod merging;
mod messages;
mod seed;
mod shards;
mod whole;

use command::command;
use messages::Messages;
use pawk_command::deep::{Depth, do_in};
use pawk_command::host::Host;
use seed::seed_of;
use std::process::ExitCode;
use std::{io, thread};

/// What is reported where memory is refused.
const NO_MEMORY: &str = "pawk: refused: memory";

/// What is reported where the thread of the run cannot be started.
const NO_THREAD: &str = "pawk: refused: thread";

/// What is reported where an argument is no text.
const NO_TEXT: &str = "pawk: an argument is no text";

/// The words of the command line, or the line to print in their place.
fn words_of(rt: &HostRuntime) -> Result<Vec<String>, &'static str> {
    let words = match std::env::args(rt) {
        Ok(words) => words,
        Err(error) => {
            let is_memory = error.kind() == io::ErrorKind::OutOfMemory;
            return Err(if is_memory { NO_MEMORY } else { NO_TEXT });
        }
    };
    words.collect(rt.alloc()).map_err(|_| NO_MEMORY)
}

/// Writes a line on standard error, and gives the status of a run that was refused.
fn refuse(rt: &HostRuntime, line: &str) -> u8 {
    let _ = rt.eprintln(line);
    2
}

fn main(rt: HostRuntime) -> ExitCode {
    let rt = &rt;
    let words = match words_of(rt) {
        Ok(words) => words,
        Err(line) => return ExitCode::from(refuse(rt, line)),
    };
    let words = words.as_slice();
    let seed = seed_of(rt);
    // A flat stack is enough for a program without functions, where the system has no space for a deep one.
    let status = thread::scope(thread::scope_env(), rt, |scope| -> Option<u8> {
        for depth in [Depth::Deep, Depth::Flat] {
            let done = do_in(scope, rt, depth, move || {
                command(
                    rt,
                    words,
                    Host { seed, depth },
                    rt.stdin(),
                    rt.stdout(),
                    Messages::new(rt.stderr()),
                )
            });
            if done.is_some() {
                return done;
            }
        }
        None
    });
    ExitCode::from(status.unwrap_or_else(|| refuse(rt, NO_THREAD)))
}
