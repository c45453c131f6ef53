//! Tests of the program's crates that have to be written in Rattle: boards, gates, workers, devices that fail, runs from feeds,
//! cuts by hand, roles of globals.
//!
//! What a run of the program shows is in `tests/rows` and `tests/programs` at the top of the repository.
//!
//! It is a program because that decides how the tests are run: what `rt ci` notes of a library is a sum over all paths
//! to the libraries below it, which takes longer than the tests' proofs.
#![tactic(auto)]

use std::io;

#[cfg(test)]
mod admission;
#[cfg(test)]
mod boards;
#[cfg(test)]
mod cuts;
#[cfg(test)]
mod devices;
#[cfg(test)]
mod feeds;
#[cfg(test)]
mod fixtures;
#[cfg(test)]
mod gates;
#[cfg(test)]
mod matchers;
#[cfg(test)]
mod rows;
#[cfg(test)]
mod taps;
#[cfg(test)]
mod workers;

fn main(rt: HostRuntime) -> io::Result<()> {
    println!(rt; "rt test, in this folder, runs the tests")
}
