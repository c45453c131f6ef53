//! The definition of the command line: each option, and what `--help` says of it.

use clap::{Arg, ArgAction, Command, value_parser};
use std::alloc::{AllocError, Global};

/// The version that `--version` prints.
const VERSION: &str = "1.4.0";

/// What the program is, for `--help`.
const ABOUT: &str = "awk in whole numbers, run over chunks of its input";

/// The words after `--explain=`.
const WHEN: &[&str] = &["always", "auto", "never"];

fn workers<'a>(alloc: Global) -> Arg<'a> {
    Arg::new(alloc, "workers")
        .short('j')
        .value_name("workers")
        .help("The number of workers, 1 to 64")
        .value_parser(value_parser!(u8).range(1..=64))
        .default_value("4")
}

fn chunk<'a>(alloc: Global) -> Arg<'a> {
    Arg::new(alloc, "chunk")
        .short('c')
        .value_name("bytes")
        .help(
            "The size of a chunk in bytes, 1 to 1073741824 [default: a worker's share of the window, 262144 to 4194304]",
        )
        .value_parser(value_parser!(u64).range(1..=1_073_741_824))
}

fn window<'a>(alloc: Global) -> Arg<'a> {
    Arg::new(alloc, "window")
        .short('w')
        .value_name("bytes")
        .help(
            "The size in bytes of the window in which files are run piece by piece, 1 to 1073741824 [default: a quarter of the files, 1048576 to 16777216]",
        )
        .value_parser(value_parser!(u64).range(1..=1_073_741_824))
}

fn memory<'a>(alloc: Global) -> Arg<'a> {
    Arg::new(alloc, "memory")
        .short('m')
        .value_name("bytes")
        .help(
            "The number of bytes of memory that the run may ask for, 1 to 1099511627776 [default: no limit]",
        )
        .value_parser(value_parser!(u64).range(1..=1_099_511_627_776))
}

fn steps<'a>(alloc: Global) -> Arg<'a> {
    Arg::new(alloc, "steps")
        .short('s')
        .value_name("steps")
        .help("The number of steps that BEGIN, each record and END may take, 1 to 1000000000000")
        .value_parser(value_parser!(u64).range(1..=1_000_000_000_000))
        .default_value("10000000")
}

fn separator<'a>(alloc: Global) -> Arg<'a> {
    Arg::new(alloc, "separator")
        .short('F')
        .value_name("text")
        .help("The field separator, as -v FS=text after all others")
}

fn assignments<'a>(alloc: Global) -> Arg<'a> {
    Arg::new(alloc, "assignment")
        .short('v')
        .value_name("name=value")
        .help("A variable that is assigned before the program runs")
        .action(ArgAction::Append)
}

fn program_files<'a>(alloc: Global) -> Arg<'a> {
    Arg::new(alloc, "program-file")
        .short('f')
        .value_name("file")
        .help(
            "A file that has the program's text, - for standard input; no operand is the program then",
        )
        .action(ArgAction::Append)
}

fn explain<'a>(alloc: Global) -> Arg<'a> {
    Arg::new(alloc, "explain")
        .long("explain")
        .value_name("when")
        .help(
            "Explain faults and refusals in words: always, never, or auto, where standard error is a terminal",
        )
        .num_args(0..=1)
        .require_equals(true)
        .value_parser(WHEN)
        .default_missing_value("always")
        .default_value("auto")
        .hide_possible_values(true)
}

fn flag<'a>(alloc: Global, name: &'a str, help: &'a str) -> Arg<'a> {
    Arg::new(alloc, name)
        .long(name)
        .help(help)
        .action(ArgAction::SetTrue)
}

fn program<'a>(alloc: Global) -> Arg<'a> {
    Arg::new(alloc, "program").help("The program's text")
}

fn operands<'a>(alloc: Global) -> Arg<'a> {
    Arg::new(alloc, "operand")
        .help(
            "The files that are its input, - for standard input, which is read where there is no file; name=value assigns once the files before it have been read",
        )
        .action(ArgAction::Append)
        .num_args(0..)
}

fn shard<'a>(alloc: Global) -> Arg<'a> {
    Arg::new(alloc, "shard")
        .long("shard")
        .value_name("number/of")
        .help("Beside --map: which shard of how many the files are, as 3/40")
}

fn before<'a>(alloc: Global) -> Arg<'a> {
    Arg::new(alloc, "before")
        .long("before")
        .value_name("records")
        .help(
            "Beside --map: how many records the shards before this one have, for a program that reads NR",
        )
        .value_parser(value_parser!(u64).range(0..=9_223_372_036_854_775_807))
}

fn shards<'a>(alloc: Global) -> Arg<'a> {
    Arg::new(alloc, "shards")
        .long("shards")
        .value_name("count")
        .help(
            "Print where the file may be cut in this many shards, 1 to 1000000: the offset and the length of each in bytes",
        )
        .value_parser(value_parser!(u64).range(1..=1_000_000))
}

/// The options for runs over shards.
fn with_shards<'a>(alloc: Global, command: Command<'a>) -> Result<Command<'a>, AllocError> {
    command
        .arg(flag(
            alloc,
            "map",
            "Run the program over a shard of an input, and write its table",
        ))?
        .arg(shard(alloc))?
        .arg(before(alloc))?
        .arg(flag(
            alloc,
            "line",
            "Beside --map or --join: write the table as one line of base64",
        ))?
        .arg(flag(
            alloc,
            "count",
            "Print how many records the program reads of the files, as --before wants it, and run no record",
        ))?
        .arg(flag(
            alloc,
            "merge",
            "Merge the tables of all shards, which the operands name in order, and write what the run over all shards writes",
        ))?
        .arg(flag(
            alloc,
            "join",
            "Join the tables of neighbouring shards, which the operands name in order, to one table of them all, and write it",
        ))?
        .arg(flag(
            alloc,
            "show-table",
            "Print in words what the tables say that the operands name",
        ))?
        .arg(shards(alloc))
}

/// The options that report beside the output, or in its place.
fn with_tools<'a>(alloc: Global, command: Command<'a>) -> Result<Command<'a>, AllocError> {
    command
        .arg(flag(
            alloc,
            "why",
            "Report on standard error which way the run went",
        ))?
        .arg(explain(alloc))?
        .arg(flag(
            alloc,
            "check",
            "Read the program and its settings, and run nothing",
        ))?
        .arg(flag(
            alloc,
            "show",
            "Print the program in its canonical text, and run nothing",
        ))?
        .arg(flag(
            alloc,
            "globals",
            "Report the final variables on standard error",
        ))?
        .arg(flag(
            alloc,
            "statistics",
            "Report figures of the run on standard error",
        ))
}

/// The definition of the command's words.
pub fn definition<'a>(alloc: Global) -> Result<Command<'a>, AllocError> {
    let command = Command::new(alloc, "pawk")
        .version(VERSION)
        .about(ABOUT)
        .arg(separator(alloc))?
        .arg(assignments(alloc))?
        .arg(program_files(alloc))?
        .arg(workers(alloc))?
        .arg(chunk(alloc))?
        .arg(window(alloc))?
        .arg(flag(
            alloc,
            "whole",
            "Read all of the input before it is run, and write no output before the run has ended",
        ))?
        .arg(steps(alloc))?
        .arg(memory(alloc))?;
    let command = with_tools(alloc, command)?;
    with_shards(alloc, command)?
        .arg(program(alloc))?
        .arg(operands(alloc))
}
