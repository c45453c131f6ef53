//! Runs whose reads and writes come in turn, that leave a file early, or that have none.

use super::trials::{ENDED, Files, Size, Trial, Wanted, are_right, is_right, trial_of};
use crate::rows::{first_cell, first_number};
use std::sync::Wait;
use std::thread::Threads;

/// Programs that print each record, or what is assigned before its file: in chunks, one after the other, and one after the other
/// from the first new key on. Before each are whether something is assigned (1), and its output.
const PRINTS: &str = "\
0 =1/2/3/4/5/ { print }
0 =1/2/3/4/5/ NR == 1, 0
0 =1/2/3/4/5/ $1 in b { y = 1 } { print; x = b[$1] }
1 =1/1/1/2/2/3/ { print x } END { print x }
1 =1/1/1/2/2/3/ NR == 1, 0 { print x } END { print x }
1 =1/1/1/2/2/3/ $1 in b { y = 1 } { print x; y = b[$1] } END { print x }
";

/// Whether the lines of a row are handed on before the next read, where a read gives at most so many bytes: of a byte each the first
/// file has seven reads, and the second five.
fn is_handed_on<R: AllocGlobal + Threads + Wait>(rt: &R, row: &str, step: usize) -> bool {
    let (assigned, row) = first_number(row);
    let (output, text) = first_cell(row);
    let trial = Trial {
        files: Some(Files {
            first: b"1\n2\n3\n",
            second: b"4\n5\n",
            next: b"",
            step,
        }),
        assigned: assigned == 1,
        ..trial_of(text, output)
    };
    let reads = if step == 1 { Some((7, 5)) } else { None };
    are_right(rt, trial, Wanted::InTurn(reads))
}

// What is written of the lines that were given is handed on before the next read, also where something is assigned among the files.
#[test]
fn lines_are_handed_on_before_a_read(rt: HostRuntime) {
    for row in PRINTS.lines() {
        assert!(rt; is_handed_on(&rt, row, 1), "step 1: {row}");
        assert!(rt; is_handed_on(&rt, row, 3), "step 3: {row}");
        assert!(rt; is_handed_on(&rt, row, 4096), "step 4096: {row}");
    }
}

/// Programs that leave a file at its third record: before each are the number of its answer, whether it reads the second file,
/// and what it writes over two files without an end.
const STOPS: &str = "\
0 0 =3/ NR == 3 { print; exit }
0 0 =3/ NR == 3, 0 { print; exit }
100 0 =1/2/ NR == 3 { x = 1 / 0 } { print }
100 0 =1/2/ NR == 3, 0 { x = 1 / 0 } { print }
0 1 =1/2/1/2/ FNR == 3 { nextfile } { print }
0 1 =1/2/1/2/ FNR == 3 { nextfile } NR == 6 { exit } { print }
";

/// How many bytes a read gives at most, how many a window has, and which read gives the end of the third record, at the sixth
/// byte.
const THIRDS: &str = "\
1 1 6
1 7 6
1 4096 6
2 7 3
2 4096 3
5 4096 2
4096 1 6
4096 7 1
4096 4096 1
";

/// Whether a row of stops is right with a row of thirds.
fn is_left_so<R: AllocGlobal + Threads + Wait>(rt: &R, stop: &str, third: &str) -> bool {
    let (answer, stop) = first_number(stop);
    let (files, stop) = first_number(stop);
    let (output, text) = first_cell(stop);
    let (step, third) = first_number(third);
    let (window, third) = first_number(third);
    let (reads, _) = first_number(third);
    let trial = Trial {
        files: Some(Files {
            first: b"",
            second: b"",
            next: b"1\n2\n3\n4\n",
            step: step as usize,
        }),
        ..trial_of(text, output)
    };
    let window = window as usize;
    let wanted = Wanted::Read(answer, (reads, if files == 1 { reads } else { 0 }));
    is_right(rt, trial, Size { window, workers: 1 }, wanted)
        && is_right(rt, trial, Size { window, workers: 2 }, wanted)
}

// Nothing more is read of a file whose third record ends the run, or leaves the file.
#[test]
fn a_feed_is_left_at_its_third_record(rt: HostRuntime) {
    for stop in STOPS.lines() {
        for third in THIRDS.lines() {
            assert!(rt; is_left_so(&rt, stop, third), "{third}: {stop}");
        }
    }
}

/// Whether a text writes this without a feed, in each size.
fn shows_alone<R: AllocGlobal + Threads + Wait>(
    rt: &R,
    text: &str,
    assigned: bool,
    output: &str,
) -> bool {
    let trial = Trial {
        files: None,
        assigned,
        ..trial_of(text, output)
    };
    are_right(rt, trial, Wanted::Shown(ENDED))
}

// A run without a feed, which the program never begins: it reads standard input where no file is named.
#[test]
fn no_feed(rt: HostRuntime) {
    assert!(rt; shows_alone(&rt, "END { print NR, NF }", false, "=0 0/"));
    assert!(rt; shows_alone(&rt, "END { print x, NR }", true, "=3 0/"));
}
