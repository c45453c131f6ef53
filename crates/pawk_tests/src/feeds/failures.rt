//! Runs of which a read, a write or a flush fails.

use super::trials::{Trial, Wanted, are_right, trial_of};
use crate::rows::{first_cell, first_number};
use crate::taps::Limits;
use std::sync::Wait;
use std::thread::Threads;

/// How many reads of a byte succeed, the number of the answer, the output, and the program.
///
/// What BEGIN writes is written before the first read. The third read finds the end of the first file, and the eighth that of the
/// second. A program without a main rule and END reads nothing, and neither does one that ends in BEGIN.
const READS: &str = "\
0 6 =0/ BEGIN { print 0 } { print $1 } END { print 4 }
1 6 =0/ BEGIN { print 0 } { print $1 } END { print 4 }
2 6 =0/1/ BEGIN { print 0 } { print $1 } END { print 4 }
3 6 =0/1/ BEGIN { print 0 } { print $1 } END { print 4 }
4 6 =0/1/ BEGIN { print 0 } { print $1 } END { print 4 }
5 6 =0/1/2/ BEGIN { print 0 } { print $1 } END { print 4 }
6 6 =0/1/2/ BEGIN { print 0 } { print $1 } END { print 4 }
7 6 =0/1/2/3/ BEGIN { print 0 } { print $1 } END { print 4 }
8 0 =0/1/2/3/4/ BEGIN { print 0 } { print $1 } END { print 4 }
0 6 =0/ BEGIN { print 0 } NR == 1, 0 { print $1 } END { print 4 }
1 6 =0/ BEGIN { print 0 } NR == 1, 0 { print $1 } END { print 4 }
2 6 =0/1/ BEGIN { print 0 } NR == 1, 0 { print $1 } END { print 4 }
3 6 =0/1/ BEGIN { print 0 } NR == 1, 0 { print $1 } END { print 4 }
4 6 =0/1/ BEGIN { print 0 } NR == 1, 0 { print $1 } END { print 4 }
5 6 =0/1/2/ BEGIN { print 0 } NR == 1, 0 { print $1 } END { print 4 }
6 6 =0/1/2/ BEGIN { print 0 } NR == 1, 0 { print $1 } END { print 4 }
7 6 =0/1/2/3/ BEGIN { print 0 } NR == 1, 0 { print $1 } END { print 4 }
8 0 =0/1/2/3/4/ BEGIN { print 0 } NR == 1, 0 { print $1 } END { print 4 }
0 6 = { n += $1 } END { print n }
7 6 = { n += $1 } END { print n }
8 0 =6/ { n += $1 } END { print n }
0 0 =6/ BEGIN { print 6 }
0 0 =6/ BEGIN { print 6; exit } { print }
0 0 =7/ BEGIN { exit } { print } END { print 7 }
0 6 =6/ BEGIN { print 6 } END { print NR }
";

/// Whether a row of reads is right.
fn is_read_so<R: AllocGlobal + Threads + Wait>(rt: &R, row: &str) -> bool {
    let (reads, row) = first_number(row);
    let (answer, row) = first_number(row);
    let (output, text) = first_cell(row);
    let trial = Trial {
        reads,
        ..trial_of(text, output)
    };
    are_right(rt, trial, Wanted::Shown(answer))
}

// A read fails: all that was whole before it is written and handed on, and nothing else.
#[test]
fn a_read_of_a_feed_fails(rt: HostRuntime) {
    for row in READS.lines() {
        assert!(rt; is_read_so(&rt, row), "{row}");
    }
}

/// A program that writes in BEGIN, for each record and in END.
const FIVE: &str = "BEGIN { print 0 } { print $1 } END { print 4 }";

/// The same program, whose records are run one after the other.
const FIVE_IN_TURN: &str = "BEGIN { print 0 } NR == 1, 0 { print $1 } END { print 4 }";

/// How many bytes are taken, whether the next write then fails (1) or takes nothing (0), and the bytes.
const WRITES: &str = "\
0 1 =
1 1 =0
3 0 =0/1
4 1 =0/1/
7 0 =0/1/2/3
9 1 =0/1/2/3/4
";

/// Whether a row of writes is right for a text.
fn is_written_so<R: AllocGlobal + Threads + Wait>(rt: &R, text: &str, row: &str) -> bool {
    let (writes, row) = first_number(row);
    let (fails, output) = first_number(row);
    let limits = Limits {
        writes,
        flushes: 1000,
        fails: fails == 1,
    };
    let trial = Trial {
        limits,
        ..trial_of(text, output)
    };
    are_right(rt, trial, Wanted::Taken(writes))
}

// A write of a byte fails, or takes nothing: the bytes before it were taken, and no other.
#[test]
fn a_write_of_a_piece_fails(rt: HostRuntime) {
    for row in WRITES.lines() {
        assert!(rt; is_written_so(&rt, FIVE, row), "{row}");
        assert!(rt; is_written_so(&rt, FIVE_IN_TURN, row), "{row}");
    }
}

/// Whether a run of a text ends as it must where so many flushes succeed.
fn is_flushed_so<R: AllocGlobal + Threads + Wait>(rt: &R, text: &str, flushes: u64) -> bool {
    let limits = Limits {
        writes: 1000,
        flushes,
        fails: true,
    };
    let trial = Trial {
        limits,
        ..trial_of(text, "=0/1/2/3/4/")
    };
    are_right(rt, trial, Wanted::Unflushed)
}

// A flush fails: what BEGIN writes and each record of three is handed on, so that three flushes are too few.
#[test]
fn a_flush_of_a_piece_fails(rt: HostRuntime) {
    for flushes in 0..3 {
        assert!(rt; is_flushed_so(&rt, FIVE, flushes), "{flushes} flushes");
        assert!(rt;
            is_flushed_so(&rt, FIVE_IN_TURN, flushes),
            "{flushes} flushes"
        );
    }
}
