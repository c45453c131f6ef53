//! What to write in place of names that the language leaves out: the number 11.

use crate::note::Words;

/// Whether this is a function that ends or forces output.
fn is_output(name: &[u8]) -> bool {
    name == b"close".as_slice() || name == b"fflush".as_slice()
}

/// Whether this is a function of random numbers that is left out.
fn is_random(name: &[u8]) -> bool {
    name == b"rand".as_slice() || name == b"srand".as_slice()
}

/// What to write in place of a name.
pub(crate) fn advice_of(name: &[u8]) -> &'static str {
    if name == b"ENVIRON".as_slice() {
        "give a variable of the environment by -v: -v name=\"$NAME\""
    } else if name == b"ARGV".as_slice() || name == b"ARGC".as_slice() {
        "operands are files; give other values by -v: -v name=value"
    } else if is_output(name) {
        "leave it out: all output goes to standard output"
    } else if name == b"system".as_slice() {
        "let the shell run commands, over what pawk writes: pawk '..' file | sh"
    } else if is_random(name) {
        "give a seed by -v seed=\"$RANDOM\", and count on: seed = (seed * 1103515245 + 12345) % 2147483648"
    } else {
        "pawk counts in whole numbers, and has nothing in its place"
    }
}

/// 11: a name of the standard that the language leaves out.
pub(crate) fn words_of_left_out(name: &[u8]) -> Words {
    Words {
        what: "@ is left out of the language",
        advice: advice_of(name),
    }
}
