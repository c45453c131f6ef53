//! Words that have a meaning of their own.

ghost use Rattle.std.specs.Prelude.{◌≡◌, find};
ghost use Rattle.std.specs.List.{list_any};
ghost use Rattle.std.specs.Str.{bytes_eq};
ghost use Rattle.pawk_lex.specs.Vocabulary as spec;

use crate::token::{Builtin, Mark};

static RESERVED: [Mark; 18] = [
    Mark::Begin,
    Mark::End,
    Mark::Function,
    Mark::If,
    Mark::Else,
    Mark::While,
    Mark::For,
    Mark::Do,
    Mark::In,
    Mark::Break,
    Mark::Continue,
    Mark::Next,
    Mark::NextFile,
    Mark::Exit,
    Mark::Return,
    Mark::Delete,
    Mark::Print,
    Mark::Printf,
];

static BUILTINS: [Builtin; 11] = [
    Builtin::Length,
    Builtin::Index,
    Builtin::Substr,
    Builtin::Split,
    Builtin::Sub,
    Builtin::Gsub,
    Builtin::Match,
    Builtin::Sprintf,
    Builtin::Tolower,
    Builtin::Toupper,
    Builtin::Int,
];

/// The reserved word that is written so, if there is one.
#[tactic(auto, unfolding(crate::specs::Vocabulary::reserved_word))]
pub fn reserved_word(word: &[u8]) -> Option<Mark>
    ensures { result ≡ spec.reserved_word word.now }
{
    RESERVED.iter().copied().find(|mark| mark.text() == word)
}

/// The built-in function that has this name, if there is one.
#[tactic(auto, unfolding(crate::specs::Vocabulary::builtin))]
pub fn builtin(word: &[u8]) -> Option<Builtin>
    ensures { result ≡ spec.builtin word.now }
{
    BUILTINS
        .iter()
        .copied()
        .find(|function| function.name() == word)
}

/// Whether this is an arithmetic function of the standard that the language leaves out.
#[tactic(auto, unfolding(crate::specs::Vocabulary::is_left_out_arithmetic))]
fn is_left_out_arithmetic(word: &[u8]) -> bool
    ensures { result ≡ spec.is_left_out_arithmetic word.now }
{
    word == b"sin".as_slice()
        || word == b"cos".as_slice()
        || word == b"atan2".as_slice()
        || word == b"exp".as_slice()
        || word == b"log".as_slice()
        || word == b"sqrt".as_slice()
        || word == b"rand".as_slice()
        || word == b"srand".as_slice()
}

/// Whether this is an input or output function of the standard that the language leaves out.
#[tactic(auto, unfolding(crate::specs::Vocabulary::is_left_out_output))]
fn is_left_out_output(word: &[u8]) -> bool
    ensures { result ≡ spec.is_left_out_output word.now }
{
    word == b"system".as_slice() || word == b"close".as_slice() || word == b"fflush".as_slice()
}

/// Whether this is a variable of the standard that the language leaves out.
#[tactic(auto, unfolding(crate::specs::Vocabulary::is_left_out_variable))]
fn is_left_out_variable(word: &[u8]) -> bool
    ensures { result ≡ spec.is_left_out_variable word.now }
{
    word == b"ENVIRON".as_slice() || word == b"ARGC".as_slice() || word == b"ARGV".as_slice()
}

/// Whether this is a name of the standard that the language leaves out.
pub fn is_left_out(word: &[u8]) -> bool
    ensures { result ≡ spec.is_left_out word.now }
{
    is_left_out_arithmetic(word) || is_left_out_output(word) || is_left_out_variable(word)
}

/// Whether this is a variable of the language that a program may assign.
#[tactic(auto, unfolding(crate::specs::Vocabulary::is_assignable_variable))]
fn is_assignable_variable(word: &[u8]) -> bool
    ensures { result ≡ spec.is_assignable_variable word.now }
{
    word == b"RS".as_slice()
        || word == b"FS".as_slice()
        || word == b"OFS".as_slice()
        || word == b"ORS".as_slice()
        || word == b"SUBSEP".as_slice()
        || word == b"CONVFMT".as_slice()
        || word == b"OFMT".as_slice()
}

/// Whether this is a variable that the run of a program sets, and its text may not.
#[tactic(auto, unfolding(crate::specs::Vocabulary::is_run_variable))]
pub fn is_run_variable(word: &[u8]) -> bool
    ensures { result ≡ spec.is_run_variable word.now }
{
    word == b"NR".as_slice()
        || word == b"NF".as_slice()
        || word == b"FNR".as_slice()
        || word == b"FILENAME".as_slice()
        || word == b"RSTART".as_slice()
        || word == b"RLENGTH".as_slice()
}

/// Whether this is a variable of the language (POSIX.1-2017, awk, "Variables and Special
/// Variables", without those that are left out).
pub fn is_variable(word: &[u8]) -> bool
    ensures { result ≡ spec.is_variable word.now }
{
    is_assignable_variable(word) || is_run_variable(word)
}
