//! Lists of the ranges of fields between the matches of an expression.

ghost use Rattle.std.specs.Prelude.{◌≡◌, ◌≤◌, ℕ, List, take, vec_len, IfErr, OnErr, OnOk};
ghost use Rattle.pawk_fields.specs.FieldWalks.{AddsLeft, NeedsFinder};
ghost use Rattle.pawk_fields.specs.FieldsOf.{AddsBetween, TellsNone};

use crate::finder::Finder;
use crate::walk::FieldWalk;
use pawk_value::Stop;
use std::ops::Range;

/// Adds the ranges of the fields that are left of a walk. After an `Err` some of them may already be
/// after those that were there.
fn push_ranges<F: Finder>(
    finder: &mut F,
    ranges: &mut Vec<Range<usize>>,
    mut fields: FieldWalk<'_>,
) -> Result<(), Stop>
    requires ready { NeedsFinder fields → F.answers_for finder.old fields.pattern }
    ensures added { OnOk result (AddsLeft fields.entry ranges.old.items ranges.new.items) }
    ensures front { take (vec_len ranges.old) ranges.new.items ≡ ranges.old.items }
    ensures long { vec_len ranges.old ≤ vec_len ranges.new }
    ensures fault { IfErr result (TellsNone fields.entry.pattern) }
    ensures finder { finder.new ≡ finder.old }
{
    let mut misses = finder.no_misses();
    while let Some(field) = fields.next_range(finder, &mut misses)? {
        ranges.push(field)?;
    }
    Ok(())
}

/// Appends the ranges of a record's fields between the matches, that are not empty, of the
/// expression that `pattern` spells, in paragraph mode also between newlines: each a begin and an
/// end, in bytes counted from 0. An empty record has none. The finder answers for the expression.
///
/// Fault `ere` where the pattern spells no expression. After an `Err` the list is as before.
///
/// POSIX.1-2017, awk, "Variables and Special Variables" (`FS`) and "String Functions" (`split`).
pub fn append_between<F: Finder>(
    finder: &mut F,
    ranges: &mut Vec<Range<usize>>,
    text: &[u8],
    pattern: &[u8],
    paragraph: bool,
) -> Result<(), Stop>
    requires ready { F.answers_for finder.old pattern.now }
    ensures added { OnOk result
        (AddsBetween pattern.now paragraph text.now ranges.old.items ranges.new.items) }
    ensures refused { OnErr result (ranges.new.items ≡ ranges.old.items) }
    ensures fault { IfErr result (TellsNone pattern.now) }
    ensures finder { finder.new ≡ finder.old }
{
    let length = ranges.len();
    let fields = FieldWalk::between(text, pattern, paragraph);
    let answer = push_ranges(finder, ranges, fields);
    if answer.is_err() {
        ranges.truncate(length);
    }
    answer
}
