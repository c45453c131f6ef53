//! The law.

ghost use Rattle.pawk_merge_law.specs.Gathered.{ResultsFromLaw, ResultsLaw};

use crate::merge_law::chunks_merge;

/// The results of chunks, whose records are numbered on from those that came before, each chunk run over the
/// globals that those left, and their merge: where it succeeds, the chunks' records in order end with the
/// merged globals, the record state and the way of leaving, and their output is what was written before and
/// the merged one after it; it stops exactly where the records in order end in a fault or create an element of
/// an array that is no reader array. A law, which takes and leaves nothing.
///
/// POSIX.1-2017, awk, "Overall Program Structure".
pub fn results_merge_from()
    ensures { ResultsFromLaw }
{
    chunks_merge();
}

/// The results of the chunks of a plan, each chunk run over the globals that `BEGIN` left, and
/// their merge: where it succeeds, all records in order end with the merged globals, the record
/// state and the way of leaving, and their output is that of `BEGIN` and the merged one after it;
/// it stops exactly where the records in order end in a fault or create an element of an array that
/// is no reader array. A law, which takes and leaves nothing.
///
/// POSIX.1-2017, awk, "Overall Program Structure".
pub fn results_merge()
    ensures { ResultsLaw }
{
    results_merge_from();
}
