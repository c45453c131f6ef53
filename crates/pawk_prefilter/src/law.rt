//! The law by which records are passed over.

ghost use Rattle.pawk_prefilter.specs.Needs.{PassLaw};

use pawk_world::World;

/// Records that no rule is for may be passed over unread: those that hold none of the words of
/// which every rule needs one, where another record follows, FS is one byte and no range has begun.
/// NR counts them, and RSTART and RLENGTH are as the rules would leave them. A law, which takes and
/// leaves nothing.
///
/// POSIX.1-2017, awk, "Patterns" and "Overall Program Structure".
pub fn pass_law<W: World>()
    ensures { PassLaw W.calls }
{}
