//! Records of a program that does not read `NR` may be numbered later.

ghost use Rattle.pawk_numbered.specs.Laws.{UnnumberedLaw, FromNoneLaw};

use pawk_store::law::Policy;

/// Records of a program whose rules and functions do not read `NR` may be numbered later: over any
/// world, with more records read before they end as without those, but that `NR` is greater by as
/// many. A law, which takes and leaves nothing.
///
/// POSIX.1-2017, awk, "Variables and Special Variables" (`NR`).
pub fn records_may_be_unnumbered<P: Policy>()
    ensures { (i : P.Setting) → UnnumberedLaw (P.calls i) }
{}

/// Records of a program whose rules and functions do not read `NR` may be numbered from none: over
/// any world, those that come after others leave what they leave where they are the first, with the
/// number of those others added to `NR`. A law, which takes and leaves nothing.
pub fn records_may_be_numbered_from_none<P: Policy>()
    ensures { (i : P.Setting) → FromNoneLaw (P.calls i) }
{}
