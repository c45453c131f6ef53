//! Laws of joins.

ghost use Rattle.pawk_merge.specs.JoinLaws.{ExtremesLaw, JoinLaw, OneJoinLaw, TakesLaw};

/// A join of globals has in each cell what that cell had, joined to what was noted of it.
pub fn join_law()
    ensures { JoinLaw }
{}

/// Globals that have that in each cell are the join.
pub fn one_join_law()
    ensures { OneJoinLaw }
{}

/// All cells take what was noted exactly where each cell does.
pub fn takes_law()
    ensures { TakesLaw }
{}

/// Where the sum of all amounts lies between the least and the greatest sum on the way, these two decide.
pub fn extremes_law()
    ensures { ExtremesLaw }
{}
