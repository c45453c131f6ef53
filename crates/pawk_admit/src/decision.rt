//! Whether a reason holds, from what occurs in a text and from its tables.

ghost use Rattle.std.specs.Prelude.{◌≡◌, ℕ, false, true, IsTrue, IfSome, IfNone, Some, Contains};
ghost use Rattle.pawk_admit.specs.declared.occurrence.GlobalName.{GlobalName as NameOfText};
ghost use Rattle.pawk_admit.specs.declared.occurrence.Occurrence.{Occurrence as OccurrenceOfText};
ghost use Rattle.pawk_admit.specs.declared.reason.Reason.{Reason as ReasonOfText};
ghost use Rattle.pawk_admit.specs.Marks.{marks_at, AreTables};
ghost use Rattle.pawk_admit.specs.Admission.{Holds, IsFirst};
ghost use Rattle.pawk_admit.specs.Decisions as spec;

use crate::marks::{Marks, Tables};
use crate::occurrence::{Occurrence, Touch};
use crate::reason::Reason;
use pawk_code::slots::{FS, OFS, ORS, SUBSEP};

/// The reason that an occurrence alone shows, whatever else occurs in the text.
fn reason_of(occurrence: Occurrence) -> Option<Reason>
    ensures { result ≡ spec.reason_of occurrence }
{
    match occurrence {
        Occurrence::Touch(Touch::Assign | Touch::Delete, _) => Some(Reason::Assignment),
        Occurrence::Touch(Touch::AddAndLook, _) => Some(Reason::Value),
        Occurrence::Touch(Touch::Split, _) => Some(Reason::Split),
        Occurrence::Touch(Touch::Pass, _) => Some(Reason::Passing),
        Occurrence::Touch(_, _) | Occurrence::Call(_) => None,
        Occurrence::Match => Some(Reason::Match),
        Occurrence::Range => Some(Reason::Range),
        Occurrence::NextFile => Some(Reason::NextFile),
    }
}

/// Whether some occurrence alone shows the reason.
fn is_shown(list: &[Occurrence], reason: Reason) -> bool
    ensures yes { IsTrue result →
        (o : OccurrenceOfText) × Contains list.now o × (spec.reason_of o ≡ Some reason) }
    ensures no { result ≡ false →
        (o : OccurrenceOfText) → Contains list.now o → ¬ (spec.reason_of o ≡ Some reason) }
{
    for occurrence in list {
        if let Some(shown) = reason_of(*occurrence) {
            if shown == reason {
                return true;
            }
        }
    }
    false
}

/// Whether the run itself looks at the scalar of this slot, as at `FS`, `OFS`, `ORS` and `SUBSEP`.
fn separates(slot: usize) -> bool
    ensures { result ≡ spec.separates slot }
{
    slot == FS || slot == OFS || slot == ORS || slot == SUBSEP
}

/// Whether what is done with a name shows the reason; the name may be one that separates.
fn clashes(reason: Reason, marks: Marks, separates: bool) -> bool
    ensures { result ≡ spec.clashes reason marks separates }
{
    match reason {
        Reason::Assignment => {
            marks.sets && (marks.adds || marks.looks || marks.others || separates)
        }
        Reason::Addition => marks.adds && (marks.sets || marks.looks || marks.others || separates),
        Reason::Range
        | Reason::Match
        | Reason::Split
        | Reason::Passing
        | Reason::Value
        | Reason::Memory
        | Reason::NextFile => false,
    }
}

/// Whether what is done with some scalar shows the reason.
fn scalar_clashes(reason: Reason, table: &[Marks]) -> bool
    ensures yes { IsTrue result →
        (n : ℕ) × (spec.clashes reason (marks_at table.now n) (spec.separates n) ≡ true) }
    ensures no { result ≡ false →
        (n : ℕ) → spec.clashes reason (marks_at table.now n) (spec.separates n) ≡ false }
{
    for (slot, marks) in table.iter().enumerate() {
        if clashes(reason, *marks, separates(slot)) {
            return true;
        }
    }
    false
}

/// Whether what is done with some array shows the reason.
fn array_clashes(reason: Reason, table: &[Marks]) -> bool
    ensures yes { IsTrue result →
        (n : ℕ) × (spec.clashes reason (marks_at table.now n) false ≡ true) }
    ensures no { result ≡ false →
        (n : ℕ) → spec.clashes reason (marks_at table.now n) false ≡ false }
{
    for marks in table {
        if clashes(reason, *marks, false) {
            return true;
        }
    }
    false
}

/// Whether the reason holds of a text of which the tables are.
fn holds(list: &[Occurrence], tables: &Tables, reason: Reason) -> bool
    requires { AreTables list.now tables.now }
    ensures yes { IsTrue result → Holds (Contains list.now) reason }
    ensures no { result ≡ false → ¬ Holds (Contains list.now) reason }
{
    if is_shown(list, reason) {
        return true;
    }
    if scalar_clashes(reason, &tables.scalars) {
        return true;
    }
    array_clashes(reason, &tables.arrays)
}

/// The first reason that holds of a text of which the tables are, if there is one.
pub fn first_reason(list: &[Occurrence], tables: &Tables) -> Option<Reason>
    requires { AreTables list.now tables.now }
    ensures some { IfSome result (λ reason. IsFirst (Contains list.now) reason) }
    ensures none { IfNone result ((reason : ReasonOfText) →
        ¬ Holds (Contains list.now) reason) }
{
    if holds(list, tables, Reason::Assignment) {
        return Some(Reason::Assignment);
    }
    if holds(list, tables, Reason::Addition) {
        return Some(Reason::Addition);
    }
    if holds(list, tables, Reason::Range) {
        return Some(Reason::Range);
    }
    if holds(list, tables, Reason::Match) {
        return Some(Reason::Match);
    }
    if holds(list, tables, Reason::Split) {
        return Some(Reason::Split);
    }
    if holds(list, tables, Reason::Passing) {
        return Some(Reason::Passing);
    }
    if holds(list, tables, Reason::Value) {
        return Some(Reason::Value);
    }
    if holds(list, tables, Reason::NextFile) {
        return Some(Reason::NextFile);
    }
    None
}
