//! Settings.

ghost use Rattle.std.specs.Prelude.{◌≡◌, ◌&&◌, nat_le, map};
ghost use Rattle.pawk_syntax_tree.specs.Item.{part};
ghost use Rattle.pawk_settings.specs.Limits.{budget_limit};
ghost use Rattle.pawk_settings.specs.SettingsViews.{asked, is_refused_under, IsAnswer, AreReadings};

use crate::assignment::Assignment;
use crate::refusal::SettingsRefusal;
use pawk_syntax_check::functions::Functions;
use pawk_syntax_check::kinds::Kinds;
use pawk_syntax_tree::item::ProgramItem;
use std::alloc::Global;

/// The greatest budget.
pub const BUDGET_LIMIT: u64 = 1_000_000_000_000;

/// What a run is given beside its program: the variables that are assigned before it, in order, and
/// its budget.
#[derive(Drop)]
pub struct Settings {
    assignments: Vec<Assignment>,
    budget: u64,
}

/// The assignments, where all of them may be; of several faults the first is reported.
fn read_assignments<'t>(
    alloc: Global,
    kinds: &Kinds<'t>,
    functions: &Functions<'t>,
    assigned: &'t [(Vec<u8>, Vec<u8>)],
) -> Result<Vec<Assignment>, SettingsRefusal>
    ensures { AreReadings (is_refused_under kinds.now functions.now) (asked assigned.now) result }
{
    let mut assignments = Vec::new(alloc);
    for pair in assigned {
        let name = pair.0.as_slice();
        let value = pair.1.as_slice();
        assignments.push(Assignment::new(alloc, kinds, functions, name, value)?)?;
    }
    Ok(assignments)
}

/// Whether a budget is from 1 to the greatest.
fn is_budget(budget: u64) -> bool
    ensures { result ≡ (nat_le 1 budget && nat_le budget budget_limit) }
{
    1 <= budget && budget <= BUDGET_LIMIT
}

impl Settings {
    /// The settings of a run of a program with these items: assignments of values to names, as `-v`
    /// and `-F` give them, and a budget. The assignments are looked at in their order, and the first
    /// that is at fault is reported, by the first of its faults: `Name`, `Target`, `Escape`; `Budget` where
    /// no assignment is at fault, and `Memory` where memory was refused.
    pub fn new<'t>(
        alloc: Global,
        items: &'t [ProgramItem],
        assigned: &'t [(Vec<u8>, Vec<u8>)],
        budget: u64,
    ) -> Result<Settings, SettingsRefusal>
        ensures { IsAnswer (map part items.now) (asked assigned.now) budget result }
    {
        let functions = Functions::new(alloc, items)?;
        let kinds = Kinds::new(alloc, &functions, items)?;
        let assignments = read_assignments(alloc, &kinds, &functions, assigned)?;
        if !is_budget(budget) {
            return Err(SettingsRefusal::Budget);
        }
        Ok(Settings {
            assignments,
            budget,
        })
    }

    /// The assignments, in their order.
    pub fn assignments(&self) -> &[Assignment]
        ensures { result.now ≡ self.now.assignments.items }
    {
        self.assignments.as_slice()
    }

    /// The budget of steps that the settings give a run.
    pub fn budget(&self) -> u64
        ensures { result ≡ self.now.budget }
    {
        self.budget
    }
}
