//! The code of all items.

ghost use Rattle.std.specs.Prelude.{◌≡◌, IfOk, map};
ghost use Rattle.std.specs.List.{flat_map};
ghost use Rattle.pawk_syntax_tree.specs.Item.{part};
ghost use Rattle.pawk_code.specs.ProgramViews.{body_view, rule_view, function_view};
ghost use Rattle.pawk_resolve.specs.ScopeViews.{globals_view};
ghost use Rattle.pawk_resolve.specs.ResolvedPrograms as spec;

use crate::items::{Actions, add_action, function_of};
use crate::vectors::add;
use pawk_code::program::Function;
use pawk_resolve::scope::GlobalNames;
use pawk_syntax_tree::item::ProgramItem;
use std::alloc::{AllocError, Global};

/// The code of the functions of a program, in the order of its items.
pub fn functions<'t>(
    globals: &GlobalNames<'t>,
    alloc: Global,
    items: &'t [ProgramItem],
) -> Result<Vec<Function>, AllocError>
    ensures { IfOk result (λ v. map function_view v.items ≡
        spec.functions_from (globals_view globals.now) 1 (map part items.now)) }
{
    let mut all = Vec::new(alloc);
    for (index, item) in items.iter().enumerate() {
        let new = function_of(globals, alloc, index + 1, item)?;
        add(&mut all, new)?;
    }
    Ok(all)
}

/// What runs before, on and after the records.
pub fn actions_of<'t>(
    globals: &GlobalNames<'t>,
    alloc: Global,
    items: &'t [ProgramItem],
) -> Result<Actions, AllocError>
    ensures begins { IfOk result (λ a. map body_view a.begins.items ≡
        flat_map (spec.begin_of (globals_view globals.now)) (map part items.now)) }
    ensures rules { IfOk result (λ a. map rule_view a.rules.items ≡
        flat_map (spec.rule_of (globals_view globals.now)) (map part items.now)) }
    ensures ends { IfOk result (λ a. map body_view a.ends.items ≡
        flat_map (spec.end_of (globals_view globals.now)) (map part items.now)) }
{
    let mut actions = Actions {
        begins: Vec::new(alloc),
        rules: Vec::new(alloc),
        ends: Vec::new(alloc),
    };
    for item in items {
        add_action(&mut actions, globals, alloc, item)?;
    }
    Ok(actions)
}
