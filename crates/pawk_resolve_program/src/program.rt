//! The code of programs.

ghost use Rattle.std.specs.Prelude.{◌≡◌, IfOk, map};
ghost use Rattle.pawk_syntax_tree.specs.Item.{part};
ghost use Rattle.pawk_syntax.specs.Programs.{parts};
ghost use Rattle.pawk_code.specs.ProgramViews.{code_view};
ghost use Rattle.pawk_resolve.specs.Tables.{texts as seen_texts};
ghost use Rattle.pawk_resolve.specs.ScopeViews.{globals_view};
ghost use Rattle.pawk_resolve.specs.ResolvedPrograms as spec;
ghost use Rattle.pawk_resolve_program.specs.Codes.{IsCodeOf};

use crate::actions::{actions_of, functions};
use crate::globals::globals_of;
use crate::vectors::push_result;
use pawk_code::program::Code;
use pawk_resolve::scope::GlobalNames;
use pawk_syntax::Program;
use pawk_syntax_tree::item::ProgramItem;
use std::alloc::{AllocError, Global};

/// The texts of a table, copied.
fn copied(alloc: Global, texts: &[&[u8]]) -> Result<Vec<Vec<u8>>, AllocError>
    ensures { IfOk result (λ v. map (λ x. x.items) v.items ≡ seen_texts texts.now) }
{
    let mut all = Vec::new(alloc);
    for text in texts {
        push_result(&mut all, Vec::from_slice(alloc, text))?;
    }
    Ok(all)
}

/// The names of the global scalars and arrays.
fn names(
    alloc: Global,
    globals: &GlobalNames<'_>,
) -> Result<(Vec<Vec<u8>>, Vec<Vec<u8>>), AllocError>
    ensures scalars { IfOk result (λ both. map (λ x. x.items) both.0.items ≡
        (globals_view globals.now).scalars) }
    ensures arrays { IfOk result (λ both. map (λ x. x.items) both.1.items ≡
        (globals_view globals.now).arrays) }
{
    let scalars = copied(alloc, globals.scalars.names.as_slice())?;
    let arrays = copied(alloc, globals.arrays.names.as_slice())?;
    Ok((scalars, arrays))
}

/// The code of items whose names are given.
fn code<'t>(
    alloc: Global,
    globals: &GlobalNames<'t>,
    items: &'t [ProgramItem],
) -> Result<Code, AllocError>
    ensures { IfOk result (λ c. code_view c ≡
        spec.resolved_items (globals_view globals.now) (map part items.now)) }
{
    let expressions = copied(alloc, globals.expressions.names.as_slice())?;
    let (scalars, arrays) = names(alloc, globals)?;
    let functions = functions(globals, alloc, items)?;
    let actions = actions_of(globals, alloc, items)?;
    Ok(Code {
        begins: actions.begins,
        rules: actions.rules,
        ends: actions.ends,
        functions,
        scalars,
        arrays,
        expressions,
    })
}

/// The code of a program. It is refused only where an allocation is refused.
pub fn resolve(alloc: Global, program: &Program) -> Result<Code, AllocError>
    ensures { IfOk result (λ c. IsCodeOf (parts program.now) (code_view c)) }
{
    let items = program.tree();
    let globals = globals_of(alloc, items, program.expressions())?;
    code(alloc, &globals, items)
}
