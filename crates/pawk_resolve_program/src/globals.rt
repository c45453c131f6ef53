//! The tables of a program's names.

ghost use Rattle.std.specs.Prelude.{◌≡◌, ◌++◌, [], OnOk, IfOk, map, filter};
ghost use Rattle.std.specs.List.{flat_map};
ghost use Rattle.pawk_syntax_tree.specs.Item.{part};
ghost use Rattle.pawk_syntax_check.specs.Demands.{KindsFit, AreKindsOf};
ghost use Rattle.pawk_syntax_check.specs.KindViews.{kinds_in};
ghost use Rattle.pawk_code.specs.FirstSlots.{first_scalars};
ghost use Rattle.pawk_resolve.specs.Slots.{with_texts, distinct};
ghost use Rattle.pawk_resolve.specs.Tables.{texts as seen_texts};
ghost use Rattle.pawk_resolve.specs.ScopeViews.{table_names, globals_view};
ghost use Rattle.pawk_resolve.specs.ResolvedPrograms as spec;

use crate::names::global_names;
use pawk_lex::vocabulary::is_run_variable;
use pawk_resolve::scope::GlobalNames;
use pawk_resolve::table::NameTable;
use pawk_syntax_check::functions::Functions;
use pawk_syntax_check::kinds::Kinds;
use pawk_syntax_parse::build::both;
use pawk_syntax_tree::item::ProgramItem;
use std::alloc::{AllocError, Global};

/// Adds the scalars of the language that a program may assign to a table that holds no names.
fn add_fixed_scalars(table: &mut NameTable<'_>) -> Result<(), AllocError>
    requires { table_names table.old ≡ [] }
    ensures { OnOk result (table_names table.new ≡ first_scalars) }
{
    table.push(b"FS")?;
    table.push(b"OFS")?;
    table.push(b"ORS")?;
    table.push(b"RS")?;
    table.push(b"SUBSEP")?;
    table.push(b"CONVFMT")?;
    table.push(b"OFMT")
}

/// The scalars of the language that a program may assign.
fn fixed_scalars<'t>(alloc: Global) -> Result<NameTable<'t>, AllocError>
    ensures { IfOk result (λ t. table_names t ≡ first_scalars) }
{
    let mut table = NameTable::new(alloc);
    add_fixed_scalars(&mut table)?;
    Ok(table)
}

/// The global scalars among these names, after those of the language.
fn scalars<'t>(
    alloc: Global,
    kinds: &Kinds<'t>,
    names: &[&'t [u8]],
) -> Result<NameTable<'t>, AllocError>
    ensures { IfOk result (λ t. table_names t ≡ with_texts first_scalars
        (filter (spec.is_global_scalar (kinds_in kinds.now)) (seen_texts names.now))) }
{
    let mut table = fixed_scalars(alloc)?;
    for name in names {
        if !kinds.is_array(0, name) && !is_run_variable(name) {
            table.add(name)?;
        }
    }
    Ok(table)
}

/// The global arrays among these names.
fn arrays<'t>(
    alloc: Global,
    kinds: &Kinds<'t>,
    names: &[&'t [u8]],
) -> Result<NameTable<'t>, AllocError>
    ensures { IfOk result (λ t. table_names t ≡ distinct
        (filter (spec.is_global_array (kinds_in kinds.now)) (seen_texts names.now))) }
{
    let mut table = NameTable::new(alloc);
    for name in names {
        if kinds.is_array(0, name) {
            table.add(name)?;
        }
    }
    Ok(table)
}

/// The functions of a program.
fn functions<'t>(alloc: Global, items: &'t [ProgramItem]) -> Result<NameTable<'t>, AllocError>
    ensures { IfOk result (λ t. table_names t ≡ flat_map spec.function_name (map part items.now)) }
{
    let mut table = NameTable::new(alloc);
    for item in items {
        if let ProgramItem::Function(name, _, _) = item {
            table.push(name.text.as_slice())?;
        }
    }
    Ok(table)
}

/// Different texts.
fn different<'t>(alloc: Global, texts: &'t [Vec<u8>]) -> Result<NameTable<'t>, AllocError>
    ensures { IfOk result (λ t. table_names t ≡ distinct (map (λ x. x.items) texts.now)) }
{
    let mut table = NameTable::new(alloc);
    for text in texts {
        table.add(text.as_slice())?;
    }
    Ok(table)
}

/// The global scalars and the global arrays of a program whose names have these kinds.
fn variables<'t>(
    alloc: Global,
    kinds: &Kinds<'t>,
    items: &'t [ProgramItem],
) -> Result<(NameTable<'t>, NameTable<'t>), AllocError>
    ensures scalars { IfOk result (λ both. table_names both.0 ≡
        spec.scalar_names (kinds_in kinds.now) (map part items.now)) }
    ensures arrays { IfOk result (λ both. table_names both.1 ≡
        spec.array_names (kinds_in kinds.now) (map part items.now)) }
{
    let names = global_names(alloc, items)?;
    let scalars = scalars(alloc, kinds, names.as_slice());
    both(scalars, arrays(alloc, kinds, names.as_slice()))
}

/// The kinds of the names of a program.
fn kinds<'t>(alloc: Global, items: &'t [ProgramItem]) -> Result<Kinds<'t>, AllocError>
    ensures { IfOk result (λ k.
        KindsFit (map part items.now) → AreKindsOf (map part items.now) (kinds_in k)) }
{
    let functions = Functions::new(alloc, items)?;
    Kinds::new(alloc, &functions, items)
}

/// The names of a program with these texts between its slashes.
pub fn globals_of<'t>(
    alloc: Global,
    items: &'t [ProgramItem],
    texts: &'t [Vec<u8>],
) -> Result<GlobalNames<'t>, AllocError>
    ensures kinds { IfOk result (λ g.
        KindsFit (map part items.now) → AreKindsOf (map part items.now) (kinds_in g.kinds)) }
    ensures names { IfOk result (λ g. globals_view g ≡
        spec.globals_of (kinds_in g.kinds) (map (λ x. x.items) texts.now) (map part items.now)) }
{
    let kinds = kinds(alloc, items)?;
    let variables = variables(alloc, &kinds, items);
    let others = both(functions(alloc, items), different(alloc, texts));
    let (kinds, (variables, others)) = both(Ok(kinds), both(variables, others))?;
    let (scalars, arrays) = variables;
    let (functions, expressions) = others;
    Ok(GlobalNames {
        kinds,
        scalars,
        arrays,
        functions,
        expressions,
    })
}
