//! The global names of a program, in the order of their mentions.

ghost use Rattle.std.specs.Prelude.{◌≡◌, ◌++◌, ◌∷◌, [], OnOk, IfOk, MatchOption, map, filter, not};
ghost use Rattle.std.specs.List.{flat_map};
ghost use Rattle.pawk_lex.specs.Vocabulary.{is_among};
ghost use Rattle.pawk_syntax_tree.specs.Item.{part, texts as name_texts};
ghost use Rattle.pawk_syntax_check.specs.Views.{mention_view};
ghost use Rattle.pawk_resolve.specs.Tables.{texts};
ghost use Rattle.pawk_resolve.specs.ScopeViews.{table_names};
ghost use Rattle.pawk_resolve.specs.ResolvedPrograms as spec;

use pawk_resolve::table::NameTable;
use pawk_syntax_check::item::mentions;
use pawk_syntax_check::mention::Mention;
use pawk_syntax_parse::build::both;
use pawk_syntax_tree::item::ProgramItem;
use pawk_syntax_tree::tree::Name;
use std::alloc::{AllocError, Global};

/// These names, each with the place where it first occurs.
pub fn table_of<'t>(alloc: Global, names: &'t [Name]) -> Result<NameTable<'t>, AllocError>
    ensures { IfOk result (λ t. table_names t ≡ name_texts names.now) }
{
    let mut table = NameTable::new(alloc);
    for name in names {
        table.push(name.text.as_slice())?;
    }
    Ok(table)
}

/// The parameters of an item.
pub fn parameters<'t>(alloc: Global, item: &'t ProgramItem) -> Result<NameTable<'t>, AllocError>
    ensures { IfOk result (λ t. table_names t ≡ spec.parameters (part item.now)) }
{
    match item {
        ProgramItem::Function(_, names, _) => table_of(alloc, names),
        _ => Ok(NameTable::new(alloc)),
    }
}

/// The name that is mentioned as a variable.
fn mentioned<'t>(mention: Mention<'t>) -> Option<&'t Name>
    ensures { MatchOption result (spec.mentioned (mention_view mention.entry) ≡ [])
        (λ x. spec.mentioned (mention_view mention.entry) ≡ x.now.text.items ∷ []) }
{
    match mention {
        Mention::Array(x) | Mention::Scalar(x) | Mention::Target(x) | Mention::Argument(x, _, _) =>
            { Some(x) }
        _ => None,
    }
}

/// Adds the name that is mentioned as a variable, unless it is a parameter.
fn add_mention<'t>(
    names: &mut Vec<&'t [u8]>,
    parameters: &NameTable<'t>,
    mention: Mention<'t>,
) -> Result<(), AllocError>
    ensures { OnOk result (texts names.new.items ≡ texts names.old.items ++
        filter (λ x. not (is_among (table_names parameters.now) x))
        (spec.mentioned (mention_view mention.entry))) }
{
    if let Some(name) = mentioned(mention) {
        if parameters.place(name.text.as_slice()).is_none() {
            names.push(name.text.as_slice())?;
        }
    }
    Ok(())
}

/// Adds the names that are mentioned as variables, without parameters.
fn add_mentions<'t>(
    names: &mut Vec<&'t [u8]>,
    parameters: &NameTable<'t>,
    mentions: &[Mention<'t>],
) -> Result<(), AllocError>
    ensures { OnOk result (texts names.new.items ≡ texts names.old.items ++
        filter (λ x. not (is_among (table_names parameters.now) x))
        (flat_map spec.mentioned (map mention_view mentions.now))) }
{
    for mention in mentions {
        add_mention(names, parameters, *mention)?;
    }
    Ok(())
}

/// Adds the global names of an item.
fn add_item<'t>(
    names: &mut Vec<&'t [u8]>,
    alloc: Global,
    item: &'t ProgramItem,
) -> Result<(), AllocError>
    ensures { OnOk result (texts names.new.items ≡
        texts names.old.items ++ spec.global_names (part item.now)) }
{
    let (parameters, mentions) = both(parameters(alloc, item), mentions(alloc, item))?;
    add_mentions(names, &parameters, mentions.as_slice())
}

/// The global names of these items.
pub fn global_names<'t>(
    alloc: Global,
    items: &'t [ProgramItem],
) -> Result<Vec<&'t [u8]>, AllocError>
    ensures { IfOk result (λ v. texts v.items ≡ flat_map spec.global_names (map part items.now)) }
{
    let mut names = Vec::new(alloc);
    for item in items {
        add_item(&mut names, alloc, item)?;
    }
    Ok(names)
}
