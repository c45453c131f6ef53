//! What items mention.

ghost use Rattle.std.specs.Prelude.{◌≡◌, ◌++◌, OnOk, IfOk};
ghost use Rattle.pawk_syntax_tree.specs.Item.{part};
ghost use Rattle.pawk_syntax_check.specs.Mentions as spec;
ghost use Rattle.pawk_syntax_check.specs.Views.{seen};

use crate::mention::Mention;
use crate::statement::{body, value};
use pawk_syntax_tree::item::ProgramItem;
use std::alloc::{AllocError, Global};

/// Adds what an item mentions.
fn append<'t>(mentions: &mut Vec<Mention<'t>>, item: &'t ProgramItem) -> Result<(), AllocError>
    ensures { OnOk result (seen mentions.new ≡ seen mentions.old ++ spec.of_part (part item.now)) }
{
    match item {
        ProgramItem::Begin(a)
        | ProgramItem::End(a)
        | ProgramItem::Always(a)
        | ProgramItem::Function(_, _, a) => { body(mentions, false, a) }
        ProgramItem::When(e, a) => {
            value(mentions, e)?;
            body(mentions, false, a)
        }
        ProgramItem::Range(e, f, a) => {
            value(mentions, e)?;
            value(mentions, f)?;
            body(mentions, false, a)
        }
    }
}

/// What an item mentions; the head of a function is no mention.
pub fn mentions<'t>(alloc: Global, item: &'t ProgramItem) -> Result<Vec<Mention<'t>>, AllocError>
    ensures { IfOk result (λ v. seen v ≡ spec.of_part (part item.now)) }
{
    let mut mentions = Vec::new(alloc);
    append(&mut mentions, item)?;
    Ok(mentions)
}
