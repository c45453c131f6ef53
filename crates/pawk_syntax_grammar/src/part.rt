//! Items with what is known of them.

use pawk_syntax_tree::item::ProgramItem;

/// An item, and whether it ends with an action.
#[derive(Drop)]
pub struct ProgramPart {
    pub item: ProgramItem,
    pub closes: bool,
}
