//! Items of a program.

use crate::statement::StatementTree;
use crate::tree::{ExpressionTree, Name};

/// An item.
#[derive(Drop)]
pub enum ProgramItem {
    /// `BEGIN { .. }`
    Begin(Vec<StatementTree>),
    /// `END { .. }`
    End(Vec<StatementTree>),
    /// A rule without a pattern.
    Always(Vec<StatementTree>),
    /// A rule with a pattern.
    When(ExpressionTree, Vec<StatementTree>),
    /// A rule with a range of records.
    Range(ExpressionTree, ExpressionTree, Vec<StatementTree>),
    /// A function with its parameters.
    Function(Name, Vec<Name>, Vec<StatementTree>),
}
