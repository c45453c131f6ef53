//! What stays the same from table to table.

use pawk_map::Setting;
use pawk_records::Separator;
use pawk_tables::Shape;

/// What stays the same from table to table.
#[derive(Clone, Copy)]
pub(crate) struct JoinSetting<'p> {
    /// What each part begins with.
    pub(crate) setting: Setting<'p>,
    /// The bytes of `RS`, at most one.
    pub(crate) rs: &'p [u8],
    /// What ends a record.
    pub(crate) separator: Separator,
    /// Of which globals the tables are.
    pub(crate) shape: Shape,
    /// How many records come before the first table.
    pub(crate) before: u64,
}
