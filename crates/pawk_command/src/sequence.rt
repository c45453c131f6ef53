//! Which shards tables are of, in their order.

use crate::table_failure::TableFailure;
use pawk_tables::Shard;

/// Whether these can be shards: the first is not after the last, which is one of them.
pub fn are_shards(shard: Shard) -> bool {
    shard.first <= shard.last && shard.last <= shard.of
}

/// Which shards have come.
#[derive(Clone, Copy)]
pub struct Sequence {
    /// The number of the first shard of the table that came last; 0 before the first table.
    first: u64,
    /// The number of the shard that came last; 0 before the first table.
    last: u64,
    /// How many shards there are, where a table said so.
    of: Option<u64>,
}

impl Sequence {
    /// None have come, and the first one is to be the first of all.
    pub const NONE: Sequence = Sequence {
        first: 0,
        last: 0,
        of: None,
    };

    /// None have come, and the first one is to be the first of these; or the first of all, where a table does not say.
    pub fn before(shard: Option<Shard>) -> Sequence {
        match shard {
            Some(shard) => Sequence {
                first: 0,
                last: shard.first.saturating_sub(1),
                of: Some(shard.of),
            },
            None => Sequence::NONE,
        }
    }

    /// The number of the first shard of the table that came last.
    pub fn first(self) -> u64 {
        self.first
    }

    /// The shards with those of a table, or why they are not the next ones.
    pub fn with(self, shard: Option<Shard>) -> Result<Sequence, TableFailure<'static>> {
        let next = self.last.saturating_add(1);
        let Some(shard) = shard else {
            return Ok(Sequence {
                first: next,
                last: next,
                of: self.of,
            });
        };
        if self.first <= shard.first && shard.first <= self.last {
            return Err(TableFailure::Twice(shard.first));
        }
        if shard.first < self.first || self.of.is_some_and(|of| of != shard.of) {
            return Err(TableFailure::OutOfOrder(shard.first));
        }
        if shard.first > next {
            return Err(TableFailure::Missing(next));
        }
        Ok(Sequence {
            first: shard.first,
            last: shard.last,
            of: Some(shard.of),
        })
    }

    /// Why these are not all shards, if they are not.
    pub fn lack(self) -> Option<TableFailure<'static>> {
        match self.of {
            Some(of) if self.last < of => Some(TableFailure::Missing(self.last.saturating_add(1))),
            _ => None,
        }
    }
    /// Which shards have come from this one on, where a table said how many there are.
    ///
    /// The failure comes where there are more.
    pub fn shards_from(self, first: u64) -> Result<Option<Shard>, TableFailure<'static>> {
        let Some(of) = self.of else {
            return Ok(None);
        };
        let shard = Shard {
            first,
            last: self.last,
            of,
        };
        if are_shards(shard) {
            Ok(Some(shard))
        } else {
            Err(TableFailure::OutOfOrder(self.last))
        }
    }
}
