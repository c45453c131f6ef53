//! What a run over a shard leaves beside its table file.

/// What a run over a shard leaves beside its table file.
#[derive(Clone, Copy, Debug, PartialEq, Eq, Drop)]
pub struct Mapped {
    /// How many records the file tells of.
    pub records: u64,
    /// Whether records follow in the shard that were not read, since the last ones that the file tells of did not go through
    /// where they were run apart.
    pub is_left: bool,
}
