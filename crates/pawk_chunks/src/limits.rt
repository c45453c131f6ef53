//! What the worker of a program with functions needs.

/// How many bytes a stack has on which functions are called: as much as 200 calls inside each other can need whose
/// statements and expressions are nested as deep as they may be. Only what is used takes memory.
pub const STACK_BYTES: usize = 134_217_728;
