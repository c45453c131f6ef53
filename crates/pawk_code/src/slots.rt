//! The slots of the variables that a program may assign: the first ones, the same in every program.
//!
//! POSIX.1-2017, awk, "Variables and Special Variables".

/// The slot of `FS`, which separates fields.
pub const FS: usize = 0;

/// The slot of `OFS`, which `print` writes between its operands.
pub const OFS: usize = 1;

/// The slot of `ORS`, which `print` writes after them.
pub const ORS: usize = 2;

/// The slot of `RS`, which ends records.
pub const RS: usize = 3;

/// The slot of `SUBSEP`, which separates the parts of a key.
pub const SUBSEP: usize = 4;
