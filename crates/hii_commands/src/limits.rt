//! How long lines and scripts may be.

/// The most bytes that a line may have, its CR counted and its LF not.
pub const LINE_LIMIT: usize = 4096;

/// The most bytes that a script may have.
pub const SCRIPT_LIMIT: u64 = 1_048_576;
