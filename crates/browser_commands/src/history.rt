//! The forms that references have led away from.

use arrayvec::ArrayVec;

/// The most forms that the history holds (own rule).
pub(crate) const HISTORY_LIMIT: usize = 32;

/// The places of the forms that references have led away from, in bytes from the package's header, the oldest first.
pub(crate) type History = ArrayVec<u32, HISTORY_LIMIT>;
