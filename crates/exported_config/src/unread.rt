//! Why a text is not read.

ghost use Rattle.std.specs.Prelude.{◌≡◌};

use std::alloc::{AllocError, AllocFailed};

/// What is bad in a response.
#[derive(Clone, Copy, PartialEq, Eq)]
pub enum Part {
    /// Its GUID is not 32 hex digits.
    Guid,
    /// Its name is not groups of four hex digits, stands twice, or is missing where a block begins.
    Name,
    /// An offset is not 1 to 16 hex digits.
    Offset,
    /// A width is not 1 to 16 hex digits, or stands behind no offset.
    Width,
    /// A value is no hex digits, is wider than its block, stands behind no width, or its block ends above 65,536 bytes.
    Value,
    /// An element stands before the first GUID.
    NoGuid,
    /// A block has no value.
    NoValue,
}

/// A response with a fault: its number from 1 on, and what is bad.
#[derive(Clone, Copy)]
pub struct BadResponse {
    pub number: usize,
    pub part: Part,
}

/// Why a text is not read.
#[derive(Clone, Copy)]
pub enum Unread {
    /// A response has a fault.
    Bad(BadResponse),
    /// An allocation failed.
    NoMemory,
}

impl From<AllocError> for Unread {
    ghost use Rattle.exported_config.specs.declared.unread.Unread.TheVariants.{NoMemory};

    ghost from_gives = { λ _ unread. unread ≡ NoMemory };

    fn from(_failed: AllocError) -> Unread {
        Unread::NoMemory
    }
}

impl<T: Drop> From<AllocFailed<T>> for Unread {
    ghost use Rattle.exported_config.specs.declared.unread.Unread.TheVariants.{NoMemory};

    ghost from_gives = { λ _ unread. unread ≡ NoMemory };

    fn from(_failed: AllocFailed<T>) -> Unread {
        Unread::NoMemory
    }
}
