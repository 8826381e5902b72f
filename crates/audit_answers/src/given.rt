//! A package list that is given, or that there is none.

ghost use Rattle.std.specs.Prelude.{◌+◌, ◌<◌, ◌^◌, length};

use question_audit::Origin;

/// A package list that is given.
#[derive(Clone, Copy)]
pub struct GivenList<'a> {
    /// Its bytes.
    pub bytes: &'a [u8],
    /// Where they begin in the file.
    pub origin: Origin,
    ghost in_file: { origin.place + length bytes.now < 2 ^ 64 },
}

/// That a dump has no list of a number.
#[derive(Clone, Copy)]
pub struct NoList {
    /// The number.
    pub number: u64,
}
