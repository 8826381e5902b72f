//! What the byte of an opcode counts from.

/// The file that holds a package list.
#[derive(Clone, Copy, PartialEq, Eq)]
pub enum Holder {
    /// The list alone.
    List,
    /// A dump of lists.
    Dump,
}

/// A place in the file that is given, in bytes from its first one.
#[derive(Clone, Copy)]
pub struct Origin {
    /// What the file holds.
    pub holder: Holder,
    /// The place.
    pub place: u64,
}

impl Holder {
    ghost use Rattle.std.specs.Prelude.{◌≡◌};
    ghost use Rattle.question_audit.specs.Origins.{holder_text};

    // What a line calls the file.
    pub(crate) fn text(self) -> &'static [u8]
        ensures { result.now ≡ holder_text self }
    {
        match self {
            Holder::List => b" of the list",
            Holder::Dump => b" of the dump",
        }
    }
}
