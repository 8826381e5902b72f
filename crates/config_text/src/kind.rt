//! The two kinds of configuration texts.

/// Whether the blocks of a text ask for values or tell them.
#[derive(Clone, Copy, PartialEq, Eq)]
pub(crate) enum TextKind {
    /// A request: its blocks have no value.
    Ask,
    /// A response: each block has a value.
    Tell,
}
