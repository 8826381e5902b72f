//! Which string package is chosen.

/// The number of a string package, counted from 0 in the order of the list, or none.
#[derive(Clone, Copy, PartialEq, Eq)]
pub struct Choice {
    pub(crate) number: Option<usize>,
}
