//! Where guards stand, as the index keeps them.

/// Where a guard stands, in bytes from the package's header, and the id of the question in whose scope it stands, or 0.
#[derive(Clone, Copy, Default)]
pub struct GuardPlace {
    pub place: u32,
    pub this: u16,
}
