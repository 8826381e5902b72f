//! How much is told of a question.

/// How much is told of a question.
#[derive(Clone, Copy)]
pub enum Detail {
    /// It is told alone: all that is known of it.
    Alone,
    /// It is listed with the others of its form set: its guards by their places, and neither rules nor dependences.
    Listed,
}
