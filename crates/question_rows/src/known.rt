//! What rows look up of a form set.

use crate::decisions::Decisions;
use question_audit::StoreNames;
use std::collections::BTreeMap;

/// What rows look up of a form set, found once for all of them.
#[derive(Clone, Copy)]
pub struct Known<'t, 'a> {
    /// The stores.
    pub names: &'t StoreNames<'a>,
    /// The place of the first LOCKED directly in each scope.
    pub locks: &'t BTreeMap<u32, u32>,
    /// Which questions decide on which, where these are not too many to be kept.
    pub decisions: Option<&'t Decisions<'a>>,
}
