//! How a list is told.

use crate::lacks::Lacks;
use audit_json::Telling;
use hii_bytes::Watched;
use opcode_audit::FirstStrings;

/// How what is found of a forms package is told.
#[derive(Clone, Copy)]
pub(crate) struct Setting<'s, 'a> {
    pub telling: Telling,
    pub strings: &'s FirstStrings<'a>,
    pub lacks: &'s Lacks<'a>,
    /// The offset of the forms package in the file that was given.
    pub base: u64,
}
