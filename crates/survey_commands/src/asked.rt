//! What is asked of all forms packages of a dump.

use audit_json::Telling;
use audit_options::SurveyOptions;

/// What is asked of all forms packages of a dump.
#[derive(Drop)]
pub(crate) struct Asked<'s, 'o, F> {
    pub telling: Telling,
    /// The files.
    pub files: &'s F,
    /// Where the bytes of stores come from, and the language of texts.
    pub options: &'s SurveyOptions<'o>,
    /// The configuration text, which has no fault.
    pub text: &'s [u8],
    /// Small letters by which questions are found.
    pub letters: Option<&'s [char]>,
}
