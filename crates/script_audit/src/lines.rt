//! The lines of a text.

ghost use Rattle.std.specs.Prelude.{◌≡◌, ◌+◌, ◌≤◌, ◌∷◌, [], MatchOption, length, option_map};
ghost use Rattle.script_audit.specs.Script as spec;

use hii_bytes::first_place;

/// A line without its LF, and what stands behind it, where an LF ends it.
#[derive(Clone, Copy)]
pub(crate) struct Cut<'t> {
    pub(crate) line: &'t [u8],
    pub(crate) behind: Option<&'t [u8]>,
}

/// The first line of a text.
pub(crate) fn cut_line(text: &[u8]) -> Cut<'_>
    ensures lines { MatchOption result.behind (spec.all_lines text.now ≡ result.line.now ∷ [])
        (λ behind. (spec.all_lines text.now ≡ result.line.now ∷ spec.all_lines behind.now)
        × (length behind.now + 1 ≤ length text.now)) }
{
    match first_place(text, b'\n') {
        Some(end) => Cut {
            line: &text[..end],
            behind: Some(&text[end + 1..]),
        },
        None => Cut {
            line: text,
            behind: None,
        },
    }
}

/// Whether a line is empty, or begins with a number sign.
pub(crate) fn is_passed_over(line: &[u8]) -> bool
    ensures { result ≡ spec.is_passed_over line.now }
{
    match line.first() {
        Some(byte) => *byte == b'#',
        None => true,
    }
}
