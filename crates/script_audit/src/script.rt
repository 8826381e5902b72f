//! The bytes of a script.

ghost use Rattle.std.specs.Prelude.{◌≡◌, IfOk};
ghost use Rattle.script_audit.specs.Script as spec;

use std::alloc::{AllocError, Global};

/// Whether a script begins with a mark of UTF-16.
pub(crate) fn is_wide(script: &[u8]) -> bool
    ensures { result ≡ spec.is_wide script.now }
{
    script.starts_with(b"\xff\xfe") || script.starts_with(b"\xfe\xff")
}

/// Whether bytes begin with a byte order mark.
pub(crate) fn has_mark(script: &[u8]) -> bool
    ensures { result ≡ spec.has_mark script.now }
{
    script.starts_with(b"\xef\xbb\xbf")
}

/// A script without the byte order mark in front, where it has one.
pub(crate) fn without_mark(script: &[u8]) -> &[u8]
    ensures { result.now ≡ spec.without_mark script.now }
{
    if has_mark(script) {
        &script[3..]
    } else {
        script
    }
}

/// A copy of a script without its CRs.
pub(crate) fn without_returns(alloc: Global, script: &[u8]) -> Result<Vec<u8>, AllocError>
    ensures { IfOk result (λ text. text.items ≡ spec.without_returns script.now) }
{
    let mut text = Vec::new(alloc);
    let mut rest = script;
    while let [byte, behind @ ..] = rest {
        if *byte != b'\r' {
            text.push(*byte)?;
        }
        rest = behind;
    }
    Ok(text)
}
