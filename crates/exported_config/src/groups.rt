//! Groups of hex digits.

ghost use Rattle.std.specs.Prelude.{◌≡◌, ◌<◌, ◌≤◌, IfOk, option_map};
ghost use Rattle.browser_rules.specs.Configuration as chapter;
ghost use Rattle.exported_config.specs.Exported.{groups};

use hii_bytes::number_of_digits;
use std::alloc::{AllocError, Global};

// Whether the text is hex digits.
pub(crate) fn are_hex(text: &[u8]) -> bool
    ensures { result ≡ chapter.are_hex text.now }
{
    text.iter().all(|byte| char::from(*byte).is_digit(16))
}

/// The numbers of groups of so many hex digits, at most four, where a text is whole groups.
pub(crate) fn groups(
    alloc: Global,
    size: usize,
    text: &[u8],
) -> Result<Option<Vec<u16>>, AllocError>
    requires some { 0 < size }
    requires few { size ≤ 4 }
    ensures { IfOk result (λ found. option_map (λ numbers. numbers.items) found ≡ groups size text.now) }
{
    if text.len() % size != 0 {
        return Ok(None);
    }
    let mut numbers = Vec::new(alloc);
    let mut rest = text;
    for _ in 0..text.len() / size {
        let (group, behind) = rest.split_at(size);
        let Some(number) = number_of_digits(group, 16, size) else {
            return Ok(None);
        };
        numbers.push(number as u16)?;
        rest = behind;
    }
    Ok(Some(numbers))
}
