//! Texts, as the units of two bytes that a field holds.

ghost use Rattle.std.specs.Prelude.{◌≡◌, nat_le, if◌then◌else◌, option_map, length};
ghost use Rattle.std.specs.List.{list_any};
ghost use Rattle.hii_values.specs.Inputs.{is_text, is_bad_character};
ghost use Rattle.hii_values.specs.code.ItemsLeft.{items_left};

use crate::items::Items;
use std::str;

/// The text that bytes are in UTF-8, where each character is a unit other than 0.
pub(crate) fn text_of(bytes: &[u8]) -> Option<&str>
    ensures { option_map (λ text. text.now) result
        ≡ (if is_text bytes.now then Some bytes.now else None) }
{
    let Ok(text) = str::from_utf8(bytes) else {
        return None;
    };
    if has_bad_character(Items::Text(text)) {
        return None;
    }
    Some(text)
}

fn has_bad_character(items: Items<'_>) -> bool
    ensures { result ≡ list_any is_bad_character (items_left items.entry) }
{
    for item in items {
        if item == 0 || 0xffff < item {
            return true;
        }
    }
    false
}

/// How many items there are, where they are not more than `most`.
pub(crate) fn count_within(items: Items<'_>, most: u16) -> Option<u16>
    ensures { result ≡ (if nat_le (length (items_left items.entry)) most
        then Some (length (items_left items.entry)) else None) }
{
    let mut count = 0;
    for _item in items {
        if count == most {
            return None;
        }
        count += 1;
    }
    Some(count)
}
