//! The parts of a text between its `&`.

ghost use Rattle.std.specs.Prelude.{◌≡◌, ◌∷◌, ◌≤◌, ◌<◌, false, IfSome, option_map, length};
ghost use Rattle.std.specs.List.{list_any};
ghost use Rattle.config_text.specs.code.Parts.{is_between, text_parts};
ghost use Rattle.config_text.specs.code.PartReading.{body_in, body_first};
ghost use Rattle.config_text.specs.code.Elements.{parts_behind};

use hii_bytes::first_place;

// The first part, and the rest from the `&` behind it on.
fn split_part(text: &[u8]) -> (&[u8], &[u8])
    ensures parts { text_parts text.now ≡ result.0.now ∷ parts_behind result.1.now }
    ensures fewer { length result.1.now ≤ length text.now }
{
    match first_place(text, b'&') {
        Some(end) => (&text[..end], &text[end..]),
        None => (text, &[]),
    }
}

// What stands behind a key, where a text begins with it.
fn body_of<'a>(text: &'a [u8], key: &[u8]) -> Option<&'a [u8]>
    ensures body { option_map (λ body. body.now) result ≡ body_in key.now text.now }
    ensures fewer { IfSome result (λ body. length body.now ≤ length text.now) }
{
    text.strip_prefix(key)
}

/// What stands behind the key of the first part of a text, if it has this key, and the rest from the `&` behind it on. The key has
/// no `&`.
pub(crate) fn split_first<'a>(text: &'a [u8], key: &[u8]) -> Option<(&'a [u8], &'a [u8])>
    requires { list_any is_between key.now ≡ false }
    ensures found { option_map (λ found. (found.0.now, parts_behind found.1.now)) result ≡ body_first key.now (text_parts text.now) }
    ensures fewer { IfSome result (λ found. length found.1.now ≤ length text.now) }
{
    let behind = body_of(text, key)?;
    let (body, rest) = split_part(behind);
    Some((body, rest))
}

/// The same for a part behind an `&`, if there is one.
pub(crate) fn split_next<'a>(text: &'a [u8], key: &[u8]) -> Option<(&'a [u8], &'a [u8])>
    requires { list_any is_between key.now ≡ false }
    ensures found { option_map (λ found. (found.0.now, parts_behind found.1.now)) result ≡ body_first key.now (parts_behind text.now) }
    ensures fewer { IfSome result (λ found. length found.1.now < length text.now) }
{
    if text.is_empty() {
        return None;
    }
    split_first(&text[1..], key)
}
