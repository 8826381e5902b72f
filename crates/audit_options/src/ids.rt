//! Ids of questions and of stores, as they are given.

ghost use Rattle.std.specs.Prelude.{◌≡◌};
ghost use Rattle.audit_options.specs.Ids.{id_in};

/// The id that a text is, in decimal digits or behind `0x` in hex digits of either case, from 0 to 65535 (own rule).
pub(crate) fn id_in(text: &str) -> Option<u16>
    ensures { result ≡ id_in text.now }
{
    match text.strip_prefix("0x") {
        // Digits have no sign.
        Some(digits) if digits.starts_with('+') => None,
        Some(digits) => u16::from_str_radix(digits, 16).ok(),
        None => text.parse().ok(),
    }
}
