//! A block of a response.

ghost use Rattle.std.specs.Prelude.{◌≡◌, ◌+◌, ◌≤◌, ◌&&◌, true};
ghost use Rattle.browser_rules.specs.Configuration.{are_hex};
ghost use Rattle.exported_config.specs.Exported.{fits_width};

/// A block of a store: its first byte, how many bytes it has, and the hex digits of their value, the highest first.
#[derive(Clone, Copy)]
pub struct Block<'a> {
    pub offset: usize,
    pub width: usize,
    pub digits: &'a [u8],
    pub ghost value: { are_hex digits.now && fits_width width digits.now ≡ true },
    pub ghost inside: { offset + width ≤ 65536 },
}
