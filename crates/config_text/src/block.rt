//! A block of a configuration text.

ghost use Rattle.std.specs.Prelude.{◌≡◌, ◌≤◌, ◌&&◌, true, length};
ghost use Rattle.config_text.specs.code.PartReading.{fits_width, are_hex};

use crate::digits::split_byte;

/// A block of a store (UEFI 2.8, 34.2.1 String Grammar): its first byte, how many bytes it has, at least 1, and the hex
/// digits of their value, the highest first, of which a request has none.
#[derive(Clone, Copy)]
pub struct Block<'a> {
    pub offset: u16,
    pub width: u16,
    pub digits: &'a [u8],
    pub ghost some: { 1 ≤ width },
    pub ghost value: { are_hex digits.now && fits_width width digits.now ≡ true },
}

impl<'a> Block<'a> {
    ghost use Rattle.std.specs.Str.Parse.{digits_value};
    ghost use Rattle.hii_bytes.specs.Numbers.{number_in};
    ghost use Rattle.std.specs.Prelude.{◌≡◌, length};

    /// Writes the value, the lowest byte first, into as many bytes as the block has. The value of no digits is 0.
    pub fn value_into(&self, out: &mut [u8])
        requires { length out.old ≡ self.now.width }
        ensures number { number_in out.new 0 self.now.width ≡ digits_value 16 self.now.digits.now }
        ensures sized { length out.new ≡ self.now.width }
    {
        let mut rest = self.digits;
        for byte in out.iter_mut() {
            let (low, higher) = split_byte(rest);
            *byte = low;
            rest = higher;
        }
    }
}
