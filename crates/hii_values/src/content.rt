//! The bytes of a field.

ghost use Rattle.std.specs.Prelude.{◌≡◌, ◌+◌, ◌≤◌, ◌++◌, true, length, take};
ghost use Rattle.byteorder.specs.Endian.{little_bytes};
ghost use Rattle.hii_values.specs.code.Widths.{is_width};
ghost use Rattle.hii_values.specs.Items.{filled};

use crate::items::Items;
use byteorder::{ByteOrder, LittleEndian};

/// What a field is to hold: items of `width` bytes each, and zeros behind them.
#[derive(Clone, Copy)]
pub struct Content<'i> {
    /// The items.
    pub items: Items<'i>,
    pub(crate) width: usize,
    pub(crate) ghost wide: { is_width width ≡ true },
}

impl<'i> Content<'i> {
    ghost use Rattle.hii_values.specs.code.Contents.{content_bytes};

    /// Writes it over all of some bytes.
    #[inline(always)]
    pub fn write(self, into: &mut [u8])
        requires { length (content_bytes self) ≤ length into.old }
        ensures { into.new ≡ filled (length into.old) (content_bytes self.entry) }
    {
        if let Items::Number(Some(number)) = self.items {
            write_number(into, number, self.width);
            return;
        }
        let mut end = 0;
        for item in self.items {
            write_item(into, end, item, self.width);
            end += self.width;
        }
        into[end..].fill(0);
    }
}

// Writes a number of `width` bytes at an offset.
#[inline(always)]
fn write_item(into: &mut [u8], at: usize, item: u64, width: usize)
    requires wide { width ≤ 8 }
    requires within { at + width ≤ length into.old }
    ensures { take (at + width) into.new ≡ take at into.old ++ little_bytes width item }
{
    let mut bytes = [0; 8];
    LittleEndian::write_u64(&mut bytes, item);
    // A copy of so many bytes as are known is no call.
    match width {
        1 => into[at] = bytes[0],
        2 => write_front(into, at, &bytes, 2),
        4 => write_front(into, at, &bytes, 4),
        _ => write_front(into, at, &bytes, width),
    }
}

// Writes the first `width` of some bytes at an offset.
#[inline(always)]
fn write_front(into: &mut [u8], at: usize, bytes: &[u8], width: usize)
    requires front { width ≤ length bytes.now }
    requires within { at + width ≤ length into.old }
    ensures { take (at + width) into.new ≡ take at into.old ++ take width bytes.now }
{
    into[at..at + width].copy_from_slice(&bytes[..width]);
}

// Writes a number of `width` bytes at the front, and zeros behind it.
#[inline(always)]
fn write_number(into: &mut [u8], number: u64, width: usize)
    requires wide { width ≤ 8 }
    requires within { width ≤ length into.old }
    ensures { into.new ≡ filled (length into.old) (little_bytes width number) }
{
    write_item(into, 0, number, width);
    if width < into.len() {
        into[width..].fill(0);
    }
}
