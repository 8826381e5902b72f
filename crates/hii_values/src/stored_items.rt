//! Items that stand in bytes.

ghost use Rattle.std.specs.Prelude.{◌≡◌, true};
ghost use Rattle.hii_values.specs.code.Widths.{is_width};

use hii_bytes::number_at;

/// The numbers of `width` bytes each that are left of some bytes, up to the first that is 0.
#[derive(Clone, Copy)]
pub struct StoredItems<'i> {
    pub(crate) bytes: &'i [u8],
    pub(crate) width: usize,
    pub(crate) ghost wide: { is_width width ≡ true },
}

impl<'i> StoredItems<'i> {
    ghost use Rattle.std.specs.Iterator.{YieldsFirst};
    ghost use Rattle.hii_values.specs.Items.{items_in};
    ghost use Rattle.hii_values.specs.code.StoredLeft.{stored_left};

    /// The items at the front of some bytes, of 1, 2, 4 or 8 bytes each.
    pub fn new(bytes: &'i [u8], width: usize) -> StoredItems<'i>
        requires { is_width width ≡ true }
        ensures { stored_left result ≡ items_in width bytes.entry.now }
    {
        StoredItems { bytes, width }
    }

    /// Takes the first item.
    pub fn step(&mut self) -> Option<u64>
        ensures { YieldsFirst stored_left self.old result self.new }
    {
        let item = number_at(self.bytes, 0, self.width)?;
        if item == 0 {
            return None;
        }
        self.bytes = &self.bytes[self.width..];
        Some(item)
    }
}
