//! The items of a field, one number each: a number alone, the characters of a text, the elements of a list.

ghost use Rattle.std.specs.Prelude.{◌≡◌, ◌∷◌, [], true, MatchOption, chars};
ghost use Rattle.hii_values.specs.Items.{bytes_of_items};
ghost use Rattle.hii_values.specs.code.Widths.{is_width};

use crate::stored_items::StoredItems;
use crate::unit_blocks::blocks_of_items;
use hii_bytes::NumberList;

/// The items of a field that are left, from the first to the last.
#[derive(Clone, Copy)]
pub enum Items<'i> {
    /// A number, if it is left.
    Number(Option<u64>),
    /// The characters of a text.
    Text(&'i str),
    /// The numbers of a list.
    List(NumberList<'i>),
    /// The numbers in some bytes.
    Stored(StoredItems<'i>),
}

// The first character of a text, and the others.
fn split_char(text: &str) -> Option<(u64, &str)>
    ensures { MatchOption result (chars text.now ≡ [])
        (λ split. chars text.now ≡ split.0 ∷ chars split.1.now) }
{
    let mut left = text.chars();
    let first = left.next()?;
    Some((u64::from(first), left.as_str()))
}

impl<'i> Iterator for Items<'i> {
    ghost use Rattle.std.specs.Iterator.{YieldsFirst, item_count};
    ghost use Rattle.hii_values.specs.code.ItemsLeft.{items_left};

    type Item = u64;

    ghost next_gives = { YieldsFirst items_left };

    ghost remaining = { item_count items_left };

    #[inline(always)]
    fn next(&mut self) -> Option<u64> {
        match self {
            Items::Number(number) => number.take(),
            Items::Text(text) => {
                let (first, others) = split_char(text)?;
                *text = others;
                Some(first)
            }
            Items::List(numbers) => numbers.next(),
            Items::Stored(stored) => stored.step(),
        }
    }
}

/// The front of some bytes that their items fill, of 1, 2, 4 or 8 bytes each: all before the first item that is 0, without a part
/// of an item at the end (own rule).
pub fn bytes_of_items(bytes: &[u8], width: usize) -> &[u8]
    requires { is_width width ≡ true }
    ensures { result.now ≡ bytes_of_items width bytes.now }
{
    let mut end = blocks_of_items(bytes, width);
    let bytes_left = &bytes[end..];
    for _item in Items::Stored(StoredItems::new(bytes_left, width)) {
        end += width;
    }
    &bytes[..end]
}
