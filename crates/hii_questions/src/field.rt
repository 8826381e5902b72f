//! New bytes for fields.

ghost use Rattle.std.specs.Prelude.{◌≡◌, ◌≤◌, length};
ghost use Rattle.hii_varstore.specs.code.Ranges.{HasRange};
ghost use Rattle.hii_varstore.specs.Stores.{shape_of, with_bytes};
ghost use Rattle.hii_values.specs.code.Contents.{content_bytes};

use hii_values::{Content, Items};
use hii_varstore::Stores;

/// New bytes for the field of a question (UEFI 2.8, 33.2.5.6 Storage).
#[derive(Clone, Copy)]
pub struct Field<'i> {
    /// The id of the store.
    pub store: u16,
    /// The offset of the field in the store, in bytes.
    pub offset: u16,
    /// How many bytes the field has.
    pub width: usize,
    pub(crate) content: Content<'i>,
    /// Whether the items are values of options.
    pub(crate) names: bool,
    pub ghost fits: { length (content_bytes content) ≤ width },
}

impl<'i> Field<'i> {
    ghost use Rattle.std.specs.Prelude.{false, []};
    ghost use Rattle.hii_values.specs.code.ItemsLeft.{items_left};
    ghost use Rattle.hii_questions.specs.code.NewBytes.{new_bytes, new_items};

    /// Writes the new bytes into the store.
    #[inline(always)]
    pub fn put(self, stores: &mut Stores)
        requires { HasRange (shape_of stores.old) self.store self.offset self.width }
        ensures written { stores.new
            ≡ with_bytes stores.old self.entry.store self.entry.offset (new_bytes self.entry) }
        ensures shape { shape_of stores.new ≡ shape_of stores.old }
    {
        let bytes = stores.field_mut(self.store, usize::from(self.offset), self.width);
        self.content.write(bytes);
    }

    /// Whether the question names the values of options once it has the new bytes, where these are any. A checkbox and a text name
    /// none.
    #[inline(always)]
    pub fn names_options(self) -> bool
        ensures names { result ≡ self.entry.names }
        ensures none { result ≡ false → new_items self.entry ≡ [] }
    {
        self.names
    }

    /// The values of options that the question names once it has the new bytes: its number, or the elements of its list. A
    /// checkbox and a text name none.
    #[inline(always)]
    pub fn items(self) -> Items<'i>
        ensures { items_left result ≡ new_items self.entry }
    {
        if self.names {
            self.content.items
        } else {
            Items::Number(None)
        }
    }
}
