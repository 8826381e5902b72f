//! The stores that a form set declares.

ghost use Rattle.std.specs.Prelude.{◌≡◌, true};
ghost use Rattle.ifr_nodes.specs.Checked.{IsChecked};
ghost use Rattle.ifr_nodes.specs.Nodes.{is_store};
ghost use Rattle.ifr_nodes.specs.code.Checked.{IsChecked-prop};
ghost use Rattle.ifr_index.specs.code.Tables.{AreOfKind, AreOfKind-prop};
ghost use Rattle.ifr_nodes.specs.code.Views.{node_of};

use hii_bytes::Guid;
use ifr_nodes::{Node, node_at};
use ifr_opcodes::{
    Op, VARSTORE, VARSTORE_EFI, VARSTORE_NAME_VALUE, VarstoreEfiOp, VarstoreNameValueOp, VarstoreOp,
};

/// The opcode of a store.
#[derive(Clone, Copy)]
pub enum StoreOp<'a> {
    /// VARSTORE, a buffer of bytes.
    Varstore(VarstoreOp<'a>),
    /// VARSTORE_EFI, a buffer of bytes in a variable.
    VarstoreEfi(VarstoreEfiOp<'a>),
    /// VARSTORE_NAME_VALUE, texts by names.
    NameValue(VarstoreNameValueOp<'a>),
}

impl<'a> StoreOp<'a> {
    ghost use Rattle.std.specs.Prelude.{◌≤◌, length};
    ghost use Rattle.ifr_opcodes.specs.code.Tables.{least_length};
    ghost use Rattle.ifr_opcodes.specs.code.Ops.{bytes_of};
    ghost use Rattle.ifr_opcodes.specs.Rows.{is_among};
    ghost use Rattle.ifr_scopes.specs.code.Lists.{store_numbers, store_op};

    // The view of an opcode that has all its fields.
    fn of(op: Op<'a>) -> StoreOp<'a>
        requires store { is_among op.code store_numbers ≡ true }
        requires sized { least_length (bytes_of op) ≤ length (bytes_of op) }
        ensures { store_op result ≡ op.entry }
    {
        match op.code {
            VARSTORE => StoreOp::Varstore(VarstoreOp { op }),
            VARSTORE_EFI => StoreOp::VarstoreEfi(VarstoreEfiOp { op }),
            VARSTORE_NAME_VALUE => StoreOp::NameValue(VarstoreNameValueOp { op }),
            _ => unreachable!(),
        }
    }
}

/// A store (UEFI 2.8, 33.2.5.6 Storage).
#[derive(Clone, Copy)]
pub struct Varstore<'a> {
    pub(crate) node: Node<'a>,
    pub ghost store: { is_store (node_of node) ≡ true },
}

impl<'a> Varstore<'a> {
    ghost use Rattle.ifr_opcodes.specs.code.Ops.{bytes_of};
    ghost use Rattle.ifr_scopes.specs.code.Lists.{store_node, store_op};
    ghost use Rattle.ifr_scopes.specs.Stores.{store_guid, store_id, store_name, store_size};

    /// The place of the store, in bytes from the package's header.
    pub fn place(self) -> u32
        ensures { result ≡ (store_node self.entry).place }
    {
        self.node.op().place
    }

    /// The opcode of the store.
    pub fn op(self) -> StoreOp<'a>
        ensures place { (store_op result).place ≡ (store_node self.entry).place }
        ensures bytes { bytes_of (store_op result) ≡ (store_node self.entry).op }
    {
        StoreOp::of(self.node.op())
    }

    /// The id by which questions name it.
    pub fn id(self) -> u16
        ensures { result ≡ store_id (store_node self.entry).op }
    {
        match self.op() {
            StoreOp::Varstore(store) => store.id(),
            StoreOp::VarstoreEfi(store) => store.id(),
            StoreOp::NameValue(store) => store.id(),
        }
    }

    /// How many bytes it holds; a store of names and values holds none.
    pub fn size(self) -> Option<u16>
        ensures { result ≡ store_size (store_node self.entry).op }
    {
        match self.op() {
            StoreOp::Varstore(store) => Some(store.size()),
            StoreOp::VarstoreEfi(store) => Some(store.size()),
            StoreOp::NameValue(_) => None,
        }
    }

    /// Its GUID.
    pub fn guid(self) -> Guid<'a>
        ensures { result.bytes.now ≡ store_guid (store_node self.entry).op }
    {
        match self.op() {
            StoreOp::Varstore(store) => store.guid(),
            StoreOp::VarstoreEfi(store) => store.guid(),
            StoreOp::NameValue(store) => store.guid(),
        }
    }

    /// Its name, without its NUL; a store of names and values has none.
    pub fn name(self) -> &'a [u8]
        ensures { result.now ≡ store_name (store_node self.entry).op }
    {
        match self.op() {
            StoreOp::Varstore(store) => store.name(),
            StoreOp::VarstoreEfi(store) => store.name(),
            StoreOp::NameValue(_) => &[],
        }
    }
}

/// The stores that are left of a package, by place.
#[derive(Drop)]
pub struct Varstores<'s, 'a> {
    pub(crate) ifr: &'a [u8],
    pub(crate) places: &'s [u32],
    pub ghost checked: { IsChecked ifr.now } by { IsChecked-prop ifr.now },
    pub ghost stand: { AreOfKind is_store ifr.now places.now } by { AreOfKind-prop is_store ifr.now places.now },
}

impl<'s, 'a> Iterator for Varstores<'s, 'a> {
    ghost use Rattle.std.specs.Iterator.{YieldsFirstBy, item_count};
    ghost use Rattle.ifr_scopes.specs.code.Lists.{store_node, stores_left};

    type Item = Varstore<'a>;

    ghost next_gives = { YieldsFirstBy store_node stores_left };

    ghost remaining = { item_count stores_left };

    fn next(&mut self) -> Option<Varstore<'a>> {
        let (place, places) = self.places.split_first()?;
        self.places = places;
        Some(Varstore {
            node: node_at(self.ifr, *place),
        })
    }
}
