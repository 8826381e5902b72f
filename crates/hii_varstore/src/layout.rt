//! Which buffer stores a form set has.

ghost use Rattle.std.specs.Prelude.{◌≡◌, IfOk, IfErr};
ghost use Rattle.hii_bytes.specs.Faults.{HasNone, Refuses, out_of_memory};
ghost use Rattle.ifr_nodes.specs.Nodes.{nodes_of};
ghost use Rattle.hii_varstore.specs.Layout.{size_of};
ghost use Rattle.hii_varstore.specs.StoreNodes.{layout_of, IsStoreFault};
ghost use Rattle.hii_varstore.specs.code.Table.{AreBuffers};

use crate::buffer::Buffer;
use crate::table::Table;
use crate::varstores::read_buffers;
use hii_bytes::{Fault, Guid};
use ifr_scopes::Forms;
use std::alloc::Global;
use std::marker::Model;

/// The GUID of a form set, and its buffer stores by place.
#[derive(Drop)]
pub struct Layout<'a> {
    guid: Guid<'a>,
    table: Table,
}

impl<'a> Model for Layout<'a> {
    ghost use Rattle.hii_varstore.specs.Layout.{Shape};

    ghost Value = { Shape };

    ghost view = { λ l. record { guid = l.guid.bytes.now; buffers = l.table } };
}

impl<'a> Layout<'a> {
    /// The layout that a form set declares: its buffer stores, which are those of EFI_IFR_VARSTORE and EFI_IFR_VARSTORE_EFI,
    /// by place, whatever stands around them. A store of names and values holds no bytes and is not in the layout.
    /// Refuses the first store by place, of any of the three kinds, that has the id 0 or the id of a store before it, by
    /// DuplicateVarstore (34) at its place in bytes from the package's header (UEFI 2.8, 33.3.8.3, EFI_IFR_VARSTORE,
    /// EFI_IFR_VARSTORE_EFI and EFI_IFR_VARSTORE_NAME_VALUE). Where an allocation fails the fault is OutOfMemory (60) at 0.
    pub fn read(alloc: Global, forms: &Forms<'a>) -> Result<Layout<'a>, Fault>
        ensures read { IfOk result (λ layout. layout ≡ layout_of (nodes_of forms.now)) }
        ensures sound { IfOk result (λ layout. HasNone (IsStoreFault (nodes_of forms.now))) }
        ensures apart { IfOk result (λ layout. AreBuffers layout.buffers) }
        ensures refused { IfErr result (Refuses (IsStoreFault (nodes_of forms.now))) }
    {
        let guid = forms.formset().op().guid();
        let buffers = read_buffers(alloc, forms.stores())?;
        Layout::new(alloc, guid, buffers)
    }

    /// The layout of these stores.
    pub(crate) fn new(
        alloc: Global,
        guid: Guid<'a>,
        buffers: Vec<Buffer>,
    ) -> Result<Layout<'a>, Fault>
        requires { AreBuffers buffers.items }
        ensures made { IfOk result (λ layout. layout
            ≡ record { guid = guid.entry.bytes.now; buffers = buffers.items }) }
        ensures refused { IfErr result (λ fault. fault ≡ out_of_memory) }
    {
        Ok(Layout {
            guid,
            table: Table::new(alloc, buffers)?,
        })
    }

    /// The form set's GUID.
    pub fn guid(&self) -> Guid<'a>
        ensures { result.bytes.now ≡ self.now.guid }
    {
        self.guid
    }

    /// The buffer stores as they are found by their ids.
    pub(crate) fn table(&self) -> &Table
        ensures { result.now ≡ self.now.buffers }
    {
        &self.table
    }

    /// The buffer stores by place.
    pub fn buffers(&self) -> &[Buffer]
        ensures value { result.now ≡ self.now.buffers }
        ensures sound { AreBuffers self.now.buffers }
    {
        self.table.buffers()
    }

    /// How many bytes the store of an id holds, if there is one.
    pub fn size(&self, id: u16) -> Option<u16>
        ensures { result ≡ size_of self.now id }
    {
        let place = self.table.find(id)?;
        Some(self.table.buffers()[place].size)
    }
}
