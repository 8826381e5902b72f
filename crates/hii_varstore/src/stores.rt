//! What the buffer stores of a form set hold.

ghost use Rattle.std.specs.Prelude.{◌≡◌, ℕ, IfOk, IfErr, IsSomeAnd, List, MatchOption, length, map, not, option_copied, Some};
ghost use Rattle.hii_bytes.specs.Faults.{Refuses, out_of_memory};
ghost use Rattle.hii_bytes.specs.Watching.{pen_of, Puts, Tells};
ghost use Rattle.hii_varstore.specs.Stores.{StoreMap, are_same_bytes, buffer_of, shape_of, bytes_of, bytes_of_field, with_bytes, zeros_in, zeros_of};
ghost use Rattle.hii_varstore.specs.code.Ranges.{IsCut};
ghost use Rattle.hii_varstore.specs.code.Ranges.{HasRange};
ghost use Rattle.hii_varstore.specs.code.Lending.{LendsField};
ghost use Rattle.hii_varstore.specs.code.Table.{AreBuffers};
ghost use Rattle.std.specs.Borrow.{sem};
ghost use Rattle.hii_varstore.specs.Image.{image_of, SpellsImage};
ghost use Rattle.hii_varstore.specs.Faults.{IsImageFault};

use crate::buffer::Buffer;
use crate::image::{MARK, put_stores, read_head, read_stores};
use crate::layout::Layout;
use crate::store::Store;
use crate::table::Table;
use hii_bytes::{Fault, Watched, WriteFault};
use std::alloc::{AllocError, Global};
use std::io::Write;
use std::marker::Model;

/// The bytes of the buffer stores of a form set, by the ids of the stores (UEFI 2.8, 33.2.5.6 Storage), and the form set's
/// GUID. The image in which they are kept is an own rule.
pub struct Stores {
    guid: [u8; 16],
    table: Table,
    stores: Vec<Store>,
}

impl Drop for Stores {
    fn drop(self) {
        let Stores {
            guid: _,
            table: _,
            stores: _,
        } = self;
    }
}

impl Model for Stores {
    ghost use Rattle.hii_varstore.specs.Stores.{StoreMap};

    ghost Value = { StoreMap };

    ghost use Rattle.hii_varstore.specs.code.Table.{AreStores};

    ghost view = { λ s. record { guid = s.guid; stores = s.stores.items } };

    ghost invariant = { λ s. AreStores s.table s.stores.items };
}

impl Stores {
    /// The stores of a layout that an image spells in either of its forms (own rule). Refuses the image by its first field that
    /// is not as the layout wants it, at the field's offset in bytes from the front of the image: by StoreShort (54) where the
    /// image ends inside of the field, else by StoreMagic (50) for another mark, StoreFormSet (56) for the GUID of another form
    /// set, StoreCount (51) for another number of stores, StoreId (52) for another id, or StoreSize (53) for another size.
    /// Bytes left over are StoreTrailing (55) at the first of them. Where an allocation fails the fault is OutOfMemory
    /// (60) at 0.
    pub fn read(alloc: Global, layout: &Layout<'_>, image: &[u8]) -> Result<Stores, Fault>
        ensures spelled { IfOk result (SpellsImage layout.now image.now) }
        ensures refused { IfErr result (Refuses (IsImageFault layout.now image.now)) }
        // Where the image spells stores, nothing but an allocation that fails refuses it.
        ensures accepted { (stores : StoreMap) → SpellsImage layout.now image.now stores
            → IfErr result (λ fault. fault ≡ out_of_memory) }
    {
        let place = read_head(layout.guid().bytes(), image)?;
        let stores = read_stores(alloc, layout.table(), image, place)?;
        let table = layout.table().copy(alloc)?;
        let mut guid = [0; 16];
        guid.copy_from_slice(layout.guid().bytes());
        Ok(Stores {
            guid,
            table,
            stores,
        })
    }

    /// The stores of a layout with nothing but zeros in them, or OutOfMemory (60) at 0 where an allocation fails.
    pub fn zeros(alloc: Global, layout: &Layout<'_>) -> Result<Stores, Fault>
        ensures zeros { IfOk result (λ stores. stores ≡ zeros_of layout.now) }
        // They have different ids.
        ensures apart { IfOk result (λ stores. AreBuffers layout.now.buffers) }
        ensures refused { IfErr result (λ fault. fault ≡ out_of_memory) }
    {
        let table = layout.table().copy(alloc)?;
        let stores = zeros(alloc, table.buffers())?;
        let mut guid = [0; 16];
        guid.copy_from_slice(layout.guid().bytes());
        Ok(Stores {
            guid,
            table,
            stores,
        })
    }

    /// A second set of the same stores, or OutOfMemory (60) at 0 where an allocation fails.
    pub fn copy(&self, alloc: Global) -> Result<Stores, Fault>
        ensures same { IfOk result (λ stores. stores ≡ self.now) }
        ensures refused { IfErr result (λ fault. fault ≡ out_of_memory) }
    {
        Ok(Stores {
            guid: self.guid,
            table: self.table.copy(alloc)?,
            stores: copies(alloc, &self.stores)?,
        })
    }

    /// The bytes of the store of an id, if there is one.
    #[inline(always)]
    pub fn bytes(&self, id: u16) -> Option<&[u8]>
        ensures { option_copied result ≡ bytes_of self.now id }
    {
        let place = self.table.find(id)?;
        Some(self.stores[place].bytes())
    }

    /// The `width` bytes of the store of an id from an offset in bytes on, if the store holds all of them.
    #[inline(always)]
    pub fn field(&self, id: u16, offset: usize, width: usize) -> Option<&[u8]>
        ensures { MatchOption result (IsCut width (bytes_of_field self.now id offset width))
            (λ bytes. (bytes_of_field self.now id offset width ≡ Some bytes.now)
            × (length bytes.now ≡ width)) }
    {
        let rest = self.bytes(id)?.get(offset..).unwrap_or(&[]);
        rest.get(..width)
    }

    /// Whether the `width` bytes of the store of an id from an offset in bytes on are others in other stores of the same layout.
    pub fn differs(&self, other: &Stores, id: u16, offset: usize, width: usize) -> bool
        requires same { shape_of self.now ≡ shape_of other.now }
        requires range { HasRange (shape_of self.now) id offset width }
        ensures { result ≡ not (are_same_bytes (bytes_of_field self.now id offset width)
            (bytes_of_field other.now id offset width)) }
    {
        let place = self.table.find(id).unwrap();
        self.stores[place].differs(&other.stores[place], offset, width)
    }

    /// The `width` bytes of the store of an id from an offset in bytes on, to be written.
    #[inline(always)]
    pub fn field_mut(&mut self, id: u16, offset: usize, width: usize) -> &mut [u8]
        requires { HasRange (shape_of self.old) id offset width }
        ensures* lends { sem 𝓛 (LendsField self.entry id offset result) }
        ensures value { bytes_of_field self.old id offset width ≡ Some result.now }
        ensures size { length result.now ≡ width }
    {
        let place = self.table.find(id).unwrap();
        let store = &mut self.stores[place];
        store.range_mut(offset, width)
    }

    /// Takes over the bytes of other stores of the same layout.
    pub fn copy_from(&mut self, other: &Stores)
        requires { shape_of self.old ≡ shape_of other.now }
        ensures { self.new ≡ other.now }
    {
        copy_all(&mut self.stores, &other.stores);
    }

    /// Takes over the `width` bytes of the store of an id from an offset in bytes on from other stores of the same layout.
    pub fn copy_range(&mut self, from: &Stores, id: u16, offset: usize, width: usize)
        requires same { shape_of self.old ≡ shape_of from.now }
        requires range { HasRange (shape_of self.old) id offset width }
        ensures copied { IsSomeAnd (bytes_of_field from.now id offset width)
            (λ bytes. self.new ≡ with_bytes self.old id offset bytes) }
        ensures shape { shape_of self.new ≡ shape_of self.old }
        // Stores that differed in this range alone are the same again.
        ensures given_back { (new : List ℕ) → length new ≡ width
            → self.old ≡ with_bytes from.now id offset new → self.new ≡ from.now }
    {
        let place = self.table.find(id).unwrap();
        self.stores[place].copy_range(&from.stores[place], offset, width);
    }

    /// Writes the image of the stores. At a writer's fault the front of the image is written, as many bytes as the fault
    /// says.
    pub fn image_into<W: Write>(&self, out: &mut Watched<W>) -> Result<(), WriteFault>
        ensures { Tells (pen_of W.contents out.old) (pen_of W.contents out.new) result
            (image_of self.now) }
    {
        out.restart();
        self.put_image(out);
        if out.failed() {
            return Err(WriteFault {
                written: out.taken(),
            });
        }
        Ok(())
    }

    // Writes the image of the stores: a fault of the writer is asked of the writer.
    fn put_image<W: Write>(&self, out: &mut Watched<W>)
        ensures { Puts W.contents out.old out.new (image_of self.now) }
    {
        out.put(&MARK);
        out.put(&self.guid);
        put_stores(&self.stores, out);
    }
}

// A list of stores that hold zeros alone.
fn zeros(alloc: Global, buffers: &[Buffer]) -> Result<Vec<Store>, AllocError>
    ensures { IfOk result (λ stores. stores.items ≡ map zeros_in buffers.now) }
{
    let mut stores = Vec::with_capacity(alloc, buffers.len())?;
    for buffer in buffers {
        stores.push(Store::zeros(alloc, *buffer)?)?;
    }
    Ok(stores)
}

// A second list of the same stores.
fn copies(alloc: Global, stores: &[Store]) -> Result<Vec<Store>, AllocError>
    ensures { IfOk result (λ copies. copies.items ≡ stores.now) }
{
    let mut copies = Vec::with_capacity(alloc, stores.len())?;
    for store in stores {
        copies.push(store.copy(alloc)?)?;
    }
    Ok(copies)
}

// Takes over the bytes of stores of the same ids and sizes.
fn copy_all(stores: &mut [Store], others: &[Store])
    requires { map buffer_of stores.old ≡ map buffer_of others.now }
    ensures { stores.new ≡ others.now }
{
    for (place, store) in stores.iter_mut().enumerate() {
        store.copy_from(&others[place]);
    }
}
