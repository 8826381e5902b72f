//! The image in which the buffer stores are kept (own rule).

ghost use Rattle.std.specs.Prelude.{◌≡◌, ◌⊎◌, ◌+◌, ◌^◌, ◌<◌, ◌≤◌, [], ◌∷◌, ◌++◌, IfOk, IfErr, OnOk, length, drop};
ghost use Rattle.std.specs.Int.{to_le_bytes, w16};
ghost use Rattle.hii_bytes.specs.Faults.{out_of_memory};
ghost use Rattle.hii_bytes.specs.Watching.{Puts};
ghost use Rattle.hii_varstore.specs.code.Table.{AreStores};
ghost use Rattle.hii_varstore.specs.Image.{store_image, stores_image};
ghost use Rattle.hii_varstore.specs.Faults.{Told, Any, IsPartFault, IsOlder, head_parts, store_parts, stores_parts};
ghost use Rattle.hii_varstore.specs.code.Reading.{Reads, IsFaultOf, ReadsHead};

use crate::buffer::Buffer;
use crate::store::Store;
use crate::table::Table;
use byteorder::{ByteOrder, LittleEndian};
use hii_bytes::{Cause, Fault, Watched};
use std::alloc::{AllocError, Global};
use std::io::Write;

pub(crate) const MARK: [u8; 4] = *b"HVS2";

const OLDER_MARK: [u8; 4] = *b"HVS1";

// The bytes of a number, the lowest first.
fn bytes_of(number: u16) -> [u8; 2]
    ensures { result ≡ to_le_bytes w16 number }
{
    let mut bytes = [0; 2];
    LittleEndian::write_u16(&mut bytes, number);
    bytes
}

// The place behind bytes that are told.
fn told_at(image: &[u8], place: usize, wanted: &[u8], other: Cause) -> Result<usize, Fault>
    requires { place ≤ length image.now }
    ensures read { IfOk result (Reads (Told wanted.now other ∷ []) wanted.now image.now place) }
    ensures end { IfOk result (λ end. (end ≡ place + length wanted.now)
        × (end ≤ length image.now)) }
    ensures wrong { IfErr result (IsFaultOf (Told wanted.now other ∷ []) image.now place) }
{
    let rest = &image[place..];
    if rest.len() < wanted.len() {
        return Err(Fault::at(Cause::StoreShort, place as u64));
    }
    if &rest[..wanted.len()] != wanted {
        return Err(Fault::at(other, place as u64));
    }
    Ok(place + wanted.len())
}

// The place behind a number that is told.
fn number_at(image: &[u8], place: usize, number: u16, other: Cause) -> Result<usize, Fault>
    requires { place ≤ length image.now }
    ensures read { IfOk result
        (Reads (Told (to_le_bytes w16 number) other ∷ [])
        (to_le_bytes w16 number) image.now place) }
    ensures end { IfOk result (λ end. (end ≡ place + 2) × (end ≤ length image.now)) }
    ensures wrong { IfErr result
        (IsFaultOf (Told (to_le_bytes w16 number) other ∷ []) image.now place) }
{
    told_at(image, place, &bytes_of(number), other)
}

// The bytes of a width.
fn any_at(image: &[u8], place: usize, width: usize) -> Result<&[u8], Fault>
    requires { place ≤ length image.now }
    ensures read { IfOk result
        (λ bytes. Reads (Any width ∷ []) bytes.now image.now place (place + width)
        × (length bytes.now ≡ width)) }
    ensures wrong { IfErr result (IsFaultOf (Any width ∷ []) image.now place) }
{
    let rest = &image[place..];
    if rest.len() < width {
        return Err(Fault::at(Cause::StoreShort, place as u64));
    }
    Ok(&rest[..width])
}

// The bytes of a store, behind its id and its size.
fn store_at(image: &[u8], place: usize, buffer: Buffer) -> Result<&[u8], Fault>
    requires { place ≤ length image.now }
    ensures read { IfOk result
        (λ bytes. Reads (store_parts buffer)
        (store_image record { id = buffer.id; bytes = bytes.now }) image.now
        place (place + 4 + buffer.size) × (length bytes.now ≡ buffer.size)) }
    ensures wrong { IfErr result (IsFaultOf (store_parts buffer) image.now place) }
{
    let size_place = number_at(image, place, buffer.id, Cause::StoreId)?;
    let start = number_at(image, size_place, buffer.size, Cause::StoreSize)?;
    any_at(image, start, buffer.size as usize)
}

/// The stores that stand in the image from a place to its end.
pub(crate) fn read_stores(
    alloc: Global,
    table: &Table,
    image: &[u8],
    place: usize,
) -> Result<Vec<Store>, Fault>
    requires { place ≤ length image.now }
    ensures read { IfOk result
        (λ stores. Reads (stores_parts table.now) (stores_image stores.items) image.now
        place (length image.now)) }
    ensures held { IfOk result (λ stores. AreStores table.now stores.items) }
    ensures wrong { IfErr result (λ fault. (fault ≡ out_of_memory)
        ⊎ IsPartFault place (stores_parts table.now)
        (drop place image.now) fault.cause fault.place) }
{
    let buffers = table.buffers();
    let count = buffers.len() as u16;
    let mut end = number_at(image, place, count, Cause::StoreCount)?;
    let mut stores = Vec::new(alloc);
    for buffer in buffers {
        let found = store_at(image, end, *buffer)?;
        push_store(alloc, &mut stores, buffer.id, found)?;
        end += 4 + found.len();
    }
    if end < image.len() {
        return Err(Fault::at(Cause::StoreTrailing, end as u64));
    }
    Ok(stores)
}

fn push_store(
    alloc: Global,
    stores: &mut Vec<Store>,
    id: u16,
    bytes: &[u8],
) -> Result<(), AllocError>
    requires { length bytes.now < 2 ^ 16 }
    ensures { OnOk result (stores.new.items ≡ stores.old.items
        ++ record { id = id; bytes = bytes.now } ∷ []) }
{
    let store = Store::new(alloc, id, bytes)?;
    stores.push(store)?;
    Ok(())
}

/// The place behind the mark of an image, and behind the GUID where its form has one.
pub(crate) fn read_head(guid: &[u8], image: &[u8]) -> Result<usize, Fault>
    ensures read { IfOk result (ReadsHead guid.now image.now) }
    ensures end { IfOk result (λ end. end ≤ length image.now) }
    ensures wrong { IfErr result (λ fault. (IsOlder image.now → ⊥)
        × IsFaultOf (head_parts guid.now) image.now 0 fault) }
{
    if image.starts_with(&OLDER_MARK) {
        return Ok(OLDER_MARK.len());
    }
    let place = told_at(image, 0, &MARK, Cause::StoreMagic)?;
    told_at(image, place, guid, Cause::StoreFormSet)
}

// Writes the id, the size and the bytes of a store.
fn put_store<W: Write>(store: &Store, out: &mut Watched<W>)
    ensures { Puts W.contents out.old out.new (store_image store.now) }
{
    let bytes = store.bytes();
    let size = bytes.len() as u16;
    out.put(&bytes_of(store.id()));
    out.put(&bytes_of(size));
    out.put(bytes);
}

/// Writes how many stores there are, and each by place.
pub(crate) fn put_stores<W: Write>(stores: &[Store], out: &mut Watched<W>)
    requires { length stores.now < 2 ^ 16 }
    ensures { Puts W.contents out.old out.new (stores_image stores.now) }
{
    let count = stores.len() as u16;
    out.put(&bytes_of(count));
    for store in stores {
        put_store(store, out);
    }
}
