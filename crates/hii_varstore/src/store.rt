//! What one buffer store holds.

ghost use Rattle.std.specs.Prelude.{◌≡◌, ◌+◌, ◌<◌, ◌≤◌, ◌^◌, IfOk, length, nat_eq, not, slice_range};
ghost use Rattle.std.specs.Cmp.Lexicographic.{pointwise};
ghost use Rattle.std.specs.Borrow.{sem};
ghost use Rattle.hii_varstore.specs.Stores.{buffer_of, store_with, zeros_in};
ghost use Rattle.hii_varstore.specs.code.Lending.{LendsRange};

use crate::buffer::Buffer;
use std::alloc::{AllocError, Global};
use std::marker::Model;

/// The id of a buffer store, and its bytes.
#[derive(Drop)]
pub(crate) struct Store {
    id: u16,
    bytes: Vec<u8>,
}

impl Model for Store {
    ghost use Rattle.std.specs.Prelude.{◌<◌, ◌^◌, length};
    ghost use Rattle.hii_varstore.specs.Stores.{Store as TheStore};

    ghost Value = { TheStore };

    ghost view = { λ s. record { id = s.id; bytes = s.bytes.items } };

    ghost invariant = { λ s. length s.bytes.items < 2 ^ 16 };
}

impl Store {
    /// A store of this id that holds these bytes.
    pub(crate) fn new(alloc: Global, id: u16, bytes: &[u8]) -> Result<Store, AllocError>
        requires { length bytes.now < 2 ^ 16 }
        ensures { IfOk result (λ store. store ≡ record { id = id; bytes = bytes.now }) }
    {
        Ok(Store {
            id,
            bytes: Vec::from_slice(alloc, bytes)?,
        })
    }

    /// A store that holds zeros alone.
    pub(crate) fn zeros(alloc: Global, buffer: Buffer) -> Result<Store, AllocError>
        ensures { IfOk result (λ store. store ≡ zeros_in buffer) }
    {
        Ok(Store {
            id: buffer.id,
            bytes: vec![in alloc; 0; buffer.size as usize]?,
        })
    }

    /// A second store that holds the same.
    pub(crate) fn copy(&self, alloc: Global) -> Result<Store, AllocError>
        ensures { IfOk result (λ store. store ≡ self.now) }
    {
        Store::new(alloc, self.id, &self.bytes)
    }

    pub(crate) fn id(&self) -> u16
        ensures { result ≡ self.now.id }
    {
        self.id
    }

    pub(crate) fn bytes(&self) -> &[u8]
        ensures value { result.now ≡ self.now.bytes }
        ensures small { length self.now.bytes < 2 ^ 16 }
    {
        &self.bytes
    }

    /// Whether a range of the bytes is another in a store that reaches as far.
    pub(crate) fn differs(&self, other: &Store, offset: usize, width: usize) -> bool
        requires own { offset + width ≤ length self.now.bytes }
        requires others { offset + width ≤ length other.now.bytes }
        ensures { result ≡ not (pointwise nat_eq
            (slice_range self.now.bytes offset (offset + width))
            (slice_range other.now.bytes offset (offset + width))) }
    {
        self.bytes[offset..offset + width] != other.bytes[offset..offset + width]
    }

    /// A range of the bytes, to be written.
    pub(crate) fn range_mut(&mut self, offset: usize, width: usize) -> &mut [u8]
        requires { offset + width ≤ length self.old.bytes }
        ensures* lends { sem 𝓛 (LendsRange self.entry offset result) }
        ensures value { result.now ≡ slice_range self.old.bytes offset (offset + width) }
    {
        self.bytes.slice_mut(offset..offset + width)
    }

    /// Takes over the bytes of a store of the same id and size.
    pub(crate) fn copy_from(&mut self, other: &Store)
        requires { buffer_of self.old ≡ buffer_of other.now }
        ensures { self.new ≡ other.now }
    {
        self.bytes.copy_from_slice(&other.bytes);
    }

    /// Takes over a range of the bytes of another store, which reaches as far.
    pub(crate) fn copy_range(&mut self, other: &Store, offset: usize, width: usize)
        requires own { offset + width ≤ length self.old.bytes }
        requires others { offset + width ≤ length other.now.bytes }
        ensures { self.new ≡ store_with self.old offset
            (slice_range other.now.bytes offset (offset + width)) }
    {
        self.range_mut(offset, width)
            .copy_from_slice(&other.bytes[offset..offset + width]);
    }
}
