//! The buffer stores by place, found by their ids.

ghost use Rattle.std.specs.Prelude.{◌≡◌, IfOk};
ghost use Rattle.hii_varstore.specs.code.Table.{AreBuffers, place_of};

use crate::buffer::Buffer;
use hii_bytes::{IdEntry, IdTable};
use std::alloc::{AllocError, Global};
use std::marker::Model;

/// The buffer stores by place, with an index by id.
pub(crate) struct Table {
    buffers: Vec<Buffer>,
    places: IdTable,
}

impl Drop for Table {
    fn drop(self) {
        let Table {
            buffers: _,
            places: _,
        } = self;
    }
}

impl Model for Table {
    ghost use Rattle.std.specs.Prelude.{List};
    ghost use Rattle.hii_varstore.specs.declared.buffer.Buffer.{Buffer};

    ghost Value = { List Buffer };

    ghost use Rattle.hii_varstore.specs.code.Table.{IsTable};

    ghost view = { λ t. t.buffers.items };

    ghost invariant = { λ t. IsTable t.buffers.items t.places };
}

impl Table {
    /// The table of these stores.
    pub(crate) fn new(alloc: Global, buffers: Vec<Buffer>) -> Result<Table, AllocError>
        requires { AreBuffers buffers.items }
        ensures { IfOk result (λ table. table ≡ buffers.items) }
    {
        let mut places = Vec::new(alloc);
        for (place, buffer) in buffers.iter().enumerate() {
            places.push(IdEntry {
                id: buffer.id,
                number: place as u32,
            })?;
        }
        Ok(Table {
            buffers,
            places: IdTable::of(places)?,
        })
    }

    /// A second table of the same stores.
    pub(crate) fn copy(&self, alloc: Global) -> Result<Table, AllocError>
        ensures { IfOk result (λ table. table ≡ self.now) }
    {
        Ok(Table {
            buffers: Vec::from_slice(alloc, &self.buffers)?,
            places: self.places.copy(alloc)?,
        })
    }

    /// The stores by place.
    pub(crate) fn buffers(&self) -> &[Buffer]
        ensures value { result.now ≡ self.now }
        ensures sound { AreBuffers self.now }
    {
        &self.buffers
    }

    /// The place among the stores of the one of an id. Most questions lie in the first.
    #[inline(always)]
    pub(crate) fn find(&self, id: u16) -> Option<usize>
        ensures { result ≡ place_of self.now id }
    {
        match self.buffers.first() {
            Some(first) if first.id == id => Some(0),
            _ => Some(self.places.find(id)? as usize),
        }
    }
}
