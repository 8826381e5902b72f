//! The stores that a form set declares.

ghost use Rattle.std.specs.Prelude.{◌≡◌, false, List, [], ◌∷◌, ◌++◌, IfOk, IfErr};
ghost use Rattle.std.specs.List.{filter_map};
ghost use Rattle.hii_bytes.specs.Faults.{HasNone, Refuses};
ghost use Rattle.hii_bytes.specs.code.FirstFaults.{Rise};
ghost use Rattle.ifr_opcodes.specs.Forest.{Node};
ghost use Rattle.ifr_scopes.specs.code.Lists.{store_node, stores_left};
ghost use Rattle.ifr_scopes.specs.Stores.{store_id};
ghost use Rattle.hii_varstore.specs.StoreNodes.{declared_buffer, is_taken, IsRepeatedStore};
ghost use Rattle.hii_varstore.specs.code.Ids.{AreIdsOf};
ghost use Rattle.hii_varstore.specs.code.Table.{AreBuffers};

use crate::buffer::Buffer;
use hii_bytes::{Cause, Fault, NumberSet};
use ifr_scopes::{Varstore, Varstores};
use std::alloc::Global;

// Meets the id of the next store, and tells whether it is 0 or was met before.
fn meets_again(ids: &mut NumberSet, id: u16) -> bool
    ensures told { (before : List Node) → AreIdsOf before ids.old
        → result ≡ is_taken id before }
    ensures met { result ≡ false → (before : List Node) (n : Node) → store_id n.op ≡ id
        → AreIdsOf before ids.old → AreIdsOf (before ++ n ∷ []) ids.new }
{
    id == 0 || !ids.insert(id)
}

// The buffer store that a store is, if it holds bytes.
fn read_buffer(store: Varstore<'_>) -> Option<Buffer>
    ensures { result ≡ declared_buffer (store_node store.entry) }
{
    let id = store.id();
    let size = store.size()?;
    Some(Buffer { id, size })
}

/// The buffer stores that are declared, or DuplicateVarstore at the place of the first store of any kind that has the id 0
/// or the id of one before it. Where an allocation fails the fault is OutOfMemory.
pub(crate) fn read_buffers(alloc: Global, stores: Varstores<'_, '_>) -> Result<Vec<Buffer>, Fault>
    requires { Rise (λ (n : Node). n.place) 0 (stores_left stores) }
    ensures read { IfOk result (λ buffers. buffers.items
        ≡ filter_map declared_buffer (stores_left stores.entry)) }
    ensures apart { IfOk result (λ buffers. AreBuffers buffers.items) }
    ensures sound { IfOk result (λ buffers. HasNone (IsRepeatedStore (stores_left stores.entry))) }
    ensures refused { IfErr result (Refuses (IsRepeatedStore (stores_left stores.entry))) }
{
    let mut ids = NumberSet::new(alloc)?;
    let mut buffers = Vec::new(alloc);
    for store in stores {
        if meets_again(&mut ids, store.id()) {
            return Err(Fault::at(Cause::DuplicateVarstore, u64::from(store.place())));
        }
        if let Some(buffer) = read_buffer(store) {
            buffers.push(buffer)?;
        }
    }
    Ok(buffers)
}
