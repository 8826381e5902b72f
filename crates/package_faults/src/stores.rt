//! All faults of the stores that a form set declares.

ghost use Rattle.std.specs.Prelude.{◌≡◌, [], ◌∷◌, ◌++◌, List, IfOk};
ghost use Rattle.ifr_opcodes.specs.Forest.{Node};
ghost use Rattle.ifr_nodes.specs.Nodes.{nodes_of};
ghost use Rattle.ifr_scopes.specs.Stores.{store_id};
ghost use Rattle.ifr_scopes.specs.code.Lists.{stores_left};
ghost use Rattle.hii_varstore.specs.StoreNodes.{is_taken, IsStoreFault};
ghost use Rattle.hii_varstore.specs.code.Ids.{AreIdsOf};
ghost use Rattle.package_faults.specs.AllFaults.{AreAll};
ghost use Rattle.package_faults.specs.code.Parts.{repeated_stores};

use crate::gathering::add_where;
use hii_bytes::{Cause, Fault, NumberSet};
use ifr_scopes::{Forms, Varstores};
use std::alloc::{AllocError, Global};

/// All faults of the stores of a form set, by place: each store, of any of the three kinds, that has the id 0 or the id of a store
/// before it, by DuplicateVarstore (34) (UEFI 2.8, 33.3.8.3, EFI_IFR_VARSTORE, EFI_IFR_VARSTORE_EFI and EFI_IFR_VARSTORE_NAME_VALUE).
pub fn store_faults(alloc: Global, forms: &Forms<'_>) -> Result<Vec<Fault>, AllocError>
    ensures { IfOk result (λ faults. AreAll (IsStoreFault (nodes_of forms.now)) faults.items) }
{
    repeated_among(alloc, forms.stores())
}

// The faults of these stores.
fn repeated_among(alloc: Global, stores: Varstores<'_, '_>) -> Result<Vec<Fault>, AllocError>
    ensures { IfOk result (λ faults. faults.items ≡ repeated_stores [] (stores_left stores.entry)) }
{
    let mut ids = NumberSet::new(alloc)?;
    let mut faults = Vec::new(alloc);
    for store in stores {
        let is_again = meets_again(&mut ids, store.id());
        add_where(
            is_again,
            Cause::DuplicateVarstore,
            store.place(),
            &mut faults,
        )?;
    }
    Ok(faults)
}

// Meets the id of the next store, and tells whether it is 0 or was met before.
fn meets_again(ids: &mut NumberSet, id: u16) -> bool
    ensures told { (before : List Node) → AreIdsOf before ids.old → result ≡ is_taken id before }
    ensures met { (before : List Node) (n : Node) → store_id n.op ≡ id → AreIdsOf before ids.old
        → AreIdsOf (before ++ n ∷ []) ids.new }
{
    let is_new = ids.insert(id);
    id == 0 || !is_new
}
