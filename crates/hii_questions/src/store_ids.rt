//! The ids of the stores of a form set.

ghost use Rattle.std.specs.Prelude.{◌≡◌, ℕ, IfOk};
ghost use Rattle.hii_bytes.specs.code.NumberSets.{has_number};
ghost use Rattle.ifr_nodes.specs.Nodes.{nodes_of};
ghost use Rattle.hii_questions.specs.Faults.{is_known};
ghost use Rattle.hii_questions.specs.code.Gathered.{AreGathered};

use hii_bytes::NumberSet;
use ifr_scopes::Forms;
use std::alloc::{AllocError, Global};

// The ids of all stores.
fn store_ids(alloc: Global, forms: &Forms<'_>) -> Result<NumberSet, AllocError>
    ensures { IfOk result (λ ids. (id : ℕ)
        → has_number ids id ≡ is_known (nodes_of forms.now) id) }
{
    let mut ids = NumberSet::new(alloc)?;
    for store in forms.stores() {
        ids.insert(store.id());
    }
    Ok(ids)
}

/// Whether a store of any kind has the id. The ids of all stores are gathered when this is first asked.
pub(crate) fn has_store(
    alloc: Global,
    forms: &Forms<'_>,
    ids: &mut Option<NumberSet>,
    id: u16,
) -> Result<bool, AllocError>
    requires { AreGathered (nodes_of forms.now) ids.old }
    ensures told { IfOk result (λ has. has ≡ is_known (nodes_of forms.now) id) }
    ensures gathered { AreGathered (nodes_of forms.now) ids.new }
{
    if let Some(gathered) = ids {
        return Ok(gathered.contains(id));
    }
    let gathered = store_ids(alloc, forms)?;
    let has = gathered.contains(id);
    *ids = Some(gathered);
    Ok(has)
}
