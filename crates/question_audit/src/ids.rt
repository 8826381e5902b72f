//! Sets of ids of questions.

ghost use Rattle.std.specs.Prelude.{◌≡◌, ◌==◌, ◌||◌, ℕ, OnOk};
ghost use Rattle.question_audit.specs.code.Ids.{AreIds, has_id};

use std::alloc::AllocError;
use std::collections::BTreeSet;

/// Adds an id.
pub(crate) fn add_id(ids: &mut BTreeSet<u16>, id: u16) -> Result<(), AllocError>
    ensures has { OnOk result ((other : ℕ) → has_id ids.new other ≡ (id == other || has_id ids.old other)) }
    ensures are { AreIds ids.old → OnOk result (AreIds ids.new) }
{
    ids.insert(id)?;
    Ok(())
}
