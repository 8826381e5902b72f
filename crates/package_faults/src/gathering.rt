//! Faults that are gathered one behind the other.

ghost use Rattle.std.specs.Prelude.{◌≡◌, ◌++◌, OnOk};
ghost use Rattle.package_faults.specs.code.Gathering.{where_it_is};

use hii_bytes::{Cause, Fault};
use std::alloc::AllocError;

/// Adds a fault of this cause at a place, where there is one.
pub(crate) fn add_where(
    is_there: bool,
    cause: Cause,
    place: u32,
    faults: &mut Vec<Fault>,
) -> Result<(), AllocError>
    ensures { OnOk result (faults.new.items ≡ faults.old.items
        ++ where_it_is is_there cause place) }
{
    if is_there {
        faults.push(Fault::at(cause, u64::from(place)))?;
    }
    Ok(())
}
