//! What is found of a list.

ghost use Rattle.std.specs.Prelude.{◌≡◌, List, IfOk, IfErr};
ghost use Rattle.hii_bytes.specs.Faults.{IsLeastAmong, RefusesAmong};
ghost use Rattle.hii_packages.specs.Packages.{packages_of};
ghost use Rattle.browser_rules.specs.Strings.{Spoken};
ghost use Rattle.dump_audit.specs.Findings.{Contents as Found, IsFound, list_or_text_faults};
ghost use Rattle.dump_audit.specs.code.Heard.{heard_of};

use crate::strings::ListStrings;
use hii_bytes::{Cause, Fault};
use hii_packages::PackageList;
use std::alloc::{AllocError, Global};

/// The packages of a list, and what its string packages say.
#[derive(Drop)]
pub(crate) struct Contents<'a> {
    pub packages: PackageList<'a>,
    pub strings: ListStrings<'a>,
}

// The contents of a list, or its least fault, or that an allocation failed.
fn read_list(alloc: Global, bytes: &[u8]) -> Result<Contents<'_>, Fault>
    ensures found { IfOk result (λ contents. (spoken : List Spoken)
        × IsFound bytes.entry.now (Found (packages_of contents.packages) spoken)
        × (contents.strings ≡ heard_of spoken)) }
    ensures refused { IfErr result (RefusesAmong (list_or_text_faults bytes.entry.now)) }
{
    let packages = PackageList::read(bytes)?;
    let strings = ListStrings::read(alloc, &packages)?;
    Ok(Contents { packages, strings })
}

/// The contents of a list, or its least fault: that of its packages, else that of its string packages.
pub(crate) fn find(alloc: Global, bytes: &[u8]) -> Result<Result<Contents<'_>, Fault>, AllocError>
    ensures found { IfOk result (λ found. IfOk found (λ contents. (spoken : List Spoken)
        × IsFound bytes.entry.now (Found (packages_of contents.packages) spoken)
        × (contents.strings ≡ heard_of spoken))) }
    ensures refused { IfOk result (λ found. IfErr found
        (IsLeastAmong (list_or_text_faults bytes.entry.now))) }
{
    match read_list(alloc, bytes) {
        Err(fault) if fault.cause == Cause::OutOfMemory => Err(AllocError),
        found => Ok(found),
    }
}
