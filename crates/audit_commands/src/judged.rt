//! A forms package whose opcodes are told, though setup may refuse it.

ghost use Rattle.std.specs.Prelude.{◌≡◌, IfOk, IfErr};
ghost use Rattle.hii_bytes.specs.Faults.{HasNone, Refuses};
ghost use Rattle.session_steps.specs.Opening.{IsSourceFault};
ghost use Rattle.audit_commands.specs.Opcodes.{IsListFault};
ghost use Rattle.audit_commands.specs.code.Judged.{IsJudged, IsVerdict};

use hii_bytes::{Cause, Fault};
use hii_languages::Languages;
use hii_packages::{Package, PackageList};
use opcode_audit::FirstStrings;
use std::alloc::{AllocError, Global};
use store_audit::Declared;

/// A forms package of a list, what is said of its string ids, and the fault by which setup refuses the list over any image.
#[derive(Drop)]
pub(crate) struct JudgedPackage<'a> {
    pub source: Package<'a>,
    pub strings: FirstStrings<'a>,
    pub fault: Option<Fault>,
}

impl<'a> JudgedPackage<'a> {
    /// The forms package of a number in a list; or the least fault of the list's packages (1 to 5), that there is no such forms
    /// package (6), or that an allocation failed.
    pub(crate) fn read(
        alloc: Global,
        list: &'a [u8],
        forms: usize,
    ) -> Result<JudgedPackage<'a>, Fault>
        ensures read { IfOk result (IsJudged list.entry.now forms) }
        ensures refused { IfErr result (Refuses (IsSourceFault list.entry.now forms)) }
    {
        let packages = PackageList::read(list)?;
        let source = packages.forms(forms)?;
        Ok(JudgedPackage {
            source,
            strings: FirstStrings::read(alloc, &packages)?,
            fault: refusal(alloc, &packages, list, forms)?,
        })
    }
}

// The fault by which setup refuses a list, if it does.
fn refusal(
    alloc: Global,
    packages: &PackageList<'_>,
    list: &[u8],
    forms: usize,
) -> Result<Option<Fault>, AllocError>
    requires read { packages.now ≡ list.now }
    requires sound { HasNone (IsSourceFault list.now forms) }
    ensures { IfOk result (IsVerdict list.now forms) }
{
    match check(alloc, packages, list, forms) {
        Ok(()) => Ok(None),
        Err(fault) if fault.cause == Cause::OutOfMemory => Err(AllocError),
        Err(fault) => Ok(Some(fault)),
    }
}

// Refuses what setup refuses of a list over any image, by its least fault, or where an allocation fails.
fn check(alloc: Global, packages: &PackageList<'_>, list: &[u8], forms: usize) -> Result<(), Fault>
    requires read { packages.now ≡ list.now }
    requires sound { HasNone (IsSourceFault list.now forms) }
    ensures sound { IfOk result (λ _. HasNone (IsListFault list.now forms)) }
    ensures refused { IfErr result (Refuses (IsListFault list.now forms)) }
{
    Languages::read(alloc, packages)?;
    Declared::read(alloc, list, forms)?;
    Ok(())
}
