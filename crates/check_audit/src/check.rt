//! What is found of a list.

ghost use Rattle.std.specs.Prelude.{◌≡◌, ◌+◌, ◌<◌, ◌^◌, [], ℕ, List, IfOk, IfErr, OnErr, length};
ghost use Rattle.browser_rules.specs.Faults.{list_faults};
ghost use Rattle.hii_bytes.specs.Faults.{HasNone, Refuses};
ghost use Rattle.hii_bytes.specs.Watching.{Puts};
ghost use Rattle.hii_packages.specs.code.Package.{package_of};
ghost use Rattle.opcode_audit.specs.Lines.{said_first};
ghost use Rattle.check_audit.specs.Checks.{BeginsCheck, IsCheck, TellsAll, judged_told};
ghost use Rattle.check_audit.specs.Lacks.{lacks_in};
ghost use Rattle.check_audit.specs.Verdicts.{IsListFault, IsVerdict, is_good as is_good_verdict};
ghost use Rattle.check_audit.specs.code.Settings.{told_in};
ghost use Rattle.check_audit.specs.declared.verdict.Verdict.{Verdict as Found};

use crate::lacks::Lacks;
use crate::package_lines::put_package;
use crate::refusal::put_list_refusal;
use crate::setting::Setting;
use crate::verdict::Verdict;
use audit_json::Telling;
use hii_bytes::{Cause, Fault, Watched};
use hii_packages::{FORMS, Package, PackageList};
use opcode_audit::FirstStrings;
use std::alloc::{AllocError, Global};
use std::io::Write;

// A list that has no fault but those of its forms packages.
#[derive(Drop)]
struct SoundList<'a> {
    packages: PackageList<'a>,
    strings: FirstStrings<'a>,
    lacks: Lacks<'a>,
}

// How forms packages are told.
#[derive(Clone, Copy)]
struct Told<'s, 'a> {
    telling: Telling,
    strings: &'s FirstStrings<'a>,
    lacks: &'s Lacks<'a>,
    // The offset of the list in the file that was given.
    start: u64,
}

/// Tells of each forms package of a list, in order and numbered from 1, which form set it is and whether it has a fault, and answers
/// whether none has one (own rule). Of one without a fault it tells how many forms, questions and stores it has, and what is strange of
/// it, by place; else the least fault, by which setup refuses it over any image, its byte in the file, in which the list begins at
/// `start`, the opcode there, the last form and the last question before it, and from what such a fault mostly comes. A list with a fault
/// of its packages (1 to 5), without a forms package (6) or with a fault of its string packages (7 to 10) is refused as a whole, by the
/// least one. Texts are those of the first string package. Where an allocation fails, the packages before the one that it was for are
/// told.
pub fn put_check<W: Write>(
    alloc: Global,
    telling: Telling,
    list: &[u8],
    start: u64,
    out: &mut Watched<W>,
) -> Result<bool, AllocError>
    requires { start + length list.now < 2 ^ 64 }
    ensures told { IfOk result (λ is_good. (text : List ℕ) × IsCheck telling list.now start is_good text
        × Puts W.contents out.old out.new text) }
    ensures begun { OnErr result ((text : List ℕ) × BeginsCheck telling list.now start text
        × Puts W.contents out.old out.new text) }
{
    match read_list(alloc, list) {
        Ok(sound) => {
            let told = Told {
                telling,
                strings: &sound.strings,
                lacks: &sound.lacks,
                start,
            };
            put_packages(alloc, told, &sound.packages, out)
        }
        Err(fault) if fault.cause == Cause::OutOfMemory => Err(AllocError),
        Err(fault) => {
            put_list_refusal(telling, start, fault, out);
            Ok(false)
        }
    }
}

// The list, or the least fault for which none of its forms packages is looked at, or that an allocation failed.
fn read_list(alloc: Global, list: &[u8]) -> Result<SoundList<'_>, Fault>
    ensures read { IfOk result (λ sound. (sound.packages ≡ list.entry.now)
        × (sound.strings ≡ said_first list.entry.now) × (sound.lacks ≡ lacks_in list.entry.now)) }
    ensures whole { IfOk result (λ sound. list_faults list.entry.now ≡ []) }
    ensures sound { IfOk result (λ sound. HasNone (IsListFault list.entry.now)) }
    ensures refused { IfErr result (Refuses (IsListFault list.entry.now)) }
{
    let packages = PackageList::read(list)?;
    packages.forms(1)?;
    let lacks = Lacks::read(alloc, &packages)?;
    let strings = FirstStrings::read(alloc, &packages)?;
    Ok(SoundList {
        packages,
        strings,
        lacks,
    })
}

// Tells of a forms package whether it has a fault, and whether it has none. Where an allocation fails nothing is told.
fn put_source<W: Write>(
    alloc: Global,
    told: Told<'_, '_>,
    number: u64,
    source: Package<'_>,
    out: &mut Watched<W>,
) -> Result<bool, AllocError>
    requires { told.start + source.place < 2 ^ 64 }
    ensures told { IfOk result (λ is_good. (verdict : Found) × IsVerdict told.entry.strings.now told.entry.lacks.now
        source.entry.bytes.now verdict
        × (is_good ≡ is_good_verdict verdict) × Puts W.contents out.old out.new
        (judged_told (told_in told.entry) number record { source = package_of source.entry; verdict = verdict })) }
    ensures nothing { OnErr result (out.new ≡ out.old) }
{
    let verdict = Verdict::of(alloc, told.strings, told.lacks, source)?;
    let setting = Setting {
        telling: told.telling,
        strings: told.strings,
        lacks: told.lacks,
        base: told.start + source.place,
    };
    put_package(setting, number, source, &verdict, out);
    Ok(verdict.is_good())
}

// Tells of each forms package of a list whether it has a fault, and whether none has one.
fn put_packages<W: Write>(
    alloc: Global,
    told: Told<'_, '_>,
    packages: &PackageList<'_>,
    out: &mut Watched<W>,
) -> Result<bool, AllocError>
    requires in_file { told.start + length packages.now < 2 ^ 64 }
    requires strings { told.strings.now ≡ said_first packages.now }
    requires lacks { told.lacks.now ≡ lacks_in packages.now }
    requires sound { list_faults packages.now ≡ [] }
    ensures told { IfOk result (λ is_good. (text : List ℕ)
        × TellsAll told.entry.telling packages.now told.entry.start is_good text × Puts W.contents out.old out.new text) }
    ensures begun { OnErr result ((text : List ℕ)
        × BeginsCheck told.entry.telling packages.now told.entry.start text × Puts W.contents out.old out.new text) }
{
    let mut number = 0;
    let mut is_good = true;
    for source in packages.packages() {
        if source.kind == FORMS {
            number += 1;
            let is_next_good = put_source(alloc, told, number, source, out)?;
            is_good = is_good && is_next_good;
        }
    }
    Ok(is_good)
}
