//! The lists of a dump.

ghost use Rattle.std.specs.Prelude.{◌≡◌, ◌⊎◌, ◌+◌, ◌<◌, ◌^◌, [], List, ℕ, IfErr, IfOk, OnErr, OnOk, Ok, length};
ghost use Rattle.exported_config.specs.Exported.{Response, responses_in};
ghost use Rattle.hii_bytes.specs.Faults.{Refuses};
ghost use Rattle.hii_bytes.specs.Watching.{Puts};
ghost use Rattle.check_audit.specs.Verdicts.{IsListFault};
ghost use Rattle.store_commands.specs.code.Sources.{IsUnsourced};
ghost use Rattle.survey_commands.specs.Surveying.{BeginsList, BeginsSurvey, Contents, IsSurvey, IsSurveyed, contents_told};
ghost use Rattle.survey_commands.specs.code.Views.{IsSoundList, asked_view, numbered};

use crate::asked::Asked;
use crate::packages::put_packages;
use dump_audit::put_no_list;
use hii_bytes::{Cause, Fault, Watched};
use hii_dumps::{Dump, DumpedList};
use hii_languages::Languages;
use hii_packages::PackageList;
use opcode_audit::FirstStrings;
use std::alloc::Global;
use std::io::Write;
use store_commands::{StoreFiles, Unsourced};
use survey_audit::put_list_fault;

/// A list that has no fault but those of its forms packages.
#[derive(Drop)]
pub(crate) struct SoundList<'a> {
    pub packages: PackageList<'a>,
    pub languages: Languages<'a>,
    /// The texts of the first string package.
    pub strings: FirstStrings<'a>,
}

// The list, or the least fault for which none of its forms packages is looked at, or that an allocation failed.
fn read_list(alloc: Global, list: &[u8]) -> Result<SoundList<'_>, Fault>
    ensures read { IfOk result (IsSoundList list.entry.now) }
    ensures refused { IfErr result (Refuses (IsListFault list.entry.now)) }
{
    let packages = PackageList::read(list)?;
    packages.forms(1)?;
    let languages = Languages::read(alloc, &packages)?;
    let strings = FirstStrings::read(alloc, &packages)?;
    Ok(SoundList {
        packages,
        languages,
        strings,
    })
}

// Tells what is found of a list of a number. Where an allocation fails or a file is not read, nothing of it is told, or its first forms
// packages and the beginning of the next one.
fn put_list<F: StoreFiles, W: Write>(
    alloc: Global,
    asked: &Asked<'_, '_, F>,
    number: u64,
    list: DumpedList<'_>,
    out: &mut Watched<W>,
) -> Result<(), Unsourced>
    requires in_dump { list.place + length list.bytes.now < 2 ^ 64 }
    requires sound { (responses : List Response) × (responses_in asked.now.text.now ≡ Ok responses) }
    ensures told { OnOk result ((contents : Contents)
        × IsSurveyed (asked_view F.known asked.now) list.entry.bytes.now contents
        × Puts W.contents out.old out.new
        (contents_told (asked_view F.known asked.now) (numbered number list.entry) contents)) }
    ensures begun { OnErr result ((text : List ℕ)
        × ((text ≡ []) ⊎ BeginsList (asked_view F.known asked.now) (numbered number list.entry) text)
        × Puts W.contents out.old out.new text) }
    ensures err { IfErr result IsUnsourced }
{
    match read_list(alloc, list.bytes) {
        Ok(sound) => put_packages(alloc, asked, number, list, &sound, out),
        Err(fault) if fault.cause == Cause::OutOfMemory => Err(Unsourced::NoMemory),
        Err(fault) => {
            put_list_fault(asked.telling, number, fault, out);
            Ok(())
        }
    }
}

/// Tells what is found of each list of a dump, in order and numbered from 1, or that there is none, and answers whether there is one. Where
/// an allocation fails or a file is not read, what stands before it is told, and the beginning of what it was for.
pub(crate) fn put_survey<F: StoreFiles, W: Write>(
    alloc: Global,
    asked: &Asked<'_, '_, F>,
    dump: &[u8],
    out: &mut Watched<W>,
) -> Result<bool, Unsourced>
    requires sound { (responses : List Response) × (responses_in asked.now.text.now ≡ Ok responses) }
    ensures told { IfOk result (λ is_some. (text : List ℕ)
        × IsSurvey (asked_view F.known asked.now) is_some dump.now text × Puts W.contents out.old out.new text) }
    ensures begun { OnErr result ((text : List ℕ)
        × BeginsSurvey (asked_view F.known asked.now) dump.now text × Puts W.contents out.old out.new text) }
    ensures err { IfErr result IsUnsourced }
{
    let split = Dump::read(dump);
    let mut number = 1;
    for list in split.lists() {
        put_list(alloc, asked, number, list, out)?;
        number += 1;
    }
    if number > 1 {
        return Ok(true);
    }
    put_no_list(asked.telling, 1, out);
    Ok(false)
}
