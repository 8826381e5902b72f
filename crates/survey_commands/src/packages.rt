//! The forms packages of a list.

ghost use Rattle.std.specs.Prelude.{◌≡◌, ◌+◌, ◌<◌, ◌^◌, [], List, ℕ, IfErr, OnErr, OnOk, Ok, length};
ghost use Rattle.exported_config.specs.Exported.{Response, responses_in};
ghost use Rattle.hii_bytes.specs.Watching.{Puts};
ghost use Rattle.store_commands.specs.code.Sources.{IsUnsourced};
ghost use Rattle.survey_commands.specs.Surveying.{AreFirst, BeginsList, Found, all_told};
ghost use Rattle.survey_commands.specs.code.Views.{IsSoundList, asked_view, numbered};

use crate::asked::Asked;
use crate::lists::SoundList;
use crate::sets::put_set;
use hii_bytes::Watched;
use hii_dumps::DumpedList;
use hii_packages::FORMS;
use std::alloc::Global;
use std::io::Write;
use store_commands::{StoreFiles, Unsourced};
use survey_audit::Heading;

/// Tells what is found of each forms package of a list of a number, in order and numbered from 1. Where an allocation fails or a file is not
/// read, the forms packages before it are told, and the beginning of the one that it was for.
pub(crate) fn put_packages<'a, F: StoreFiles, W: Write>(
    alloc: Global,
    asked: &Asked<'_, '_, F>,
    list_number: u64,
    list: DumpedList<'_>,
    sound: &SoundList<'a>,
    out: &mut Watched<W>,
) -> Result<(), Unsourced>
    requires in_dump { list.place + length list.bytes.now < 2 ^ 64 }
    requires read { IsSoundList list.bytes.now sound.now }
    requires sound { (responses : List Response) × (responses_in asked.now.text.now ≡ Ok responses) }
    ensures told { OnOk result ((found : List Found)
        × AreFirst (asked_view F.known asked.now) list.entry.bytes.now found []
        × Puts W.contents out.old out.new
        (all_told (asked_view F.known asked.now) (numbered list_number list.entry) 1 found)) }
    ensures begun { OnErr result ((text : List ℕ)
        × BeginsList (asked_view F.known asked.now) (numbered list_number list.entry) text
        × Puts W.contents out.old out.new text) }
    ensures err { IfErr result IsUnsourced }
{
    let mut number = 0;
    for source in sound.packages.packages() {
        if source.kind == FORMS {
            number += 1;
            let heading = Heading {
                telling: asked.telling,
                list: list_number,
                number,
                strings: &sound.strings,
                source,
                base: list.place + source.place,
            };
            put_set(alloc, asked, heading, &sound.languages, out)?;
        }
    }
    Ok(())
}
