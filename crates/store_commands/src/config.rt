//! The configuration text of `--config`.

ghost use Rattle.std.specs.Prelude.{◌≡◌, Ok, IfErr, IfOk, MatchResult, map, option_map};
ghost use Rattle.hii_bytes.specs.Watching.{Puts};
ghost use Rattle.ifr_nodes.specs.Nodes.{nodes_of};
ghost use Rattle.ifr_scopes.specs.code.Lists.{store_node};
ghost use Rattle.exported_config.specs.code.Views.{IsUnread, exported_view, named_view};
ghost use Rattle.store_commands.specs.Configured as spec;
ghost use Rattle.store_commands.specs.Configured.{IsText, bad_response, bad_response_told};
ghost use Rattle.store_commands.specs.code.Sources.{IsUnsourced};

use crate::saying::{end_said, put_said};
use crate::sources::Unsourced;
use crate::store_files::StoreFiles;
use audit_json::Telling;
use audit_options::Sources;
use exported_config::{BadResponse, ExportedConfig, Part, StoreName, Unread};
use hii_bytes::Watched;
use ifr_scopes::Varstore;
use std::alloc::{AllocError, Global};
use std::io::Write;
use store_audit::Declared;

/// A store by its GUID and its name.
pub(crate) fn name_of(store: Varstore<'_>) -> StoreName<'_>
    ensures { named_view result ≡ spec.named_of (store_node store.entry) }
{
    StoreName {
        guid: store.guid().bytes(),
        name: store.name(),
    }
}

// The stores of a form set by GUID and name.
fn names_of<'a>(alloc: Global, declared: &Declared<'a>) -> Result<Vec<StoreName<'a>>, AllocError>
    ensures { IfOk result (λ names. map named_view names.items ≡ spec.names_of (nodes_of declared.now)) }
{
    let mut names = Vec::new(alloc);
    let mut stores = declared.forms().stores();
    while let Some(store) = stores.next() {
        names.push(name_of(store))?;
    }
    Ok(names)
}

/// The bytes of the configuration text, or none where there is none.
pub fn text_of<F: StoreFiles>(
    alloc: Global,
    files: &F,
    sources: &Sources<'_>,
) -> Result<Vec<u8>, Unsourced>
    ensures text { IfOk result (λ text. IsText (F.known files.now) (option_map (λ path. path.now) sources.now.config) text.items) }
    ensures err { IfErr result IsUnsourced }
{
    let Some(path) = sources.config else {
        return Ok(Vec::new(alloc));
    };
    match files.read_config(path) {
        Ok(file) => Ok(file.bytes),
        Err(status) => Err(Unsourced::Unread(status)),
    }
}

/// What a configuration text gives to the stores of a form set.
pub fn config_in<'t>(
    alloc: Global,
    declared: &Declared<'_>,
    text: &'t [u8],
) -> Result<ExportedConfig<'t>, Unread>
    ensures { MatchResult result (λ config. spec.config_in declared.now text.entry.now ≡ Ok (exported_view config))
        (λ unread. IsUnread unread (spec.config_in declared.now text.entry.now)) }
{
    let names = names_of(alloc, declared)?;
    ExportedConfig::read(alloc, &names, text)
}

fn part_word(part: Part) -> &'static [u8]
    ensures { result.now ≡ spec.part_word part }
{
    match part {
        Part::Guid => b"GUID",
        Part::Name => b"NAME",
        Part::Offset => b"OFFSET",
        Part::Width => b"WIDTH",
        Part::Value => b"VALUE",
        Part::NoGuid => b"no GUID",
        Part::NoValue => b"no value",
    }
}

/// Tells what is bad in a response of a configuration text.
pub fn put_bad_response<W: Write>(telling: Telling, bad: BadResponse, out: &mut Watched<W>)
    ensures { Puts W.contents out.old out.new (bad_response_told telling bad) }
{
    put_said(telling, out);
    put_bad_words(bad, out);
    end_said(telling, out);
}

fn put_bad_words<W: Write>(bad: BadResponse, out: &mut Watched<W>)
    ensures { Puts W.contents out.old out.new (bad_response bad) }
{
    out.put(b"config response ");
    out.put_decimal(bad.number as u64);
    out.put(b": ");
    out.put(part_word(bad.part));
}
