//! Where the bytes of an image come from.

ghost use Rattle.std.specs.Prelude.{◌≡◌, IfErr, IfOk, drop, map, option_map, string_bytes};
ghost use Rattle.std.specs.List.{AllByRecursion};
ghost use Rattle.ifr_nodes.specs.Nodes.{nodes_of};
ghost use Rattle.ifr_scopes.specs.code.Lists.{store_node};
ghost use Rattle.store_audit.specs.Fillings.{buffer_stores};
ghost use Rattle.store_audit.specs.code.Fillings.{filling_node};
ghost use Rattle.exported_config.specs.code.Views.{exported_view};
ghost use Rattle.store_commands.specs.Files.{IsFile, attributes};
ghost use Rattle.store_commands.specs.Sources.{IsFallback, IsSource, filler, given_of, variable_path};
ghost use Rattle.store_commands.specs.code.Sources.{IsUnsourced};

use crate::config::name_of;
use crate::store_files::StoreFiles;
use audit_answers::last_given;
use audit_options::Sources;
use audit_text::{Case, guid_digits};
use exported_config::ExportedConfig;
use hii_bytes::laws::are_bytes;
use ifr_scopes::Varstore;
use setup_files::Status;
use std::alloc::{AllocError, Global};
use std::str;
use store_audit::{Declared, Filling, Source};

// How many bytes a variable's attributes take in its file.
const ATTRIBUTES: usize = 4;

// How many bytes of a file, which is that of a variable or not, stand before those of a store.
fn attributes(is_variable: bool) -> usize
    ensures { result ≡ attributes is_variable }
{
    if is_variable { ATTRIBUTES } else { 0 }
}

/// Why a store has no source.
#[derive(Clone, Copy)]
pub enum Unsourced {
    /// A file was not read, and the program ends with this status.
    Unread(Status),
    /// An allocation failed.
    NoMemory,
}

impl From<AllocError> for Unsourced {
    ghost use Rattle.store_commands.specs.declared.sources.Unsourced.TheVariants.{NoMemory};

    ghost from_gives = { λ _ unsourced. unsourced ≡ NoMemory };

    fn from(_failed: AllocError) -> Unsourced {
        Unsourced::NoMemory
    }
}

/// The stores that hold bytes, by place, and where the bytes of each come from.
pub fn fillings<'a, F: StoreFiles>(
    alloc: Global,
    files: &F,
    declared: &Declared<'a>,
    sources: &Sources<'_>,
    config: &ExportedConfig<'_>,
) -> Result<Vec<Filling<'a>>, Unsourced>
    ensures all { IfOk result (λ fillings. map filling_node fillings.items
        ≡ buffer_stores (nodes_of declared.now)) }
    ensures sources { IfOk result (λ fillings.
        AllByRecursion (λ f. IsSource (F.known files.now) sources.now (exported_view config.now) (filling_node f) f.source)
        fillings.items) }
    ensures err { IfErr result IsUnsourced }
{
    let mut fillings = Vec::new(alloc);
    let mut stores = declared.forms().stores();
    while let Some(store) = stores.next() {
        if store.size().is_some() {
            let source = source(alloc, files, sources, config, store)?;
            if fillings.push(Filling { store, source }).is_err() {
                return Err(Unsourced::NoMemory);
            }
        }
    }
    Ok(fillings)
}

// Where the bytes of a store come from: the last file that is given to it, else the file of its variable, else the configuration
// text, else zeros.
fn source<F: StoreFiles>(
    alloc: Global,
    files: &F,
    sources: &Sources<'_>,
    config: &ExportedConfig<'_>,
    store: Varstore<'_>,
) -> Result<Source, Unsourced>
    ensures source { IfOk result
        (IsSource (F.known files.now) sources.now (exported_view config.now) (store_node store.entry)) }
    ensures err { IfErr result IsUnsourced }
{
    if let Some(given) = last_given(sources.files.as_slice(), store.id()) {
        return file_from(alloc, files, store.id(), given.path, false);
    }
    let path = match sources.efivars {
        Some(folder) => variable_path(alloc, folder, store)?,
        None => None,
    };
    match path {
        Some(path) if files.is_there(path.as_str()) => {
            file_from(alloc, files, store.id(), path.as_str(), true)
        }
        _ => fallback(alloc, config, store, sources.zero),
    }
}

// What the configuration text gives to a store, else zeros or nothing.
fn fallback(
    alloc: Global,
    config: &ExportedConfig<'_>,
    store: Varstore<'_>,
    zero: bool,
) -> Result<Source, Unsourced>
    ensures source { IfOk result (IsFallback (given_of (exported_view config.now) (store_node store.entry)) zero) }
    ensures err { IfErr result IsUnsourced }
{
    let size = store.size().unwrap_or(0);
    match config.given_to(alloc, name_of(store), size)? {
        Some(given) => Ok(Source::Config(given)),
        None => Ok(filler(zero)),
    }
}

fn filler(zero: bool) -> Source
    ensures { result ≡ filler zero }
{
    if zero { Source::Zeros } else { Source::Missing }
}

// The bytes of a file for the store of an id, without the attributes of a variable.
fn file_from<F: StoreFiles>(
    alloc: Global,
    files: &F,
    id: u16,
    path: &str,
    is_variable: bool,
) -> Result<Source, Unsourced>
    ensures file { IfOk result (IsFile (F.known files.now) path.now is_variable) }
    ensures err { IfErr result IsUnsourced }
{
    let file = match files.read(path, id) {
        Ok(file) => file,
        Err(status) => return Err(Unsourced::Unread(status)),
    };
    let path = String::from_str(alloc, file.path)?;
    let mut bytes = file.bytes;
    remove_front(&mut bytes, attributes(is_variable));
    Ok(Source::File {
        path,
        bytes,
        is_variable,
    })
}

// Removes the first bytes, or all where there are no more.
fn remove_front(bytes: &mut Vec<u8>, count: usize)
    ensures { bytes.new.items ≡ drop count bytes.old.items }
{
    let len = bytes.len();
    let from = count.min(len);
    bytes.copy_within(from..len, 0);
    bytes.truncate(len - from);
}

// The path of the file of a variable, unless its name is none of a file.
fn variable_path(
    alloc: Global,
    folder: &str,
    store: Varstore<'_>,
) -> Result<Option<String>, AllocError>
    ensures { IfOk result (λ path. option_map string_bytes path
        ≡ variable_path folder.now (store_node store.entry)) }
{
    let guid = store.guid();
    are_bytes(guid.bytes());
    let digits = guid_digits(guid, Case::Lower);
    let (Ok(name), Ok(guid)) = (
        str::from_utf8(store.name()),
        str::from_utf8(digits.as_slice()),
    ) else {
        return Ok(None);
    };
    if store.name().contains(&b'/') {
        return Ok(None);
    }
    let mut path = String::from_str(alloc, folder)?;
    path.push_str("/")?;
    path.push_str(name)?;
    path.push_str("-")?;
    path.push_str(guid)?;
    Ok(Some(path))
}
