//! Stores that are made of given bytes.

ghost use Rattle.std.specs.Prelude.{◌≡◌, ◌++◌, [], true, false, None, IfOk, IfErr, OnErr, OnOk, chars, length, map, find, flat_map, option_copied, option_map, codes};
ghost use Rattle.std.specs.Io.Buffered.{writer_buffer, writer_contents};
ghost use Rattle.audit_json.specs.Objects.{word_member};
ghost use Rattle.hii_bytes.specs.Faults.{out_of_memory};
ghost use Rattle.hii_bytes.specs.Watching.{Puts, has_failed, inner_of, pen_of};
ghost use Rattle.ifr_nodes.specs.Nodes.{nodes_of};
ghost use Rattle.hii_varstore.specs.Image.{image_of, SpellsImage};
ghost use Rattle.hii_varstore.specs.StoreNodes.{layout_of};
ghost use Rattle.hii_varstore.specs.Stores.{StoreMap, shape_of, with_bytes};
ghost use Rattle.hii_varstore.specs.code.Ranges.{HasRange};
ghost use Rattle.ifr_scopes.specs.code.Lists.{store_node};
ghost use Rattle.store_audit.specs.Defaulted.{defaults_told, left_by};
ghost use Rattle.store_audit.specs.Fillings as lines;
ghost use Rattle.store_audit.specs.Fillings.{buffer_stores};
ghost use Rattle.store_audit.specs.Images.{PutsImage};
ghost use Rattle.store_audit.specs.code.Defaulted.{defaults_view};
ghost use Rattle.store_audit.specs.code.Fillings as spec;

use crate::declared::Declared;
use crate::defaults::Defaults;
use crate::laying::put_defaults;
use audit_json::{
    Telling, end_object, put_escaped_name, put_json_str, put_kind, put_member, put_number,
    put_string, put_word,
};
use audit_text::{put_ascii_name, put_safe_text};
use exported_config::Given;
use hii_bytes::{Fault, Watched};
use hii_varstore::Stores;
use hii_varstore::laws::{images_are_read_back, one_map_is_spelled};
use ifr_scopes::Varstore;
use std::alloc::Global;
use std::io::{BufWriter, Write};

/// Where the bytes of a store come from.
#[derive(Drop)]
pub enum Source {
    /// A file of this path, which has these bytes; of a variable's file those behind its attributes.
    File {
        path: String,
        bytes: Vec<u8>,
        is_variable: bool,
    },
    /// The text of a firmware's ExportConfig.
    Config(Given),
    /// Zeros, as many as the store holds.
    Zeros,
    /// No bytes are given.
    Missing,
}

/// A store that holds bytes, and where they come from.
#[derive(Drop)]
pub struct Filling<'a> {
    /// The store.
    pub store: Varstore<'a>,
    /// Where its bytes come from.
    pub source: Source,
}

// Whether a text gives a store all of its bytes.
fn is_whole(given: &Given, size: usize) -> bool
    ensures { result ≡ lines.is_whole size given.now }
{
    given.count == size && given.bytes.len() == size
}

// Writes that bytes come from a text, and the name under which they stand there, where it is another one.
fn put_config<W: Write>(given: &Given, out: &mut Watched<W>)
    ensures { Puts W.contents out.old out.new (lines.config_text given.now) }
{
    out.put(b"config");
    if let Some(name) = &given.alias {
        out.put(b", where its name is ");
        put_ascii_name(out, name);
    }
}

impl Filling<'_> {
    ghost use Rattle.store_audit.specs.Fillings.{count_from, source_text};
    ghost use Rattle.store_audit.specs.code.Fillings.{is_fit, wanted};

    // How many bytes the store holds.
    fn wanted(&self) -> u16
        ensures { result ≡ wanted self.now }
    {
        self.store.size().unwrap_or(0)
    }

    // How many bytes it is given.
    fn given(&self) -> usize
        ensures { result ≡ count_from (wanted self.now) self.now.source }
    {
        match &self.source {
            Source::File { bytes, .. } => bytes.len(),
            Source::Config(given) => given.count,
            Source::Zeros => usize::from(self.wanted()),
            Source::Missing => 0,
        }
    }

    // Whether it is given as many bytes as it holds.
    fn is_fit(&self) -> bool
        ensures { result ≡ is_fit self.now }
    {
        match &self.source {
            Source::File { bytes, .. } => bytes.len() == usize::from(self.wanted()),
            Source::Config(given) => is_whole(given, usize::from(self.wanted())),
            Source::Zeros => true,
            Source::Missing => false,
        }
    }

    // Writes the path of the file, or a word for what is no file.
    fn put_source<W: Write>(&self, out: &mut Watched<W>)
        ensures { Puts W.contents out.old out.new (source_text self.now.source) }
    {
        match &self.source {
            Source::File { path, .. } => put_safe_text(out, path.as_str()),
            Source::Config(given) => put_config(given, out),
            Source::Zeros => out.put(b"zeros"),
            Source::Missing => out.put(b"-"),
        }
    }
}

/// The first store by place that is not given as many bytes as it holds.
pub fn first_unfit<'f, 'a>(fillings: &'f [Filling<'a>]) -> Option<&'f Filling<'a>>
    ensures { option_copied result ≡ find spec.is_unfit fillings.entry.now }
{
    for filling in fillings {
        if !filling.is_fit() {
            return Some(filling);
        }
    }
    None
}

// Writes the id and the name of a store.
fn put_names<W: Write>(store: Varstore<'_>, out: &mut Watched<W>)
    ensures { Puts W.contents out.old out.new (lines.names_text (store_node store.entry)) }
{
    out.put_decimal(u64::from(store.id()));
    out.put(b" ");
    put_ascii_name(out, store.name());
}

// Writes how many bytes a store is given, and how many it holds.
fn put_counts<W: Write>(filling: &Filling<'_>, out: &mut Watched<W>)
    ensures { Puts W.contents out.old out.new
        (lines.counts_text (spec.filling_node filling.now) filling.now.source) }
{
    out.put(b": ");
    out.put_decimal(filling.given() as u64);
    out.put(b" bytes given, ");
    out.put_decimal(u64::from(filling.wanted()));
    out.put(b" wanted");
}

// Writes why a store is not filled: it is given no bytes, or not as many as it holds.
fn put_reason<W: Write>(filling: &Filling<'_>, out: &mut Watched<W>)
    ensures { Puts W.contents out.old out.new
        (lines.reason (spec.filling_node filling.now) filling.now.source) }
{
    match &filling.source {
        Source::File { .. } => put_counts(filling, out),
        Source::Config(_) => put_counts(filling, out),
        Source::Zeros => put_counts(filling, out),
        Source::Missing => out.put(b": no bytes given"),
    }
}

/// Writes the line that refuses a store: it is given no bytes, or not as many as it holds.
pub fn put_unfit_line<W: Write>(filling: &Filling<'_>, out: &mut Watched<W>)
    ensures { Puts W.contents out.old out.new
        (lines.refused_line (spec.filling_node filling.now) filling.now.source) }
{
    out.put(b"store ");
    put_names(filling.store, out);
    put_reason(filling, out);
    out.put(b"\n");
}

/// Writes that line as a string of JSON.
pub fn put_unfit_string<W: Write>(filling: &Filling<'_>, out: &mut Watched<W>)
    ensures { Puts W.contents out.old out.new
        (lines.refused_string (spec.filling_node filling.now) filling.now.source) }
{
    out.put(b"\"store ");
    out.put_decimal(u64::from(filling.store.id()));
    out.put(b" ");
    put_escaped_name(filling.store.name(), out);
    put_reason(filling, out);
    out.put(b"\"");
}

// Writes the object that refuses a store.
fn put_unfit_object<W: Write>(filling: &Filling<'_>, out: &mut Watched<W>)
    ensures { Puts W.contents out.old out.new
        (lines.refused_object (spec.filling_node filling.now) filling.now.source) }
{
    put_kind(b"error", out);
    put_member(b"text", out);
    put_unfit_string(filling, out);
    end_object(out);
}

// Tells that a store is not filled.
fn put_unfit<W: Write>(telling: Telling, filling: &Filling<'_>, out: &mut Watched<W>)
    ensures { Puts W.contents out.old out.new (spec.refused_filling telling filling.now) }
{
    match telling {
        Telling::Lines => put_unfit_line(filling, out),
        Telling::Objects => put_unfit_object(filling, out),
    }
}

// Writes the line of a store that is filled.
fn put_filling_line<W: Write>(filling: &Filling<'_>, out: &mut Watched<W>)
    ensures { Puts W.contents out.old out.new
        (lines.filled_line (spec.filling_node filling.now) filling.now.source) }
{
    out.put(b"STORE ");
    put_names(filling.store, out);
    out.put(b" ");
    out.put_decimal(filling.given() as u64);
    out.put(b" ");
    filling.put_source(out);
    out.put(b"\n");
}

// Writes the members that tell that bytes come from a text, and the name under which they stand there, where it is another one.
fn put_config_members<W: Write>(given: &Given, out: &mut Watched<W>)
    ensures { Puts W.contents out.old out.new (lines.config_members given.now) }
{
    put_word(b"source", b"config", out);
    if let Some(name) = &given.alias {
        put_string(b"alias", name, out);
    }
}

// Writes the member that tells which file bytes come from.
fn put_file_source<W: Write>(is_variable: bool, out: &mut Watched<W>)
    ensures { Puts W.contents out.old out.new
        (word_member (codes "source") (lines.file_word is_variable)) }
{
    if is_variable {
        put_word(b"source", b"variable", out);
    } else {
        put_word(b"source", b"file", out);
    }
}

// Writes the members that tell that bytes come from a file.
fn put_file_members<W: Write>(path: &str, is_variable: bool, out: &mut Watched<W>)
    ensures { Puts W.contents out.old out.new (lines.file_members (chars path.now) is_variable) }
{
    put_file_source(is_variable, out);
    put_member(b"path", out);
    put_json_str(path, out);
}

// Writes the members that tell where the bytes of a store come from.
fn put_source_members<W: Write>(source: &Source, out: &mut Watched<W>)
    ensures { Puts W.contents out.old out.new (lines.source_members source.now) }
{
    match source {
        Source::File {
            path,
            is_variable,
            ..
        } => put_file_members(path.as_str(), *is_variable, out),
        Source::Config(given) => put_config_members(given, out),
        Source::Zeros => put_word(b"source", b"zeros", out),
        Source::Missing => {}
    }
}

// Writes the members of a store that is filled.
fn put_filling_members<W: Write>(filling: &Filling<'_>, out: &mut Watched<W>)
    ensures { Puts W.contents out.old out.new
        (lines.filled_members (spec.filling_node filling.now) filling.now.source) }
{
    put_number(b"id", u64::from(filling.store.id()), out);
    put_string(b"name", filling.store.name(), out);
    put_number(b"size", filling.given() as u64, out);
    put_source_members(&filling.source, out);
}

// Writes the object of a store that is filled.
fn put_filling_object<W: Write>(filling: &Filling<'_>, out: &mut Watched<W>)
    ensures { Puts W.contents out.old out.new
        (lines.filled_object (spec.filling_node filling.now) filling.now.source) }
{
    put_kind(b"store", out);
    put_filling_members(filling, out);
    end_object(out);
}

// Tells a store that is filled.
fn put_filling<W: Write>(telling: Telling, filling: &Filling<'_>, out: &mut Watched<W>)
    ensures { Puts W.contents out.old out.new (spec.filling_told telling filling.now) }
{
    match telling {
        Telling::Lines => put_filling_line(filling, out),
        Telling::Objects => put_filling_object(filling, out),
    }
}

// Tells each store that is filled, with the source of its bytes.
fn put_fillings<W: Write>(telling: Telling, fillings: &[Filling<'_>], out: &mut Watched<W>)
    ensures { Puts W.contents out.old out.new (flat_map (spec.filling_told telling) fillings.now) }
{
    for filling in fillings {
        put_filling(telling, filling, out);
    }
}

// Puts the bytes of a file into the store of an id, from its first byte on.
fn put_bytes(stores: &mut Stores, id: u16, bytes: &[u8])
    requires { HasRange (shape_of stores.old) id 0 (length bytes.now) }
    ensures { stores.new ≡ with_bytes stores.old id 0 bytes.now }
{
    stores.field_mut(id, 0, bytes.len()).copy_from_slice(bytes);
}

// Puts what a store is given into stores that hold zeros there.
fn fill(stores: &mut Stores, filling: &Filling<'_>)
    requires { HasRange (shape_of stores.old) (spec.filling_id filling.now) 0
        (length (spec.file_bytes filling.now.source)) }
    ensures { stores.new ≡ spec.filled_with filling.now stores.old }
{
    match &filling.source {
        Source::File { bytes, .. } => put_bytes(stores, filling.store.id(), bytes),
        Source::Config(given) => put_bytes(stores, filling.store.id(), &given.bytes),
        Source::Zeros | Source::Missing => {}
    }
}

/// The stores of a form set, each filled with the bytes that it is given, or OutOfMemory (60) at 0 where an allocation fails.
pub fn filled(
    alloc: Global,
    declared: &Declared<'_>,
    fillings: &[Filling<'_>],
) -> Result<Stores, Fault>
    requires all { map spec.filling_node fillings.now ≡ buffer_stores (nodes_of declared.now) }
    requires fit { find spec.is_unfit fillings.now ≡ None }
    ensures made { IfOk result (λ stores. stores
        ≡ spec.stores_of (layout_of (nodes_of declared.now)).guid fillings.now) }
    ensures laid { IfOk result (λ stores. shape_of stores ≡ layout_of (nodes_of declared.now)) }
    // What is read from the image of these stores are the given bytes, store by store.
    ensures read_back { IfOk result (λ stores. (read : StoreMap)
        → SpellsImage (layout_of (nodes_of declared.now)) (image_of stores) read
        → map (λ s. s.bytes) read.stores ≡ map spec.filling_bytes fillings.now) }
    ensures refused { IfErr result (λ fault. fault ≡ out_of_memory) }
{
    images_are_read_back();
    one_map_is_spelled();
    let layout = declared.layout();
    let mut stores = Stores::zeros(alloc, layout)?;
    for filling in fillings {
        fill(&mut stores, filling);
    }
    Ok(stores)
}

// Tells each store that is filled, lays defaults over the stores, if they are asked for, and tells how many were taken.
fn put_lines<'a, W: Write>(
    telling: Telling,
    declared: &Declared<'a>,
    fillings: &[Filling<'_>],
    defaults: Option<Defaults<'a, '_>>,
    stores: &mut Stores,
    out: &mut Watched<W>,
)
    requires { shape_of stores.old ≡ layout_of (nodes_of declared.now) }
    ensures shape { shape_of stores.new ≡ shape_of stores.old }
    ensures laid { stores.new ≡ left_by declared.now (option_map defaults_view defaults.entry) stores.old }
    ensures text { Puts W.contents out.old out.new (flat_map (spec.filling_told telling) fillings.now
        ++ defaults_told telling declared.now (option_map defaults_view defaults.entry) stores.old) }
{
    put_fillings(telling, fillings, out);
    put_defaults(telling, declared, defaults, stores, out);
}

/// Fills the stores of a form set, lays defaults over them, if they are asked for, and writes their image: each store and the count of
/// the defaults are told, which is passed on, and then the image is written into a file.
/// Where a store is not given as many bytes as it holds, the first such store is told and that not passed on, and no image
/// is written; nor is it where the answers fail. Tells whether each store is given what it holds. OutOfMemory (60) at 0 where an allocation
/// fails; then nothing is written.
pub fn put_image<'a, W: Write + Drop, F: Write>(
    telling: Telling,
    alloc: Global,
    declared: &Declared<'a>,
    fillings: &[Filling<'_>],
    defaults: Option<Defaults<'a, '_>>,
    out: &mut Watched<BufWriter<W>>,
    file: &mut Watched<F>,
) -> Result<bool, Fault>
    requires { map spec.filling_node fillings.now ≡ buffer_stores (nodes_of declared.now) }
    ensures done { IfOk result (λ is_filled. PutsImage F.contents
        (option_map (spec.refused_filling telling) (find spec.is_unfit fillings.now))
        (left_by declared.now (option_map defaults_view defaults.entry)
        (spec.stores_of (layout_of (nodes_of declared.now)).guid fillings.now))
        (flat_map (spec.filling_told telling) fillings.now
        ++ defaults_told telling declared.now (option_map defaults_view defaults.entry)
        (spec.stores_of (layout_of (nodes_of declared.now)).guid fillings.now)) is_filled
        (pen_of (writer_contents W.contents) out.old) (pen_of (writer_contents W.contents) out.new)
        file.old file.new) }
    // What is read from the image is what the defaults leave.
    ensures laid_back { find spec.is_unfit fillings.now ≡ None → OnOk result ((read : StoreMap)
        → SpellsImage (layout_of (nodes_of declared.now))
        (image_of (left_by declared.now (option_map defaults_view defaults.entry)
        (spec.stores_of (layout_of (nodes_of declared.now)).guid fillings.now))) read
        → read ≡ left_by declared.now (option_map defaults_view defaults.entry)
        (spec.stores_of (layout_of (nodes_of declared.now)).guid fillings.now)) }
    // Without defaults these are the given bytes, store by store.
    ensures read_back { find spec.is_unfit fillings.now ≡ None → OnOk result ((read : StoreMap)
        → SpellsImage (layout_of (nodes_of declared.now))
        (image_of (spec.stores_of (layout_of (nodes_of declared.now)).guid fillings.now)) read
        → map (λ s. s.bytes) read.stores ≡ map spec.filling_bytes fillings.now) }
    ensures none_held { IfOk result (λ is_filled. is_filled ≡ true → has_failed out.new ≡ false
        → writer_buffer (inner_of out.new) ≡ []) }
    ensures refused { IfErr result (λ fault. fault ≡ out_of_memory) }
    ensures nothing { OnErr result ((out.new ≡ out.old) × (file.new ≡ file.old)) }
{
    if let Some(filling) = first_unfit(fillings) {
        put_unfit(telling, filling, out);
        return Ok(false);
    }
    images_are_read_back();
    one_map_is_spelled();
    let mut stores = filled(alloc, declared, fillings)?;
    put_lines(telling, declared, fillings, defaults, &mut stores, out);
    if out.pass_on().is_ok() {
        // A file that fails knows it.
        let _ = stores.image_into(file);
    }
    Ok(true)
}
