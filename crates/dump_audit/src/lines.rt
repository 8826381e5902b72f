//! What is told of a dump, in lines or as objects.

ghost use Rattle.std.specs.Prelude.{◌≡◌, ℕ, List, length, IfOk, OnOk, OnErr};
ghost use Rattle.std.specs.List.{concat};
ghost use Rattle.hii_bytes.specs.Watching.{Puts};
ghost use Rattle.hii_dumps.specs.code.Lists.{entry_of};
ghost use Rattle.hii_packages.specs.Packages.{packages_of};
ghost use Rattle.browser_rules.specs.Strings.{Spoken};
ghost use Rattle.dump_audit.specs.Findings.{Finding, IsFound};
ghost use Rattle.dump_audit.specs.Lines.{contents_text, finding_text, head_text, line, list_told, no_list_text, no_list_told, rest_line, rest_told, IsSplitText, BeginsSplitText};
ghost use Rattle.dump_audit.specs.Objects.{list_object};
ghost use Rattle.dump_audit.specs.code.Heard.{heard_of};
ghost use Rattle.dump_audit.specs.code.Found.{IsOf};

use crate::contents::{forms_count, put_form_sets};
use crate::findings::{Contents, find};
use crate::objects::{put_finding_members, put_head_members, put_no_list_object, put_rest_object};
use audit_json::{Telling, end_object, put_kind};
use audit_text::put_safe_shown;
use hii_bytes::{Fault, Watched};
use hii_dumps::{Dump, DumpedList};
use std::alloc::{AllocError, Global};
use std::io::Write;

// Writes what the packages of a list are.
fn put_contents<W: Write>(contents: &Contents<'_>, out: &mut Watched<W>)
    ensures { (spoken : List Spoken) → contents.now.strings ≡ heard_of spoken
        → Puts W.contents out.old out.new (contents_text (packages_of contents.now.packages) spoken) }
{
    out.put(b"forms ");
    out.put_decimal(forms_count(&contents.packages));
    let title = put_form_sets(&contents.packages, out);
    out.put(b" strings ");
    contents.strings.put_languages(out);
    if let Some(id) = title {
        out.put(b" ");
        put_safe_shown(contents.strings.shown(id).chars(), out);
    }
}

// Writes which list a line is of: its number, its place and its length.
fn put_head<W: Write>(number: u64, list: DumpedList<'_>, out: &mut Watched<W>)
    ensures { Puts W.contents out.old out.new (head_text number (entry_of list.entry)) }
{
    out.put(b"LIST ");
    out.put_decimal(number);
    out.put(b" ");
    out.put_place(list.place);
    out.put(b" ");
    out.put_decimal(list.bytes.len() as u64);
    out.put(b" ");
}

// Writes what is found of a list.
fn put_finding<W: Write>(found: &Result<Contents<'_>, Fault>, out: &mut Watched<W>)
    ensures { (finding : Finding) → IsOf found.now finding
        → Puts W.contents out.old out.new (finding_text finding) }
{
    match found {
        Ok(contents) => put_contents(contents, out),
        Err(fault) => out.put_fault(*fault),
    }
}

// Writes the line of a list.
fn put_line<W: Write>(
    number: u64,
    list: DumpedList<'_>,
    found: &Result<Contents<'_>, Fault>,
    out: &mut Watched<W>,
)
    ensures { (finding : Finding) → IsOf found.now finding → Puts W.contents out.old out.new
        (line number record { entry = entry_of list.entry; finding = finding }) }
{
    put_head(number, list, out);
    put_finding(found, out);
    out.put(b"\n");
}

// Writes the object of a list.
fn put_object<W: Write>(
    number: u64,
    list: DumpedList<'_>,
    found: &Result<Contents<'_>, Fault>,
    out: &mut Watched<W>,
)
    ensures { (finding : Finding) → IsOf found.now finding
        → Puts W.contents out.old out.new (list_object number (entry_of list.entry) finding) }
{
    put_kind(b"list", out);
    put_head_members(number, list, out);
    put_finding_members(found, out);
    end_object(out);
}

/// Tells a list: its number, its place in the dump and its length in bytes, and then how many forms packages it has,
/// the GUIDs of the form sets with which they begin, the languages of its string packages, and the title of the first form set in
/// the first of these languages; of a list with a fault of its packages, or else of its string packages, the least fault (own rule).
/// Where an allocation fails nothing is written.
pub fn put_list<W: Write>(
    telling: Telling,
    alloc: Global,
    number: u64,
    list: DumpedList<'_>,
    out: &mut Watched<W>,
) -> Result<(), AllocError>
    ensures told { OnOk result ((finding : Finding) × IsFound list.entry.bytes.now finding
        × Puts W.contents out.old out.new (list_told telling number record {
          entry = entry_of list.entry;
          finding = finding;
        })) }
    ensures nothing { OnErr result (out.new ≡ out.old) }
{
    let found = find(alloc, list.bytes)?;
    match telling {
        Telling::Lines => put_line(number, list, &found, out),
        Telling::Objects => put_object(number, list, &found, out),
    }
    Ok(())
}

// Writes the line of a dump's rest, where the rest has some bytes.
fn put_rest_line<W: Write>(dump: &Dump<'_>, out: &mut Watched<W>)
    ensures { Puts W.contents out.old out.new
        (rest_line (length (concat dump.now.lists)) dump.now.rest) }
{
    if dump.rest().is_empty() {
        return;
    }
    out.put(b"REST ");
    out.put_place(dump.rest_place());
    out.put(b" ");
    out.put_decimal(dump.rest().len() as u64);
    out.put(b"\n");
}

/// Tells a dump's rest, its place and its length in bytes, where the rest has some (own rule).
pub fn put_rest<W: Write>(telling: Telling, dump: &Dump<'_>, out: &mut Watched<W>)
    ensures { Puts W.contents out.old out.new
        (rest_told telling (length (concat dump.now.lists)) dump.now.rest) }
{
    match telling {
        Telling::Lines => put_rest_line(dump, out),
        Telling::Objects => put_rest_object(dump, out),
    }
}

// Writes the line that there is no list of a number.
fn put_no_list_line<W: Write>(number: u64, out: &mut Watched<W>)
    ensures { Puts W.contents out.old out.new (no_list_text number) }
{
    out.put(b"NO LIST ");
    out.put_decimal(number);
    out.put(b"\n");
}

/// Tells that there is no list of a number (own rule).
pub fn put_no_list<W: Write>(telling: Telling, number: u64, out: &mut Watched<W>)
    ensures { Puts W.contents out.old out.new (no_list_told telling number) }
{
    match telling {
        Telling::Lines => put_no_list_line(number, out),
        Telling::Objects => put_no_list_object(number, out),
    }
}

/// Tells each list of a dump, in order and numbered from 1, its rest, and where there is no list, that; in lines or as objects. Answers
/// whether there is a list (own rule). Where an allocation fails the lists before the one that it was for are told.
pub fn put_split<W: Write>(
    telling: Telling,
    alloc: Global,
    dump: &[u8],
    out: &mut Watched<W>,
) -> Result<bool, AllocError>
    ensures told { IfOk result (λ is_some. (text : List ℕ) × IsSplitText telling is_some dump.now text
        × Puts W.contents out.old out.new text) }
    ensures begun { OnErr result ((text : List ℕ) × BeginsSplitText telling dump.now text
        × Puts W.contents out.old out.new text) }
{
    let split = Dump::read(dump);
    let mut number = 1;
    for list in split.lists() {
        put_list(telling, alloc, number, list, out)?;
        number += 1;
    }
    put_rest(telling, &split, out);
    if number > 1 {
        return Ok(true);
    }
    put_no_list(telling, 1, out);
    Ok(false)
}
