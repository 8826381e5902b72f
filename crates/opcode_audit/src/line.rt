//! How an opcode is told.

ghost use Rattle.std.specs.Prelude.{◌+◌, ◌<◌, ◌≤◌, ◌^◌, codes, length, map};
ghost use Rattle.std.specs.List.{flat_map};
ghost use Rattle.browser_rules.specs.Opcodes.{number};
ghost use Rattle.hii_bytes.specs.Watching.{Puts};
ghost use Rattle.audit_json.specs.Objects.{member, quoted};
ghost use Rattle.opcode_audit.specs.Lines.{fields_member, line, opcode_object, place_members, told};
ghost use Rattle.opcode_audit.specs.Words.{fact_text, name_or_number, opcode_words};
ghost use Rattle.opcode_audit.specs.code.Columns.{fact_of};
ghost use Rattle.opcode_audit.specs.code.Settings.{setting_of};

use crate::facts::{Fact, facts_of};
use crate::strings::FirstStrings;
use crate::words::{put_bytes, put_fact, put_facts_json, put_name, put_quoted_bytes};
use audit_json::{Telling, end_object, put_kind, put_member, put_number};
use hii_bytes::Watched;
use std::io::Write;

/// How the opcodes of a forms package are told.
#[derive(Clone, Copy)]
pub(crate) struct Setting<'s, 'a> {
    pub telling: Telling,
    pub strings: &'s FirstStrings<'a>,
    /// The offset of the forms package in the file that was given.
    pub base: u64,
}

/// An opcode at a place of the forms package, around which so many scopes are open.
#[derive(Clone, Copy)]
pub(crate) struct PlacedOpcode<'o> {
    pub place: u64,
    pub depth: usize,
    pub bytes: &'o [u8],
    ghost headed: { 2 ≤ length bytes.now },
    ghost shallow: { depth < 2 ^ 32 },
}

/// Tells an opcode.
pub(crate) fn put_opcode<W: Write>(
    setting: Setting<'_, '_>,
    opcode: PlacedOpcode<'_>,
    out: &mut Watched<W>,
)
    requires { setting.base + opcode.place < 2 ^ 64 }
    ensures { Puts W.contents out.old out.new
        (told (setting_of setting.entry) opcode.entry.place opcode.entry.depth opcode.entry.bytes.now) }
{
    match setting.telling {
        Telling::Lines => put_line(setting, opcode, out),
        Telling::Objects => put_object(setting, opcode, out),
    }
}

// Writes the line of an opcode.
fn put_line<W: Write>(setting: Setting<'_, '_>, opcode: PlacedOpcode<'_>, out: &mut Watched<W>)
    requires { setting.base + opcode.place < 2 ^ 64 }
    ensures { Puts W.contents out.old out.new
        (line (setting_of setting.entry) opcode.entry.place opcode.entry.depth opcode.entry.bytes.now) }
{
    out.put_place(opcode.place);
    out.put(b" ");
    out.put_place(setting.base + opcode.place);
    out.put(b" ");
    out.put_spaces(2 * opcode.depth);
    put_words(setting.strings, opcode.bytes, out);
    out.put(b" ; ");
    put_bytes(opcode.bytes, out);
    out.put(b"\n");
}

// Writes the name of an opcode, and its fields.
fn put_words<W: Write>(strings: &FirstStrings<'_>, opcode: &[u8], out: &mut Watched<W>)
    requires { 2 ≤ length opcode.now }
    ensures { Puts W.contents out.old out.new (opcode_words strings.now opcode.now) }
{
    put_name(opcode[0], out);
    put_facts(strings, facts_of(opcode).as_slice(), out);
}

// Writes facts, each behind a space.
fn put_facts<W: Write>(strings: &FirstStrings<'_>, facts: &[Fact<'_>], out: &mut Watched<W>)
    ensures { Puts W.contents out.old out.new
        (flat_map (fact_text strings.now) (map fact_of facts.now)) }
{
    for fact in facts {
        put_fact(strings, *fact, out);
    }
}

// Writes the object of an opcode.
fn put_object<W: Write>(setting: Setting<'_, '_>, opcode: PlacedOpcode<'_>, out: &mut Watched<W>)
    requires { setting.base + opcode.place < 2 ^ 64 }
    ensures { Puts W.contents out.old out.new
        (opcode_object (setting_of setting.entry) opcode.entry.place opcode.entry.depth opcode.entry.bytes.now) }
{
    put_kind(b"opcode", out);
    put_place_members(setting, opcode, out);
    put_name_member(opcode.bytes[0], out);
    put_fields_member(setting.strings, opcode.bytes, out);
    put_member(b"bytes", out);
    put_quoted_bytes(opcode.bytes, out);
    end_object(out);
}

// Writes the members that tell where an opcode stands.
fn put_place_members<W: Write>(
    setting: Setting<'_, '_>,
    opcode: PlacedOpcode<'_>,
    out: &mut Watched<W>,
)
    requires { setting.base + opcode.place < 2 ^ 64 }
    ensures { Puts W.contents out.old out.new
        (place_members (setting_of setting.entry) opcode.entry.place opcode.entry.depth) }
{
    put_number(b"at", opcode.place, out);
    put_number(b"byte", setting.base + opcode.place, out);
    put_number(b"depth", opcode.depth as u64, out);
}

// Writes the member that tells the name of an opcode.
fn put_name_member<W: Write>(code: u8, out: &mut Watched<W>)
    ensures { Puts W.contents out.old out.new (member (codes "name") (quoted (name_or_number code))) }
{
    put_member(b"name", out);
    out.put(b"\"");
    put_name(code, out);
    out.put(b"\"");
}

// Writes the member that tells the fields of an opcode.
fn put_fields_member<W: Write>(strings: &FirstStrings<'_>, opcode: &[u8], out: &mut Watched<W>)
    requires { 2 ≤ length opcode.now }
    ensures { Puts W.contents out.old out.new (fields_member strings.now opcode.now) }
{
    put_member(b"fields", out);
    out.put(b"{");
    put_facts_json(strings, facts_of(opcode).as_slice(), out);
    out.put(b"}");
}
