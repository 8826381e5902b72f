//! What is known of an opcode, in words.

ghost use Rattle.std.specs.Prelude.{◌≡◌, ◌+◌, ◌*◌, ◌++◌, codes, false, true, map};
ghost use Rattle.std.specs.List.{flat_map};
ghost use Rattle.browser_rules.specs.Opcodes.{two_byte_numbers};
ghost use Rattle.hii_bytes.specs.Watching.{Puts};
ghost use Rattle.audit_text.specs.Texts.{digits_of, guid_text, hex_text};
ghost use Rattle.audit_json.specs.Objects.{quoted};
ghost use Rattle.opcode_audit.specs.Facts.{an_id};
ghost use Rattle.opcode_audit.specs.Words.{fact_json, fact_text, facts_json, name_or_number, numbers_text, said_text, text_json, value_json, value_text};
ghost use Rattle.opcode_audit.specs.code.Columns.{fact_of, value_of};
ghost use Rattle.opcode_audit.specs.code.Names.{text_of};

use crate::facts::Fact;
use crate::field::Value;
use crate::names::Name;
use crate::strings::FirstStrings;
use audit_json::{put_json_bytes, put_json_shown};
use audit_text::{Case, opcode_name, put_guid, put_hexadecimal};
use hii_bytes::{Guid, Watched};
use std::io::Write;

/// Writes the name of a number, or the number in hex digits.
pub fn put_name<W: Write>(code: u8, out: &mut Watched<W>)
    ensures { Puts W.contents out.old out.new (name_or_number code) }
{
    let name = opcode_name(code);
    if name.is_empty() {
        out.put(b"0x");
        out.put_hex(code);
    } else {
        out.put(name);
    }
}

/// Writes bytes in lower-case hex digits.
pub fn put_bytes<W: Write>(bytes: &[u8], out: &mut Watched<W>)
    ensures { Puts W.contents out.old out.new (digits_of false bytes.now) }
{
    let mut rest = bytes;
    while let [byte, behind @ ..] = rest {
        out.put_hex(*byte);
        rest = behind;
    }
}

/// Writes bytes in hex digits between quotation marks.
pub fn put_quoted_bytes<W: Write>(bytes: &[u8], out: &mut Watched<W>)
    ensures { Puts W.contents out.old out.new (quoted (digits_of false bytes.now)) }
{
    out.put(b"\"");
    put_bytes(bytes, out);
    out.put(b"\"");
}

// Writes a GUID between quotation marks.
fn put_quoted_guid<W: Write>(guid: Guid<'_>, out: &mut Watched<W>)
    ensures { Puts W.contents out.old out.new (quoted (guid_text true guid.entry.bytes.now)) }
{
    out.put(b"\"");
    put_guid(out, guid, Case::Upper);
    out.put(b"\"");
}

// Writes the text of a string id.
fn put_said<W: Write>(strings: &FirstStrings<'_>, id: u16, out: &mut Watched<W>)
    ensures { Puts W.contents out.old out.new (said_text strings.now id) }
{
    put_json_shown(strings.shown(id).chars(), out);
}

// Writes numbers of two bytes, one behind the other.
fn put_numbers<W: Write>(bytes: &[u8], out: &mut Watched<W>)
    ensures { Puts W.contents out.old out.new (numbers_text (two_byte_numbers bytes.now)) }
{
    let [low, high, behind @ ..] = bytes else {
        return;
    };
    out.put_decimal(number_of(*low, *high));
    let mut rest = behind;
    while let [low, high, behind @ ..] = rest {
        out.put(b",");
        out.put_decimal(number_of(*low, *high));
        rest = behind;
    }
}

// The number in two bytes.
fn number_of(low: u8, high: u8) -> u64
    ensures { result ≡ low + 256 * high }
{
    u64::from(low) + 256 * u64::from(high)
}

// ---- in a line

// Writes a string id, and behind each but 0 its text.
fn put_id<W: Write>(strings: &FirstStrings<'_>, id: u16, out: &mut Watched<W>)
    ensures { Puts W.contents out.old out.new (value_text strings.now (an_id id)) }
{
    out.put_decimal(u64::from(id));
    if id != 0 {
        out.put(b" ");
        put_said(strings, id, out);
    }
}

// Writes a number in hex digits.
fn put_bits<W: Write>(number: u64, out: &mut Watched<W>)
    ensures { Puts W.contents out.old out.new (codes "0x" ++ hex_text number) }
{
    out.put(b"0x");
    put_hexadecimal(out, number);
}

// Writes what a field holds.
fn put_value<W: Write>(strings: &FirstStrings<'_>, value: Value<'_>, out: &mut Watched<W>)
    ensures { Puts W.contents out.old out.new (value_text strings.now (value_of value.entry)) }
{
    match value {
        Value::Number(number) => out.put_decimal(number),
        Value::Bits(bits) => put_bits(bits, out),
        Value::Id(id) => put_id(strings, id, out),
        Value::Guid(guid) => put_guid(out, guid, Case::Upper),
        Value::Bytes(bytes) => put_bytes(bytes, out),
        Value::Name(name) => put_json_bytes(name, out),
        Value::Numbers(bytes) => put_numbers(bytes, out),
    }
}

/// Writes a fact of a line.
pub(crate) fn put_fact<W: Write>(strings: &FirstStrings<'_>, fact: Fact<'_>, out: &mut Watched<W>)
    ensures { Puts W.contents out.old out.new (fact_text strings.now (fact_of fact.entry)) }
{
    out.put(b" ");
    out.put(fact.name.text());
    out.put(b"=");
    put_value(strings, fact.value, out);
}

// ---- in an object

// Writes numbers of two bytes as an array.
fn put_array<W: Write>(bytes: &[u8], out: &mut Watched<W>)
    ensures { Puts W.contents out.old out.new
        (codes "[" ++ numbers_text (two_byte_numbers bytes.now) ++ codes "]") }
{
    out.put(b"[");
    put_numbers(bytes, out);
    out.put(b"]");
}

// Writes what a field holds.
fn put_value_json<W: Write>(value: Value<'_>, out: &mut Watched<W>)
    ensures { Puts W.contents out.old out.new (value_json (value_of value.entry)) }
{
    match value {
        Value::Number(number) => out.put_decimal(number),
        Value::Bits(bits) => out.put_decimal(bits),
        Value::Id(id) => out.put_decimal(u64::from(id)),
        Value::Guid(guid) => put_quoted_guid(guid, out),
        Value::Bytes(bytes) => put_quoted_bytes(bytes, out),
        Value::Name(name) => put_json_bytes(name, out),
        Value::Numbers(bytes) => put_array(bytes, out),
    }
}

// Writes the text of a string id but 0 as a member of its own.
fn put_text_json<W: Write>(
    strings: &FirstStrings<'_>,
    name: Name,
    value: Value<'_>,
    out: &mut Watched<W>,
)
    ensures { Puts W.contents out.old out.new (text_json strings.now (text_of name) (value_of value.entry)) }
{
    let Value::Id(id) = value else {
        return;
    };
    if id == 0 {
        return;
    }
    out.put(b",\"");
    out.put(name.text());
    out.put(b"Text\":");
    put_said(strings, id, out);
}

// Writes a fact as a member.
fn put_fact_json<W: Write>(strings: &FirstStrings<'_>, fact: Fact<'_>, out: &mut Watched<W>)
    ensures { Puts W.contents out.old out.new (fact_json strings.now (fact_of fact.entry)) }
{
    out.put(b"\"");
    out.put(fact.name.text());
    out.put(b"\":");
    put_value_json(fact.value, out);
    put_text_json(strings, fact.name, fact.value, out);
}

/// Writes facts as members.
pub(crate) fn put_facts_json<W: Write>(
    strings: &FirstStrings<'_>,
    facts: &[Fact<'_>],
    out: &mut Watched<W>,
)
    ensures { Puts W.contents out.old out.new (facts_json strings.now (map fact_of facts.now)) }
{
    let [first, others @ ..] = facts else {
        return;
    };
    put_fact_json(strings, *first, out);
    for fact in others {
        out.put(b",");
        put_fact_json(strings, *fact, out);
    }
}
