//! Objects of JSON.

ghost use Rattle.std.specs.Prelude.{codes};
ghost use Rattle.hii_bytes.specs.Watching.{Puts};
ghost use Rattle.hii_languages.specs.code.Views.{chars_left};
ghost use Rattle.audit_json.specs.Objects.{array_end, before_item, cause_members, error_object, fault_member, fault_members, first_key, guid_member, member_key, number_member, object_kind, refused_at_object, refused_object, text_member, true_member, word_member};

use crate::strings::{put_json_bytes, put_json_shown};
use audit_text::{Case, put_guid};
use hii_bytes::{Cause, Fault, Guid, Watched};
use hii_languages::ShownChars;
use std::io::Write;

/// Begins an object with the member that says of which kind it is.
pub fn put_kind<W: Write>(word: &[u8], out: &mut Watched<W>)
    ensures { Puts W.contents out.old out.new (object_kind word.now) }
{
    out.put(b"{\"kind\":\"");
    out.put(word);
    out.put(b"\"");
}

/// Ends an object, and its line.
pub fn end_object<W: Write>(out: &mut Watched<W>)
    ensures { Puts W.contents out.old out.new (codes "}\n") }
{
    out.put(b"}\n");
}

/// Begins a member behind another one: its value follows.
pub fn put_member<W: Write>(key: &[u8], out: &mut Watched<W>)
    ensures { Puts W.contents out.old out.new (member_key key.now) }
{
    out.put(b",\"");
    out.put(key);
    out.put(b"\":");
}

/// Writes a member that is a number, behind another one.
pub fn put_number<W: Write>(key: &[u8], value: u64, out: &mut Watched<W>)
    ensures { Puts W.contents out.old out.new (number_member key.now value) }
{
    put_member(key, out);
    out.put_decimal(value);
}

/// Writes a member that is a text of one character a byte, behind another one.
pub fn put_string<W: Write>(key: &[u8], value: &[u8], out: &mut Watched<W>)
    ensures { Puts W.contents out.old out.new (text_member key.now value.now) }
{
    put_member(key, out);
    put_json_bytes(value, out);
}

/// Writes a member that is a text of a list as it is shown, behind another one.
pub fn put_shown<W: Write>(key: &[u8], text: ShownChars<'_>, out: &mut Watched<W>)
    ensures { Puts W.contents out.old out.new (text_member key.now (chars_left text.entry)) }
{
    put_member(key, out);
    put_json_shown(text, out);
}

/// Writes a member that is a word none of whose bytes is escaped, behind another one.
pub fn put_word<W: Write>(key: &[u8], word: &[u8], out: &mut Watched<W>)
    ensures { Puts W.contents out.old out.new (word_member key.now word.now) }
{
    put_member(key, out);
    out.put(b"\"");
    out.put(word);
    out.put(b"\"");
}

/// Writes a member that is a GUID, behind another one.
pub fn put_guid_member<W: Write>(key: &[u8], guid: Guid<'_>, out: &mut Watched<W>)
    ensures { Puts W.contents out.old out.new (guid_member key.now guid.entry.bytes.now) }
{
    put_member(key, out);
    out.put(b"\"");
    put_guid(out, guid, Case::Upper);
    out.put(b"\"");
}

/// Writes a member that says that a fact is so, behind another one.
pub fn put_true<W: Write>(key: &[u8], out: &mut Watched<W>)
    ensures { Puts W.contents out.old out.new (true_member key.now) }
{
    put_member(key, out);
    out.put(b"true");
}

/// Writes what stands before a value of a member that is an array: before the first one the member begins.
pub fn put_before_item<W: Write>(key: &[u8], is_first: bool, out: &mut Watched<W>)
    ensures { Puts W.contents out.old out.new (before_item key.now is_first) }
{
    if is_first {
        put_member(key, out);
        out.put(b"[");
    } else {
        out.put(b",");
    }
}

/// Ends a member that is an array, where it has a value.
pub fn put_array_end<W: Write>(is_empty: bool, out: &mut Watched<W>)
    ensures { Puts W.contents out.old out.new (array_end is_empty) }
{
    if !is_empty {
        out.put(b"]");
    }
}

/// Begins the first member of an object that stands in another one: its value follows.
pub fn put_first_member<W: Write>(key: &[u8], out: &mut Watched<W>)
    ensures { Puts W.contents out.old out.new (first_key key.now) }
{
    out.put(b"\"");
    out.put(key);
    out.put(b"\":");
}

// Writes the members of an object that tells a fault.
fn put_fault_members<W: Write>(fault: Fault, out: &mut Watched<W>)
    ensures { Puts W.contents out.old out.new (fault_members fault) }
{
    put_first_member(b"cause", out);
    out.put_decimal(u64::from(fault.cause.number()));
    put_string(b"name", fault.cause.name().as_bytes(), out);
    put_number(b"at", fault.place, out);
}

/// Writes a member that is a fault, behind another one.
pub fn put_fault_member<W: Write>(key: &[u8], fault: Fault, out: &mut Watched<W>)
    ensures { Puts W.contents out.old out.new (fault_member key.now fault) }
{
    put_member(key, out);
    out.put(b"{");
    put_fault_members(fault, out);
    out.put(b"}");
}

/// Writes how a command ends that is refused with a line of its own.
pub fn put_error<W: Write>(line: &[u8], out: &mut Watched<W>)
    ensures { Puts W.contents out.old out.new (error_object line.now) }
{
    put_kind(b"error", out);
    put_string(b"text", line, out);
    end_object(out);
}

// Writes the members that tell a cause.
fn put_cause<W: Write>(cause: Cause, out: &mut Watched<W>)
    ensures { Puts W.contents out.old out.new (cause_members cause) }
{
    put_number(b"cause", u64::from(cause.number()), out);
    put_string(b"name", cause.name().as_bytes(), out);
}

/// Writes by which cause a run is refused, where the cause has no place.
pub fn put_refused<W: Write>(cause: Cause, out: &mut Watched<W>)
    ensures { Puts W.contents out.old out.new (refused_object cause) }
{
    put_kind(b"refused", out);
    put_cause(cause, out);
    end_object(out);
}

/// Writes by which fault a run is refused.
pub fn put_refused_at<W: Write>(fault: Fault, out: &mut Watched<W>)
    ensures { Puts W.contents out.old out.new (refused_at_object fault) }
{
    put_kind(b"refused", out);
    put_cause(fault.cause, out);
    put_number(b"at", fault.place, out);
    end_object(out);
}
