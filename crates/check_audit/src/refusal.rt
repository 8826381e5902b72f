//! By which fault a forms package, or a list, is refused.

ghost use Rattle.std.specs.Prelude.{◌+◌, ◌≤◌, IfSome, length, option_map};
ghost use Rattle.hii_bytes.specs.Watching.{Puts};
ghost use Rattle.session_steps.specs.Texts.{refused_at_text};
ghost use Rattle.check_audit.specs.Lines.{also_line, also_object, also_told, byte_line, byte_object, byte_told, fault_told, list_byte_told, list_refusal_told, mostly_line, mostly_object, mostly_told, named_line, named_object, named_told, opcode_line, opcode_object, opcode_told, others_told, refusal_told};
ghost use Rattle.check_audit.specs.code.Settings.{setting_of};

use crate::behind::{Named, opcode_at, seen_before};
use crate::mostly::{mostly_at, mostly_of};
use crate::setting::Setting;
use audit_json::{
    Telling, end_object, put_kind, put_member, put_number, put_refused_at, put_shown, put_string,
    put_word,
};
use audit_text::{put_hexadecimal, put_left, put_safe_shown};
use hii_bytes::{Cause, Fault, Watched};
use opcode_audit::{put_bytes, put_name, put_quoted_bytes};
use std::io::Write;

/// Tells by which fault a list is refused of which no forms package is looked at, its byte in the file in which the list begins at
/// `start`, and what it mostly comes from.
pub(crate) fn put_list_refusal<W: Write>(
    telling: Telling,
    start: u64,
    fault: Fault,
    out: &mut Watched<W>,
)
    ensures { Puts W.contents out.old out.new
        (list_refusal_told telling start fault) }
{
    put_fault(telling, fault, out);
    put_list_byte(telling, start, fault, out);
    put_mostly(telling, mostly_of(fault.cause), out);
}

/// Tells by which fault a forms package is refused, its byte in the file, the opcode there, the form and the question before it, and
/// what it mostly comes from.
pub(crate) fn put_refusal<W: Write>(
    setting: Setting<'_, '_>,
    ifr: &[u8],
    fault: Fault,
    out: &mut Watched<W>,
)
    ensures { Puts W.contents out.old out.new
        (refusal_told (setting_of setting.entry) ifr.now fault) }
{
    put_fault(setting.telling, fault, out);
    put_byte(setting.telling, setting.base, fault.place, out);
    let opcode = opcode_at(ifr, fault.place);
    put_opcode(setting.telling, opcode, out);
    let seen = seen_before(ifr, fault.place);
    put_named(setting, b"form", seen.form, out);
    put_named(setting, b"behind", seen.question, out);
    put_mostly(setting.telling, mostly_at(fault.cause, opcode), out);
}

/// Tells the other faults of the pass by which a forms package is refused.
pub(crate) fn put_others<W: Write>(setting: Setting<'_, '_>, others: &[Fault], out: &mut Watched<W>)
    ensures { Puts W.contents out.old out.new (others_told setting.entry.telling setting.entry.base others.now) }
{
    for fault in others {
        put_also(setting.telling, setting.base, *fault, out);
    }
}

// Tells another fault, and its byte in the file, behind an offset of it, where the byte's offset has 64 bits.
fn put_also<W: Write>(telling: Telling, base: u64, fault: Fault, out: &mut Watched<W>)
    ensures { Puts W.contents out.old out.new (also_told telling base fault) }
{
    let Some(byte) = base.checked_add(fault.place) else {
        return;
    };
    match telling {
        Telling::Lines => put_also_line(fault, byte, out),
        Telling::Objects => put_also_object(fault, byte, out),
    }
}

// Writes the line of another fault.
fn put_also_line<W: Write>(fault: Fault, byte: u64, out: &mut Watched<W>)
    ensures { Puts W.contents out.old out.new (also_line fault byte) }
{
    put_left(out, 9, b"also");
    out.put_decimal(u64::from(fault.cause.number()));
    out.put(b" ");
    out.put(fault.cause.name().as_bytes());
    out.put(b" at ");
    out.put_place(fault.place);
    out.put(b", byte ");
    put_hexadecimal(out, byte);
    out.put(b" of the file\n");
}

// Writes the object of another fault.
fn put_also_object<W: Write>(fault: Fault, byte: u64, out: &mut Watched<W>)
    ensures { Puts W.contents out.old out.new (also_object fault byte) }
{
    put_kind(b"also", out);
    put_number(b"cause", u64::from(fault.cause.number()), out);
    put_string(b"name", fault.cause.name().as_bytes(), out);
    put_number(b"at", fault.place, out);
    put_number(b"byte", byte, out);
    end_object(out);
}

// Tells a fault as setup does.
fn put_fault<W: Write>(telling: Telling, fault: Fault, out: &mut Watched<W>)
    ensures { Puts W.contents out.old out.new (fault_told telling fault) }
{
    match telling {
        Telling::Lines => put_fault_line(fault, out),
        Telling::Objects => put_refused_at(fault, out),
    }
}

// Writes the line of a fault.
fn put_fault_line<W: Write>(fault: Fault, out: &mut Watched<W>)
    ensures { Puts W.contents out.old out.new (refused_at_text fault) }
{
    out.put_fault(fault);
    out.put(b"\n");
}

// Tells the byte of a fault of a list.
fn put_list_byte<W: Write>(telling: Telling, start: u64, fault: Fault, out: &mut Watched<W>)
    ensures { Puts W.contents out.old out.new
        (list_byte_told telling fault.cause (start + fault.place)) }
{
    if fault.cause != Cause::NoForms {
        put_byte(telling, start, fault.place, out);
    }
}

// Tells the byte at a place behind an offset of the file, whose offset has 64 bits.
fn put_byte<W: Write>(telling: Telling, base: u64, place: u64, out: &mut Watched<W>)
    ensures { Puts W.contents out.old out.new (byte_told telling (base + place)) }
{
    let Some(byte) = base.checked_add(place) else {
        return;
    };
    match telling {
        Telling::Lines => put_byte_line(byte, out),
        Telling::Objects => put_byte_object(byte, out),
    }
}

// Writes the line of a byte of the file.
fn put_byte_line<W: Write>(byte: u64, out: &mut Watched<W>)
    ensures { Puts W.contents out.old out.new (byte_line byte) }
{
    put_left(out, 9, b"byte");
    put_hexadecimal(out, byte);
    out.put(b" of the file\n");
}

// Writes the object of a byte of the file.
fn put_byte_object<W: Write>(byte: u64, out: &mut Watched<W>)
    ensures { Puts W.contents out.old out.new (byte_object byte) }
{
    put_kind(b"byte", out);
    put_number(b"byte", byte, out);
    end_object(out);
}

// Tells an opcode.
fn put_opcode<W: Write>(telling: Telling, opcode: Option<&[u8]>, out: &mut Watched<W>)
    requires { IfSome opcode (λ op. 2 ≤ length op.now) }
    ensures { Puts W.contents out.old out.new
        (opcode_told telling (option_map (λ op. op.now) opcode.entry)) }
{
    let Some(opcode) = opcode else {
        return;
    };
    match telling {
        Telling::Lines => put_opcode_line(opcode, out),
        Telling::Objects => put_opcode_object(opcode, out),
    }
}

// Writes the line of an opcode.
fn put_opcode_line<W: Write>(opcode: &[u8], out: &mut Watched<W>)
    requires { 2 ≤ length opcode.now }
    ensures { Puts W.contents out.old out.new (opcode_line opcode.now) }
{
    put_left(out, 9, b"opcode");
    put_name(opcode[0], out);
    out.put(b" ");
    put_bytes(opcode, out);
    out.put(b"\n");
}

// Writes the object of an opcode.
fn put_opcode_object<W: Write>(opcode: &[u8], out: &mut Watched<W>)
    requires { 2 ≤ length opcode.now }
    ensures { Puts W.contents out.old out.new (opcode_object opcode.now) }
{
    put_kind(b"opcode", out);
    put_member(b"opcode", out);
    out.put(b"\"");
    put_name(opcode[0], out);
    out.put(b"\"");
    put_number(b"code", u64::from(opcode[0]), out);
    put_member(b"bytes", out);
    put_quoted_bytes(opcode, out);
    end_object(out);
}

// Tells a form or a question, if there is one, behind a word.
fn put_named<W: Write>(
    setting: Setting<'_, '_>,
    word: &[u8],
    named: Option<Named>,
    out: &mut Watched<W>,
)
    ensures { Puts W.contents out.old out.new
        (named_told (setting_of setting.entry) word.now named) }
{
    let Some(named) = named else {
        return;
    };
    match setting.telling {
        Telling::Lines => put_named_line(setting, word, named, out),
        Telling::Objects => put_named_object(setting, word, named, out),
    }
}

// Writes the line of a form or a question.
fn put_named_line<W: Write>(
    setting: Setting<'_, '_>,
    word: &[u8],
    named: Named,
    out: &mut Watched<W>,
)
    ensures { Puts W.contents out.old out.new
        (named_line (setting_of setting.entry) word.now named) }
{
    put_left(out, 9, word);
    out.put_decimal(u64::from(named.id));
    out.put(b" ");
    put_safe_shown(setting.strings.shown(named.text).chars(), out);
    out.put(b"\n");
}

// Writes the object of a form or a question.
fn put_named_object<W: Write>(
    setting: Setting<'_, '_>,
    word: &[u8],
    named: Named,
    out: &mut Watched<W>,
)
    ensures { Puts W.contents out.old out.new
        (named_object (setting_of setting.entry) word.now named) }
{
    put_kind(word, out);
    put_number(b"id", u64::from(named.id), out);
    put_shown(b"text", setting.strings.shown(named.text).chars(), out);
    end_object(out);
}

// Tells what a fault mostly comes from.
fn put_mostly<W: Write>(telling: Telling, text: &[u8], out: &mut Watched<W>)
    ensures { Puts W.contents out.old out.new (mostly_told telling text.now) }
{
    match telling {
        Telling::Lines => put_mostly_line(text, out),
        Telling::Objects => put_mostly_object(text, out),
    }
}

// Writes the line of what a fault mostly comes from.
fn put_mostly_line<W: Write>(text: &[u8], out: &mut Watched<W>)
    ensures { Puts W.contents out.old out.new (mostly_line text.now) }
{
    put_left(out, 9, b"mostly");
    out.put(text);
    out.put(b"\n");
}

// Writes the object of what a fault mostly comes from.
fn put_mostly_object<W: Write>(text: &[u8], out: &mut Watched<W>)
    ensures { Puts W.contents out.old out.new (mostly_object text.now) }
{
    put_kind(b"mostly", out);
    put_word(b"text", text, out);
    end_object(out);
}
