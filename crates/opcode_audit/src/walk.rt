//! The walk from opcode to opcode.

ghost use Rattle.std.specs.Prelude.{◌≡◌, ℕ, ◌+◌, ◌==◌, ◌<◌, ◌^◌, MatchOption, drop, false, length, take, true};
ghost use Rattle.hii_bytes.specs.Watching.{Puts};
ghost use Rattle.hii_packages.specs.code.Package.{package_of};
ghost use Rattle.browser_rules.specs.Forest as chapter;
ghost use Rattle.browser_rules.specs.Forest.{stated_length};
ghost use Rattle.browser_rules.specs.Opcodes.{has_scope, number};
ghost use Rattle.opcode_audit.specs.Lines.{opcodes_text};
ghost use Rattle.opcode_audit.specs.Walk.{depth_at, fits, scopes_behind};

use crate::line::{PlacedOpcode, Setting, put_opcode};
use crate::strings::FirstStrings;
use audit_json::Telling;
use hii_bytes::Watched;
use hii_packages::Package;
use ifr_opcodes::END;
use std::io::Write;

/// Tells each opcode of a forms package, as far as the lengths allow: at least 2, and no more than is left of the package. It tells
/// the opcode's place in the package, its offset in the file that was given, in which the package begins at `base`, how many scopes are
/// open around it (in a line as two spaces each), its name, its fields, and its bytes (own rule).
pub fn put_opcodes<W: Write>(
    telling: Telling,
    strings: &FirstStrings<'_>,
    base: u64,
    source: Package<'_>,
    out: &mut Watched<W>,
)
    requires { base + length source.bytes.now < 2 ^ 64 }
    ensures { (start : ℕ) → base ≡ start + source.entry.place → Puts W.contents out.old out.new
        (opcodes_text telling strings.now start (package_of source.entry)) }
{
    let setting = Setting {
        telling,
        strings,
        base,
    };
    let mut rest = &source.bytes[4..];
    let mut place = 4;
    let mut scopes = 0;
    while let Some((opcode, behind)) = split_front(rest) {
        let placed = PlacedOpcode {
            place,
            depth: depth_at(scopes, opcode),
            bytes: opcode,
        };
        put_opcode(setting, placed, out);
        place += opcode.len() as u64;
        scopes = scopes_behind(scopes, opcode);
        rest = behind;
    }
}

/// The opcode with which bytes begin, and what comes behind it, if its length fits: at least 2, and no more than there are bytes.
pub fn split_front(bytes: &[u8]) -> Option<(&[u8], &[u8])>
    ensures { MatchOption result (fits bytes.entry.now ≡ false)
        (λ parts. (fits bytes.entry.now ≡ true)
        × (parts.0.now ≡ take (stated_length bytes.entry.now) bytes.entry.now)
        × (parts.1.now ≡ drop (stated_length bytes.entry.now) bytes.entry.now)) }
{
    let [_, sized, ..] = bytes else {
        return None;
    };
    let len = usize::from(*sized & 0x7f);
    if len < 2 || bytes.len() < len {
        return None;
    }
    Some(bytes.split_at(len))
}

// How many scopes are open around an opcode, of those that are open before it.
fn depth_at(scopes: usize, opcode: &[u8]) -> usize
    ensures { result ≡ depth_at scopes opcode.now }
{
    if is_end(opcode) {
        scopes.saturating_sub(1)
    } else {
        scopes
    }
}

// How many are open behind it.
fn scopes_behind(scopes: usize, opcode: &[u8]) -> usize
    requires { scopes < 2 ^ 32 }
    ensures { result ≡ scopes_behind scopes opcode.now }
{
    let depth = depth_at(scopes, opcode);
    if has_scope(opcode) && !is_end(opcode) {
        depth + 1
    } else {
        depth
    }
}

fn is_end(opcode: &[u8]) -> bool
    ensures { result ≡ (number opcode.now == chapter.END) }
{
    match opcode.first() {
        Some(code) => *code == END,
        None => false,
    }
}

fn has_scope(opcode: &[u8]) -> bool
    ensures { result ≡ has_scope opcode.now }
{
    match opcode.get(1) {
        Some(byte) => *byte >= 0x80,
        None => false,
    }
}
