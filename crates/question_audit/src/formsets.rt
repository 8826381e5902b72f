//! Words for the flags of a question, and for the other form set to which a reference leads.

ghost use Rattle.std.specs.Prelude.{option_map};
ghost use Rattle.hii_bytes.specs.Watching.{Puts};
ghost use Rattle.ifr_opcodes.specs.code.Ops.{bytes_of as op_bytes};
ghost use Rattle.ifr_scopes.specs.code.Lists.{statement_node};
ghost use Rattle.question_audit.specs.QuestionLines.{flags_text, form_set_text, led_text, word_where};

use audit_text::{Case, put_guid};
use hii_bytes::{Guid, Watched};
use ifr_opcodes::QuestionOp;
use ifr_scopes::{Statement, StatementKind};
use std::io::Write;

// The flags of questions (UEFI 2.8, 33.3.8.2.2, EFI_IFR_FLAG_CALLBACK and EFI_IFR_FLAG_RESET_REQUIRED).
const CALLBACK: u8 = 0x04;

const RESET_REQUIRED: u8 = 0x10;

/// Writes a word where something holds.
pub(crate) fn put_word<W: Write>(holds: bool, word: &[u8], out: &mut Watched<W>)
    ensures { Puts W.contents out.old out.new (word_where holds word.now) }
{
    if holds {
        out.put(word);
    }
}

/// Writes a word for each flag of a question that a driver or a reset answers.
pub(crate) fn put_flags<W: Write>(question: QuestionOp<'_>, out: &mut Watched<W>)
    ensures { Puts W.contents out.old out.new (flags_text (op_bytes question.entry.op)) }
{
    let flags = question.flags();
    put_word(flags & CALLBACK != 0, b" callback", out);
    put_word(flags & RESET_REQUIRED != 0, b" reset", out);
}

// What names no form set.
const NO_FORM_SET: [u8; 16] = [0; 16];

fn put_form_set<W: Write>(guid: Option<Guid<'_>>, out: &mut Watched<W>)
    ensures { Puts W.contents out.old out.new
        (form_set_text (option_map (λ guid. guid.bytes.now) guid.entry)) }
{
    if let Some(guid) = guid {
        if guid.bytes() == &NO_FORM_SET[..] {
            return;
        }
        out.put(b" formset ");
        put_guid(out, guid, Case::Upper);
    }
}

/// Writes the form set that a reference names, if it names one.
pub(crate) fn put_led<W: Write>(statement: Statement<'_>, out: &mut Watched<W>)
    ensures { Puts W.contents out.old out.new (led_text (statement_node statement.entry).op) }
{
    if let StatementKind::Ref(reference) = statement.kind() {
        put_form_set(reference.form_set(), out);
    }
}
