//! What questions are.

ghost use Rattle.hii_bytes.specs.Watching.{Puts};
ghost use Rattle.ifr_opcodes.specs.Fields.{question_flags};
ghost use Rattle.ifr_opcodes.specs.code.Ops.{bytes_of as op_bytes};
ghost use Rattle.hii_languages.specs.code.Views.{text_of};
ghost use Rattle.hii_questions.specs.code.Views.{question_node};
ghost use Rattle.question_audit.specs.code.Pages.{audited};
ghost use Rattle.question_audit.specs.Limits.{flag_words};
ghost use Rattle.question_rows.specs.Subjects.{flags_behind, help_part, id_cell, opcode_part, prompt_part, prompt_words, subject_cell};

use audit_html::put_isolated_shown;
use audit_text::{opcode_name, put_hexadecimal};
use form_page::Page;
use guard_policy::Conditions;
use hii_bytes::Watched;
use hii_languages::Shown;
use hii_questions::Question;
use ifr_opcodes::QuestionOp;
use std::io::Write;

// The flags of questions (UEFI 2.8, 33.3.8.2.2, EFI_IFR_FLAG_READ_ONLY and its kin).
const READ_ONLY: u8 = 0x01;

const CALLBACK: u8 = 0x04;

const RESET_REQUIRED: u8 = 0x10;

/// Writes an id in decimal and in hex digits.
pub(crate) fn put_id_cell<W: Write>(id: u16, out: &mut Watched<W>)
    ensures { Puts W.contents out.old out.new (id_cell id) }
{
    out.put(b"<code>");
    out.put_decimal(u64::from(id));
    out.put(b"</code><br><code>0x");
    put_hexadecimal(out, u64::from(id));
    out.put(b"</code>");
}

// Writes a prompt, or that there is none.
fn put_prompt_words<W: Write>(prompt: Shown<'_>, out: &mut Watched<W>)
    ensures { Puts W.contents out.old out.new (prompt_words (text_of prompt.entry)) }
{
    if prompt.chars().next().is_some() {
        put_isolated_shown(prompt.chars(), out);
    } else {
        out.put(b"<span class=\"dim\">no prompt</span>");
    }
}

fn put_prompt<W: Write>(prompt: Shown<'_>, out: &mut Watched<W>)
    ensures { Puts W.contents out.old out.new (prompt_part (text_of prompt.entry)) }
{
    out.put(b"<p class=\"prompt\">");
    put_prompt_words(prompt, out);
    out.put(b"</p>");
}

// Writes a help text, if there is one.
fn put_help<W: Write>(help: Shown<'_>, out: &mut Watched<W>)
    ensures { Puts W.contents out.old out.new (help_part (text_of help.entry)) }
{
    if help.chars().next().is_some() {
        out.put(b"<p class=\"small dim\">");
        put_isolated_shown(help.chars(), out);
        out.put(b"</p>");
    }
}

// Writes the flags of a question, each behind a comma.
fn put_flags<W: Write>(question: QuestionOp<'_>, out: &mut Watched<W>)
    ensures { Puts W.contents out.old out.new
        (flags_behind (flag_words (question_flags (op_bytes question.entry.op)))) }
{
    let flags = question.flags();
    let set = (
        flags & READ_ONLY != 0,
        flags & CALLBACK != 0,
        flags & RESET_REQUIRED != 0,
    );
    match set {
        (false, false, false) => {}
        (true, false, false) => out.put(b", readonly"),
        (false, true, false) => out.put(b", callback"),
        (true, true, false) => out.put(b", readonly, callback"),
        (false, false, true) => out.put(b", reset"),
        (true, false, true) => out.put(b", readonly, reset"),
        (false, true, true) => out.put(b", callback, reset"),
        (true, true, true) => out.put(b", readonly, callback, reset"),
    }
}

// Writes the name of a question's opcode, and its flags.
fn put_opcode<W: Write>(question: QuestionOp<'_>, out: &mut Watched<W>)
    ensures { Puts W.contents out.old out.new (opcode_part (op_bytes question.entry.op)) }
{
    out.put(b"<p class=\"small dim\">");
    out.put(b"<code>");
    out.put(opcode_name(question.op.code));
    out.put(b"</code>");
    put_flags(question, out);
    out.put(b"</p>");
}

/// Writes the prompt and the help of a question, its opcode and its flags.
pub(crate) fn put_subject_cell<'a, C: Conditions, W: Write>(
    page: Page<'a, '_, C>,
    question: Question<'a>,
    out: &mut Watched<W>,
)
    ensures { Puts W.contents out.old out.new
        (subject_cell (audited page.entry) (question_node question.entry)) }
{
    let statement = question.statement().op();
    put_prompt(page.text(statement.prompt()), out);
    put_help(page.text(statement.help()), out);
    put_opcode(question.op(), out);
}
