//! The line of a question.

ghost use Rattle.std.specs.Prelude.{◌≡◌, ◌++◌, codes, decimal, map};
ghost use Rattle.hii_bytes.specs.Watching.{Puts};
ghost use Rattle.ifr_nodes.specs.Nodes.{nodes_of};
ghost use Rattle.hii_questions.specs.code.Views.{question_view};
ghost use Rattle.unlock_audit.specs.Told as spec;
ghost use Rattle.unlock_audit.specs.Told.{answer_words, unlock_line};
ghost use Rattle.unlock_audit.specs.Tries.{discarded};
ghost use Rattle.unlock_audit.specs.code.Answers.{answer_meant, denial_in, unlock_meant};
ghost use Rattle.unlock_audit.specs.code.Details.{AreDetails};
ghost use Rattle.audit_text.specs.Texts.{joined};
ghost use Rattle.question_audit.specs.QuestionLines.{verdict_columns};

use crate::answer::{Answer, Unlock};
use crate::moves::Move;
use crate::words::{Details, put_reason, put_set, put_written};
use audit_json::Telling;
use audit_text::{put_left, put_safe_shown};
use browser_commands::Browser;
use guard_policy::Denial;
use hii_bytes::Watched;
use hii_questions::Question;
use question_audit::StoreNames;
use std::io::Write;

// Writes whether a question may be changed, in columns.
fn put_verdict<W: Write>(verdict: Result<(), Denial>, out: &mut Watched<W>)
    ensures { Puts W.contents out.old out.new (verdict_columns (denial_in verdict)) }
{
    match verdict {
        Ok(()) => {
            put_left(out, 10, b"open");
            out.put_spaces(9);
        }
        Err(denial) => {
            put_left(out, 10, denial.kind.name().as_bytes());
            out.put(b" ");
            out.put_place(u64::from(denial.place));
        }
    }
}

// Writes commands.
fn put_commands<W: Write>(list: &[Move], out: &mut Watched<W>)
    ensures { Puts W.contents out.old out.new (joined (codes "; ") (map spec.set_text list.now)) }
{
    let Some((first, others)) = list.split_first() else {
        out.put(b"-");
        return;
    };
    put_set(*first, out);
    for each in others {
        out.put(b"; ");
        put_set(*each, out);
    }
}

// Writes ids.
fn put_ids<W: Write>(ids: &[u16], out: &mut Watched<W>)
    ensures { Puts W.contents out.old out.new (spec.ids_text ids.now) }
{
    let Some((first, others)) = ids.split_first() else {
        out.put(b"-");
        return;
    };
    out.put_decimal(u64::from(*first));
    for id in others {
        out.put(b", ");
        out.put_decimal(u64::from(*id));
    }
}

// Writes the answer.
fn put_answer<'a, W: Write>(
    browser: &Browser<'a>,
    names: &StoreNames<'a>,
    question: Question<'a>,
    unlock: &Unlock,
    details: &Details<'a>,
    out: &mut Watched<W>,
)
    requires names { names.now ≡ browser.now.state.ifr }
    requires fresh { discarded browser.now.state ≡ browser.now.state }
    requires details { AreDetails browser.now.state (question_view question) (answer_meant unlock.now.answer) details.now }
    ensures { Puts W.contents out.old out.new (answer_words (nodes_of browser.now.state.ifr) (question_view question.entry)
        (unlock_meant unlock.now) (answer_meant unlock.now.answer)) }
{
    match &unlock.answer {
        Answer::Opened => {}
        Answer::Never(reason) => {
            out.put(b"never: ");
            put_reason(*reason, details.condition.as_ref(), out);
        }
        Answer::Found { again, list } => {
            put_commands(list.as_slice(), out);
            if *again {
                out.put(b"; submit; open again");
            }
        }
        Answer::Written(each) => {
            out.put(b"write ");
            put_written(Telling::Lines, browser, names, &details.written, *each, out);
        }
        Answer::More => {
            out.put(b"not found in ");
            out.put_decimal(unlock.tried);
            out.put(b" tries: ");
            put_ids(unlock.ids.as_slice(), out);
        }
        Answer::None => {
            out.put(b"not found in 3 commands: ");
            put_ids(unlock.ids.as_slice(), out);
        }
        Answer::Driver => {
            out.put(b"driver: ");
            put_ids(unlock.ids.as_slice(), out);
        }
    }
}

/// Writes the line of a question.
pub(crate) fn put_line<'a, W: Write>(
    browser: &Browser<'a>,
    names: &StoreNames<'a>,
    question: Question<'a>,
    unlock: &Unlock,
    details: &Details<'a>,
    out: &mut Watched<W>,
)
    requires names { names.now ≡ browser.now.state.ifr }
    requires fresh { discarded browser.now.state ≡ browser.now.state }
    requires details { AreDetails browser.now.state (question_view question) (answer_meant unlock.now.answer) details.now }
    ensures { Puts W.contents out.old out.new (unlock_line browser.now.state (question_view question.entry) (unlock_meant unlock.now)) }
{
    out.put_decimal_right(5, u64::from(question.id()));
    out.put(b" ");
    put_verdict(unlock.verdict, out);
    out.put(b" [");
    put_answer(browser, names, question, unlock, details, out);
    out.put(b"] ");
    let page = browser.page();
    put_safe_shown(page.text(question.statement().op().prompt()).chars(), out);
    out.put(b"\n");
}
