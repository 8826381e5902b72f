//! The object of a question.

ghost use Rattle.std.specs.Prelude.{◌≡◌, ◌++◌, [], false, if◌then◌else◌, codes, decimal, map};
ghost use Rattle.hii_bytes.specs.Watching.{Puts};
ghost use Rattle.ifr_nodes.specs.Nodes.{nodes_of};
ghost use Rattle.hii_questions.specs.code.Views.{question_view};
ghost use Rattle.unlock_audit.specs.Told as spec;
ghost use Rattle.unlock_audit.specs.Told.{answer_members, unlock_object};
ghost use Rattle.unlock_audit.specs.Tries.{discarded};
ghost use Rattle.unlock_audit.specs.code.Answers.{answer_meant, denial_in, unlock_meant};
ghost use Rattle.unlock_audit.specs.code.Details.{AreDetails};
ghost use Rattle.audit_json.specs.Objects.{array_member, before_item, quoted};

use crate::answer::{Answer, Unlock};
use crate::moves::Move;
use crate::words::{Details, put_reason, put_set, put_written};
use audit_json::{
    Telling, end_object, put_array_end, put_before_item, put_kind, put_member, put_number,
    put_shown, put_word,
};
use browser_commands::Browser;
use guard_policy::Denial;
use hii_bytes::Watched;
use hii_questions::Question;
use question_audit::StoreNames;
use std::io::Write;

// Writes whether it may be changed.
fn put_verdict<W: Write>(verdict: Result<(), Denial>, out: &mut Watched<W>)
    ensures { Puts W.contents out.old out.new (spec.verdict_members (denial_in verdict)) }
{
    match verdict {
        Ok(()) => put_word(b"verdict", b"open", out),
        Err(denial) => {
            put_word(b"verdict", denial.kind.name().as_bytes(), out);
            put_number(b"at", u64::from(denial.place), out);
        }
    }
}

// The word of an answer.
fn word_of(answer: &Answer) -> &'static [u8]
    ensures { result.now ≡ spec.answer_word (answer_meant answer.now) }
{
    match answer {
        Answer::Opened => b"found",
        Answer::Never(_) => b"never",
        Answer::Found { again, .. } => { if *again { b"again" } else { b"found" } }
        Answer::Written(_) => b"write",
        Answer::More => b"more",
        Answer::None => b"none",
        Answer::Driver => b"driver",
    }
}

// Writes a command behind others.
fn put_command<W: Write>(each: Move, is_first: bool, out: &mut Watched<W>)
    ensures { Puts W.contents out.old out.new (before_item (codes "commands") is_first ++ spec.command_item each) }
{
    put_before_item(b"commands", is_first, out);
    out.put(b"\"");
    put_set(each, out);
    out.put(b"\"");
}

// Writes a `submit` behind commands where it is among them, and tells whether nothing stands before what follows.
fn put_submit<W: Write>(again: bool, is_first: bool, out: &mut Watched<W>) -> bool
    ensures told { Puts W.contents out.old out.new
        (if again then before_item (codes "commands") is_first ++ quoted (codes "submit") else []) }
    ensures first { result ≡ (if again then false else is_first) }
{
    if again {
        put_before_item(b"commands", is_first, out);
        out.put(b"\"submit\"");
        return false;
    }
    is_first
}

// Writes commands.
fn put_commands<W: Write>(again: bool, list: &[Move], out: &mut Watched<W>)
    ensures { Puts W.contents out.old out.new (array_member (codes "commands") (spec.command_items again list.now)) }
{
    let mut is_first = true;
    for each in list {
        put_command(*each, is_first, out);
        is_first = false;
    }
    let is_first = put_submit(again, is_first, out);
    put_array_end(is_first, out);
}

// Writes ids.
fn put_ids<W: Write>(ids: &[u16], out: &mut Watched<W>)
    ensures { Puts W.contents out.old out.new (spec.asks_member ids.now) }
{
    let mut is_first = true;
    for id in ids {
        put_before_item(b"asks", is_first, out);
        out.put_decimal(u64::from(*id));
        is_first = false;
    }
    put_array_end(is_first, out);
}

// Writes what an answer says.
fn put_answer<'a, W: Write>(
    browser: &Browser<'a>,
    names: &StoreNames<'a>,
    question: Question<'a>,
    unlock: &Unlock,
    details: &Details<'a>,
    out: &mut Watched<W>,
)
    requires names { names.now ≡ browser.now.state.ifr }
    requires fresh { discarded browser.now.state ≡ browser.now.state }
    requires details { AreDetails browser.now.state (question_view question) (answer_meant unlock.now.answer) details.now }
    ensures { Puts W.contents out.old out.new (answer_members (nodes_of browser.now.state.ifr) (question_view question.entry)
        (unlock_meant unlock.now) (answer_meant unlock.now.answer)) }
{
    match &unlock.answer {
        Answer::Opened => {}
        Answer::Never(reason) => {
            put_member(b"reason", out);
            out.put(b"\"");
            put_reason(*reason, details.condition.as_ref(), out);
            out.put(b"\"");
        }
        Answer::Found { again, list } => put_commands(*again, list.as_slice(), out),
        Answer::Written(each) => {
            put_member(b"write", out);
            out.put(b"\"");
            put_written(
                Telling::Objects,
                browser,
                names,
                &details.written,
                *each,
                out,
            );
            out.put(b"\"");
        }
        Answer::More => put_ids(unlock.ids.as_slice(), out),
        Answer::None => put_ids(unlock.ids.as_slice(), out),
        Answer::Driver => put_ids(unlock.ids.as_slice(), out),
    }
}

/// Writes the object of a question.
pub(crate) fn put_object<'a, W: Write>(
    browser: &Browser<'a>,
    names: &StoreNames<'a>,
    question: Question<'a>,
    unlock: &Unlock,
    details: &Details<'a>,
    out: &mut Watched<W>,
)
    requires names { names.now ≡ browser.now.state.ifr }
    requires fresh { discarded browser.now.state ≡ browser.now.state }
    requires details { AreDetails browser.now.state (question_view question) (answer_meant unlock.now.answer) details.now }
    ensures { Puts W.contents out.old out.new (unlock_object browser.now.state (question_view question.entry) (unlock_meant unlock.now)) }
{
    put_kind(b"unlock", out);
    put_number(b"id", u64::from(question.id()), out);
    put_verdict(unlock.verdict, out);
    put_word(b"found", word_of(&unlock.answer), out);
    put_answer(browser, names, question, unlock, details, out);
    put_number(b"tried", unlock.tried, out);
    let page = browser.page();
    put_shown(
        b"prompt",
        page.text(question.statement().op().prompt()).chars(),
        out,
    );
    end_object(out);
}
