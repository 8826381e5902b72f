//! The questions of a form set that may not be changed, and what opens each.

ghost use Rattle.std.specs.Prelude.{◌≡◌, ◌≤◌, IfErr, IfOk, OnErr, OnOk, Some, map};
ghost use Rattle.hii_bytes.specs.Faults.{out_of_memory};
ghost use Rattle.hii_bytes.specs.Watching.{Puts, pen_of};
ghost use Rattle.ifr_nodes.specs.Nodes.{nodes_of};
ghost use Rattle.ifr_nodes.specs.code.Checked.{IsNodeOf};
ghost use Rattle.hii_questions.specs.Fields.{asked};
ghost use Rattle.hii_questions.specs.code.Views.{question_node, question_view};
ghost use Rattle.guard_policy.specs.code.Views.{bytes_of};
ghost use Rattle.form_page.specs.code.PageViews.{world_of};
ghost use Rattle.question_audit.specs.code.Beginnings.{Begins};
ghost use Rattle.unlock_audit.specs.Told.{TellsUnlock, asked_told, each_told, no_question_told, unlock_told, unlocks_told};
ghost use Rattle.unlock_audit.specs.Tries.{discarded};
ghost use Rattle.unlock_audit.specs.Unlock as spec;
ghost use Rattle.unlock_audit.specs.Unlock.{all_tries, is_asked_over, most_tries};
ghost use Rattle.unlock_audit.specs.code.Answers.{answer_meant, unlock_meant};
ghost use Rattle.unlock_audit.specs.code.Details.{AreDetails};
ghost use Rattle.unlock_audit.specs.code.Owning.{AreOwn, IsOwn};

use crate::answer::Unlock;
use crate::lines::put_line;
use crate::objects::put_object;
use crate::reasons::verdict_of;
use crate::runs::discard;
use crate::words::Details;
use audit_json::{Telling, end_object, put_kind, put_member};
use browser_commands::Browser;
use form_page::Page;
use guard_policy::Conditions;
use hii_bytes::{Fault, Watched};
use hii_questions::Question;
use question_audit::{StoreNames, is_never_changed};
use std::alloc::{AllocError, Global};
use std::io::Write;

// How many tries are made for a question, and for all.
const FOR_ONE: u64 = 4_096;

const FOR_ALL: u64 = 65_536;

// Whether a question with an id may not be changed, where commands could.
fn is_asked<'a, C: Conditions>(page: Page<'a, '_, C>, question: Question<'a>) -> bool
    requires node { IsNodeOf (bytes_of page.policy) (question_node question) }
    requires asked { question_view question
        ≡ asked (nodes_of (bytes_of page.policy)) (question_node question) }
    ensures { result ≡ is_asked_over (world_of page.entry) (question_view question.entry) }
{
    if question.id() == 0 || is_never_changed(question) {
        return false;
    }
    verdict_of(page, question).is_err()
}

// These questions, by place.
fn asked_questions<'a>(
    alloc: Global,
    browser: &Browser<'a>,
) -> Result<Vec<Question<'a>>, AllocError>
    ensures asked { IfOk result (λ found. map question_view found.items ≡ spec.asked_questions browser.now.state) }
    ensures own { IfOk result (λ found. AreOwn browser.now.state.ifr found.items) }
{
    let page = browser.page();
    let mut asked = Vec::new(alloc);
    let mut left = page.questions().all();
    while let Some(question) = left.next() {
        if is_asked(page, question) {
            asked.push(question)?;
        }
    }
    Ok(asked)
}

// Tells it as a line or as an object.
fn put_as<'a, W: Write>(
    telling: Telling,
    browser: &Browser<'a>,
    names: &StoreNames<'a>,
    question: Question<'a>,
    unlock: &Unlock,
    details: &Details<'a>,
    out: &mut Watched<W>,
)
    requires names { names.now ≡ browser.now.state.ifr }
    requires fresh { discarded browser.now.state ≡ browser.now.state }
    requires details { AreDetails browser.now.state (question_view question) (answer_meant unlock.now.answer) details.now }
    ensures { Puts W.contents out.old out.new
        (unlock_told telling browser.now.state (question_view question.entry) (unlock_meant unlock.now)) }
{
    match telling {
        Telling::Lines => put_line(browser, names, question, unlock, details, out),
        Telling::Objects => put_object(browser, names, question, unlock, details, out),
    }
}

// Tells what opens a question.
fn put_told<'a, W: Write>(
    alloc: Global,
    telling: Telling,
    browser: &Browser<'a>,
    names: &StoreNames<'a>,
    question: Question<'a>,
    unlock: &Unlock,
    out: &mut Watched<W>,
) -> Result<(), Fault>
    requires node { IsNodeOf browser.now.state.ifr (question_node question) }
    requires names { names.now ≡ browser.now.state.ifr }
    requires fresh { discarded browser.now.state ≡ browser.now.state }
    ensures told { OnOk result (Puts W.contents out.old out.new
        (unlock_told telling browser.now.state (question_view question.entry) (unlock_meant unlock.now))) }
    ensures nothing { IfErr result (λ fault. (fault ≡ out_of_memory) × (out.new ≡ out.old)) }
{
    let details = Details::of(alloc, browser, question, &unlock.answer)?;
    put_as(telling, browser, names, question, unlock, &details, out);
    Ok(())
}

// Finds what opens a question by so many tries at most, and tells it. It gives how many were made.
fn put_question<'a, W: Write>(
    alloc: Global,
    telling: Telling,
    browser: &mut Browser<'a>,
    names: &StoreNames<'a>,
    question: Question<'a>,
    left: u64,
    out: &mut Watched<W>,
) -> Result<u64, Fault>
    requires own { IsOwn browser.old.state.ifr question }
    requires names { names.now ≡ browser.old.state.ifr }
    requires fresh { discarded browser.old.state ≡ browser.old.state }
    ensures told { IfOk result (λ tried. (tried ≡ (spec.unlock browser.old.state (most_tries left) (question_view question.entry)).tried)
        × Puts W.contents out.old out.new (unlock_told telling browser.old.state (question_view question.entry)
        (spec.unlock browser.old.state (most_tries left) (question_view question.entry)))) }
    ensures few { IfOk result (λ tried. tried ≤ left) }
    ensures same { browser.new.state ≡ browser.old.state }
    ensures nothing { IfErr result (λ fault. (fault ≡ out_of_memory) × (out.new ≡ out.old)) }
{
    let most = left.min(FOR_ONE);
    let found = Unlock::of(alloc, browser, question, most)?;
    put_told(alloc, telling, browser, names, question, &found, out)?;
    Ok(found.tried)
}

// Tells that no question has an id.
fn put_no_question<W: Write>(telling: Telling, id: u16, out: &mut Watched<W>)
    ensures { Puts W.contents out.old out.new (no_question_told telling id) }
{
    match telling {
        Telling::Lines => {
            out.put(b"NO QUESTION ");
            out.put_decimal(u64::from(id));
            out.put(b"\n");
        }
        Telling::Objects => {
            put_kind(b"error", out);
            put_member(b"text", out);
            out.put(b"\"NO QUESTION ");
            out.put_decimal(u64::from(id));
            out.put(b"\"");
            end_object(out);
        }
    }
}

// Tells it of some questions, which share the tries.
fn put_each<'a, W: Write>(
    alloc: Global,
    telling: Telling,
    browser: &mut Browser<'a>,
    names: &StoreNames<'a>,
    asked: &[Question<'a>],
    out: &mut Watched<W>,
) -> Result<(), Fault>
    requires own { AreOwn browser.old.state.ifr asked.now }
    requires names { names.now ≡ browser.old.state.ifr }
    requires fresh { discarded browser.old.state ≡ browser.old.state }
    ensures told { OnOk result (Puts W.contents out.old out.new
        (each_told telling browser.old.state all_tries (map question_view asked.now))) }
    ensures begun { OnErr result (Begins (pen_of W.contents out.old) (pen_of W.contents out.new)
        (each_told telling browser.old.state all_tries (map question_view asked.now))) }
    ensures same { browser.new.state ≡ browser.old.state }
    ensures refused { IfErr result (λ fault. fault ≡ out_of_memory) }
{
    let mut left = FOR_ALL;
    for question in asked {
        left -= put_question(alloc, telling, browser, names, *question, left, out)?;
    }
    Ok(())
}

// Tells of each question that may not be changed over the committed stores, by place.
fn put_all<W: Write>(
    alloc: Global,
    telling: Telling,
    browser: &mut Browser<'_>,
    out: &mut Watched<W>,
) -> Result<(), Fault>
    ensures told { OnOk result (Puts W.contents out.old out.new (unlocks_told telling (discarded browser.old.state))) }
    ensures begun { OnErr result (Begins (pen_of W.contents out.old) (pen_of W.contents out.new)
        (unlocks_told telling (discarded browser.old.state))) }
    ensures same { browser.new.state ≡ discarded browser.old.state }
    ensures refused { IfErr result (λ fault. fault ≡ out_of_memory) }
{
    discard(browser);
    let names = StoreNames::read(alloc, browser.page().policy().forms())?;
    let asked = asked_questions(alloc, browser)?;
    put_each(alloc, telling, browser, &names, asked.as_slice(), out)
}

// Tells of the question of an id, whatever it is, or that there is none, and whether there is one.
fn put_one<W: Write>(
    alloc: Global,
    telling: Telling,
    browser: &mut Browser<'_>,
    id: u16,
    out: &mut Watched<W>,
) -> Result<bool, Fault>
    ensures told { IfOk result (λ is_there. TellsUnlock telling is_there (discarded browser.old.state) (Some id)
        (pen_of W.contents out.old) (pen_of W.contents out.new)) }
    ensures nothing { OnErr result (out.new ≡ out.old) }
    ensures same { browser.new.state ≡ discarded browser.old.state }
    ensures refused { IfErr result (λ fault. fault ≡ out_of_memory) }
{
    discard(browser);
    let Some(question) = browser.page().questions().find(id) else {
        put_no_question(telling, id, out);
        return Ok(false);
    };
    let names = StoreNames::read(alloc, browser.page().policy().forms())?;
    put_question(alloc, telling, browser, &names, question, FOR_ALL, out)?;
    Ok(true)
}

/// Tells of each question that may not be changed over the committed stores, by place, what opens it: commands of the session that were
/// tried, a field that is written, or why nothing does; or the same of the question of an id, whatever it is. It gives whether there is a
/// question of the id, and tells where there is none. What was not submitted is discarded. Where an allocation fails, the beginning may
/// be written (own rule).
pub fn put_unlock<W: Write>(
    alloc: Global,
    telling: Telling,
    browser: &mut Browser<'_>,
    id: Option<u16>,
    out: &mut Watched<W>,
) -> Result<bool, Fault>
    ensures told { IfOk result (λ is_there. TellsUnlock telling is_there (discarded browser.old.state) id
        (pen_of W.contents out.old) (pen_of W.contents out.new)) }
    ensures begun { OnErr result (Begins (pen_of W.contents out.old) (pen_of W.contents out.new)
        (asked_told telling (discarded browser.old.state) id)) }
    ensures same { browser.new.state ≡ discarded browser.old.state }
    ensures refused { IfErr result (λ fault. fault ≡ out_of_memory) }
{
    let Some(id) = id else {
        put_all(alloc, telling, browser, out)?;
        return Ok(true);
    };
    put_one(alloc, telling, browser, id, out)
}
