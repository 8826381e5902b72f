//! What one image holds otherwise than another one.

ghost use Rattle.std.specs.Prelude.{◌≡◌, IfErr, OnOk, Option};
ghost use Rattle.hii_bytes.specs.Faults.{out_of_memory};
ghost use Rattle.hii_bytes.specs.Watching.{Puts};
ghost use Rattle.ifr_nodes.specs.Nodes.{nodes_of};
ghost use Rattle.ifr_nodes.specs.code.Checked.{IsNodeOf};
ghost use Rattle.hii_varstore.specs.Stores.{shape_of};
ghost use Rattle.hii_questions.specs.Fields.{asked, questions};
ghost use Rattle.hii_questions.specs.code.LyingIn.{LieIn};
ghost use Rattle.hii_questions.specs.code.Views.{question_node, question_view};
ghost use Rattle.guard_policy.specs.Policy.{fixed};
ghost use Rattle.guard_policy.specs.code.Answers.{unless};
ghost use Rattle.guard_policy.specs.code.Views.{bytes_of};
ghost use Rattle.guard_policy.specs.declared.denial.Denial.{Denial as Denied};
ghost use Rattle.form_page.specs.code.PageViews.{world_of};
ghost use Rattle.question_audit.specs.Audited.{Audited};
ghost use Rattle.question_audit.specs.code.Pages.{audited};
ghost use Rattle.audit_json.specs.Objects.{word_member};
ghost use Rattle.image_audit.specs.Difference as spec;

use crate::fields::{differs, give_fields};
use crate::runs::put_bytes;
use crate::value_objects::{put_question_members, put_value_object};
use audit_json::{Telling, end_object, put_kind, put_member};
use audit_text::put_safe_shown;
use form_page::Page;
use guard_policy::{Conditions, Denial};
use hii_bytes::{Fault, Watched};
use hii_questions::Question;
use question_audit::{StoreNames, put_denial, put_told_value};
use std::alloc::Global;
use std::io::Write;

// Tells a question whose field holds other bytes.
fn put_value<'a, C: Conditions, W: Write>(
    telling: Telling,
    one: Page<'a, '_, C>,
    other: Page<'a, '_, C>,
    names: &StoreNames<'a>,
    question: Question<'a>,
    out: &mut Watched<W>,
)
    requires same { bytes_of other.policy ≡ bytes_of one.policy }
    requires node { IsNodeOf (bytes_of one.policy) (question_node question) }
    requires asked { question_view question
        ≡ asked (nodes_of (bytes_of one.policy)) (question_node question) }
    requires names { names.now ≡ bytes_of one.policy }
    ensures { Puts W.contents out.old out.new
        (spec.value_told_as telling (audited one.entry) (audited other.entry) (question_view question.entry)) }
{
    match telling {
        Telling::Lines => put_value_line(one, other, question, out),
        Telling::Objects => put_value_object(one, other, names, question, out),
    }
}

// Writes the line of a question whose field holds other bytes.
fn put_value_line<'a, C: Conditions, W: Write>(
    one: Page<'a, '_, C>,
    other: Page<'a, '_, C>,
    question: Question<'a>,
    out: &mut Watched<W>,
)
    requires same { bytes_of other.policy ≡ bytes_of one.policy }
    requires node { IsNodeOf (bytes_of one.policy) (question_node question) }
    requires asked { question_view question
        ≡ asked (nodes_of (bytes_of one.policy)) (question_node question) }
    ensures { Puts W.contents out.old out.new
        (spec.value_line (audited one.entry) (audited other.entry) (question_node question.entry)) }
{
    out.put(b"VALUE ");
    out.put_decimal(u64::from(question.id()));
    out.put(b" ");
    put_safe_shown(one.text(question.statement().op().prompt()).chars(), out);
    out.put(b" [");
    put_told_value(one, question, out);
    out.put(b"] -> [");
    put_told_value(other, question, out);
    out.put(b"]\n");
}

// Tells the questions whose fields hold other bytes, by place.
fn put_values<'a, C: Conditions, W: Write>(
    telling: Telling,
    one: Page<'a, '_, C>,
    other: Page<'a, '_, C>,
    names: &StoreNames<'a>,
    out: &mut Watched<W>,
)
    requires same { bytes_of other.policy ≡ bytes_of one.policy }
    requires stores { shape_of one.stores.now ≡ shape_of other.stores.now }
    requires lie { LieIn (shape_of one.stores.now) (questions (nodes_of (bytes_of one.policy))) }
    requires names { names.now ≡ bytes_of one.policy }
    ensures { Puts W.contents out.old out.new
        (spec.values_told telling (audited one.entry) (audited other.entry)) }
{
    let mut left = one.questions().all();
    while let Some(question) = left.next() {
        if differs(question, one.stores(), other.stores()) {
            put_value(telling, one, other, names, question, out);
        }
    }
}

// Whether other opcodes decide, or one decides and none does.
fn are_other_verdicts(one: Result<(), Denial>, other: Result<(), Denial>) -> bool
    ensures { (a b : Option Denied) → one ≡ unless a → other ≡ unless b
        → result ≡ spec.are_other_verdicts a b }
{
    match (one, other) {
        (Ok(()), Ok(())) => false,
        (Err(a), Err(b)) => a.kind.name() != b.kind.name() || a.place != b.place,
        _ => true,
    }
}

// Writes a verdict.
fn put_verdict<W: Write>(verdict: Result<(), Denial>, out: &mut Watched<W>)
    ensures { (denied : Option Denied) → verdict ≡ unless denied
        → Puts W.contents out.old out.new (spec.verdict_text denied) }
{
    match verdict {
        Ok(()) => out.put(b"open"),
        Err(denial) => put_denial(denial, out),
    }
}

// Writes the line of a question on which other opcodes decide.
fn put_verdict_line<'a, C: Conditions, W: Write>(
    page: Page<'a, '_, C>,
    question: Question<'a>,
    one: Result<(), Denial>,
    other: Result<(), Denial>,
    out: &mut Watched<W>,
)
    ensures { (b : Audited) → one ≡ unless (fixed (world_of page.entry) (question_node question.entry))
        → other ≡ unless (fixed b.world (question_node question.entry))
        → Puts W.contents out.old out.new (spec.verdict_line (audited page.entry) b (question_node question.entry)) }
{
    out.put(b"VERDICT ");
    out.put_decimal(u64::from(question.id()));
    out.put(b" [");
    put_verdict(one, out);
    out.put(b" -> ");
    put_verdict(other, out);
    out.put(b"] ");
    put_safe_shown(page.text(question.statement().op().prompt()).chars(), out);
    out.put(b"\n");
}

// Writes that as an object.
fn put_verdict_object<'a, C: Conditions, W: Write>(
    page: Page<'a, '_, C>,
    question: Question<'a>,
    one: Result<(), Denial>,
    other: Result<(), Denial>,
    out: &mut Watched<W>,
)
    ensures { (b : Audited) → one ≡ unless (fixed (world_of page.entry) (question_node question.entry))
        → other ≡ unless (fixed b.world (question_node question.entry))
        → Puts W.contents out.old out.new (spec.verdict_object (audited page.entry) b (question_node question.entry)) }
{
    put_kind(b"verdict", out);
    put_question_members(page, question, out);
    put_verdict_member(b"old", one, out);
    put_verdict_member(b"new", other, out);
    end_object(out);
}

// Writes the member that tells a verdict.
fn put_verdict_member<W: Write>(key: &[u8], verdict: Result<(), Denial>, out: &mut Watched<W>)
    ensures { (denied : Option Denied) → verdict ≡ unless denied
        → Puts W.contents out.old out.new (word_member key.now (spec.verdict_text denied)) }
{
    put_member(key, out);
    out.put(b"\"");
    put_verdict(verdict, out);
    out.put(b"\"");
}

// Tells a question on which other opcodes decide.
fn put_verdict_told<'a, C: Conditions, W: Write>(
    telling: Telling,
    page: Page<'a, '_, C>,
    question: Question<'a>,
    one: Result<(), Denial>,
    other: Result<(), Denial>,
    out: &mut Watched<W>,
)
    ensures { (b : Audited) → one ≡ unless (fixed (world_of page.entry) (question_node question.entry))
        → other ≡ unless (fixed b.world (question_node question.entry))
        → Puts W.contents out.old out.new
        (spec.verdict_told telling (audited page.entry) b (question_node question.entry)) }
{
    match telling {
        Telling::Lines => put_verdict_line(page, question, one, other, out),
        Telling::Objects => put_verdict_object(page, question, one, other, out),
    }
}

// Tells the questions on which other opcodes decide, by place.
fn put_verdicts<'a, C: Conditions, W: Write>(
    telling: Telling,
    one: Page<'a, '_, C>,
    other: Page<'a, '_, C>,
    out: &mut Watched<W>,
)
    requires same { bytes_of other.policy ≡ bytes_of one.policy }
    ensures { Puts W.contents out.old out.new
        (spec.verdicts_told telling (audited one.entry) (audited other.entry)) }
{
    let mut left = one.questions().all();
    while let Some(question) = left.next() {
        let here = one
            .policy()
            .question_changeable_by(question, one.conditions());
        let there = other
            .policy()
            .question_changeable_by(question, other.conditions());
        if are_other_verdicts(here, there) {
            put_verdict_told(telling, one, question, here, there, out);
        }
    }
}

/// Tells what the stores of the second page hold otherwise than those of the first, over the same form set: the values of questions, by
/// place; each run of bytes that no question's field has, by store and offset; and verdicts, by place. Where an allocation fails
/// nothing is written.
pub fn put_difference<'a, C: Conditions, W: Write>(
    telling: Telling,
    alloc: Global,
    one: Page<'a, '_, C>,
    other: Page<'a, '_, C>,
    out: &mut Watched<W>,
) -> Result<(), Fault>
    requires same { bytes_of other.policy ≡ bytes_of one.policy }
    requires stores { shape_of one.stores.now ≡ shape_of other.stores.now }
    requires lie { LieIn (shape_of one.stores.now) (questions (nodes_of (bytes_of one.policy))) }
    ensures written { OnOk result (Puts W.contents out.old out.new
        (spec.difference_told telling (audited one.entry) (audited other.entry))) }
    ensures nothing { IfErr result (λ fault. (fault ≡ out_of_memory) × (out.new ≡ out.old)) }
{
    let names = StoreNames::read(alloc, one.policy().forms())?;
    let mut given = one.stores().copy(alloc)?;
    give_fields(one.questions(), one.stores(), other.stores(), &mut given);
    put_values(telling, one, other, &names, out);
    let forms = one.policy().forms();
    put_bytes(telling, forms, &names, &given, other.stores(), out);
    put_verdicts(telling, one, other, out);
    Ok(())
}
