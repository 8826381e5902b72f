//! What is known of one question.

ghost use Rattle.std.specs.Prelude.{◌≡◌, ◌⊎◌, ◌+◌, ◌<◌, ◌^◌, ℕ, Bool, OnOk, OnErr, IfOk, IfErr, length};
ghost use Rattle.hii_bytes.specs.Faults.{out_of_memory};
ghost use Rattle.hii_bytes.specs.Watching.{Puts, pen_of};
ghost use Rattle.ifr_nodes.specs.Nodes.{nodes_of};
ghost use Rattle.ifr_nodes.specs.code.Checked.{IsNodeOf};
ghost use Rattle.hii_questions.specs.Fields.{asked, questions};
ghost use Rattle.hii_questions.specs.code.LyingIn.{LiesIn, LieIn};
ghost use Rattle.hii_questions.specs.code.Views.{question_node, question_view};
ghost use Rattle.hii_varstore.specs.Stores.{shape_of};
ghost use Rattle.guard_policy.specs.code.Views.{bytes_of};
ghost use Rattle.form_page.specs.code.PageViews.{world_of};
ghost use Rattle.question_audit.specs.Reach.{TellsReached};
ghost use Rattle.question_audit.specs.code.Pages.{audited};
ghost use Rattle.question_audit.specs.QuestionFacts.{BeginsQuestion, TellsQuestion, condition_facts, dependence_facts, kind_facts, question_facts, verdict_fact, verdict_facts};
ghost use Rattle.question_audit.specs.code.Beginnings.{Begins};

use crate::condition_facts::{put_checks, put_guards};
use crate::decides_facts::put_decides;
use crate::depends_facts::put_depends;
use crate::facts::{put_column, put_verdict_text};
use crate::limits_facts::{put_flags_fact, put_limits_fact, put_outside_fact};
use crate::opcode_facts::put_opcode_facts;
use crate::option_facts::put_options;
use crate::origin::Origin;
use crate::reasons::put_also;
use crate::rule_facts::put_rules;
use crate::store_names::StoreNames;
use crate::value_facts::put_value_facts;
use crate::ways::Ways;
use crate::when::When;
use form_page::Page;
use guard_policy::Conditions;
use hii_bytes::{Fault, Watched};
use hii_questions::Question;
use std::alloc::{AllocError, Global};
use std::io::Write;

// Writes whether a question may be changed.
fn put_verdict_fact<'a, C: Conditions, W: Write>(
    page: Page<'a, '_, C>,
    question: Question<'a>,
    out: &mut Watched<W>,
)
    requires node { IsNodeOf (bytes_of page.policy) (question_node question) }
    requires asked { question_view question
        ≡ asked (nodes_of (bytes_of page.policy)) (question_node question) }
    ensures { Puts W.contents out.old out.new
        (verdict_fact (audited page.entry) (question_node question.entry)) }
{
    let verdict = page
        .policy()
        .question_changeable_by(question, page.conditions());
    put_column(b"verdict", out);
    put_verdict_text(verdict, out);
    out.put(b"\n");
}

// Writes the flags of a question, what it takes or where it leads, and why it has no value here.
fn put_kind_facts<'a, C: Conditions, W: Write>(
    page: Page<'a, '_, C>,
    question: Question<'a>,
    out: &mut Watched<W>,
)
    ensures { Puts W.contents out.old out.new
        (kind_facts (audited page.entry) (question_view question.entry)) }
{
    put_flags_fact(question.op(), out);
    put_limits_fact(page, question.statement(), out);
    put_outside_fact(question, out);
}

// Writes whether a question may be changed, and why else it may not be.
fn put_verdict_facts<'a, C: Conditions, W: Write>(
    page: Page<'a, '_, C>,
    question: Question<'a>,
    out: &mut Watched<W>,
)
    requires node { IsNodeOf (bytes_of page.policy) (question_node question) }
    requires asked { question_view question
        ≡ asked (nodes_of (bytes_of page.policy)) (question_node question) }
    ensures { Puts W.contents out.old out.new
        (verdict_facts (audited page.entry) (question_view question.entry)) }
{
    put_verdict_fact(page, question, out);
    put_also(page, question, out);
}

// Writes the conditions around a question and in it, the rules that they name, and its options. Where an allocation fails, the
// beginning of these lines may be written.
fn put_condition_facts<'a, C: Conditions, W: Write>(
    alloc: Global,
    page: Page<'a, '_, C>,
    package_place: u64,
    question: Question<'a>,
    out: &mut Watched<W>,
) -> Result<(), AllocError>
    requires node { IsNodeOf (bytes_of page.policy) (question_node question) }
    requires asked { question_view question
        ≡ asked (nodes_of (bytes_of page.policy)) (question_node question) }
    requires in_list { package_place + length (bytes_of page.policy) < 2 ^ 64 }
    ensures told { OnOk result (Puts W.contents out.old out.new
        (condition_facts (audited page.entry) package_place (question_node question.entry))) }
    ensures begun { OnErr result (Begins (pen_of W.contents out.old) (pen_of W.contents out.new)
        (condition_facts (audited page.entry) package_place (question_node question.entry))) }
{
    put_guards(alloc, page, package_place, question.statement(), out)?;
    put_checks(alloc, page, package_place, question, out)?;
    put_rules(alloc, page, package_place, question, out)?;
    put_options(alloc, page, question, out)?;
    Ok(())
}

// Writes on which questions a question depends, and which depend on it. Where an allocation fails, the beginning of these lines may
// be written.
fn put_dependence_facts<'a, C: Conditions, W: Write>(
    alloc: Global,
    page: Page<'a, '_, C>,
    names: &StoreNames<'a>,
    question: Question<'a>,
    out: &mut Watched<W>,
) -> Result<(), AllocError>
    requires node { IsNodeOf (bytes_of page.policy) (question_node question) }
    requires names { names.now ≡ bytes_of page.policy }
    ensures told { OnOk result (Puts W.contents out.old out.new
        (dependence_facts (audited page.entry) (question_node question.entry))) }
    ensures begun { OnErr result (Begins (pen_of W.contents out.old) (pen_of W.contents out.new)
        (dependence_facts (audited page.entry) (question_node question.entry))) }
{
    let statement = question.statement();
    put_depends(alloc, page, names, statement, When::AtCommands, out)?;
    put_depends(alloc, page, names, statement, When::AtOpening, out)?;
    put_decides(alloc, page, question, out)?;
    Ok(())
}

// Writes what is known of a question, a line for each fact. Where an allocation fails, the beginning of these lines may be written.
fn put_question_facts<'a, C: Conditions, W: Write>(
    alloc: Global,
    page: Page<'a, '_, C>,
    origin: Origin,
    question: Question<'a>,
    out: &mut Watched<W>,
) -> Result<(), Fault>
    requires node { IsNodeOf (bytes_of page.policy) (question_node question) }
    requires asked { question_view question
        ≡ asked (nodes_of (bytes_of page.policy)) (question_node question) }
    requires lies { LiesIn (shape_of page.stores.now) (question_view question) }
    requires in_list { origin.place + length (bytes_of page.policy) < 2 ^ 64 }
    ensures written { OnOk result ((is_reached : ℕ → Bool) × TellsReached (world_of page.entry) is_reached
        × Puts W.contents out.old out.new
        (question_facts (audited page.entry) is_reached origin
        (question_view question.entry))) }
    ensures begun { OnErr result ((out.new ≡ out.old)
        ⊎ ((is_reached : ℕ → Bool) × TellsReached (world_of page.entry) is_reached
        × Begins (pen_of W.contents out.old) (pen_of W.contents out.new)
        (question_facts (audited page.entry) is_reached origin
        (question_view question.entry)))) }
    ensures refused { IfErr result (λ fault. fault ≡ out_of_memory) }
{
    let ways = Ways::read(alloc, page)?;
    let names = StoreNames::read(alloc, page.policy().forms())?;
    let mut spare = page.stores().copy(alloc)?;
    put_opcode_facts(page, &ways, &names, origin, question, out);
    put_kind_facts(page, question, out);
    put_value_facts(page, question, &mut spare, out);
    put_verdict_facts(page, question, out);
    put_condition_facts(alloc, page, origin.place, question, out)?;
    put_dependence_facts(alloc, page, &names, question, out)?;
    Ok(())
}

/// Writes what is known of the question of an id in the form set of a page, a line for each fact, over the stores of the page, or that
/// there is no such question; and tells whether there is one. The forms package stands at a place of the file. Where an
/// allocation fails, the beginning of these lines may be written.
pub fn put_question_with_id<'a, C: Conditions, W: Write>(
    alloc: Global,
    page: Page<'a, '_, C>,
    origin: Origin,
    id: u16,
    out: &mut Watched<W>,
) -> Result<bool, Fault>
    requires lie { LieIn (shape_of page.stores.now) (questions (nodes_of (bytes_of page.policy))) }
    requires in_list { origin.place + length (bytes_of page.policy) < 2 ^ 64 }
    ensures told { IfOk result (λ is_there. TellsQuestion is_there (audited page.entry) origin id
        (pen_of W.contents out.old) (pen_of W.contents out.new)) }
    ensures begun { OnErr result (BeginsQuestion (audited page.entry) origin id
        (pen_of W.contents out.old) (pen_of W.contents out.new)) }
    ensures refused { IfErr result (λ fault. fault ≡ out_of_memory) }
{
    match page.questions().find(id) {
        Some(question) => {
            put_question_facts(alloc, page, origin, question, out)?;
            Ok(true)
        }
        None => {
            out.put(b"NO QUESTION ");
            out.put_decimal(u64::from(id));
            out.put(b"\n");
            Ok(false)
        }
    }
}
