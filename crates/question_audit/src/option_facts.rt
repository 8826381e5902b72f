//! The options of questions.

ghost use Rattle.std.specs.Prelude.{◌≡◌, ℕ, List, IfOk, OnOk, OnErr, codes, is_some, option_map};
ghost use Rattle.std.specs.BTreeMap.{get};
ghost use Rattle.std.specs.Ordering.{nat_cmp};
ghost use Rattle.hii_bytes.specs.Watching.{Puts, pen_of};
ghost use Rattle.ifr_opcodes.specs.Rows.{is_among};
ghost use Rattle.ifr_nodes.specs.Nodes.{nodes_of};
ghost use Rattle.ifr_nodes.specs.code.Checked.{IsNodeOf};
ghost use Rattle.ifr_index.specs.code.LockIndex.{first_place};
ghost use Rattle.ifr_scopes.specs.code.Parts.{option_node};
ghost use Rattle.condition_text.specs.code.Conditions.{words_of};
ghost use Rattle.hii_questions.specs.Fields.{asked};
ghost use Rattle.hii_questions.specs.code.Views.{question_node, question_view};
ghost use Rattle.guard_policy.specs.Policy.{fixed};
ghost use Rattle.guard_policy.specs.code.Views.{bytes_of};
ghost use Rattle.form_page.specs.code.PageViews.{world_of};
ghost use Rattle.question_audit.specs.ScriptValues.{behind};
ghost use Rattle.question_audit.specs.code.Pages.{audited};
ghost use Rattle.question_audit.specs.ConditionFacts.{condition_words};
ghost use Rattle.question_audit.specs.OptionFacts.{deciding_words, guard_at, option_fact, option_facts, option_verdict, own_denial as own_denial_of, with_place};
ghost use Rattle.question_audit.specs.code.Beginnings.{Begins};
ghost use Rattle.question_audit.specs.code.Places.{has_place};

use crate::facts::put_column;
use crate::lock_places::scope_locks;
use crate::own_denials::own_denial;
use crate::places::add_place;
use crate::questions::put_denial;
use audit_text::put_safe_shown;
use condition_text::ConditionText;
use form_page::Page;
use guard_policy::{Conditions, Denial};
use hii_bytes::Watched;
use hii_questions::Question;
use ifr_scopes::OptionView;
use std::alloc::{AllocError, Global};
use std::collections::{BTreeMap, BTreeSet};
use std::io::Write;

// What the guard at a place around an option says, if there is one.
fn words_at<'a, C: Conditions>(
    page: Page<'a, '_, C>,
    option: OptionView<'a>,
    place: u32,
) -> Option<ConditionText<'a>>
    requires { IsNodeOf (bytes_of page.policy) (option_node option) }
    ensures { option_map words_of result
        ≡ option_map condition_words (guard_at place (option_node option.entry)) }
{
    let mut guards = page.policy().forms().guards_at(option.place());
    while let Some(guard) = guards.next() {
        if guard.place() == place {
            return Some(ConditionText::of(guard.condition()));
        }
    }
    None
}

/// What the guard that denies an option says, where it denies none before: these are the places of what does, to which its own is
/// added.
pub fn deciding_words<'a, C: Conditions>(
    page: Page<'a, '_, C>,
    option: OptionView<'a>,
    denial: Option<Denial>,
    told: &mut BTreeSet<u32>,
) -> Result<Option<ConditionText<'a>>, AllocError>
    requires { IsNodeOf (bytes_of page.policy) (option_node option) }
    ensures words { IfOk result (λ text. (places : List ℕ)
        → ((place : ℕ) → has_place told.old place ≡ is_among place places)
        → option_map words_of text ≡ deciding_words places (option_node option.entry) denial) }
    ensures places { OnOk result ((places : List ℕ)
        → ((place : ℕ) → has_place told.old place ≡ is_among place places)
        → (place : ℕ) → has_place told.new place ≡ is_among place (with_place denial places)) }
{
    let Some(denial) = denial else {
        return Ok(None);
    };
    if add_place(told, denial.place)? {
        return Ok(words_at(page, option, denial.place));
    }
    Ok(None)
}

// Writes what a guard says behind a colon, if it is told.
fn put_words<W: Write>(words: Option<ConditionText<'_>>, out: &mut Watched<W>)
    ensures { Puts W.contents out.old out.new
        (behind (codes ": ") (option_map words_of words.entry)) }
{
    if let Some(text) = words {
        out.put(b": ");
        text.put(out);
    }
}

// Writes what denies an option by itself, or else whether its question is denied.
fn put_option_verdict<W: Write>(is_denied: bool, denial: Option<Denial>, out: &mut Watched<W>)
    ensures { Puts W.contents out.old out.new (option_verdict is_denied denial) }
{
    match denial {
        Some(denial) => put_denial(denial, out),
        None => out.put(if is_denied {
            b"as the question"
        } else {
            b"open"
        }),
    }
}

/// What the options of a question have in common.
#[derive(Clone, Copy)]
struct Common<'l> {
    /// The place of the first LOCKED directly in each scope of the package.
    locks: &'l BTreeMap<u32, u32>,
    /// The place of the question.
    place: u32,
    /// Whether the question may not be changed.
    is_denied: bool,
}

// Writes an option, behind others: these are the places of what denies them. Where an allocation fails, the beginning of its line
// may be written.
fn put_option<'a, C: Conditions, W: Write>(
    page: Page<'a, '_, C>,
    common: Common<'_>,
    option: OptionView<'a>,
    told: &mut BTreeSet<u32>,
    out: &mut Watched<W>,
) -> Result<(), AllocError>
    requires node { IsNodeOf (bytes_of page.policy) (option_node option) }
    requires locks { (scope : ℕ)
        → get nat_cmp common.locks.now scope ≡ first_place (nodes_of (bytes_of page.policy)) scope }
    ensures told { OnOk result ((places : List ℕ)
        → ((place : ℕ) → has_place told.old place ≡ is_among place places)
        → Puts W.contents out.old out.new
        (option_fact (audited page.entry) common.entry.place common.entry.is_denied places (option_node option.entry))) }
    ensures places { OnOk result ((places : List ℕ)
        → ((place : ℕ) → has_place told.old place ≡ is_among place places)
        → (place : ℕ) → has_place told.new place ≡ is_among place
        (with_place (own_denial_of (world_of page.entry) common.entry.place (option_node option.entry)) places)) }
    ensures begun { OnErr result ((places : List ℕ)
        → ((place : ℕ) → has_place told.old place ≡ is_among place places)
        → Begins (pen_of W.contents out.old) (pen_of W.contents out.new)
        (option_fact (audited page.entry) common.entry.place common.entry.is_denied places (option_node option.entry))) }
{
    let denial = own_denial(page, common.locks, common.place, option);
    let words = deciding_words(page, option, denial, told)?;
    put_column(b"option", out);
    out.put_decimal(option.op().value());
    out.put(b" ");
    put_safe_shown(page.text(option.op().text()).chars(), out);
    out.put(b": ");
    put_option_verdict(common.is_denied, denial, out);
    put_words(words, out);
    out.put(b"\n");
    Ok(())
}

// Whether a question may not be changed.
fn is_denied<'a, C: Conditions>(page: Page<'a, '_, C>, question: Question<'a>) -> bool
    requires node { IsNodeOf (bytes_of page.policy) (question_node question) }
    requires asked { question_view question
        ≡ asked (nodes_of (bytes_of page.policy)) (question_node question) }
    ensures { result ≡ is_some (fixed (world_of page.entry) (question_node question.entry)) }
{
    page.policy()
        .question_changeable_by(question, page.conditions())
        .is_err()
}

/// Writes the options of a question, by place. Where an allocation fails, the beginning of these lines may be written.
pub(crate) fn put_options<'a, C: Conditions, W: Write>(
    alloc: Global,
    page: Page<'a, '_, C>,
    question: Question<'a>,
    out: &mut Watched<W>,
) -> Result<(), AllocError>
    requires node { IsNodeOf (bytes_of page.policy) (question_node question) }
    requires asked { question_view question
        ≡ asked (nodes_of (bytes_of page.policy)) (question_node question) }
    ensures told { OnOk result (Puts W.contents out.old out.new
        (option_facts (audited page.entry) (question_node question.entry))) }
    ensures begun { OnErr result (Begins (pen_of W.contents out.old) (pen_of W.contents out.new)
        (option_facts (audited page.entry) (question_node question.entry))) }
{
    let forms = page.policy().forms();
    let locks = scope_locks(alloc, forms.bytes())?;
    let common = Common {
        locks: &locks,
        place: question.place(),
        is_denied: is_denied(page, question),
    };
    let mut told = BTreeSet::new(alloc);
    let mut options = forms.options_of(question.statement());
    while let Some(option) = options.next() {
        put_option(page, common, option, &mut told, out)?;
    }
    Ok(())
}
