//! The options of questions.

ghost use Rattle.std.specs.Prelude.{◌≡◌, ◌++◌, ℕ, List, OnOk, OnErr, codes, is_some};
ghost use Rattle.std.specs.BTreeMap.{get};
ghost use Rattle.std.specs.Ordering.{nat_cmp};
ghost use Rattle.hii_bytes.specs.Watching.{Puts, pen_of};
ghost use Rattle.audit_json.specs.Objects.{before_item};
ghost use Rattle.ifr_opcodes.specs.Rows.{is_among};
ghost use Rattle.ifr_nodes.specs.Nodes.{nodes_of};
ghost use Rattle.ifr_nodes.specs.code.Checked.{IsNodeOf};
ghost use Rattle.ifr_index.specs.code.LockIndex.{first_place};
ghost use Rattle.ifr_scopes.specs.code.Parts.{option_node};
ghost use Rattle.hii_questions.specs.code.Views.{question_node};
ghost use Rattle.guard_policy.specs.Policy.{fixed};
ghost use Rattle.guard_policy.specs.code.Views.{bytes_of};
ghost use Rattle.form_page.specs.code.PageViews.{world_of};
ghost use Rattle.question_audit.specs.code.Pages.{audited};
ghost use Rattle.question_audit.specs.OptionFacts.{own_denial as own_denial_of, with_place};
ghost use Rattle.question_audit.specs.code.Beginnings.{Begins};
ghost use Rattle.question_audit.specs.code.Places.{has_place};
ghost use Rattle.question_objects.specs.Options.{option_item, options_member};

use crate::detail::Detail;
use crate::option_parts::{put_option, told_words};
use audit_json::{put_array_end, put_before_item};
use form_page::Page;
use guard_policy::Conditions;
use hii_bytes::Watched;
use hii_questions::Question;
use ifr_scopes::OptionView;
use question_audit::own_denial;
use std::alloc::{AllocError, Global};
use std::collections::{BTreeMap, BTreeSet};
use std::io::Write;

/// What the options of a question have in common.
#[derive(Clone, Copy)]
struct Common<'l> {
    /// How much is told of the question.
    detail: Detail,
    /// The place of the first LOCKED directly in each scope of the package.
    locks: &'l BTreeMap<u32, u32>,
    /// The place of the question.
    place: u32,
    /// Whether the question may not be changed.
    is_denied: bool,
}

// Writes an option behind others: these are the places of what denies them. Where an allocation fails nothing is written.
fn put_item<'a, C: Conditions, W: Write>(
    alloc: Global,
    page: Page<'a, '_, C>,
    common: Common<'_>,
    option: OptionView<'a>,
    told: &mut BTreeSet<u32>,
    is_first: bool,
    out: &mut Watched<W>,
) -> Result<(), AllocError>
    requires node { IsNodeOf (bytes_of page.policy) (option_node option) }
    requires locks { (scope : ℕ)
        → get nat_cmp common.locks.now scope ≡ first_place (nodes_of (bytes_of page.policy)) scope }
    ensures told { OnOk result ((places : List ℕ)
        → ((place : ℕ) → has_place told.old place ≡ is_among place places)
        → Puts W.contents out.old out.new
        (before_item (codes "options") is_first
        ++ option_item common.entry.detail (audited page.entry) common.entry.place common.entry.is_denied places (option_node option.entry))) }
    ensures places { OnOk result ((places : List ℕ)
        → ((place : ℕ) → has_place told.old place ≡ is_among place places)
        → (place : ℕ) → has_place told.new place ≡ is_among place
        (with_place (own_denial_of (world_of page.entry) common.entry.place (option_node option.entry)) places)) }
    ensures nothing { OnErr result (out.new ≡ out.old) }
{
    let denial = own_denial(page, common.locks, common.place, option);
    let words = told_words(page, common.detail, option, denial, told)?;
    put_before_item(b"options", is_first, out);
    put_option(page, common.is_denied, option, denial, words, out);
    Ok(())
}

/// Writes the options of a question in this detail, by place, where this says whether it may not be changed. Where an allocation fails,
/// the beginning of the member may be written.
pub(crate) fn put_options<'a, C: Conditions, W: Write>(
    alloc: Global,
    page: Page<'a, '_, C>,
    detail: Detail,
    locks: &BTreeMap<u32, u32>,
    question: Question<'a>,
    is_denied: bool,
    out: &mut Watched<W>,
) -> Result<(), AllocError>
    requires node { IsNodeOf (bytes_of page.policy) (question_node question) }
    requires locks { (scope : ℕ)
        → get nat_cmp locks.now scope ≡ first_place (nodes_of (bytes_of page.policy)) scope }
    requires denied { is_denied ≡ is_some (fixed (world_of page) (question_node question)) }
    ensures told { OnOk result (Puts W.contents out.old out.new
        (options_member detail (audited page.entry) (question_node question.entry))) }
    ensures begun { OnErr result (Begins (pen_of W.contents out.old) (pen_of W.contents out.new)
        (options_member detail (audited page.entry) (question_node question.entry))) }
{
    let common = Common {
        detail,
        locks,
        place: question.place(),
        is_denied,
    };
    let mut told = BTreeSet::new(alloc);
    let mut options = page.policy().forms().options_of(question.statement());
    let mut is_first = true;
    while let Some(option) = options.next() {
        put_item(alloc, page, common, option, &mut told, is_first, out)?;
        is_first = false;
    }
    put_array_end(is_first, out);
    Ok(())
}
