//! Which questions decide on which, by the ids of those that decide.

ghost use Rattle.std.specs.Prelude.{◌≡◌, ◌<◌, ℕ, IfOk, IfSome, OnOk, filter, map, ◌++◌};
ghost use Rattle.std.specs.List.Sorted.{IsSortedByKey};
ghost use Rattle.std.specs.Ordering.{nat_cmp};
ghost use Rattle.ifr_nodes.specs.Nodes.{nodes_of};
ghost use Rattle.ifr_nodes.specs.code.Checked.{IsNodeOf};
ghost use Rattle.hii_questions.specs.code.Views.{question_node, question_view};
ghost use Rattle.guard_policy.specs.code.Views.{bytes_of};
ghost use Rattle.question_rows.specs.code.Deciding.{AreDecisions, TellsDecisions, decisions_on, is_by, told};
ghost use Rattle.question_rows.specs.declared.decisions.Decision.{Decision};

use form_page::Page;
use guard_policy::{Conditions, Policy};
use hii_questions::Question;
use question_audit::{When, support_of};
use std::alloc::{AllocError, Global};

// How many decisions of a kind are kept of a form set (own rule).
const MOST: usize = 131_072;

/// That it depends on the answer to one question whether another may be changed.
#[derive(Clone, Copy)]
pub struct Decision<'a> {
    /// The id of the question that decides.
    pub(crate) by: u16,
    /// The other.
    pub(crate) on: Question<'a>,
}

/// The decisions of a form set, by rising ids of the questions that decide; those of one id by the places of the others.
pub struct Decisions<'a> {
    /// Those at commands.
    pub(crate) at_commands: Vec<Decision<'a>>,
    /// Those at opening.
    pub(crate) at_opening: Vec<Decision<'a>>,
}

impl<'a> Drop for Decisions<'a> {
    fn drop(self) {
        let Decisions {
            at_commands: _,
            at_opening: _,
        } = self;
    }
}

// Adds what decides on a question then.
fn add_decisions<'a>(
    alloc: Global,
    policy: Policy<'a, '_>,
    question: Question<'a>,
    when: When,
    decisions: &mut Vec<Decision<'a>>,
) -> Result<(), AllocError>
    requires { IsNodeOf (bytes_of policy) (question_node question) }
    ensures { OnOk result (map told decisions.new.items ≡ map told decisions.old.items
        ++ decisions_on when (nodes_of (bytes_of policy.entry)) (question_view question.entry)) }
{
    let ids = support_of(alloc, policy, question.statement(), when)?;
    let mut left = ids.iter();
    while let Some(id) = left.next() {
        decisions.push(Decision {
            by: *id,
            on: question,
        })?;
    }
    Ok(())
}

// The decisions then of the form set of a page, unless there are too many.
fn decisions_when<'a, C: Conditions>(
    alloc: Global,
    page: Page<'a, '_, C>,
    when: When,
) -> Result<Option<Vec<Decision<'a>>>, AllocError>
    ensures { IfOk result (λ held. IfSome held (λ decisions.
        AreDecisions when (nodes_of (bytes_of page.entry.policy)) decisions.items)) }
{
    let mut decisions = Vec::new(alloc);
    let policy = page.policy();
    let mut questions = page.questions().all();
    while let Some(question) = questions.next() {
        add_decisions(alloc, policy, question, when, &mut decisions)?;
        if decisions.len() > MOST {
            return Ok(None);
        }
    }
    decisions.sort_by_key(|decision| decision.by)?;
    Ok(Some(decisions))
}

/// Those of an id, among decisions by rising ids.
pub(crate) fn decisions_by<'s, 'a>(decisions: &'s [Decision<'a>], by: u16) -> &'s [Decision<'a>]
    requires { IsSortedByKey (λ (d : Decision). d.by) nat_cmp decisions.now }
    ensures { result.now ≡ filter (is_by by) decisions.now }
{
    let first = decisions.partition_point(|decision| decision.by < by);
    let from = &decisions[first..];
    &from[..from.partition_point(|decision| decision.by <= by)]
}

impl<'a> Decisions<'a> {
    /// Those of the form set of a page, unless there are more than 131,072 of a kind. The one error is that an allocation failed.
    pub fn read<C: Conditions>(
        alloc: Global,
        page: Page<'a, '_, C>,
    ) -> Result<Option<Decisions<'a>>, AllocError>
        ensures { IfOk result (λ held. IfSome held (TellsDecisions (nodes_of (bytes_of page.entry.policy)))) }
    {
        let Some(at_commands) = decisions_when(alloc, page, When::AtCommands)? else {
            return Ok(None);
        };
        let Some(at_opening) = decisions_when(alloc, page, When::AtOpening)? else {
            return Ok(None);
        };
        Ok(Some(Decisions {
            at_commands,
            at_opening,
        }))
    }
}
