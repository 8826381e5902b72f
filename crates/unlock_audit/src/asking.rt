//! Which conditions decide whether a question may be changed, and which questions they ask.

ghost use Rattle.std.specs.Prelude.{◌≡◌, ◌∷◌, ◌++◌, [], IfOk, OnOk, map};
ghost use Rattle.std.specs.List.{flat_map};
ghost use Rattle.ifr_nodes.specs.Guards.{guards};
ghost use Rattle.ifr_nodes.specs.Nodes.{nodes_of, options};
ghost use Rattle.ifr_nodes.specs.code.Checked.{IsNodeOf};
ghost use Rattle.ifr_scopes.specs.code.Lists.{guard_node};
ghost use Rattle.ifr_scopes.specs.code.Parts.{option_node};
ghost use Rattle.hii_questions.specs.Fields.{asked};
ghost use Rattle.hii_questions.specs.code.Views.{question_node, question_view};
ghost use Rattle.guard_policy.specs.code.Views.{bytes_of};
ghost use Rattle.question_audit.specs.OptionFacts.{own_guards};
ghost use Rattle.unlock_audit.specs.Asking as spec;
ghost use Rattle.unlock_audit.specs.code.Askings.{asking_meant};

use arrayvec::ArrayVec;
use guard_policy::Policy;
use hii_questions::{Question, Questions};
use ifr_scopes::{Guard, OptionView};
use std::alloc::{AllocError, Global};
use std::collections::BTreeSet;

/// How many ids are looked at.
pub(crate) const MOST_IDS: usize = 64;

/// Conditions, and the ids that they ask.
#[derive(Drop)]
pub(crate) struct Asking<'a> {
    pub(crate) ids: ArrayVec<u16, 64>,
    pub(crate) conditions: Vec<Guard<'a>>,
}

// Adds the guards around a question.
fn add_around<'a>(
    policy: Policy<'a, '_>,
    question: Question<'a>,
    conditions: &mut Vec<Guard<'a>>,
) -> Result<(), AllocError>
    requires { IsNodeOf (bytes_of policy) (question_node question) }
    ensures { OnOk result (map guard_node conditions.new.items
        ≡ map guard_node conditions.old.items ++ guards (question_node question.entry)) }
{
    let mut guards = policy.forms().guards_at(question.place());
    while let Some(guard) = guards.next() {
        conditions.push(guard)?;
    }
    Ok(())
}

// Adds the guards around an option that stand in the scope of the question at a place.
fn add_own<'a>(
    policy: Policy<'a, '_>,
    place: u32,
    option: OptionView<'a>,
    conditions: &mut Vec<Guard<'a>>,
) -> Result<(), AllocError>
    requires { IsNodeOf (bytes_of policy) (option_node option) }
    ensures { OnOk result (map guard_node conditions.new.items
        ≡ map guard_node conditions.old.items ++ own_guards place (option_node option.entry)) }
{
    let mut guards = policy.forms().guards_at(option.place());
    while let Some(guard) = guards.next() {
        if place < guard.place() {
            conditions.push(guard)?;
        }
    }
    Ok(())
}

// Adds those of the options of a question.
fn add_options<'a>(
    policy: Policy<'a, '_>,
    question: Question<'a>,
    conditions: &mut Vec<Guard<'a>>,
) -> Result<(), AllocError>
    requires { IsNodeOf (bytes_of policy) (question_node question) }
    ensures { OnOk result (map guard_node conditions.new.items
        ≡ map guard_node conditions.old.items
        ++ flat_map (own_guards (question_node question.entry).place) (options (question_node question.entry))) }
{
    let mut options = policy.forms().options_of(question.statement());
    while let Some(option) = options.next() {
        add_own(policy, question.place(), option, conditions)?;
    }
    Ok(())
}

// The ids that the condition of a guard asks, rising.
fn ids_in<'a>(
    alloc: Global,
    policy: Policy<'a, '_>,
    guard: Guard<'a>,
) -> Result<BTreeSet<u16>, AllocError>
    ensures { IfOk result (λ ids. ids.keys ≡ spec.ids_in (nodes_of (bytes_of policy.entry)) (guard_node guard.entry)) }
{
    let mut ids = BTreeSet::new(alloc);
    let mut named = policy.forms().dependence(guard.condition(), guard.this());
    while let Some(id) = named.next() {
        ids.insert(id)?;
    }
    Ok(ids)
}

// Adds an id, unless it is there or there is no room.
fn add_id(ids: &mut ArrayVec<u16, 64>, id: u16)
    ensures { ids.new.items ≡ spec.with_id ids.old.items id }
{
    if ids.as_slice().contains(&id) || MOST_IDS <= ids.len() {
        return;
    }
    ids.push(id);
}

// Adds ids in this way.
fn add_ids(ids: &mut ArrayVec<u16, 64>, found: &BTreeSet<u16>)
    ensures { ids.new.items ≡ spec.with_ids ids.old.items found.now.keys }
{
    let mut left = found.iter();
    while let Some(id) = left.next() {
        add_id(ids, *id);
    }
}

// Adds the ids that some conditions ask, condition by condition.
fn add_asked<'a>(
    alloc: Global,
    policy: Policy<'a, '_>,
    conditions: &[Guard<'a>],
    ids: &mut ArrayVec<u16, 64>,
) -> Result<(), AllocError>
    ensures { OnOk result (ids.new.items ≡ spec.with_ids ids.old.items
        (flat_map (spec.ids_in (nodes_of (bytes_of policy.entry))) (map guard_node conditions.now))) }
{
    for guard in conditions {
        let found = ids_in(alloc, policy, *guard)?;
        add_ids(ids, &found);
    }
    Ok(())
}

// Adds the conditions around a question, and the ids that they ask.
fn add_question<'a>(
    alloc: Global,
    policy: Policy<'a, '_>,
    question: Question<'a>,
    asking: &mut Asking<'a>,
) -> Result<(), AllocError>
    requires { IsNodeOf (bytes_of policy) (question_node question) }
    ensures { OnOk result (asking_meant asking.new ≡ spec.with_conditions (nodes_of (bytes_of policy.entry)) (asking_meant asking.old)
        (spec.conditions_around (question_node question.entry))) }
{
    let mut found = Vec::new(alloc);
    add_around(policy, question, &mut found)?;
    add_options(policy, question, &mut found)?;
    add_asked(alloc, policy, found.as_slice(), &mut asking.ids)?;
    asking.conditions.extend_from_slice(found.as_slice())?;
    Ok(())
}

// Adds those around the question of the id of this number, if there is one.
fn add_behind<'a>(
    alloc: Global,
    policy: Policy<'a, '_>,
    questions: &Questions<'a>,
    number: usize,
    asking: &mut Asking<'a>,
) -> Result<(), AllocError>
    requires { questions.now.ifr ≡ bytes_of policy }
    ensures { OnOk result (asking_meant asking.new
        ≡ spec.with_behind (nodes_of (bytes_of policy.entry)) (asking_meant asking.old) (number ∷ [])) }
{
    let Some(id) = asking.ids.as_slice().get(number) else {
        return Ok(());
    };
    let Some(question) = questions.find(*id) else {
        return Ok(());
    };
    add_question(alloc, policy, question, asking)?;
    Ok(())
}

impl<'a> Asking<'a> {
    /// The conditions around a question, those around the questions that these ask, and so on.
    pub(crate) fn of(
        alloc: Global,
        policy: Policy<'a, '_>,
        questions: &Questions<'a>,
        question: Question<'a>,
    ) -> Result<Asking<'a>, AllocError>
        requires node { IsNodeOf (bytes_of policy) (question_node question) }
        requires own { questions.now.ifr ≡ bytes_of policy }
        ensures { IfOk result (λ asking. asking_meant asking
            ≡ spec.asking (nodes_of (bytes_of policy.entry)) (question_node question.entry)) }
    {
        let mut asking = Asking {
            ids: ArrayVec::new(),
            conditions: Vec::new(alloc),
        };
        add_question(alloc, policy, question, &mut asking)?;
        let mut number = 0;
        while number < MOST_IDS {
            add_behind(alloc, policy, questions, number, &mut asking)?;
            number += 1;
        }
        Ok(asking)
    }
}
