//! The commands that are tried for a question.

ghost use Rattle.std.specs.Prelude.{◌≡◌, ◌++◌, IfOk, OnOk, map};
ghost use Rattle.std.specs.Ordering.{nat_cmp};
ghost use Rattle.ifr_opcodes.specs.Fields.{question_id};
ghost use Rattle.ifr_nodes.specs.Nodes.{nodes_of};
ghost use Rattle.ifr_nodes.specs.code.Checked.{IsNodeOf};
ghost use Rattle.ifr_scopes.specs.code.Lists.{guard_node};
ghost use Rattle.hii_questions.specs.Fields.{asked};
ghost use Rattle.hii_questions.specs.code.Views.{question_node, question_view};
ghost use Rattle.unlock_audit.specs.Moves as spec;
ghost use Rattle.unlock_audit.specs.Rising.{rising as rising_in};
ghost use Rattle.unlock_audit.specs.code.Askings.{asking_meant};

use crate::asking::Asking;
use crate::values::{numeric_values, one_of_values};
use hii_questions::{Question, Questions};
use ifr_scopes::{Forms, Guard, StatementKind};
use std::alloc::{AllocError, Global};
use std::collections::BTreeSet;

/// The question of an id is to have a value.
#[derive(Clone, Copy, Default)]
pub struct Move {
    /// The id of the question.
    pub id: u16,
    /// The value.
    pub value: i128,
}

// Adds values of the question of an id.
fn add_each(id: u16, values: &[i128], moves: &mut Vec<Move>) -> Result<(), AllocError>
    ensures { OnOk result (moves.new.items ≡ moves.old.items ++ map (spec.moved id) values.now) }
{
    for value in values {
        moves.push(Move { id, value: *value })?;
    }
    Ok(())
}

// Adds values in this way that are held as a set.
fn add_set(id: u16, values: &BTreeSet<i128>, moves: &mut Vec<Move>) -> Result<(), AllocError>
    ensures { OnOk result (moves.new.items ≡ moves.old.items ++ map (spec.moved id) values.now.keys) }
{
    let mut left = values.iter();
    while let Some(value) = left.next() {
        moves.push(Move { id, value: *value })?;
    }
    Ok(())
}

// Adds the values of a question.
fn add_values<'a>(
    alloc: Global,
    forms: &Forms<'a>,
    conditions: &[Guard<'a>],
    question: Question<'a>,
    moves: &mut Vec<Move>,
) -> Result<(), AllocError>
    requires node { IsNodeOf forms.now (question_node question) }
    ensures { OnOk result (moves.new.items ≡ moves.old.items
        ++ map (spec.moved (question_id (question_node question.entry).op))
        (spec.values_of (question_view question.entry)
        (spec.constants_about (nodes_of forms.now) (map guard_node conditions.now) (question_id (question_node question.entry).op)))) }
{
    let id = question.id();
    match question.statement().kind() {
        StatementKind::Checkbox(_) => add_each(id, &[0, 1], moves),
        StatementKind::OneOf(_) => {
            let values = one_of_values(alloc, forms, question.statement())?;
            add_each(id, values.as_slice(), moves)
        }
        StatementKind::Numeric(op) => {
            let values = numeric_values(alloc, forms, conditions, question, op)?;
            add_set(id, &values, moves)
        }
        _ => Ok(()),
    }
}

// Adds those of the question of an id, if it has a field.
fn add_moves<'a>(
    alloc: Global,
    forms: &Forms<'a>,
    questions: &Questions<'a>,
    conditions: &[Guard<'a>],
    id: u16,
    moves: &mut Vec<Move>,
) -> Result<(), AllocError>
    requires own { questions.now.ifr ≡ forms.now }
    ensures { OnOk result (moves.new.items ≡ moves.old.items
        ++ spec.moves_of (nodes_of forms.now) (map guard_node conditions.now) id) }
{
    let Some(question) = questions.find(id) else {
        return Ok(());
    };
    if question.field().is_none() {
        return Ok(());
    }
    // The package is accepted.
    forms.bytes();
    add_values(alloc, forms, conditions, question, moves)
}

// Numbers, each once, rising.
fn rising(alloc: Global, numbers: &[u16]) -> Result<BTreeSet<u16>, AllocError>
    ensures { IfOk result (λ keys. keys.keys ≡ rising_in nat_cmp numbers.now) }
{
    let mut rising = BTreeSet::new(alloc);
    for number in numbers {
        rising.insert(*number)?;
    }
    Ok(rising)
}

/// The commands for the questions that some conditions ask.
pub(crate) fn moves_of<'a>(
    alloc: Global,
    forms: &Forms<'a>,
    questions: &Questions<'a>,
    asking: &Asking<'a>,
) -> Result<Vec<Move>, AllocError>
    requires own { questions.now.ifr ≡ forms.now }
    ensures { IfOk result (λ moves. moves.items ≡ spec.moves (nodes_of forms.now) (asking_meant asking.now)) }
{
    let ids = rising(alloc, asking.ids.as_slice())?;
    let conditions = asking.conditions.as_slice();
    let mut moves = Vec::new(alloc);
    let mut left = ids.iter();
    while let Some(id) = left.next() {
        add_moves(alloc, forms, questions, conditions, *id, &mut moves)?;
    }
    Ok(moves)
}
