//! The values that questions are given.

ghost use Rattle.std.specs.Prelude.{◌≡◌, IfOk, OnOk, map};
ghost use Rattle.ifr_opcodes.specs.Fields.{question_id};
ghost use Rattle.ifr_opcodes.specs.code.Ops.{bytes_of as op_bytes};
ghost use Rattle.ifr_nodes.specs.Nodes.{nodes_of};
ghost use Rattle.ifr_nodes.specs.code.Checked.{IsNodeOf};
ghost use Rattle.ifr_scopes.specs.code.Lists.{guard_node, statement_node};
ghost use Rattle.hii_questions.specs.code.Views.{question_node, question_view};
ghost use Rattle.unlock_audit.specs.Moves as spec;
ghost use Rattle.unlock_audit.specs.Moves.{constants_about};
ghost use Rattle.unlock_audit.specs.code.Offered.{offered_near};

use crate::constants::Numeric;
use hii_questions::Question;
use ifr_opcodes::NumericOp;
use ifr_scopes::{Forms, Guard, Statement};
use std::alloc::{AllocError, Global};
use std::collections::BTreeSet;

// Whether the condition of a guard asks the question of an id.
fn asks<'a>(forms: &Forms<'a>, guard: Guard<'a>, id: u16) -> bool
    ensures { result ≡ spec.asks (nodes_of forms.now) id (guard_node guard.entry) }
{
    let mut named = forms.dependence(guard.condition(), guard.this());
    while let Some(other) = named.next() {
        if other == id {
            return true;
        }
    }
    false
}

/// The values of the options of a ONE_OF, by place, once.
pub(crate) fn one_of_values<'a>(
    alloc: Global,
    forms: &Forms<'a>,
    statement: Statement<'a>,
) -> Result<Vec<i128>, AllocError>
    requires { IsNodeOf forms.now (statement_node statement) }
    ensures { IfOk result (λ values. values.items ≡ spec.one_of_values (statement_node statement.entry)) }
{
    let mut values = Vec::new(alloc);
    let mut options = forms.options_of(statement);
    while let Some(option) = options.next() {
        let value = i128::from(option.op().value());
        if !values.as_slice().contains(&value) {
            values.push(value)?;
        }
    }
    Ok(values)
}

// Adds what is near to the constants of those conditions that ask it.
fn add_constants<'a>(
    alloc: Global,
    forms: &Forms<'a>,
    conditions: &[Guard<'a>],
    numeric: Numeric<'a>,
    values: &mut BTreeSet<i128>,
) -> Result<(), AllocError>
    ensures { OnOk result (values.new.keys ≡ offered_near (question_view numeric.entry.question) values.old.keys
        (constants_about (nodes_of forms.now) (map guard_node conditions.now)
        (question_id (question_node numeric.entry.question).op))) }
{
    let id = numeric.question.id();
    for guard in conditions {
        if asks(forms, *guard, id) {
            numeric.add_condition(alloc, forms, *guard, values)?;
        }
    }
    Ok(())
}

/// The values of a NUMERIC, rising: its bounds, and what is near to the constants of those conditions that ask it.
pub(crate) fn numeric_values<'a>(
    alloc: Global,
    forms: &Forms<'a>,
    conditions: &[Guard<'a>],
    question: Question<'a>,
    op: NumericOp<'a>,
) -> Result<BTreeSet<i128>, AllocError>
    requires { op_bytes op.op ≡ (question_node question).op }
    ensures { IfOk result (λ values. values.keys ≡ spec.numeric_values (question_view question.entry)
        (constants_about (nodes_of forms.now) (map guard_node conditions.now)
        (question_id (question_node question.entry).op))) }
{
    let numeric = Numeric { question, op };
    let mut values = BTreeSet::new(alloc);
    numeric.add(numeric.as_read(op.minimum()), &mut values)?;
    numeric.add(numeric.as_read(op.maximum()), &mut values)?;
    add_constants(alloc, forms, conditions, numeric, &mut values)?;
    Ok(values)
}
