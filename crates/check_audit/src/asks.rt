//! Questions that are named and have no answer.

ghost use Rattle.std.specs.Prelude.{◌≡◌, ◌++◌, ◌==◌, OnOk, filter, option_map};
ghost use Rattle.ifr_expr.specs.code.Expressions.{tree_of};
ghost use Rattle.ifr_nodes.specs.Nodes.{nodes_of};
ghost use Rattle.ifr_scopes.specs.code.Parts.{default_node};
ghost use Rattle.hii_questions.specs.code.Views.{question_node};
ghost use Rattle.check_audit.specs.Warnings.{asked_at, asks_of_conditions, asks_of_guards, asks_of_question, asks_of_rules, asks_of_value, asks_of_values, asks_warnings, named_at, is_unanswered};

use crate::warning::{Oddity, Unanswered, Warning};
use hii_questions::{Question, Questions};
use ifr_expr::Expr;
use ifr_scopes::{DefaultView, Forms};
use std::alloc::AllocError;

// Whether there is a question of an id, where it has no answer.
fn unanswered(questions: &Questions<'_>, id: u16) -> Option<bool>
    ensures { result ≡ is_unanswered (nodes_of questions.now.ifr) id }
{
    let Some(question) = questions.find(id) else {
        return Some(false);
    };
    match question.field() {
        Some(_) => None,
        None => Some(true),
    }
}

// The warning of an expression at a place that names a question without an answer.
fn asked_at(questions: &Questions<'_>, place: u32, id: u16) -> Option<Warning>
    ensures { result ≡ asked_at (nodes_of questions.now.ifr) place id }
{
    Some(Warning {
        place,
        oddity: Oddity::Asks(Unanswered {
            question: id,
            is_there: unanswered(questions, id)?,
        }),
    })
}

// Adds the questions without an answer that an expression of an opcode at a place names.
fn add_named(
    questions: &Questions<'_>,
    place: u32,
    expr: Expr<'_>,
    warnings: &mut Vec<Warning>,
) -> Result<(), AllocError>
    ensures { OnOk result (warnings.new.items
        ≡ warnings.old.items ++ named_at (nodes_of questions.now.ifr) place (tree_of expr.entry)) }
{
    let mut ids = expr.support();
    while let Some(id) = ids.next() {
        if let Some(warning) = asked_at(questions, place, id) {
            warnings.push(warning)?;
        }
    }
    Ok(())
}

// Adds those that guards name.
fn add_of_guards(
    forms: &Forms<'_>,
    questions: &Questions<'_>,
    warnings: &mut Vec<Warning>,
) -> Result<(), AllocError>
    requires { questions.now.ifr ≡ forms.now }
    ensures { OnOk result (warnings.new.items
        ≡ warnings.old.items ++ asks_of_guards (nodes_of forms.now)) }
{
    let mut guards = forms.guards();
    while let Some(guard) = guards.next() {
        let place = guard.place();
        add_named(questions, place, guard.condition(), warnings)?;
    }
    Ok(())
}

// Adds those that conditions of questions name.
fn add_of_conditions(
    forms: &Forms<'_>,
    questions: &Questions<'_>,
    warnings: &mut Vec<Warning>,
) -> Result<(), AllocError>
    requires { questions.now.ifr ≡ forms.now }
    ensures { OnOk result (warnings.new.items
        ≡ warnings.old.items ++ asks_of_conditions (nodes_of forms.now)) }
{
    let mut conditions = forms.conditions();
    while let Some(condition) = conditions.next() {
        let place = condition.place();
        add_named(questions, place, condition.condition(), warnings)?;
    }
    Ok(())
}

// Adds those that rules name.
fn add_of_rules(
    forms: &Forms<'_>,
    questions: &Questions<'_>,
    warnings: &mut Vec<Warning>,
) -> Result<(), AllocError>
    requires { questions.now.ifr ≡ forms.now }
    ensures { OnOk result (warnings.new.items
        ≡ warnings.old.items ++ asks_of_rules (nodes_of forms.now)) }
{
    let mut rules = forms.rules();
    while let Some(rule) = rules.next() {
        let place = rule.place();
        add_named(questions, place, rule.expression(), warnings)?;
    }
    Ok(())
}

// Adds those that the VALUE of a default names.
fn add_of_value(
    questions: &Questions<'_>,
    default: DefaultView<'_>,
    warnings: &mut Vec<Warning>,
) -> Result<(), AllocError>
    ensures { OnOk result (warnings.new.items
        ≡ warnings.old.items ++ asks_of_value (nodes_of questions.now.ifr) (default_node default.entry)) }
{
    let Some(value) = default.value() else {
        return Ok(());
    };
    let place = default.place() + default.op().op.len() as u32;
    add_named(questions, place, value, warnings)
}

// Adds those that the VALUEs of a question's defaults name.
fn add_of_question(
    questions: &Questions<'_>,
    question: Question<'_>,
    warnings: &mut Vec<Warning>,
) -> Result<(), AllocError>
    ensures { OnOk result (warnings.new.items
        ≡ warnings.old.items ++ asks_of_question (nodes_of questions.now.ifr) (question_node question.entry)) }
{
    let mut defaults = question.statement().defaults();
    while let Some(default) = defaults.next() {
        add_of_value(questions, default, warnings)?;
    }
    Ok(())
}

// Adds those that VALUEs name.
fn add_of_values(questions: &Questions<'_>, warnings: &mut Vec<Warning>) -> Result<(), AllocError>
    ensures { OnOk result (warnings.new.items
        ≡ warnings.old.items ++ asks_of_values (nodes_of questions.now.ifr)) }
{
    let mut left = questions.all();
    while let Some(question) = left.next() {
        add_of_question(questions, question, warnings)?;
    }
    Ok(())
}

/// Adds the questions without an answer that guards, conditions, rules and VALUEs name themselves.
pub(crate) fn add_asks(
    forms: &Forms<'_>,
    questions: &Questions<'_>,
    warnings: &mut Vec<Warning>,
) -> Result<(), AllocError>
    requires { questions.now.ifr ≡ forms.now }
    ensures { OnOk result (warnings.new.items
        ≡ warnings.old.items ++ asks_warnings (nodes_of forms.now)) }
{
    add_of_guards(forms, questions, warnings)?;
    add_of_conditions(forms, questions, warnings)?;
    add_of_rules(forms, questions, warnings)?;
    add_of_values(questions, warnings)
}
