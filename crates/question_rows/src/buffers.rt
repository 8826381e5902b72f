//! Texts that are written into memory before they are written into a page.

ghost use Rattle.std.specs.Prelude.{◌≡◌, ◌%◌, ℕ, List, [], IfOk, length};
ghost use Rattle.ifr_expr.specs.Values.{text as text_value};
ghost use Rattle.ifr_expr.specs.code.Views.{value_of};
ghost use Rattle.ifr_nodes.specs.Nodes.{nodes_of};
ghost use Rattle.ifr_nodes.specs.code.Checked.{IsNodeOf};
ghost use Rattle.ifr_scopes.specs.code.Lists.{statement_node};
ghost use Rattle.ifr_expr.specs.code.Expressions.{tree_of};
ghost use Rattle.condition_text.specs.Senses.{sense};
ghost use Rattle.condition_text.specs.Texts.{text};
ghost use Rattle.hii_questions.specs.Fields.{asked};
ghost use Rattle.hii_questions.specs.code.Ranges.{range_in};
ghost use Rattle.hii_questions.specs.code.Views.{question_node, question_view};
ghost use Rattle.guard_policy.specs.code.Views.{bytes_of};
ghost use Rattle.question_audit.specs.QuestionLines.{field_text, told_value};
ghost use Rattle.question_audit.specs.ScriptValues.{behind, script_value};
ghost use Rattle.question_audit.specs.code.Pages.{audited};
ghost use Rattle.question_rows.specs.code.Buffers.{Holds};

use condition_text::ConditionText;
use form_page::Page;
use guard_policy::Conditions;
use hii_bytes::Watched;
use hii_questions::{FieldRange, Question};
use ifr_expr::{Expr, Value};
use ifr_scopes::Statement;
use question_audit::{StoreNames, put_field_text, put_script_value, put_told_value};
use std::alloc::{AllocError, Global};

/// The text that was written into a buffer, unless an allocation failed.
pub(crate) fn text_in(buffer: Watched<Vec<u8>>) -> Result<Vec<u8>, AllocError>
    ensures { (text : List ℕ) → Holds buffer text
        → IfOk result (λ bytes. bytes.items ≡ text) }
{
    if buffer.failed() {
        return Err(AllocError);
    }
    Ok(buffer.into_inner())
}

/// The value of a question as a page would show it if nothing were hidden.
pub(crate) fn told_text<'a, C: Conditions>(
    alloc: Global,
    page: Page<'a, '_, C>,
    question: Question<'a>,
) -> Result<Vec<u8>, AllocError>
    requires node { IsNodeOf (bytes_of page.policy) (question_node question) }
    requires asked { question_view question
        ≡ asked (nodes_of (bytes_of page.policy)) (question_node question) }
    ensures { IfOk result (λ bytes. bytes.items
        ≡ told_value (audited page.entry) (question_node question.entry)) }
{
    let mut buffer = Watched::new(Vec::new(alloc));
    put_told_value(page, question, &mut buffer);
    text_in(buffer)
}

/// A value of a question as scripts take it, or no bytes where they take none.
pub(crate) fn script_text<C: Conditions>(
    alloc: Global,
    statement: Statement<'_>,
    value: Value<'_>,
) -> Result<Vec<u8>, AllocError>
    requires { (units : List ℕ) → value_of value ≡ text_value units → length units % 2 ≡ 0 }
    ensures { IfOk result (λ bytes. bytes.items
        ≡ behind [] (script_value (statement_node statement.entry) (value_of value.entry))) }
{
    let mut buffer = Watched::new(Vec::new(alloc));
    put_script_value::<C, Vec<u8>>(b"", statement, value, &mut buffer);
    text_in(buffer)
}

/// Where a field lies.
pub(crate) fn place_text(
    alloc: Global,
    names: &StoreNames<'_>,
    field: FieldRange,
) -> Result<Vec<u8>, AllocError>
    ensures { IfOk result (λ bytes. bytes.items
        ≡ field_text (nodes_of names.now) (range_in field)) }
{
    let mut buffer = Watched::new(Vec::new(alloc));
    put_field_text(names, field, &mut buffer);
    text_in(buffer)
}

/// What an expression says in words.
pub(crate) fn words_text(alloc: Global, expression: Expr<'_>) -> Result<Vec<u8>, AllocError>
    ensures { IfOk result (λ bytes. bytes.items ≡ text (sense (tree_of expression.entry))) }
{
    let said = ConditionText::of(expression);
    let mut buffer = Watched::new(Vec::new(alloc));
    said.put(&mut buffer);
    text_in(buffer)
}
