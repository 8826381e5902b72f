//! The lines of questions.

ghost use Rattle.std.specs.Prelude.{◌≡◌, Option};
ghost use Rattle.hii_bytes.specs.Watching.{Puts};
ghost use Rattle.ifr_nodes.specs.Nodes.{nodes_of};
ghost use Rattle.ifr_nodes.specs.code.Checked.{IsNodeOf};
ghost use Rattle.ifr_scopes.specs.code.Lists.{statement_node};
ghost use Rattle.hii_questions.specs.Fields.{asked};
ghost use Rattle.hii_questions.specs.code.LyingIn.{LiesIn};
ghost use Rattle.hii_questions.specs.code.Views.{question_node, question_view};
ghost use Rattle.hii_varstore.specs.Stores.{shape_of};
ghost use Rattle.guard_policy.specs.Policy.{fixed};
ghost use Rattle.guard_policy.specs.code.Answers.{unless};
ghost use Rattle.guard_policy.specs.code.Views.{bytes_of};
ghost use Rattle.form_page.specs.code.PageViews.{world_of};
ghost use Rattle.question_audit.specs.QuestionLines.{columns_text, question_line, shown_text};
ghost use Rattle.question_audit.specs.code.Looking.{TellsTables};
ghost use Rattle.question_audit.specs.code.Pages.{audited};

use crate::constant::is_constant;
use crate::defaults::put_default;
use crate::fields::put_field_column;
use crate::formsets::{put_flags, put_led, put_word};
use crate::script_values::put_script_value;
use crate::shown_values::put_told_value;
use crate::store_names::StoreNames;
use crate::tables::Tables;
use crate::undefined::put_undefined;
use crate::verdicts::put_verdict;
use audit_text::{opcode_name, put_left, put_safe_shown};
use form_page::Page;
use guard_policy::{Conditions, Denial};
use hii_bytes::Watched;
use hii_questions::{Question, read_value};
use hii_varstore::Stores;
use ifr_defaults::DEFAULT_CLASS_STANDARD;
use std::io::Write;

// Writes the columns of a question: its id, its verdict, its opcode and its field, each with a space behind it.
fn put_columns<'a, C: Conditions, W: Write>(
    page: Page<'a, '_, C>,
    names: &StoreNames<'a>,
    question: Question<'a>,
    verdict: Result<(), Denial>,
    out: &mut Watched<W>,
)
    requires verdict { verdict ≡ unless (fixed (world_of page) (question_node question)) }
    requires names { names.now ≡ bytes_of page.policy }
    ensures { Puts W.contents out.old out.new
        (columns_text (audited page.entry) (question_view question.entry)) }
{
    out.put_decimal_right(5, u64::from(question.id()));
    out.put(b" ");
    put_verdict(verdict, out);
    out.put(b" ");
    put_left(out, 12, opcode_name(question.op().op.code));
    out.put(b" ");
    put_field_column(names, question.field(), out);
    out.put(b" ");
}

// Writes the prompt of a question, and its value.
fn put_shown_value<'a, C: Conditions, W: Write>(
    page: Page<'a, '_, C>,
    question: Question<'a>,
    out: &mut Watched<W>,
)
    requires node { IsNodeOf (bytes_of page.policy) (question_node question) }
    requires asked { question_view question
        ≡ asked (nodes_of (bytes_of page.policy)) (question_node question) }
    ensures { Puts W.contents out.old out.new
        (shown_text (audited page.entry) (question_node question.entry)) }
{
    put_safe_shown(page.text(question.statement().op().prompt()).chars(), out);
    out.put(b" [");
    put_told_value(page, question, out);
    out.put(b"]");
}

/// Writes the line of a question. `spare` are stores that hold the same as those of the page, before and after.
pub fn put_question<'a, C: Conditions, W: Write>(
    page: Page<'a, '_, C>,
    tables: &Tables<'a>,
    question: Question<'a>,
    spare: &mut Stores,
    out: &mut Watched<W>,
)
    requires node { IsNodeOf (bytes_of page.policy) (question_node question) }
    requires asked { question_view question
        ≡ asked (nodes_of (bytes_of page.policy)) (question_node question) }
    requires lies { LiesIn (shape_of page.stores.now) (question_view question) }
    requires told { TellsTables (audited page) (bytes_of page.policy) tables.now }
    requires same { spare.old ≡ page.stores.now }
    ensures same { spare.new ≡ page.entry.stores.now }
    ensures text { Puts W.contents out.old out.new
        (question_line (audited page.entry) (question_view question.entry)) }
{
    let statement = question.statement();
    let verdict = page
        .policy()
        .question_changeable_by(question, page.conditions());
    put_columns(page, &tables.names, question, verdict, out);
    put_shown_value(page, question, out);
    let value = read_value(question, page.stores());
    put_script_value::<C, W>(b" value ", statement, value, out);
    put_default(
        page,
        question,
        DEFAULT_CLASS_STANDARD,
        b" default ",
        spare,
        out,
    );
    put_word(
        is_constant(page, &tables.guards, statement, verdict),
        b" constant",
        out,
    );
    put_flags(question.op(), out);
    put_led(statement, out);
    put_undefined(page, &tables.guards, statement, out);
    out.put(b"\n");
}
