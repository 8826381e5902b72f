//! The rows of questions.

ghost use Rattle.std.specs.Prelude.{◌≡◌, OnOk, OnErr};
ghost use Rattle.hii_bytes.specs.Watching.{Puts, pen_of};
ghost use Rattle.ifr_nodes.specs.Nodes.{nodes_of};
ghost use Rattle.ifr_nodes.specs.code.Checked.{IsNodeOf};
ghost use Rattle.hii_questions.specs.Fields.{asked};
ghost use Rattle.hii_questions.specs.code.LyingIn.{LiesIn};
ghost use Rattle.hii_questions.specs.code.Views.{question_node, question_view};
ghost use Rattle.hii_varstore.specs.Stores.{shape_of};
ghost use Rattle.guard_policy.specs.code.Views.{bytes_of};
ghost use Rattle.question_audit.specs.code.Pages.{audited};
ghost use Rattle.question_audit.specs.code.Beginnings.{Begins};
ghost use Rattle.question_rows.specs.Rows.{row, row_head};
ghost use Rattle.question_rows.specs.code.Knowing.{IsKnown};

use crate::known::Known;
use crate::reasons::put_reason_cell;
use crate::states::put_state_cell;
use crate::subjects::{put_id_cell, put_subject_cell};
use crate::values::put_value_cell;
use audit_text::put_hexadecimal;
use form_page::Page;
use guard_policy::Conditions;
use hii_bytes::Watched;
use hii_questions::Question;
use hii_varstore::Stores;
use std::alloc::{AllocError, Global};
use std::io::Write;

// Writes the id of a question, and whether it may be changed.
fn put_row_head<'a, C: Conditions, W: Write>(
    page: Page<'a, '_, C>,
    question: Question<'a>,
    out: &mut Watched<W>,
)
    requires node { IsNodeOf (bytes_of page.policy) (question_node question) }
    requires asked { question_view question
        ≡ asked (nodes_of (bytes_of page.policy)) (question_node question) }
    ensures { Puts W.contents out.old out.new
        (row_head (audited page.entry) (question_node question.entry)) }
{
    out.put(b"<div class=\"q\" id=\"q");
    put_hexadecimal(out, u64::from(question.place()));
    out.put(b"\"><div class=\"dim\">");
    put_id_cell(question.id(), out);
    out.put(b"</div><div>");
    put_state_cell(page, question, out);
}

/// Writes the row of a question over the stores of a page, as one element without a line's end: its id, whether it may be changed, what
/// it is, its value, why it may not be changed and what depends on it. `spare` are stores that hold the same as those of the page, before
/// and after. Where an allocation fails, the beginning of the row may be written.
pub fn put_row<'a, C: Conditions, W: Write>(
    alloc: Global,
    page: Page<'a, '_, C>,
    known: Known<'_, 'a>,
    question: Question<'a>,
    spare: &mut Stores,
    out: &mut Watched<W>,
) -> Result<(), AllocError>
    requires node { IsNodeOf (bytes_of page.policy) (question_node question) }
    requires asked { question_view question
        ≡ asked (nodes_of (bytes_of page.policy)) (question_node question) }
    requires lies { LiesIn (shape_of page.stores.now) (question_view question) }
    requires known { IsKnown (bytes_of page.policy) known }
    requires same { spare.old ≡ page.stores.now }
    ensures same { spare.new ≡ page.entry.stores.now }
    ensures told { OnOk result (Puts W.contents out.old out.new
        (row (audited page.entry) (question_view question.entry))) }
    ensures begun { OnErr result (Begins (pen_of W.contents out.old) (pen_of W.contents out.new)
        (row (audited page.entry) (question_view question.entry))) }
{
    put_row_head(page, question, out);
    out.put(b"</div><div>");
    put_subject_cell(page, question, out);
    out.put(b"</div><div>");
    put_value_cell(alloc, page, known, question, spare, out)?;
    out.put(b"</div><div>");
    put_reason_cell(alloc, page, known.decisions, question, out)?;
    out.put(b"</div></div>");
    Ok(())
}
