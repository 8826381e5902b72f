//! The values of questions and what they take.

ghost use Rattle.std.specs.Prelude.{◌≡◌, OnOk, OnErr, option_map};
ghost use Rattle.hii_bytes.specs.Watching.{Puts, pen_of};
ghost use Rattle.ifr_nodes.specs.Nodes.{nodes_of};
ghost use Rattle.ifr_nodes.specs.code.Checked.{IsNodeOf};
ghost use Rattle.hii_questions.specs.Fields.{asked};
ghost use Rattle.hii_questions.specs.code.LyingIn.{LiesIn};
ghost use Rattle.hii_questions.specs.code.Ranges.{range_in};
ghost use Rattle.hii_questions.specs.code.Views.{question_node, question_view};
ghost use Rattle.hii_varstore.specs.Stores.{shape_of};
ghost use Rattle.guard_policy.specs.code.Views.{bytes_of};
ghost use Rattle.question_audit.specs.code.Pages.{audited};
ghost use Rattle.question_audit.specs.code.Beginnings.{Begins};
ghost use Rattle.question_rows.specs.Values.{field_part, value_cell};
ghost use Rattle.question_rows.specs.code.Knowing.{IsKnown};

use crate::buffers::place_text;
use crate::defaults::put_default;
use crate::elements::put_html_line;
use crate::known::Known;
use crate::leads::put_leads;
use crate::limits::put_limits;
use crate::options::put_options;
use crate::shown::put_value;
use form_page::Page;
use guard_policy::Conditions;
use hii_bytes::Watched;
use hii_questions::{FieldRange, Question};
use hii_varstore::Stores;
use question_audit::StoreNames;
use std::alloc::{AllocError, Global};
use std::io::Write;

// Writes where a field lies, if there is one. Where an allocation fails nothing is written.
fn put_field<W: Write>(
    alloc: Global,
    names: &StoreNames<'_>,
    field: Option<FieldRange>,
    out: &mut Watched<W>,
) -> Result<(), AllocError>
    ensures told { OnOk result (Puts W.contents out.old out.new
        (field_part (nodes_of names.now) (option_map range_in field))) }
    ensures nothing { OnErr result (out.new ≡ out.old) }
{
    let Some(field) = field else {
        return Ok(());
    };
    let place = place_text(alloc, names, field)?;
    out.put(b"<p class=\"small dim\">");
    out.put(b"<code>");
    put_html_line(&place, out);
    out.put(b"</code>");
    out.put(b"</p>");
    Ok(())
}

/// Writes the value of a question, its default, what it takes, its options, its field and where it leads. `spare` are stores that hold
/// the same as those of the page, before and after. Where an allocation fails, the beginning of this may be written.
pub(crate) fn put_value_cell<'a, C: Conditions, W: Write>(
    alloc: Global,
    page: Page<'a, '_, C>,
    known: Known<'_, 'a>,
    question: Question<'a>,
    spare: &mut Stores,
    out: &mut Watched<W>,
) -> Result<(), AllocError>
    requires node { IsNodeOf (bytes_of page.policy) (question_node question) }
    requires asked { question_view question
        ≡ asked (nodes_of (bytes_of page.policy)) (question_node question) }
    requires lies { LiesIn (shape_of page.stores.now) (question_view question) }
    requires known { IsKnown (bytes_of page.policy) known }
    requires same { spare.old ≡ page.stores.now }
    ensures same { spare.new ≡ page.entry.stores.now }
    ensures told { OnOk result (Puts W.contents out.old out.new
        (value_cell (audited page.entry) (question_view question.entry))) }
    ensures begun { OnErr result (Begins (pen_of W.contents out.old) (pen_of W.contents out.new)
        (value_cell (audited page.entry) (question_view question.entry))) }
{
    let statement = question.statement();
    put_value(alloc, page, question, out)?;
    put_default(alloc, page, question, spare, out)?;
    put_limits::<C, W>(statement, out);
    put_options(page, known.locks, question, out);
    put_field(alloc, known.names, question.field(), out)?;
    put_leads(page, statement, out);
    Ok(())
}
