//! The sections of the forms, each with the rows of its questions.

ghost use Rattle.std.specs.Prelude.{◌≡◌, OnOk, OnErr, filter};
ghost use Rattle.std.specs.List.{flat_map};
ghost use Rattle.hii_bytes.specs.Watching.{Puts, pen_of};
ghost use Rattle.hii_bytes.specs.code.NumberSets.{has_number};
ghost use Rattle.ifr_nodes.specs.Nodes.{is_form, nodes_of};
ghost use Rattle.ifr_nodes.specs.code.Checked.{IsNodeOf};
ghost use Rattle.ifr_scopes.specs.code.Lists.{form_node};
ghost use Rattle.hii_questions.specs.Fields.{questions};
ghost use Rattle.hii_questions.specs.code.LyingIn.{LieIn};
ghost use Rattle.hii_varstore.specs.Stores.{shape_of};
ghost use Rattle.guard_policy.specs.code.Views.{bytes_of};
ghost use Rattle.form_page.specs.code.PageViews.{world_of};
ghost use Rattle.question_audit.specs.FormLines.{form_questions};
ghost use Rattle.question_audit.specs.code.Closings.{TellsWays};
ghost use Rattle.question_audit.specs.code.Pages.{audited};
ghost use Rattle.question_audit.specs.code.Beginnings.{Begins};
ghost use Rattle.question_rows.specs.code.Knowing.{IsKnown};
ghost use Rattle.report_audit.specs.Forms.{row_line, rows_head, section, section_head};

use crate::contents::{put_mark, question_count};
use audit_text::put_hexadecimal;
use form_page::Page;
use guard_policy::Conditions;
use hii_bytes::Watched;
use hii_varstore::Stores;
use ifr_scopes::Form;
use question_audit::Ways;
use question_rows::{Known, put_form_title, put_row};
use std::alloc::{AllocError, Global};
use std::io::Write;

// Writes the heading of the section of a form: its title, its id, and how it is reached.
fn put_section_head<'a, C: Conditions, W: Write>(
    page: Page<'a, '_, C>,
    ways: &Ways,
    form: Form<'a>,
    out: &mut Watched<W>,
)
    requires node { IsNodeOf (bytes_of page.policy) (form_node form) }
    requires ways { TellsWays (world_of page) ways.now }
    ensures { Puts W.contents out.old out.new
        (section_head (audited page.entry) (has_number ways.now.reached) (form_node form.entry)) }
{
    out.put(b"<section>\n<h2 id=\"f");
    put_hexadecimal(out, u64::from(form.place()));
    out.put(b"\">");
    put_form_title(page, form, out);
    out.put(b" <span class=\"dim small\">form ");
    out.put_decimal(u64::from(form.op().id()));
    put_mark(ways.to(page, form), out);
    out.put(b"</span></h2>\n");
}

// Writes what stands above the rows of so many questions.
fn put_rows_head<W: Write>(count: usize, out: &mut Watched<W>)
    ensures { Puts W.contents out.old out.new (rows_head count) }
{
    if count == 0 {
        out.put(b"<p class=\"dim\">No questions.</p>\n");
        return;
    }
    out.put(b"<div class=\"q head\"><div>Id</div><div>State</div><div>Question</div>");
    out.put(b"<div>Value</div><div>Why, and what depends on it</div></div>\n");
}

// Writes the rows of the questions of a form, by place, as far as the writer takes them. Where an allocation fails, the beginning of these
// may be written.
fn put_rows<'a, C: Conditions, W: Write>(
    alloc: Global,
    page: Page<'a, '_, C>,
    known: Known<'_, 'a>,
    form: Form<'a>,
    spare: &mut Stores,
    out: &mut Watched<W>,
) -> Result<(), AllocError>
    requires node { IsNodeOf (bytes_of page.policy) (form_node form) }
    requires lie { LieIn (shape_of page.stores.now) (questions (nodes_of (bytes_of page.policy))) }
    requires known { IsKnown (bytes_of page.policy) known }
    requires same { spare.old ≡ page.stores.now }
    ensures same { OnOk result (spare.new ≡ page.entry.stores.now) }
    ensures told { OnOk result (Puts W.contents out.old out.new
        (flat_map (row_line (audited page.entry)) (form_questions (form_node form.entry)))) }
    ensures begun { OnErr result (Begins (pen_of W.contents out.old) (pen_of W.contents out.new)
        (flat_map (row_line (audited page.entry)) (form_questions (form_node form.entry)))) }
{
    let mut statements = page.policy().forms().statements_of(form);
    while let Some(statement) = statements.next() {
        if out.failed() {
            return Ok(());
        }
        if let Some(question) = page.policy().question(statement) {
            put_row(alloc, page, known, question, spare, out)?;
            out.put(b"\n");
        }
    }
    Ok(())
}

// Writes the section of a form. Where an allocation fails, the beginning of it may be written.
fn put_section<'a, C: Conditions, W: Write>(
    alloc: Global,
    page: Page<'a, '_, C>,
    known: Known<'_, 'a>,
    ways: &Ways,
    form: Form<'a>,
    spare: &mut Stores,
    out: &mut Watched<W>,
) -> Result<(), AllocError>
    requires node { IsNodeOf (bytes_of page.policy) (form_node form) }
    requires lie { LieIn (shape_of page.stores.now) (questions (nodes_of (bytes_of page.policy))) }
    requires known { IsKnown (bytes_of page.policy) known }
    requires ways { TellsWays (world_of page) ways.now }
    requires same { spare.old ≡ page.stores.now }
    ensures same { OnOk result (spare.new ≡ page.entry.stores.now) }
    ensures told { OnOk result (Puts W.contents out.old out.new
        (section (audited page.entry) (has_number ways.now.reached) (form_node form.entry))) }
    ensures begun { OnErr result (Begins (pen_of W.contents out.old) (pen_of W.contents out.new)
        (section (audited page.entry) (has_number ways.now.reached) (form_node form.entry))) }
{
    put_section_head(page, ways, form, out);
    put_rows_head(question_count(page.policy().forms(), form), out);
    put_rows(alloc, page, known, form, spare, out)?;
    out.put(b"</section>\n");
    Ok(())
}

/// Writes the sections of the forms of the form set of a page, by place. `spare` are stores that hold the same as those of the page. Where
/// an allocation fails, the beginning of these may be written.
pub(crate) fn put_sections<'a, C: Conditions, W: Write>(
    alloc: Global,
    page: Page<'a, '_, C>,
    known: Known<'_, 'a>,
    ways: &Ways,
    spare: &mut Stores,
    out: &mut Watched<W>,
) -> Result<(), AllocError>
    requires lie { LieIn (shape_of page.stores.now) (questions (nodes_of (bytes_of page.policy))) }
    requires known { IsKnown (bytes_of page.policy) known }
    requires ways { TellsWays (world_of page) ways.now }
    requires same { spare.old ≡ page.stores.now }
    ensures told { OnOk result (Puts W.contents out.old out.new
        (flat_map (section (audited page.entry) (has_number ways.now.reached))
        (filter is_form (nodes_of (bytes_of page.entry.policy))))) }
    ensures begun { OnErr result (Begins (pen_of W.contents out.old) (pen_of W.contents out.new)
        (flat_map (section (audited page.entry) (has_number ways.now.reached))
        (filter is_form (nodes_of (bytes_of page.entry.policy))))) }
{
    let mut forms = page.policy().forms().forms();
    while let Some(form) = forms.next() {
        put_section(alloc, page, known, ways, form, spare, out)?;
    }
    Ok(())
}
