//! The questions of a form set.

ghost use Rattle.std.specs.Prelude.{◌≡◌, ℕ, Bool, OnOk, IfErr};
ghost use Rattle.hii_bytes.specs.Faults.{out_of_memory};
ghost use Rattle.hii_bytes.specs.Watching.{Puts};
ghost use Rattle.hii_bytes.specs.code.NumberSets.{has_number};
ghost use Rattle.ifr_nodes.specs.Nodes.{nodes_of};
ghost use Rattle.ifr_nodes.specs.code.Checked.{IsNodeOf};
ghost use Rattle.ifr_scopes.specs.code.Lists.{form_node};
ghost use Rattle.hii_questions.specs.Fields.{questions};
ghost use Rattle.hii_questions.specs.code.LyingIn.{LieIn};
ghost use Rattle.hii_varstore.specs.Stores.{shape_of};
ghost use Rattle.guard_policy.specs.code.Views.{bytes_of};
ghost use Rattle.form_page.specs.code.PageViews.{world_of};
ghost use Rattle.question_audit.specs.FormLines.{denial_text, form_lines, form_text, questions_text, reach_text};
ghost use Rattle.question_audit.specs.Reach.{TellsReached};
ghost use Rattle.question_audit.specs.code.Closings.{TellsWays};
ghost use Rattle.question_audit.specs.code.Looking.{TellsTables};
ghost use Rattle.question_audit.specs.code.Pages.{audited};

use crate::question_line::put_question;
use crate::tables::Tables;
use crate::ways::{Reach, Ways};
use audit_text::put_safe_shown;
use form_page::Page;
use guard_policy::{Conditions, Denial};
use hii_bytes::{Fault, Watched};
use hii_varstore::Stores;
use ifr_scopes::Form;
use std::alloc::Global;
use std::io::Write;

/// Writes what forbids, and where: the kind of the denial and the place that decides.
pub fn put_denial<W: Write>(denial: Denial, out: &mut Watched<W>)
    ensures { Puts W.contents out.old out.new (denial_text denial) }
{
    out.put(denial.kind.name().as_bytes());
    out.put(b" at ");
    out.put_place(u64::from(denial.place));
}

// Writes what is told of a form that is not reached.
fn put_reach<W: Write>(reach: Reach, out: &mut Watched<W>)
    ensures { Puts W.contents out.old out.new (reach_text reach) }
{
    match reach {
        Reach::Open => {}
        Reach::Hidden(denial) => {
            out.put(b" (");
            put_denial(denial, out);
            out.put(b")");
        }
        Reach::Closed(denial) => {
            out.put(b" (closed reference: ");
            put_denial(denial, out);
            out.put(b")");
        }
        Reach::Below => out.put(b" (only below forms that are not reached)"),
        Reach::Unnamed => out.put(b" (no reference names it)"),
    }
}

/// Writes a form by its id, its title and how it is reached.
pub(crate) fn put_form<'a, C: Conditions, W: Write>(
    page: Page<'a, '_, C>,
    ways: &Ways,
    form: Form<'a>,
    out: &mut Watched<W>,
)
    requires node { IsNodeOf (bytes_of page.policy) (form_node form) }
    requires ways { TellsWays (world_of page) ways.now }
    ensures { Puts W.contents out.old out.new
        (form_text (audited page.entry) (has_number ways.now.reached) (form_node form.entry)) }
{
    let op = form.op();
    out.put_decimal(u64::from(op.id()));
    out.put(b" ");
    put_safe_shown(page.text(op.title()).chars(), out);
    put_reach(ways.to(page, form), out);
}

// Writes the lines of a form and its questions.
fn put_form_lines<'a, C: Conditions, W: Write>(
    page: Page<'a, '_, C>,
    tables: &Tables<'a>,
    form: Form<'a>,
    spare: &mut Stores,
    out: &mut Watched<W>,
)
    requires node { IsNodeOf (bytes_of page.policy) (form_node form) }
    requires lie { LieIn (shape_of page.stores.now) (questions (nodes_of (bytes_of page.policy))) }
    requires told { TellsTables (audited page) (bytes_of page.policy) tables.now }
    requires same { spare.old ≡ page.stores.now }
    ensures same { spare.new ≡ page.entry.stores.now }
    ensures text { Puts W.contents out.old out.new
        (form_lines (audited page.entry) (has_number tables.now.ways.reached) (form_node form.entry)) }
{
    out.put(b"FORM ");
    put_form(page, &tables.ways, form, out);
    out.put(b"\n");
    let mut statements = page.policy().forms().statements_of(form);
    while let Some(statement) = statements.next() {
        if let Some(question) = page.policy().question(statement) {
            put_question(page, tables, question, spare, out);
        }
    }
}

// Writes the lines of all forms, by place.
fn put_forms<'a, C: Conditions, W: Write>(
    page: Page<'a, '_, C>,
    tables: &Tables<'a>,
    spare: &mut Stores,
    out: &mut Watched<W>,
)
    requires lie { LieIn (shape_of page.stores.now) (questions (nodes_of (bytes_of page.policy))) }
    requires told { TellsTables (audited page) (bytes_of page.policy) tables.now }
    requires same { spare.old ≡ page.stores.now }
    ensures { Puts W.contents out.old out.new
        (questions_text (audited page.entry) (has_number tables.now.ways.reached)) }
{
    let mut forms = page.policy().forms().forms();
    while let Some(form) = forms.next() {
        put_form_lines(page, tables, form, spare, out);
    }
}

/// Writes a line for each form of the form set of a page, by place, with how it is reached, and under it a line for each of its
/// questions, by place, over the stores of the page. Where an allocation fails nothing is written.
pub fn put_questions<'a, C: Conditions, W: Write>(
    alloc: Global,
    page: Page<'a, '_, C>,
    out: &mut Watched<W>,
) -> Result<(), Fault>
    requires { LieIn (shape_of page.stores.now) (questions (nodes_of (bytes_of page.policy))) }
    ensures written { OnOk result ((is_reached : ℕ → Bool) × TellsReached (world_of page.entry) is_reached
        × Puts W.contents out.old out.new (questions_text (audited page.entry) is_reached)) }
    ensures nothing { IfErr result (λ fault. (fault ≡ out_of_memory) × (out.new ≡ out.old)) }
{
    let tables = Tables::read(alloc, page)?;
    let mut spare = page.stores().copy(alloc)?;
    put_forms(page, &tables, &mut spare, out);
    Ok(())
}
