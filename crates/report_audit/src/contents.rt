//! The list of the forms.

ghost use Rattle.std.specs.Prelude.{◌≡◌, length};
ghost use Rattle.hii_bytes.specs.Watching.{Puts};
ghost use Rattle.hii_bytes.specs.code.NumberSets.{has_number};
ghost use Rattle.ifr_nodes.specs.code.Checked.{IsNodeOf};
ghost use Rattle.ifr_scopes.specs.code.Lists.{form_node};
ghost use Rattle.guard_policy.specs.code.Views.{bytes_of};
ghost use Rattle.form_page.specs.code.PageViews.{world_of};
ghost use Rattle.question_audit.specs.FormLines.{form_questions, reach_text};
ghost use Rattle.question_audit.specs.code.Closings.{TellsWays};
ghost use Rattle.question_audit.specs.code.Pages.{audited};
ghost use Rattle.report_audit.specs.Contents.{contents, form_item};

use audit_html::put_link;
use form_page::Page;
use guard_policy::Conditions;
use hii_bytes::Watched;
use ifr_scopes::laws::statements_are_few;
use ifr_scopes::{Form, Forms};
use question_audit::{Reach, Ways, put_denial};
use question_rows::put_form_title;
use std::io::Write;

/// How many questions a form of a package has.
pub(crate) fn question_count<'a>(forms: &Forms<'a>, form: Form<'a>) -> usize
    requires { IsNodeOf forms.now (form_node form) }
    ensures { result ≡ length (form_questions (form_node form.entry)) }
{
    statements_are_few();
    let mut count = 0;
    let mut statements = forms.statements_of(form);
    while let Some(statement) = statements.next() {
        if statement.question().is_some() {
            count += 1;
        }
    }
    count
}

/// Writes how a form is reached, where it is not by references that are open.
pub(crate) fn put_mark<W: Write>(reach: Reach, out: &mut Watched<W>)
    ensures { Puts W.contents out.old out.new (reach_text reach) }
{
    match reach {
        Reach::Open => {}
        Reach::Hidden(denial) => {
            out.put(b" (");
            put_denial(denial, out);
            out.put(b")");
        }
        Reach::Closed(denial) => {
            out.put(b" (closed reference: ");
            put_denial(denial, out);
            out.put(b")");
        }
        Reach::Below => out.put(b" (only below forms that are not reached)"),
        Reach::Unnamed => out.put(b" (no reference names it)"),
    }
}

// Writes the item of a form: a link to its section, how many questions it has, and how it is reached.
fn put_form_item<'a, C: Conditions, W: Write>(
    page: Page<'a, '_, C>,
    ways: &Ways,
    form: Form<'a>,
    out: &mut Watched<W>,
)
    requires node { IsNodeOf (bytes_of page.policy) (form_node form) }
    requires ways { TellsWays (world_of page) ways.now }
    ensures { Puts W.contents out.old out.new
        (form_item (audited page.entry) (has_number ways.now.reached) (form_node form.entry)) }
{
    out.put(b"<li>");
    put_link(b"f", form.place(), out);
    put_form_title(page, form, out);
    out.put(b"</a> <span class=\"dim small\">");
    out.put_decimal(question_count(page.policy().forms(), form) as u64);
    put_mark(ways.to(page, form), out);
    out.put(b"</span>\n");
}

/// Writes the list of the forms of the form set of a page, by place.
pub(crate) fn put_contents<'a, C: Conditions, W: Write>(
    page: Page<'a, '_, C>,
    ways: &Ways,
    out: &mut Watched<W>,
)
    requires { TellsWays (world_of page) ways.now }
    ensures { Puts W.contents out.old out.new
        (contents (audited page.entry) (has_number ways.now.reached)) }
{
    out.put(b"<nav>\n<strong>Forms</strong>\n<ol>\n");
    let mut forms = page.policy().forms().forms();
    while let Some(form) = forms.next() {
        put_form_item(page, ways, form, out);
    }
    out.put(b"</ol>\n</nav>\n");
}
