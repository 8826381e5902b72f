//! What a page begins with.

ghost use Rattle.std.specs.Prelude.{◌≡◌, filter, length};
ghost use Rattle.hii_bytes.specs.Watching.{Puts};
ghost use Rattle.hii_languages.specs.code.Views.{text_of};
ghost use Rattle.ifr_nodes.specs.Accepted.{IsAccepted};
ghost use Rattle.ifr_nodes.specs.Nodes.{is_form, nodes_of};
ghost use Rattle.guard_policy.specs.code.Views.{bytes_of};
ghost use Rattle.question_audit.specs.code.Pages.{audited};
ghost use Rattle.report_audit.specs.Heads.{form_set_counts, head, heading, policy_element, report_title, style_element};

use crate::counts::put_counts;
use crate::style::{STYLE, STYLE_DIGEST};
use audit_html::{put_html_shown, put_isolated_shown};
use audit_text::{Case, put_guid};
use form_page::Page;
use guard_policy::Conditions;
use hii_bytes::Watched;
use hii_languages::Shown;
use ifr_scopes::Forms;
use std::io::Write;

// Writes what the page may load (Content Security Policy Level 3): its own style, and nothing else.
fn put_policy<W: Write>(out: &mut Watched<W>)
    ensures { Puts W.contents out.old out.new policy_element }
{
    out.put(
        b"<meta http-equiv=\"Content-Security-Policy\" content=\"default-src 'none'; style-src 'sha256-",
    );
    out.put(STYLE_DIGEST);
    out.put(b"'; base-uri 'none'; form-action 'none'\">\n");
}

fn put_style<W: Write>(out: &mut Watched<W>)
    ensures { Puts W.contents out.old out.new style_element }
{
    out.put(b"<style>");
    out.put(STYLE);
    out.put(b"</style>\n");
}

// What is shown as the title of the form set of a page.
fn report_title<'a, C: Conditions>(page: Page<'a, '_, C>) -> Shown<'a>
    ensures { text_of result ≡ report_title (audited page.entry) }
{
    page.text(page.policy().forms().formset().op().title())
}

/// Writes what stands before the body, with the title of the form set of a page.
pub(crate) fn put_head<'a, C: Conditions, W: Write>(page: Page<'a, '_, C>, out: &mut Watched<W>)
    ensures { Puts W.contents out.old out.new (head (report_title (audited page.entry))) }
{
    out.put(b"<!doctype html>\n<html lang=\"en\">\n<meta charset=\"utf-8\">\n");
    put_policy(out);
    out.put(b"<meta name=\"viewport\" content=\"width=device-width,initial-scale=1\">\n<title>");
    put_html_shown(report_title(page).chars(), out);
    out.put(b"</title>\n");
    put_style(out);
}

// How many forms a package has.
fn forms_count(forms: &Forms<'_>) -> usize
    requires { IsAccepted forms.now }
    ensures { result ≡ length (filter is_form (nodes_of forms.now)) }
{
    let views = forms.forms();
    views.count()
}

// Writes what names the form set of a page, and how many forms and questions it has.
fn put_form_set_counts<'a, C: Conditions, W: Write>(page: Page<'a, '_, C>, out: &mut Watched<W>)
    ensures { Puts W.contents out.old out.new
        (form_set_counts (nodes_of (bytes_of page.entry.policy))) }
{
    let forms = page.policy().forms();
    out.put(b"<p class=\"dim\">Form set <code>");
    put_guid(out, forms.formset().op().guid(), Case::Upper);
    out.put(b"</code>, ");
    out.put_decimal(forms_count(forms) as u64);
    out.put(b" forms, ");
    out.put_decimal(page.questions().count() as u64);
    out.put(b" questions</p>\n");
}

/// Writes the heading: the title of the form set of a page, and how many of its questions may be changed.
pub(crate) fn put_heading<'a, C: Conditions, W: Write>(page: Page<'a, '_, C>, out: &mut Watched<W>)
    ensures { Puts W.contents out.old out.new (heading (audited page.entry)) }
{
    out.put(b"<header>\n<h1>");
    put_isolated_shown(report_title(page).chars(), out);
    out.put(b"</h1>\n");
    put_form_set_counts(page, out);
    put_counts(page, out);
    out.put(b"</header>\n");
}
