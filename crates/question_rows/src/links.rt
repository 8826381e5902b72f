//! Links to questions and titles of forms.

ghost use Rattle.hii_bytes.specs.Watching.{Puts};
ghost use Rattle.ifr_scopes.specs.code.Lists.{form_node};
ghost use Rattle.hii_questions.specs.code.Views.{question_node};
ghost use Rattle.question_audit.specs.code.Pages.{audited};
ghost use Rattle.question_rows.specs.Links.{form_title_text, question_link};

use audit_html::{put_isolated_shown, put_link, put_title};
use form_page::Page;
use guard_policy::Conditions;
use hii_bytes::Watched;
use hii_questions::Question;
use ifr_scopes::Form;
use std::io::Write;

/// Writes a link to the row of a question: its id and its prompt.
pub(crate) fn put_question_link<'a, C: Conditions, W: Write>(
    page: Page<'a, '_, C>,
    question: Question<'a>,
    out: &mut Watched<W>,
)
    ensures { Puts W.contents out.old out.new
        (question_link (audited page.entry) (question_node question.entry)) }
{
    put_link(b"q", question.place(), out);
    out.put_decimal(u64::from(question.id()));
    out.put(b" ");
    put_isolated_shown(page.text(question.statement().op().prompt()).chars(), out);
    out.put(b"</a>");
}

/// Writes the title of a form, or that it has none.
pub fn put_form_title<'a, C: Conditions, W: Write>(
    page: Page<'a, '_, C>,
    form: Form<'a>,
    out: &mut Watched<W>,
)
    ensures { Puts W.contents out.old out.new
        (form_title_text (audited page.entry) (form_node form.entry)) }
{
    put_title(page.text(form.op().title()), out);
}
