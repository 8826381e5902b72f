//! Forms, and how they are reached.

ghost use Rattle.hii_bytes.specs.Watching.{Puts};
ghost use Rattle.hii_bytes.specs.code.NumberSets.{has_number};
ghost use Rattle.ifr_nodes.specs.code.Checked.{IsNodeOf};
ghost use Rattle.ifr_scopes.specs.code.Lists.{form_node};
ghost use Rattle.guard_policy.specs.code.Views.{bytes_of};
ghost use Rattle.form_page.specs.code.PageViews.{world_of};
ghost use Rattle.question_audit.specs.code.Closings.{TellsWays};
ghost use Rattle.question_audit.specs.code.Pages.{audited};
ghost use Rattle.question_objects.specs.FormSets.{form_object, reach_members};

use crate::members::{put_denial, put_text};
use audit_json::{end_object, put_kind, put_number, put_word};
use form_page::Page;
use guard_policy::Conditions;
use hii_bytes::Watched;
use ifr_scopes::Form;
use question_audit::{Reach, Ways};
use std::io::Write;

// Writes how a form is reached, and what decides on it.
fn put_reach<W: Write>(reach: Reach, out: &mut Watched<W>)
    ensures { Puts W.contents out.old out.new (reach_members reach) }
{
    match reach {
        Reach::Open => put_word(b"reach", b"open", out),
        Reach::Hidden(denial) => put_denial(b"reach", b"decider", denial, out),
        Reach::Closed(denial) => {
            put_word(b"reach", b"closed", out);
            put_number(b"decider", u64::from(denial.place), out);
        }
        Reach::Below => put_word(b"reach", b"below", out),
        Reach::Unnamed => put_word(b"reach", b"unnamed", out),
    }
}

/// Writes a form with how it is reached.
pub(crate) fn put_form<'a, C: Conditions, W: Write>(
    page: Page<'a, '_, C>,
    ways: &Ways,
    form: Form<'a>,
    out: &mut Watched<W>,
)
    requires node { IsNodeOf (bytes_of page.policy) (form_node form) }
    requires ways { TellsWays (world_of page) ways.now }
    ensures { Puts W.contents out.old out.new
        (form_object (audited page.entry) (has_number ways.now.reached) (form_node form.entry)) }
{
    let op = form.op();
    put_kind(b"form", out);
    put_number(b"id", u64::from(op.id()), out);
    put_number(b"at", u64::from(form.place()), out);
    put_text(b"title", page.text(op.title()), out);
    put_reach(ways.to(page, form), out);
    end_object(out);
}
