//! Questions whose fields a script has changed.

ghost use Rattle.std.specs.Prelude.{◌≡◌};
ghost use Rattle.hii_bytes.specs.Watching.{Puts};
ghost use Rattle.ifr_nodes.specs.Accepted.{IsAccepted};
ghost use Rattle.ifr_nodes.specs.Nodes.{nodes_of};
ghost use Rattle.ifr_nodes.specs.code.Checked.{IsNodeOf};
ghost use Rattle.ifr_scopes.specs.code.Lists.{form_node};
ghost use Rattle.hii_questions.specs.Fields.{asked};
ghost use Rattle.hii_questions.specs.code.Views.{question_node, question_view};
ghost use Rattle.guard_policy.specs.code.Views.{bytes_of};
ghost use Rattle.form_page.specs.code.PageViews.{texts_of, world_of};
ghost use Rattle.script_audit.specs.Apply as spec;
ghost use Rattle.script_audit.specs.Values.{value_told};
ghost use Rattle.script_audit.specs.code.Pages.{seen_in};

use crate::spelling::{put_as, put_spelled};
use crate::unsubmitted::differs;
use crate::values::put_value;
use audit_json::{Telling, put_kind, put_member, put_number};
use form_page::Page;
use guard_policy::{Conditions, Evaluated};
use hii_bytes::Watched;
use hii_questions::Question;
use hii_varstore::Stores;
use ifr_scopes::{Form, Forms};
use std::io::Write;

// The first form, by place.
fn first_form<'a>(forms: &Forms<'a>) -> Form<'a>
    requires { IsAccepted forms.now }
    ensures { IsNodeOf forms.now (form_node result) }
{
    forms.forms().next().unwrap()
}

// The value of a question over other stores.
fn put_value_over<'a, C: Conditions, W: Write>(
    telling: Telling,
    page: Page<'a, '_, C>,
    stores: &Stores,
    question: Question<'a>,
    out: &mut Watched<W>,
)
    requires node { IsNodeOf (bytes_of page.policy) (question_node question) }
    requires asked { question_view question
        ≡ asked (nodes_of (bytes_of page.policy)) (question_node question) }
    ensures { Puts W.contents out.old out.new
        (value_told telling
        (spec.over_stores (seen_in page.entry) stores.now) (question_node question.entry)) }
{
    let policy = page.policy();
    let conditions = policy.over(stores);
    let other = Page::new(
        first_form(policy.forms()),
        policy,
        page.questions(),
        stores,
        page.languages(),
        page.choice(),
        &conditions,
    );
    put_value(telling, other, question, out);
}

// Writes what stands before the prompt of a question.
fn put_id<W: Write>(telling: Telling, id: u16, out: &mut Watched<W>)
    ensures { Puts W.contents out.old out.new (spec.changed_front telling id) }
{
    match telling {
        Telling::Lines => {
            out.put(b"CHANGED ");
            out.put_decimal(u64::from(id));
            out.put(b" ");
        }
        Telling::Objects => {
            put_kind(b"changed", out);
            put_number(b"id", u64::from(id), out);
            put_member(b"prompt", out);
            out.put(b"\"");
        }
    }
}

// Writes a question whose field was changed, with the value that it had and the one that it has.
fn put_change<'a, C: Conditions, W: Write>(
    telling: Telling,
    page: Page<'a, '_, C>,
    one: &Stores,
    other: &Stores,
    question: Question<'a>,
    out: &mut Watched<W>,
)
    requires node { IsNodeOf (bytes_of page.policy) (question_node question) }
    requires asked { question_view question
        ≡ asked (nodes_of (bytes_of page.policy)) (question_node question) }
    ensures { Puts W.contents out.old out.new
        (spec.change_told telling (seen_in page.entry) one.now other.now (question_node question.entry)) }
{
    put_id(telling, question.id(), out);
    let prompt = page.text(question.statement().op().prompt());
    put_spelled(telling, prompt.chars(), out);
    put_as(telling, b" [", b"\",\"old\":\"", out);
    put_value_over(telling, page, one, question, out);
    put_as(telling, b"] -> [", b"\",\"new\":\"", out);
    put_value_over(telling, page, other, question, out);
    put_as(telling, b"]\n", b"\"}\n", out);
}

/// Writes the questions whose fields hold other bytes in the second stores than in the first, by place.
pub(crate) fn put_changes<'a, C: Conditions, W: Write>(
    telling: Telling,
    page: Page<'a, '_, C>,
    one: &Stores,
    other: &Stores,
    out: &mut Watched<W>,
)
    ensures { Puts W.contents out.old out.new
        (spec.changes_told telling (seen_in page.entry) one.now other.now) }
{
    let mut left = page.questions().all();
    while let Some(question) = left.next() {
        if differs(question, one, other) {
            put_change(telling, page, one, other, question, out);
        }
    }
}
