//! The checks of questions.

ghost use Rattle.std.specs.Prelude.{◌≡◌, ◌++◌, ◌+◌, ◌<◌, ◌^◌, OnOk, OnErr, codes, length};
ghost use Rattle.hii_bytes.specs.Watching.{Puts, pen_of};
ghost use Rattle.audit_json.specs.Objects.{before_item};
ghost use Rattle.ifr_nodes.specs.code.Checked.{IsNodeOf};
ghost use Rattle.ifr_scopes.specs.code.Parts.{condition_node};
ghost use Rattle.hii_questions.specs.code.Views.{question_node};
ghost use Rattle.guard_policy.specs.code.Views.{bytes_of};
ghost use Rattle.question_audit.specs.code.Pages.{audited};
ghost use Rattle.question_audit.specs.code.Beginnings.{Begins};
ghost use Rattle.question_objects.specs.Conditions.{check_item, checks_member};

use crate::conditions::{Heading, put_named};
use crate::members::put_text;
use audit_json::{put_array_end, put_before_item};
use condition_text::ConditionText;
use form_page::Page;
use guard_policy::Conditions;
use hii_bytes::Watched;
use hii_questions::Question;
use ifr_scopes::{AnyCondition, ConditionView};
use question_audit::{code_of, state_of};
use std::alloc::{AllocError, Global};
use std::io::Write;

// Writes a check, behind others or as the first one.
fn put_check<'a, C: Conditions, W: Write>(
    page: Page<'a, '_, C>,
    package_place: u64,
    check: ConditionView<'a>,
    is_first: bool,
    out: &mut Watched<W>,
)
    requires { package_place + (condition_node check).place < 2 ^ 64 }
    ensures { Puts W.contents out.old out.new
        (before_item (codes "checks") is_first
        ++ check_item (audited page.entry) package_place (condition_node check.entry)) }
{
    let text = ConditionText::of(check.condition());
    let heading = Heading {
        code: code_of(check.op()),
        place: check.place(),
        package_place,
        state: state_of(page, AnyCondition::Question(check)),
    };
    put_before_item(b"checks", is_first, out);
    out.put(b"{");
    put_named(heading, &text, out);
    put_text(b"text", page.text(check.op().message()), out);
    out.put(b"}");
}

/// Writes the checks in the scope of a question, by place.
pub(crate) fn put_checks<'a, C: Conditions, W: Write>(
    page: Page<'a, '_, C>,
    package_place: u64,
    question: Question<'a>,
    out: &mut Watched<W>,
)
    requires node { IsNodeOf (bytes_of page.policy) (question_node question) }
    requires in_file { package_place + length (bytes_of page.policy) < 2 ^ 64 }
    ensures { Puts W.contents out.old out.new
        (checks_member (audited page.entry) package_place (question_node question.entry)) }
{
    let mut checks = page.policy().forms().conditions_in(question.statement());
    let mut is_first = true;
    while let Some(check) = checks.next() {
        put_check(page, package_place, check, is_first, out);
        is_first = false;
    }
    put_array_end(is_first, out);
}
