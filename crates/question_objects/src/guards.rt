//! The guards around questions.

ghost use Rattle.std.specs.Prelude.{◌≡◌, ◌++◌, ◌+◌, ◌<◌, ◌^◌, OnOk, OnErr, codes, length};
ghost use Rattle.hii_bytes.specs.Watching.{Puts, pen_of};
ghost use Rattle.audit_json.specs.Objects.{before_item};
ghost use Rattle.ifr_opcodes.specs.Opcode.{number};
ghost use Rattle.ifr_nodes.specs.code.Checked.{IsNodeOf};
ghost use Rattle.ifr_scopes.specs.code.Lists.{guard_node, statement_node};
ghost use Rattle.guard_policy.specs.code.Views.{bytes_of};
ghost use Rattle.question_audit.specs.code.Pages.{audited};
ghost use Rattle.question_audit.specs.ConditionFacts.{guard_state};
ghost use Rattle.question_audit.specs.code.Beginnings.{Begins};
ghost use Rattle.question_objects.specs.Conditions.{guard_item, guards_member};
ghost use Rattle.question_objects.specs.declared.detail.Detail.TheVariants.{Alone};

use crate::conditions::{Heading, put_named};
use crate::detail::Detail;
use audit_json::{put_array_end, put_before_item};
use condition_text::ConditionText;
use form_page::Page;
use guard_policy::Conditions;
use hii_bytes::Watched;
use ifr_scopes::{Guard, Statement};
use question_audit::guard_state;
use std::alloc::{AllocError, Global};
use std::io::Write;

/// How a guard is told, beside what it says.
pub(crate) fn heading_of<'a, C: Conditions>(
    page: Page<'a, '_, C>,
    package_place: u64,
    guard: Guard<'a>,
) -> Heading<'static>
    ensures code { result.code ≡ number (guard_node guard.entry).op }
    ensures place { result.place ≡ (guard_node guard.entry).place }
    ensures package { result.package_place ≡ package_place }
    ensures state { result.state.now ≡ guard_state (audited page.entry) (guard_node guard.entry) }
{
    Heading {
        code: guard.code(),
        place: guard.place(),
        package_place,
        state: guard_state(page, guard),
    }
}

// Writes all that is known of a guard, behind others or as the first one.
fn put_whole<'a, C: Conditions, W: Write>(
    page: Page<'a, '_, C>,
    package_place: u64,
    guard: Guard<'a>,
    is_first: bool,
    out: &mut Watched<W>,
)
    requires { package_place + (guard_node guard).place < 2 ^ 64 }
    ensures { Puts W.contents out.old out.new
        (before_item (codes "guards") is_first
        ++ guard_item Alone (audited page.entry) package_place (guard_node guard.entry)) }
{
    let text = ConditionText::of(guard.condition());
    put_before_item(b"guards", is_first, out);
    out.put(b"{");
    put_named(heading_of(page, package_place, guard), &text, out);
    out.put(b"}");
}

// Writes what is told of a guard in this detail.
fn put_guard<'a, C: Conditions, W: Write>(
    page: Page<'a, '_, C>,
    detail: Detail,
    package_place: u64,
    guard: Guard<'a>,
    is_first: bool,
    out: &mut Watched<W>,
)
    requires { package_place + (guard_node guard).place < 2 ^ 64 }
    ensures { Puts W.contents out.old out.new
        (before_item (codes "guards") is_first
        ++ guard_item detail (audited page.entry) package_place (guard_node guard.entry)) }
{
    match detail {
        Detail::Alone => put_whole(page, package_place, guard, is_first, out),
        Detail::Listed => {
            put_before_item(b"guards", is_first, out);
            out.put_decimal(u64::from(guard.place()));
        }
    }
}

/// Writes the guards around a statement in this detail, the outermost first.
pub(crate) fn put_guards<'a, C: Conditions, W: Write>(
    page: Page<'a, '_, C>,
    detail: Detail,
    package_place: u64,
    statement: Statement<'a>,
    out: &mut Watched<W>,
)
    requires node { IsNodeOf (bytes_of page.policy) (statement_node statement) }
    requires in_file { package_place + length (bytes_of page.policy) < 2 ^ 64 }
    ensures { Puts W.contents out.old out.new
        (guards_member detail (audited page.entry) package_place (statement_node statement.entry)) }
{
    let mut guards = page.policy().forms().guards_at(statement.place());
    let mut is_first = true;
    while let Some(guard) = guards.step() {
        put_guard(page, detail, package_place, guard, is_first, out);
        is_first = false;
    }
    put_array_end(is_first, out);
}
