//! The options of questions.

ghost use Rattle.std.specs.Prelude.{◌≡◌, ℕ};
ghost use Rattle.std.specs.BTreeMap.{get};
ghost use Rattle.std.specs.Ordering.{nat_cmp};
ghost use Rattle.hii_bytes.specs.Watching.{Puts};
ghost use Rattle.ifr_nodes.specs.Nodes.{nodes_of};
ghost use Rattle.ifr_nodes.specs.code.Checked.{IsNodeOf};
ghost use Rattle.ifr_index.specs.code.LockIndex.{first_place};
ghost use Rattle.ifr_scopes.specs.code.Parts.{option_node};
ghost use Rattle.hii_questions.specs.code.Views.{question_node};
ghost use Rattle.guard_policy.specs.code.Views.{bytes_of};
ghost use Rattle.question_audit.specs.code.Pages.{audited};
ghost use Rattle.question_rows.specs.Options.{option_item, option_start, options_part};

use crate::elements::{put_before_item, put_end};
use audit_html::put_isolated_shown;
use form_page::Page;
use guard_policy::Conditions;
use hii_bytes::Watched;
use hii_questions::Question;
use ifr_scopes::OptionView;
use question_audit::own_denial;
use std::collections::BTreeMap;
use std::io::Write;

// Writes the start of an option.
fn put_option_start<W: Write>(is_denied: bool, out: &mut Watched<W>)
    ensures { Puts W.contents out.old out.new (option_start is_denied) }
{
    out.put(if is_denied {
        b"<span class=\"off\">"
    } else {
        b"<span>"
    });
}

// Writes an option of the question at a place.
fn put_option<'a, C: Conditions, W: Write>(
    page: Page<'a, '_, C>,
    locks: &BTreeMap<u32, u32>,
    place: u32,
    option: OptionView<'a>,
    out: &mut Watched<W>,
)
    requires node { IsNodeOf (bytes_of page.policy) (option_node option) }
    requires locks { (scope : ℕ)
        → get nat_cmp locks.now scope ≡ first_place (nodes_of (bytes_of page.policy)) scope }
    ensures { Puts W.contents out.old out.new
        (option_item (audited page.entry) place (option_node option.entry)) }
{
    put_option_start(own_denial(page, locks, place, option).is_some(), out);
    out.put_decimal(option.op().value());
    out.put(b" ");
    put_isolated_shown(page.text(option.op().text()).chars(), out);
    out.put(b"</span>");
}

/// Writes the options of a question, by place.
pub(crate) fn put_options<'a, C: Conditions, W: Write>(
    page: Page<'a, '_, C>,
    locks: &BTreeMap<u32, u32>,
    question: Question<'a>,
    out: &mut Watched<W>,
)
    requires node { IsNodeOf (bytes_of page.policy) (question_node question) }
    requires locks { (scope : ℕ)
        → get nat_cmp locks.now scope ≡ first_place (nodes_of (bytes_of page.policy)) scope }
    ensures { Puts W.contents out.old out.new
        (options_part (audited page.entry) (question_node question.entry)) }
{
    let place = question.place();
    let mut options = page.policy().forms().options_of(question.statement());
    let mut is_first = true;
    while let Some(option) = options.next() {
        put_before_item(b"<div class=\"small dim\">", b"<br>", is_first, out);
        put_option(page, locks, place, option, out);
        is_first = false;
    }
    put_end(b"</div>", is_first, out);
}
