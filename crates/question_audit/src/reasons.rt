//! Why a question may not be changed.

ghost use Rattle.std.specs.Prelude.{◌≡◌};
ghost use Rattle.hii_bytes.specs.Watching.{Puts};
ghost use Rattle.ifr_nodes.specs.code.Checked.{IsNodeOf};
ghost use Rattle.hii_questions.specs.code.Views.{question_node, question_view};
ghost use Rattle.guard_policy.specs.code.Views.{bytes_of};
ghost use Rattle.form_page.specs.code.PageViews.{world_of};
ghost use Rattle.question_audit.specs.Reasons.{all_reasons, also_fact, also_facts};

use crate::facts::put_column;
use crate::questions::put_denial;
use crate::reason_parts::{OwnReasons, locks_of, next_graying_out, next_hiding, next_locked};
use form_page::Page;
use guard_policy::{Conditions, Denial};
use hii_bytes::Watched;
use hii_questions::Question;
use ifr_scopes::{GuardsAt, Locks};
use std::io::Write;

/// The reasons that are left why a question may not be changed, in the order of the policy: those of the guards that hide it, of the
/// GRAY_OUT_IFs that hold, of the LOCKEDs, and those of the question by itself. Each is found when it is asked for.
#[derive(Drop)]
pub struct Reasons<'a, 's, C: Conditions> {
    page: Page<'a, 's, C>,
    hiding: GuardsAt<'s, 'a>,
    graying_out: GuardsAt<'s, 'a>,
    locks: Option<Locks<'a>>,
    own: OwnReasons,
    pub ghost of_hiding: { hiding.ifr.now ≡ bytes_of page.policy },
    pub ghost of_graying_out: { graying_out.ifr.now ≡ bytes_of page.policy },
}

impl<'a, 's, C: Conditions> Reasons<'a, 's, C> {
    ghost use Rattle.question_audit.specs.code.ReasonsLeft.{reasons_left};

    /// All reasons why a question may not be changed.
    pub fn of(page: Page<'a, 's, C>, question: Question<'a>) -> Reasons<'a, 's, C>
        requires { IsNodeOf (bytes_of page.policy) (question_node question) }
        ensures { reasons_left result ≡ all_reasons (world_of page.entry) (question_view question.entry) }
    {
        let forms = page.policy().forms();
        Reasons {
            page,
            hiding: forms.guards_at(question.place()),
            graying_out: forms.guards_at(question.place()),
            locks: locks_of(page, question),
            own: OwnReasons::of(question),
        }
    }
}

impl<'a, 's, C: Conditions> Iterator for Reasons<'a, 's, C> {
    ghost use Rattle.std.specs.Iterator.{YieldsFirst, item_count};
    ghost use Rattle.question_audit.specs.code.ReasonsLeft.{reasons_left};

    type Item = Denial;

    ghost next_gives = { YieldsFirst reasons_left };

    ghost remaining = { item_count reasons_left };

    fn next(&mut self) -> Option<Denial> {
        if let Some(denial) = next_hiding(self.page, &mut self.hiding) {
            return Some(denial);
        }
        if let Some(denial) = next_graying_out(self.page, &mut self.graying_out) {
            return Some(denial);
        }
        if let Some(denial) = next_locked(&mut self.locks) {
            return Some(denial);
        }
        self.own.step()
    }
}

// Writes a further reason.
fn put_further<W: Write>(denial: Denial, out: &mut Watched<W>)
    ensures { Puts W.contents out.old out.new (also_fact denial) }
{
    put_column(b"also", out);
    put_denial(denial, out);
    out.put(b"\n");
}

/// Writes the reasons why a question may not be changed but for the first, which the verdict tells.
pub(crate) fn put_also<'a, C: Conditions, W: Write>(
    page: Page<'a, '_, C>,
    question: Question<'a>,
    out: &mut Watched<W>,
)
    requires { IsNodeOf (bytes_of page.policy) (question_node question) }
    ensures { Puts W.contents out.old out.new
        (also_facts (all_reasons (world_of page.entry) (question_view question.entry))) }
{
    let mut reasons = Reasons::of(page, question);
    if reasons.next().is_none() {
        return;
    }
    while let Some(denial) = reasons.next() {
        put_further(denial, out);
    }
}
