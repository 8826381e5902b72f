//! The page of a form set.

ghost use Rattle.std.specs.Prelude.{◌≡◌, ◌⊎◌, ℕ, Bool, IfErr, IfOk, OnOk, OnErr, option_map};
ghost use Rattle.hii_bytes.specs.Faults.{out_of_memory};
ghost use Rattle.hii_bytes.specs.Watching.{Puts, pen_of};
ghost use Rattle.ifr_nodes.specs.Nodes.{nodes_of};
ghost use Rattle.hii_questions.specs.Fields.{questions};
ghost use Rattle.hii_questions.specs.code.LyingIn.{LieIn};
ghost use Rattle.hii_varstore.specs.Stores.{shape_of};
ghost use Rattle.guard_policy.specs.code.Views.{bytes_of};
ghost use Rattle.form_page.specs.code.PageViews.{world_of};
ghost use Rattle.question_audit.specs.Reach.{TellsReached};
ghost use Rattle.question_audit.specs.code.Pages.{audited};
ghost use Rattle.question_audit.specs.code.Beginnings.{Begins};
ghost use Rattle.report_audit.specs.Reports.{IsPage, report};

use crate::bounded::Bounded;
use crate::contents::put_contents;
use crate::forms::put_sections;
use crate::heads::{put_head, put_heading};
use form_page::Page;
use guard_policy::Conditions;
use hii_bytes::{Fault, Watched};
use question_audit::{Tables, scope_locks};
use question_rows::{Decisions, Known};
use std::alloc::{AllocError, Global};
use std::io::Write;

/// How long a page may be, in bytes (own rule).
pub const PAGE_LIMIT: usize = 16_777_216;

/// Writes the page of the form set of a page over the stores of this: how many of its questions may be changed, its forms, and for each
/// form, by place, a row for each of its questions, by place. Where an allocation fails, the beginning of it may be written.
pub fn put_report<'a, C: Conditions, W: Write>(
    alloc: Global,
    page: Page<'a, '_, C>,
    out: &mut Watched<W>,
) -> Result<(), Fault>
    requires { LieIn (shape_of page.stores.now) (questions (nodes_of (bytes_of page.policy))) }
    ensures told { OnOk result ((is_reached : ℕ → Bool) × TellsReached (world_of page.entry) is_reached
        × Puts W.contents out.old out.new (report (audited page.entry) is_reached)) }
    ensures begun { OnErr result ((out.new ≡ out.old)
        ⊎ ((is_reached : ℕ → Bool) × TellsReached (world_of page.entry) is_reached
        × Begins (pen_of W.contents out.old) (pen_of W.contents out.new)
        (report (audited page.entry) is_reached))) }
    ensures refused { IfErr result (λ fault. fault ≡ out_of_memory) }
{
    let tables = Tables::read(alloc, page)?;
    let locks = scope_locks(alloc, page.policy().forms().bytes())?;
    let mut spare = page.stores().copy(alloc)?;
    let decisions = Decisions::read(alloc, page)?;
    let known = Known {
        names: &tables.names,
        locks: &locks,
        decisions: decisions.as_ref(),
    };
    put_head(page, out);
    put_heading(page, out);
    put_contents(page, &tables.ways, out);
    out.put(b"<main>\n");
    put_sections(alloc, page, known, &tables.ways, &mut spare, out)?;
    out.put(b"</main>\n");
    Ok(())
}

/// This page, unless it is longer than a page may be. The one error is that an allocation failed.
pub fn report_page<'a, C: Conditions>(
    alloc: Global,
    page: Page<'a, '_, C>,
) -> Result<Option<Vec<u8>>, Fault>
    requires { LieIn (shape_of page.stores.now) (questions (nodes_of (bytes_of page.policy))) }
    ensures told { IfOk result (λ held. (is_reached : ℕ → Bool) × TellsReached (world_of page.entry) is_reached
        × IsPage (report (audited page.entry) is_reached) (option_map (λ bytes. bytes.items) held)) }
    ensures refused { IfErr result (λ fault. fault ≡ out_of_memory) }
{
    let mut out = Watched::new(Bounded::new(alloc, PAGE_LIMIT + 1));
    put_report(alloc, page, &mut out)?;
    let is_failed = out.failed();
    let bytes = out.into_inner().into_bytes();
    if bytes.len() > PAGE_LIMIT {
        return Ok(None);
    }
    if is_failed {
        return Err(Fault::from(AllocError));
    }
    Ok(Some(bytes))
}
