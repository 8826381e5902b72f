//! Forms packages over their stores.

ghost use Rattle.std.specs.Prelude.{◌≡◌, ◌+◌, ◌<◌, ◌^◌, OnOk, OnErr, IfErr, length, option_map};
ghost use Rattle.hii_bytes.specs.Faults.{out_of_memory};
ghost use Rattle.hii_bytes.specs.Watching.{Puts, pen_of};
ghost use Rattle.ifr_nodes.specs.Nodes.{nodes_of};
ghost use Rattle.hii_questions.specs.Fields.{questions};
ghost use Rattle.hii_questions.specs.code.LyingIn.{LieIn};
ghost use Rattle.hii_varstore.specs.Stores.{shape_of};
ghost use Rattle.guard_policy.specs.code.Views.{bytes_of};
ghost use Rattle.question_audit.specs.code.Looking.{TellsTables};
ghost use Rattle.question_audit.specs.code.Pages.{audited};
ghost use Rattle.question_audit.specs.code.Beginnings.{Begins};
ghost use Rattle.survey_audit.specs.Opened.{all_found_told, opened_told, questions_told};
ghost use Rattle.survey_audit.specs.code.Headings.{heading_of};

use crate::counts::{counts_of, put_counts};
use crate::found::{Looking, put_found};
use crate::heading::Heading;
use form_page::Page;
use guard_policy::Conditions;
use hii_bytes::{Fault, Watched};
use question_audit::{Tables, scope_locks};
use question_objects::Known;
use std::alloc::Global;
use std::io::Write;

// Tells the questions that are found by small letters. Where an allocation fails, the beginning of what is told may be written.
fn put_found_over<'a, C: Conditions, W: Write>(
    alloc: Global,
    heading: Heading<'_, 'a>,
    page: Page<'a, '_, C>,
    tables: &Tables<'a>,
    letters: &[char],
    out: &mut Watched<W>,
) -> Result<(), Fault>
    requires lie { LieIn (shape_of page.stores.now) (questions (nodes_of (bytes_of page.policy))) }
    requires tables { TellsTables (audited page) (bytes_of page.policy) tables.now }
    requires in_file { heading.base + length (bytes_of page.policy) < 2 ^ 64 }
    ensures told { OnOk result (Puts W.contents out.old out.new
        (all_found_told (heading_of heading.entry) (audited page.entry) letters.now)) }
    ensures begun { OnErr result (Begins (pen_of W.contents out.old) (pen_of W.contents out.new)
        (all_found_told (heading_of heading.entry) (audited page.entry) letters.now)) }
    ensures refused { IfErr result (λ fault. fault ≡ out_of_memory) }
{
    let locks = scope_locks(alloc, page.policy().forms().bytes())?;
    let mut spare = page.stores().copy(alloc)?;
    let looking = Looking {
        tables,
        known: Known {
            names: &tables.names,
            guards: &tables.guards,
            locks: &locks,
        },
    };
    put_found(alloc, heading, page, looking, letters, &mut spare, out)?;
    Ok(())
}

/// Tells how many questions of the form set of a page stand so, over the stores of the page, and behind that each question whose prompt or
/// help has small letters within it, which stand for great ones, too; where no letters are given no question is told. The one error is
/// that an allocation failed; then the beginning of this may be written.
pub fn put_opened<'a, C: Conditions, W: Write>(
    alloc: Global,
    heading: Heading<'_, 'a>,
    page: Page<'a, '_, C>,
    letters: Option<&[char]>,
    out: &mut Watched<W>,
) -> Result<(), Fault>
    requires lie { LieIn (shape_of page.stores.now) (questions (nodes_of (bytes_of page.policy))) }
    requires in_file { heading.base + length (bytes_of page.policy) < 2 ^ 64 }
    ensures told { OnOk result (Puts W.contents out.old out.new (opened_told (heading_of heading.entry) (audited page.entry)
        (option_map (λ letters. letters.now) letters.entry))) }
    ensures begun { OnErr result (Begins (pen_of W.contents out.old) (pen_of W.contents out.new)
        (opened_told (heading_of heading.entry) (audited page.entry) (option_map (λ letters. letters.now) letters.entry))) }
    ensures refused { IfErr result (λ fault. fault ≡ out_of_memory) }
{
    let tables = Tables::read(alloc, page)?;
    put_counts(heading, counts_of(page, &tables.guards), out);
    match letters {
        Some(letters) => put_found_over(alloc, heading, page, &tables, letters, out),
        None => Ok(()),
    }
}
