//! Guards whose conditions are undefined.

ghost use Rattle.std.specs.Prelude.{◌≡◌, [], ◌∷◌, MatchOption, filter};
ghost use Rattle.hii_bytes.specs.Watching.{Puts};
ghost use Rattle.ifr_nodes.specs.code.Checked.{IsNodeOf};
ghost use Rattle.ifr_scopes.specs.code.Lists.{guard_node, guards_left, statement_node};
ghost use Rattle.guard_policy.specs.code.Views.{bytes_of};
ghost use Rattle.question_audit.specs.QuestionLines.{is_undefined_guard, places_behind, undefined_guards, undefined_text};
ghost use Rattle.question_audit.specs.code.GuardTables.{TellsGuards};
ghost use Rattle.question_audit.specs.code.Pages.{audited};

use crate::guard_table::{GuardTable, flag_of};
use form_page::Page;
use guard_policy::Conditions;
use hii_bytes::Watched;
use ifr_scopes::{Guard, GuardsAt, Statement};
use std::io::Write;

// Goes on to the next of some guards whose condition is undefined.
fn next_undefined<'a, C: Conditions>(
    page: Page<'a, '_, C>,
    table: &GuardTable,
    guards: &mut GuardsAt<'_, 'a>,
) -> Option<Guard<'a>>
    requires told { TellsGuards (audited page) table.now }
    requires own { guards.old.ifr.now ≡ bytes_of page.policy }
    ensures found { MatchOption result (filter (is_undefined_guard (audited page.entry)) (guards_left guards.old) ≡ [])
        (λ guard. filter (is_undefined_guard (audited page.entry)) (guards_left guards.old)
        ≡ guard_node guard ∷ filter (is_undefined_guard (audited page.entry)) (guards_left guards.new)) }
    ensures own { guards.new.ifr.now ≡ bytes_of page.entry.policy }
{
    while let Some(guard) = guards.step() {
        if flag_of(&table.undefined, guard) {
            return Some(guard);
        }
    }
    None
}

// Writes the places of those of some guards whose conditions are undefined, each behind a space.
fn put_places<'a, C: Conditions, W: Write>(
    page: Page<'a, '_, C>,
    table: &GuardTable,
    guards: GuardsAt<'_, 'a>,
    out: &mut Watched<W>,
)
    requires told { TellsGuards (audited page) table.now }
    requires own { guards.ifr.now ≡ bytes_of page.policy }
    ensures { Puts W.contents out.old out.new
        (places_behind (filter (is_undefined_guard (audited page.entry)) (guards_left guards.entry))) }
{
    let mut guards = guards;
    while let Some(guard) = next_undefined(page, table, &mut guards) {
        out.put(b" ");
        out.put_place(u64::from(guard.place()));
    }
}

/// Writes the places of the guards around a statement whose conditions are undefined, if there are some.
pub(crate) fn put_undefined<'a, C: Conditions, W: Write>(
    page: Page<'a, '_, C>,
    table: &GuardTable,
    statement: Statement<'a>,
    out: &mut Watched<W>,
)
    requires node { IsNodeOf (bytes_of page.policy) (statement_node statement) }
    requires told { TellsGuards (audited page) table.now }
    ensures { Puts W.contents out.old out.new
        (undefined_text (undefined_guards (audited page.entry) (statement_node statement.entry))) }
{
    let mut guards = page.policy().forms().guards_at(statement.place());
    if let Some(guard) = next_undefined(page, table, &mut guards) {
        out.put(b" undefined ");
        out.put_place(u64::from(guard.place()));
        put_places(page, table, guards, out);
    }
}
