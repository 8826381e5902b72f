//! Guards that forbid a change for good.

ghost use Rattle.std.specs.Prelude.{◌≡◌, Option};
ghost use Rattle.ifr_nodes.specs.Nodes.{nodes_of};
ghost use Rattle.ifr_nodes.specs.code.Checked.{IsNodeOf};
ghost use Rattle.ifr_scopes.specs.code.Lists.{statement_node};
ghost use Rattle.guard_policy.specs.code.Answers.{unless};
ghost use Rattle.guard_policy.specs.code.Views.{bytes_of};
ghost use Rattle.guard_policy.specs.declared.denial.Denial.{Denial as Denied};
ghost use Rattle.question_audit.specs.QuestionLines.{is_constant};
ghost use Rattle.question_audit.specs.code.GuardTables.{TellsGuards};
ghost use Rattle.question_audit.specs.code.Pages.{audited};

use crate::guard_table::{GuardTable, flag_of};
use form_page::Page;
use guard_policy::{Conditions, Denial};
use ifr_scopes::Statement;

/// Whether what forbids that a statement is changed is a guard whose condition names no question, so that no change opens it.
pub fn is_constant<'a, C: Conditions>(
    page: Page<'a, '_, C>,
    table: &GuardTable,
    statement: Statement<'a>,
    verdict: Result<(), Denial>,
) -> bool
    requires node { IsNodeOf (bytes_of page.policy) (statement_node statement) }
    requires told { TellsGuards (audited page) table.now }
    ensures { (denied : Option Denied) → verdict ≡ unless denied → result
        ≡ is_constant (nodes_of (bytes_of page.entry.policy)) (statement_node statement.entry) denied }
{
    let Err(denial) = verdict else {
        return false;
    };
    let mut guards = page.policy().forms().guards_at(statement.place());
    while let Some(guard) = guards.step() {
        if guard.place() == denial.place && flag_of(&table.constant, guard) {
            return true;
        }
    }
    false
}
