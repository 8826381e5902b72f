//! What a page decides, by what is kept of conditions.

ghost use Rattle.std.specs.Prelude.{◌≡◌, is_err, is_none, is_ok, is_some};
ghost use Rattle.ifr_nodes.specs.code.Checked.{IsNodeOf};
ghost use Rattle.ifr_scopes.specs.code.Lists.{statement_node};
ghost use Rattle.ifr_scopes.specs.code.Parts.{option_node};
ghost use Rattle.ifr_nodes.specs.Nodes.{nodes_of};
ghost use Rattle.guard_policy.specs.Policy.{hidden, fixed};
ghost use Rattle.guard_policy.specs.code.Standings.{TellsQuestion, changeable_answer, listed_answer};
ghost use Rattle.guard_policy.specs.code.Effects.{AreEffectsBy};
ghost use Rattle.guard_policy.specs.code.Views.{bytes_of};
ghost use Rattle.form_page.specs.code.PageViews.{world_of};

use crate::page::Page;
use guard_policy::{Conditions, Effects, Standing};
use ifr_scopes::{OptionView, Statement};

/// Whether a statement is seen, with the denials of the guards that were asked last.
pub(crate) fn is_listed<'a, C: Conditions>(
    page: Page<'a, '_, C>,
    statement: Statement<'a>,
    last: &mut Effects,
) -> bool
    requires node { IsNodeOf (bytes_of page.policy) (statement_node statement) }
    requires last { AreEffectsBy page.policy (C.holding page.conditions.now) last.old }
    ensures listed { result
        ≡ is_none (hidden (world_of page.entry) (statement_node statement.entry)) }
    ensures last { AreEffectsBy page.entry.policy (C.holding page.entry.conditions.now) last.new }
{
    page.policy
        .listed_beside_by(statement, last, page.conditions)
        .is_ok()
}

/// How a statement stands, with the denials of the guards that were asked last.
pub(crate) fn standing<'a, C: Conditions>(
    page: Page<'a, '_, C>,
    statement: Statement<'a>,
    last: &mut Effects,
) -> Standing<'a>
    requires node { IsNodeOf (bytes_of page.policy) (statement_node statement) }
    requires last { AreEffectsBy page.policy (C.holding page.conditions.now) last.old }
    ensures listed { is_ok (listed_answer result)
        ≡ is_none (hidden (world_of page.entry) (statement_node statement.entry)) }
    ensures fixed { is_err (changeable_answer result)
        ≡ is_some (fixed (world_of page.entry) (statement_node statement.entry)) }
    ensures question { TellsQuestion (nodes_of (bytes_of page.entry.policy))
        (statement_node statement.entry) result }
    ensures last { AreEffectsBy page.entry.policy (C.holding page.entry.conditions.now) last.new }
{
    page.policy.standing_by(statement, last, page.conditions)
}

/// Whether an option is seen, with the denials of the guards that were asked last.
pub(crate) fn is_option_listed<'a, C: Conditions>(
    page: Page<'a, '_, C>,
    option: OptionView<'a>,
    last: &mut Effects,
) -> bool
    requires node { IsNodeOf (bytes_of page.policy) (option_node option) }
    requires last { AreEffectsBy page.policy (C.holding page.conditions.now) last.old }
    ensures listed { result ≡ is_none (hidden (world_of page.entry) (option_node option.entry)) }
    ensures last { AreEffectsBy page.entry.policy (C.holding page.entry.conditions.now) last.new }
{
    page.policy
        .option_listed_beside_by(option, last, page.conditions)
        .is_ok()
}
