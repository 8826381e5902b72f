//! What denies options that does not deny their question.

ghost use Rattle.std.specs.Prelude.{◌≡◌, ℕ, option_map};
ghost use Rattle.std.specs.BTreeMap.{get};
ghost use Rattle.std.specs.List.{find};
ghost use Rattle.std.specs.Ordering.{nat_cmp};
ghost use Rattle.ifr_nodes.specs.Locks.{first_of_nodes};
ghost use Rattle.ifr_nodes.specs.Nodes.{nodes_of};
ghost use Rattle.ifr_nodes.specs.code.Checked.{IsNodeOf};
ghost use Rattle.ifr_index.specs.code.LockIndex.{first_place};
ghost use Rattle.ifr_scopes.specs.code.Parts.{option_node};
ghost use Rattle.hii_values.specs.declared.denial.DenialKind.TheVariants.{GrayOutIf, Locked};
ghost use Rattle.guard_policy.specs.Policy as policy;
ghost use Rattle.guard_policy.specs.code.Views.{bytes_of};
ghost use Rattle.form_page.specs.code.PageViews.{world_of};
ghost use Rattle.question_audit.specs.OptionFacts.{own_denial, own_guards, own_locks};

use crate::guard_verdicts::{grays_out, hides, hiding};
use form_page::Page;
use guard_policy::{Conditions, Denial};
use hii_questions::DenialKind;
use ifr_scopes::OptionView;
use std::collections::BTreeMap;

// The denial of the outermost guard around an option, inside of its question at a place, that hides.
fn own_hiding<'a, C: Conditions>(
    page: Page<'a, '_, C>,
    place: u32,
    option: OptionView<'a>,
) -> Option<Denial>
    requires { IsNodeOf (bytes_of page.policy) (option_node option) }
    ensures { result ≡ policy.hidden_among (world_of page.entry)
        (own_guards place (option_node option.entry)) }
{
    let mut guards = page.policy().forms().guards_at(option.place());
    while let Some(guard) = guards.step() {
        if guard.place() <= place {
            continue;
        }
        if hides(page, guard) {
            return Some(hiding(guard));
        }
    }
    None
}

// The denial of the outermost of these guards that grays out.
fn own_graying_out<'a, C: Conditions>(
    page: Page<'a, '_, C>,
    place: u32,
    option: OptionView<'a>,
) -> Option<Denial>
    requires { IsNodeOf (bytes_of page.policy) (option_node option) }
    ensures { result ≡ option_map (policy.denied_by GrayOutIf)
        (find (policy.grays_out (world_of page.entry)) (own_guards place (option_node option.entry))) }
{
    let mut guards = page.policy().forms().guards_at(option.place());
    while let Some(guard) = guards.step() {
        if guard.place() <= place {
            continue;
        }
        if grays_out(page, guard) {
            return Some(Denial::by(DenialKind::GrayOutIf, guard.place()));
        }
    }
    None
}

// The denial of the first LOCKED directly in these guards, where these are the first in each scope.
fn own_lock<'a, C: Conditions>(
    page: Page<'a, '_, C>,
    locks: &BTreeMap<u32, u32>,
    place: u32,
    option: OptionView<'a>,
) -> Option<Denial>
    requires node { IsNodeOf (bytes_of page.policy) (option_node option) }
    requires locks { (scope : ℕ)
        → get nat_cmp locks.now scope ≡ first_place (nodes_of (bytes_of page.policy)) scope }
    ensures { result ≡ option_map (policy.denied_by Locked)
        (first_of_nodes (own_locks (nodes_of (bytes_of page.entry.policy)) place (option_node option.entry))) }
{
    let mut guards = page.policy().forms().guards_at(option.place());
    while let Some(guard) = guards.step() {
        if guard.place() <= place {
            continue;
        }
        if let Some(lock) = locks.get(&guard.place()) {
            return Some(Denial::by(DenialKind::Locked, *lock));
        }
    }
    None
}

/// What denies an option of the question at a place by itself.
pub fn own_denial<'a, C: Conditions>(
    page: Page<'a, '_, C>,
    locks: &BTreeMap<u32, u32>,
    place: u32,
    option: OptionView<'a>,
) -> Option<Denial>
    requires node { IsNodeOf (bytes_of page.policy) (option_node option) }
    requires locks { (scope : ℕ)
        → get nat_cmp locks.now scope ≡ first_place (nodes_of (bytes_of page.policy)) scope }
    ensures { result ≡ own_denial (world_of page.entry) place (option_node option.entry) }
{
    if let Some(denial) = own_hiding(page, place, option) {
        return Some(denial);
    }
    if let Some(denial) = own_graying_out(page, place, option) {
        return Some(denial);
    }
    own_lock(page, locks, place, option)
}
