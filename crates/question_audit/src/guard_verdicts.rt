//! What guards deny.

ghost use Rattle.std.specs.Prelude.{◌≡◌, ◌||◌, ◌==◌, true};
ghost use Rattle.ifr_opcodes.specs.declared.codes.TheConstants as codes;
ghost use Rattle.ifr_opcodes.specs.Opcode.{number};
ghost use Rattle.ifr_scopes.specs.code.Lists.{guard_node, guard_package};
ghost use Rattle.guard_policy.specs.Policy as policy;
ghost use Rattle.guard_policy.specs.World.{is_met};
ghost use Rattle.guard_policy.specs.code.Views.{bytes_of};
ghost use Rattle.form_page.specs.code.PageViews.{world_of};

use form_page::Page;
use guard_policy::{Conditions, Denial};
use hii_questions::DenialKind;
use ifr_opcodes::{DISABLE_IF, GRAY_OUT_IF, SUPPRESS_IF};
use ifr_scopes::Guard;

// Whether the condition of a SUPPRESS_IF or a GRAY_OUT_IF holds, by what is kept of conditions.
fn is_met<'a, C: Conditions>(page: Page<'a, '_, C>, guard: Guard<'a>) -> bool
    requires package { guard_package guard ≡ bytes_of page.policy }
    requires kept { (number (guard_node guard).op == codes.SUPPRESS_IF
        || number (guard_node guard).op == codes.GRAY_OUT_IF) ≡ true }
    ensures { result ≡ is_met (world_of page.entry) (guard_node guard.entry) }
{
    match guard.number() {
        Some(number) => page.conditions().guard_holds(number, guard.place()),
        None => page.conditions().holds(guard.place()),
    }
}

/// Whether a guard of the package hides what stands in its scope.
pub(crate) fn hides<'a, C: Conditions>(page: Page<'a, '_, C>, guard: Guard<'a>) -> bool
    requires { guard_package guard ≡ bytes_of page.policy }
    ensures { result ≡ policy.hides (world_of page.entry) (guard_node guard.entry) }
{
    match guard.code() {
        DISABLE_IF => page.policy().removed(guard.place()),
        SUPPRESS_IF => is_met(page, guard),
        _ => false,
    }
}

/// Whether a guard of the package grays out what stands in its scope.
pub(crate) fn grays_out<'a, C: Conditions>(page: Page<'a, '_, C>, guard: Guard<'a>) -> bool
    requires { guard_package guard ≡ bytes_of page.policy }
    ensures { result ≡ policy.grays_out (world_of page.entry) (guard_node guard.entry) }
{
    match guard.code() {
        GRAY_OUT_IF => is_met(page, guard),
        _ => false,
    }
}

/// The denial of a guard that hides.
pub(crate) fn hiding(guard: Guard<'_>) -> Denial
    ensures { result ≡ policy.hiding (guard_node guard.entry) }
{
    let kind = if guard.code() == DISABLE_IF {
        DenialKind::DisableIf
    } else {
        DenialKind::SuppressIf
    };
    Denial::by(kind, guard.place())
}
