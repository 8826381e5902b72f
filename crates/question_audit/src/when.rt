//! When conditions decide.

ghost use Rattle.std.specs.Prelude.{◌≡◌};
ghost use Rattle.ifr_scopes.specs.code.Lists.{guard_node};
ghost use Rattle.question_audit.specs.Times.{counts_when};

use ifr_opcodes::DISABLE_IF;
use ifr_scopes::Guard;

/// When the condition of a guard decides whether a question may be changed.
#[derive(Clone, Copy)]
pub enum When {
    /// At each command: that of a SUPPRESS_IF or a GRAY_OUT_IF.
    AtCommands,
    /// When the form set is opened: that of a DISABLE_IF (UEFI 2.8, 33.3.8.3, EFI_IFR_DISABLE_IF).
    AtOpening,
}

impl When {
    /// Whether the condition of a guard decides then.
    pub(crate) fn counts(self, guard: Guard<'_>) -> bool
        ensures { result ≡ counts_when self (guard_node guard.entry) }
    {
        let is_disable = guard.code() == DISABLE_IF;
        match self {
            When::AtCommands => !is_disable,
            When::AtOpening => is_disable,
        }
    }
}
