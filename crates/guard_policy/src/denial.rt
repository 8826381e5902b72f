//! Why a command is denied.

ghost use Rattle.std.specs.Prelude.{◌≡◌};
ghost use Rattle.ifr_scopes.specs.code.Lists.{guard_node};
ghost use Rattle.ifr_scopes.specs.code.Parts.{condition_node};
ghost use Rattle.guard_policy.specs.Policy.{hiding, told};

use hii_questions::{DenialKind, ValueDenial};
use ifr_opcodes::DISABLE_IF;
use ifr_scopes::{ConditionView, Guard};

/// Why a question may not be changed, a form not be opened, or the stores not be submitted: the kind, the place of the opcode
/// that decides, in bytes from the header of the forms package, and the string id of a text, or 0 (own rule).
#[derive(Clone, Copy, Debug, PartialEq, Eq)]
pub struct Denial {
    pub kind: DenialKind,
    pub place: u32,
    pub message: u16,
}

impl Denial {
    /// The denial that the opcode at a place decides, without a text.
    pub fn by(kind: DenialKind, place: u32) -> Denial
        ensures { result ≡ record { kind = kind; place = place; message = 0 } }
    {
        Denial {
            kind,
            place,
            message: 0,
        }
    }

    /// The denial of a guard that hides: a DISABLE_IF that was removed, or a SUPPRESS_IF whose condition holds.
    pub(crate) fn hiding(guard: Guard<'_>) -> Denial
        ensures { result ≡ hiding (guard_node guard.entry) }
    {
        let kind = if guard.code() == DISABLE_IF {
            DenialKind::DisableIf
        } else {
            DenialKind::SuppressIf
        };
        Denial::by(kind, guard.place())
    }

    /// The denial that a condition decides, with its text.
    pub fn telling(kind: DenialKind, condition: ConditionView<'_>) -> Denial
        ensures { result ≡ told kind (condition_node condition.entry) }
    {
        Denial {
            kind,
            place: condition.place(),
            message: condition.op().message(),
        }
    }
}

impl From<ValueDenial> for Denial {
    ghost from_gives = { λ denied denial. denial
        ≡ record { kind = denied.kind; place = denied.place; message = 0 } };

    fn from(denied: ValueDenial) -> Denial {
        Denial::by(denied.kind, denied.place)
    }
}
