//! What a fault mostly comes from.

ghost use Rattle.std.specs.Prelude.{◌≡◌, option_map};
ghost use Rattle.check_audit.specs.Mostly.{is_guid, mostly_at, mostly_of};

use hii_bytes::Cause;
use ifr_opcodes::GUID;

const LIMIT: &[u8] = b"a limit of setup; the list may be valid";

/// What a fault of a cause mostly comes from.
pub(crate) fn mostly_of(cause: Cause) -> &'static [u8]
    ensures { result.now ≡ mostly_of cause }
{
    match cause {
        Cause::AfterEnd => b"bytes behind the end package, which the standard does not judge",
        Cause::NoForms => b"a list of string packages alone",
        Cause::StringBlock => {
            b"compressed texts (SCSU, blocks 0x10 to 0x13): build the list with texts of two bytes a character"
        }
        Cause::TooDeep => LIMIT,
        Cause::AfterFormSet => {
            b"a second form set in one forms package: give it a package of its own"
        }
        Cause::OpOutside => b"an opcode whose effect is not judged here",
        Cause::Misplaced => b"an opcode where its effect would not be judged",
        Cause::ExprDepth => LIMIT,
        Cause::DuplicateQuestion => {
            b"a driver that gives buttons (ACTION) of several forms one id: give the later ones unused ids in a copy"
        }
        Cause::OptionRange => {
            b"an option that does not fit its question, which the standard does not judge"
        }
        Cause::MixedOptions => b"options of two Types, which the standard does not judge",
        Cause::NoForm => {
            b"a REF to a form that the driver adds at run time: export the list from the running system"
        }
        Cause::RuleTooLarge => LIMIT,
        _ => b"a list that breaks the standard",
    }
}

/// The same of a fault at which an opcode stands, if one does.
pub(crate) fn mostly_at(cause: Cause, opcode: Option<&[u8]>) -> &'static [u8]
    ensures { result.now ≡ mostly_at cause (option_map (λ op. op.now) opcode.entry) }
{
    match cause {
        Cause::OpOutside if is_guid(opcode) => {
            b"a GUID with Scope, as EDK2 writes for bit fields, which is not judged here"
        }
        _ => mostly_of(cause),
    }
}

// Whether an opcode is a GUID.
fn is_guid(opcode: Option<&[u8]>) -> bool
    ensures { result ≡ is_guid (option_map (λ op. op.now) opcode.entry) }
{
    match opcode {
        Some(opcode) => opcode.first() == Some(&GUID),
        None => false,
    }
}
