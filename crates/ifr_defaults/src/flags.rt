//! Defaults that flags give.

ghost use Rattle.std.specs.Prelude.{◌≡◌, option_map};
ghost use Rattle.std.specs.List.{find};
ghost use Rattle.ifr_opcodes.specs.Fields.{option_value};
ghost use Rattle.ifr_opcodes.specs.code.Ops.{bytes_of};
ghost use Rattle.ifr_nodes.specs.Nodes.{options};
ghost use Rattle.ifr_scopes.specs.code.Lists.{statement_node};
ghost use Rattle.ifr_defaults.specs.Defaults as spec;

use crate::classes::{DEFAULT_CLASS_MANUFACTURING, DEFAULT_CLASS_STANDARD};
use ifr_opcodes::{CheckboxOp, OptionOp};
use ifr_scopes::{Statement, StatementKind};

// Whether the flags of an option choose it for a class.
fn is_chosen_for(option: OptionOp<'_>, class: u16) -> bool
    ensures { result ≡ spec.is_chosen_for class (bytes_of option.entry.op) }
{
    match class {
        DEFAULT_CLASS_STANDARD => option.is_default(),
        DEFAULT_CLASS_MANUFACTURING => option.is_manufacturing_default(),
        _ => false,
    }
}

// Whether the flags of a checkbox check it for a class.
fn is_checked_for(checkbox: CheckboxOp<'_>, class: u16) -> bool
    ensures { result ≡ spec.is_checked_for class (bytes_of checkbox.entry.op) }
{
    match class {
        DEFAULT_CLASS_STANDARD => checkbox.is_default(),
        DEFAULT_CLASS_MANUFACTURING => checkbox.is_manufacturing_default(),
        _ => false,
    }
}

// The value of the first option that is chosen for a class.
fn flagged_option(statement: Statement<'_>, class: u16) -> Option<u64>
    ensures { result ≡ option_map (λ o. option_value o.op)
        (find (λ o. spec.is_chosen_for class o.op) (options (statement_node statement.entry))) }
{
    for option in statement.options() {
        let option = option.op();
        if is_chosen_for(option, class) {
            return Some(option.value());
        }
    }
    None
}

/// The bits of the default that the flags of a question, or of its options, give for a class (UEFI 2.8, 33.3.8.3,
/// EFI_IFR_CHECKBOX and EFI_IFR_ONE_OF_OPTION).
pub(crate) fn flagged(statement: Statement<'_>, class: u16) -> Option<u64>
    ensures { result ≡ spec.flagged (statement_node statement.entry) class }
{
    match statement.kind() {
        StatementKind::OneOf(_) => flagged_option(statement, class),
        StatementKind::Checkbox(checkbox) if is_checked_for(checkbox, class) => Some(1),
        _ => None,
    }
}
