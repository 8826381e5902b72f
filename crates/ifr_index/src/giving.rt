//! Statements that give a default (UEFI 2.8, 33.2.5.8 Defaults), found in one walk.

ghost use Rattle.std.specs.Prelude.{◌≡◌, OnOk, ◌++◌, List, false};
ghost use Rattle.ifr_opcodes.specs.Forest.{Forest, Ancestor};
ghost use Rattle.ifr_opcodes.specs.Rows.{is_short};
ghost use Rattle.ifr_opcodes.specs.Fields.{is_left_out};
ghost use Rattle.ifr_opcodes.specs.code.Ops.{bytes_of};
ghost use Rattle.ifr_index.specs.code.Giving as giving;
ghost use Rattle.ifr_index.specs.code.Levels.{node_with};

use ifr_opcodes::{CHECKBOX, CheckboxOp, DEFAULT, ONE_OF_OPTION, Op, OptionOp, is_statement};
use std::alloc::AllocError;

// Whether a node gives a default for a class: a DEFAULT, or an option or a checkbox with a flag of one (UEFI 2.8, 33.3.8.3).
fn gives_default(op: Op) -> bool
    requires whole { is_short (bytes_of op) ≡ false }
    requires known { is_left_out (bytes_of op) ≡ false }
    ensures { (path : List Ancestor) (children : Forest)
        → result ≡ giving.gives_default (node_with op.entry path children) }
{
    match op.code {
        DEFAULT => true,
        ONE_OF_OPTION => {
            let option = OptionOp { op };
            option.is_default() || option.is_manufacturing_default()
        }
        CHECKBOX => {
            let checkbox = CheckboxOp { op };
            checkbox.is_default() || checkbox.is_manufacturing_default()
        }
        _ => false,
    }
}

/// Goes to a node. Where that gives a default, the place of the last statement is added, and there is none from then on. A
/// statement is itself the last.
#[inline(always)]
pub(crate) fn add_giving(
    places: &mut Vec<u32>,
    last: &mut Option<u32>,
    op: Op,
) -> Result<(), AllocError>
    requires whole { is_short (bytes_of op) ≡ false }
    requires known { is_left_out (bytes_of op) ≡ false }
    ensures added { OnOk result ((path : List Ancestor) (children : Forest)
        → places.new.items ≡ places.old.items
        ++ giving.added last.old (node_with op.entry path children)) }
    ensures last { OnOk result ((path : List Ancestor) (children : Forest)
        → last.new ≡ giving.last_behind last.old (node_with op.entry path children)) }
{
    if is_statement(op.code) {
        *last = Some(op.place);
    }
    if gives_default(op) {
        if let Some(place) = last.take() {
            places.push(place)?;
        }
    }
    Ok(())
}
