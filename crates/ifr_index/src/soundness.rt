//! Whether a node has a fault by itself, where it is met in a walk, as `check_structure` tells the fault.

ghost use Rattle.std.specs.Prelude.{◌≡◌, List, Option, true, false};
ghost use Rattle.hii_bytes.specs.Faults.{HasNone};
ghost use Rattle.ifr_opcodes.specs.Forest.{Forest, Ancestor, Node as Placed};
ghost use Rattle.ifr_opcodes.specs.Rows.{is_statement_number};
ghost use Rattle.ifr_opcodes.specs.declared.codes.TheConstants as codes;
ghost use Rattle.ifr_nodes.specs.Nodes.{nodes_of};
ghost use Rattle.ifr_nodes.specs.Structure as structure;
ghost use Rattle.ifr_nodes.specs.Structure.{IsStructureFault};
ghost use Rattle.ifr_nodes.specs.Table.{admits, class_around};
ghost use Rattle.ifr_nodes.specs.declared.table.Class.TheVariants.{OfForm};
ghost use Rattle.ifr_nodes.specs.code.Checked.{node_in};
ghost use Rattle.ifr_index.specs.code.Levels.{level_of, node_with, is_clear, is_placed as is_placed_node, IsMet, IsPassed};

use crate::level::Level;
use ifr_expr::Expr;
use ifr_nodes::{HEADER, end_of, has_wrong_scope, lacks_wanted};
use ifr_opcodes::{FORM_SET, Op, is_outside, is_short};

/// Whether a statement in a form has no fault.
#[inline(always)]
pub(crate) fn is_sound_statement(op: Op) -> bool
    requires { is_statement_number op.code ≡ true }
    ensures { (path : List Ancestor) (children : Forest) → class_around path ≡ OfForm
        → result ≡ is_clear (node_with op.entry path children) }
{
    op.place != HEADER as u32 && !is_short(op)
}

/// Whether an option among options has no fault.
#[inline(always)]
pub(crate) fn is_sound_option(op: Op) -> bool
    requires { op.code ≡ codes.ONE_OF_OPTION }
    ensures { (path : List Ancestor) (children : Forest)
        → admits (class_around path) codes.ONE_OF_OPTION ≡ true
        → result ≡ is_clear (node_with op.entry path children) }
{
    if op.place == HEADER as u32 {
        return false;
    }
    !is_outside(op) && !is_short(op)
}

// Whether an opcode may stand where it stands, with the innermost scope around it, or as the root.
fn is_placed(op: Op, level: &Level, is_root: bool) -> bool
    ensures { (ns : List Placed) (path : List Ancestor) (children : Forest)
        → level.now ≡ level_of ns path
        → is_root ≡ structure.is_root (node_with op.entry path children)
        → result ≡ is_placed_node (node_with op.entry path children) }
{
    let is_first = op.place == HEADER as u32;
    if is_root {
        return is_first && op.code == FORM_SET;
    }
    if !is_first {
        return level.holds(op);
    }
    op.code == FORM_SET && level.holds(op)
}

/// Whether an opcode has no fault, with the innermost scope around it, whether it is the root, and the number of its first
/// child.
#[inline(always)]
pub(crate) fn is_sound(op: Op, level: &Level, is_root: bool, first: Option<u8>) -> bool
    ensures { (ns : List Placed) (path : List Ancestor) (children : Forest)
        → level.now ≡ level_of ns path
        → is_root ≡ structure.is_root (node_with op.entry path children)
        → structure.first_number children ≡ first
        → result ≡ is_clear (node_with op.entry path children) }
{
    if !is_placed(op, level, is_root) {
        return false;
    }
    if is_outside(op) || is_short(op) {
        return false;
    }
    !has_wrong_scope(op, level.is_operator_scope()) && !lacks_wanted(op, first)
}

/// Whether the expression at an opcode has no fault, where one stands there.
pub(crate) fn has_sound_expression(ifr: &[u8], op: Op, level: &Level) -> bool
    requires { IsMet ifr.now op level.now }
    ensures sound { result ≡ true → is_clear (node_in ifr.now op.entry.place) ≡ true
        → IsPassed (node_in ifr.now op.entry.place) }
    ensures faulty { result ≡ false → HasNone (IsStructureFault (nodes_of ifr.now)) → ⊥ }
{
    if !level.has_expression(op) {
        return true;
    }
    match Expr::check(ifr, op.place, end_of(ifr, op.place)) {
        Ok(_) => true,
        Err(_) => false,
    }
}
