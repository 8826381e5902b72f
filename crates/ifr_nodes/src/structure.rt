//! Each node by itself: whether its opcode is known, has its fields and the Scope that it wants, and whether it may stand
//! where it stands; and the expressions.

ghost use Rattle.std.specs.Prelude.{◌≡◌, ◌≤◌, ◌<◌, ◌^◌, List, None, length, map, option_map, All, OnOk, IfErr};
ghost use Rattle.hii_bytes.specs.Faults.{IsLeast, HasNone};
ghost use Rattle.ifr_opcodes.specs.Opcode.{IsWhole, number};
ghost use Rattle.ifr_opcodes.specs.code.Ops.{bytes_of, op_of};
ghost use Rattle.ifr_opcodes.specs.Forest.{SpellsForest, Forest, Ancestor};
ghost use Rattle.std.specs.List.{last_or};
ghost use Rattle.ifr_opcodes.specs.Reading.{tree_of};
ghost use Rattle.ifr_opcodes.specs.code.Marks.{mark_at, ancestor_at};
ghost use Rattle.ifr_nodes.specs.Nodes.{nodes_of};
ghost use Rattle.ifr_nodes.specs.Table as table;
ghost use Rattle.ifr_nodes.specs.Structure as structure;
ghost use Rattle.ifr_nodes.specs.Structure.{IsStructureFault};
ghost use Rattle.ifr_nodes.specs.code.Causes.{least_cause};

use crate::ends::end_of;
use crate::framing::HEADER;
use crate::guards::is_guard;
use crate::table::{
    Class, Scope, admits, class_of, guarded, row_of, wants_expression, wants_value,
};
use crate::walk::Walk;
use hii_bytes::{Cause, Fault};
use ifr_expr::Expr;
use ifr_opcodes::{FORM_SET, Op, VALUE, is_listed, is_operator, is_outside, is_short, op_at};

/// Whether it is wrong that an opcode has Scope, or has none, where it stands in the scope of an operator or does not.
#[inline(always)]
pub fn has_wrong_scope(op: Op, operand: bool) -> bool
    ensures { result ≡ structure.has_wrong_scope (table.row op.entry.code) operand
        (bytes_of op.entry) }
{
    match row_of(op.code) {
        Some(row) => match row.scope {
            Scope::Always => !op.scope,
            Scope::Sometimes => false,
            Scope::Never => op.scope,
            Scope::Outermost => operand && op.scope,
            Scope::WithValue => op.scope != wants_value(op),
        },
        None => false,
    }
}

// The number of the innermost of the opcodes at these places that is no guard, if there is one.
fn innermost_other(bytes: &[u8], places: &[u32]) -> Option<u8>
    requires { All (λ place. IsWhole (mark_at bytes.now place).op) places.now }
    ensures { result ≡ option_map (λ a. number a.op)
        (last_or None (table.others_among (map (ancestor_at bytes.now) places.now))) }
{
    let mut left = places;
    while let Some((place, outer)) = left.split_last() {
        let code = bytes[*place as usize];
        if !is_guard(code) {
            return Some(code);
        }
        left = outer;
    }
    None
}

// What may stand in the scope of the innermost of the nodes at these places, which is this opcode.
fn class_around(bytes: &[u8], places: &[u32], parent: Option<Op>) -> Class
    requires whole { All (λ place. IsWhole (mark_at bytes.now place).op) places.now }
    requires parent { option_map op_of parent
        ≡ structure.innermost (map (ancestor_at bytes.now) places.now) }
    ensures { result ≡ table.class_around (map (ancestor_at bytes.now) places.now) }
{
    let Some(parent) = parent else {
        return Class::OfNothing;
    };
    if !is_guard(parent.code) {
        return class_of(parent.code);
    }
    match innermost_other(bytes, places) {
        Some(code) => guarded(class_of(code)),
        None => Class::OfNothing,
    }
}

// The opcode of the innermost of the nodes at these places.
fn innermost<'a>(bytes: &'a [u8], places: &[u32]) -> Option<Op<'a>>
    requires { All (λ place. IsWhole (mark_at bytes.now place).op) places.now }
    ensures { option_map op_of result
        ≡ structure.innermost (map (ancestor_at bytes.entry.now) places.now) }
{
    match places.last() {
        Some(place) => op_at(bytes, *place).ok(),
        None => None,
    }
}

// Whether a place is right behind an opcode.
fn stands_first(place: u32, op: Op) -> bool
    ensures { result ≡ structure.stands_first place (op_of op.entry) }
{
    place as usize == op.place as usize + op.len()
}

// Whether what stands at a place, in the scope of an opcode, is to be the expression with which that begins.
fn begins_scope(place: u32, parent: Option<Op>) -> bool
    ensures { result ≡ structure.begins_scope place (option_map op_of parent.entry) }
{
    match parent {
        Some(parent) => wants_expression(parent.code) && stands_first(place, parent),
        None => false,
    }
}

// Whether it is to be the VALUE with which that begins.
fn begins_with_value(place: u32, parent: Option<Op>) -> bool
    ensures { result ≡ structure.begins_with_value place (option_map op_of parent.entry) }
{
    match parent {
        Some(parent) => wants_value(parent) && stands_first(place, parent),
        None => false,
    }
}

fn is_operator_scope(parent: Option<Op>) -> bool
    ensures { result ≡ structure.is_operator_scope (option_map op_of parent.entry) }
{
    match parent {
        Some(parent) => is_operator(parent.code),
        None => false,
    }
}

// Whether an expression stands at a node, by its opcode and that around it.
fn is_expression(op: Op, parent: Option<Op>) -> bool
    ensures { (path : List Ancestor) (children : Forest)
        → option_map op_of parent.entry ≡ structure.innermost path → result
        ≡ structure.is_expression record {
          place = op.entry.place;
          op = bytes_of op.entry;
          path = path;
          children = children;
        } }
{
    begins_scope(op.place, parent) && is_operator(op.code)
}

fn lacks_expression(first: Option<u8>) -> bool
    ensures { result ≡ structure.lacks_expression first }
{
    match first {
        Some(code) => is_listed(code) && !is_operator(code),
        None => true,
    }
}

fn lacks_value(first: Option<u8>) -> bool
    ensures { result ≡ structure.lacks_value first }
{
    match first {
        Some(code) => is_listed(code) && code != VALUE,
        None => true,
    }
}

/// Whether an opcode, by the number of its first child, does not begin with what it wants.
#[inline(always)]
pub fn lacks_wanted(op: Op, first: Option<u8>) -> bool
    ensures { (children : Forest) → structure.first_number children ≡ first →
        result ≡ structure.lacks_wanted (bytes_of op.entry) children }
{
    (wants_expression(op.code) && lacks_expression(first))
        || (wants_value(op) && lacks_value(first))
}

// The least cause for which a node is refused, by its opcode, the places around it, the opcode at the innermost of these, and
// the number of its first child.
fn cause_of(
    bytes: &[u8],
    op: Op,
    around: &[u32],
    parent: Option<Op>,
    first: Option<u8>,
) -> Option<Cause>
    requires whole { All (λ place. IsWhole (mark_at bytes.now place).op) around.now }
    requires parent { option_map op_of parent
        ≡ structure.innermost (map (ancestor_at bytes.now) around.now) }
    ensures { (children : Forest) → structure.first_number children ≡ first →
        result ≡ least_cause record {
          place = op.entry.place;
          op = bytes_of op.entry;
          path = map (ancestor_at bytes.now) around.now;
          children = children;
        } }
{
    let is_root = around.is_empty();
    let is_first = op.place == HEADER as u32;
    if is_first && op.code != FORM_SET {
        return Some(Cause::NotFormSet);
    }
    if is_root && !is_first {
        return Some(Cause::AfterFormSet);
    }
    if is_outside(op) {
        return Some(Cause::OpOutside);
    }
    if is_short(op) {
        return Some(Cause::OpSize);
    }
    if !is_root
        && !begins_scope(op.place, parent)
        && !begins_with_value(op.place, parent)
        && !admits(class_around(bytes, around, parent), op.code)
    {
        return Some(Cause::Misplaced);
    }
    if has_wrong_scope(op, is_operator_scope(parent)) {
        return Some(Cause::ScopeBit);
    }
    if lacks_wanted(op, first) {
        return Some(Cause::ExprShape);
    }
    None
}

/// Refuses a package by the least fault of a node by itself, which are the opcode's number, its length, where it stands,
/// its Scope, and that an expression or a VALUE stands where one is wanted; or of the opcodes of an expression and their
/// order.
pub fn check_structure(bytes: &[u8]) -> Result<(), Fault>
    requires header { 4 ≤ length bytes.now }
    requires small { length bytes.now < 2 ^ 32 }
    requires spelled { SpellsForest bytes.now (tree_of bytes.now) }
    ensures sound { OnOk result (HasNone (IsStructureFault (nodes_of bytes.now))) }
    ensures refused { IfErr result (IsLeast (IsStructureFault (nodes_of bytes.now))) }
{
    if bytes.len() == HEADER {
        return Err(Fault::at(Cause::NotFormSet, HEADER as u64));
    }
    let mut walk = Walk::over(bytes);
    while let Some(visit) = walk.step() {
        let around = walk.around(visit.depth);
        let parent = innermost(bytes, around);
        if let Some(cause) = cause_of(bytes, visit.op, around, parent, walk.first_child(&visit)) {
            return Err(visit.op.fault(cause));
        }
        if is_expression(visit.op, parent) {
            let place = visit.op.place;
            Expr::check(bytes, place, end_of(bytes, place))?;
        }
    }
    Ok(())
}
