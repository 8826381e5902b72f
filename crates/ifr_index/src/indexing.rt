//! How the index of a package is made: in one walk, in which each node is checked by itself.

ghost use Rattle.std.specs.Prelude.{◌≡◌, ◌≤◌, ◌<◌, ◌^◌, true, false, Ok, None, length, IfOk, IfSome};
ghost use Rattle.hii_bytes.specs.Faults.{HasNone};
ghost use Rattle.ifr_opcodes.specs.Forest.{SpellsForest};
ghost use Rattle.ifr_opcodes.specs.Reading.{tree_of};
ghost use Rattle.ifr_nodes.specs.Checked.{IsChecked};
ghost use Rattle.ifr_nodes.specs.Nodes.{nodes_of};
ghost use Rattle.ifr_nodes.specs.Structure as structure;
ghost use Rattle.ifr_nodes.specs.Structure.{IsStructureFault};
ghost use Rattle.ifr_nodes.specs.code.Checked.{node_in};
ghost use Rattle.ifr_index.specs.code.Adding.{Adds};
ghost use Rattle.ifr_index.specs.code.Levels.{IsMet, IsPassed};
ghost use Rattle.ifr_index.specs.code.Tables.{IsIndexOf};

use crate::index::Index;
use crate::level::{Level, innermost};
use crate::soundness::{has_sound_expression, is_sound, is_sound_option, is_sound_statement};
use crate::tables::Tables;
use arrayvec::ArrayVec;
use ifr_nodes::{Class, HEADER, Walk, admits};
use ifr_opcodes::{ONE_OF_OPTION, Op, is_statement};
use std::alloc::{AllocError, Global};

// Goes to a node, by its opcode, the innermost scope around it, whether it is the root, and the number of its first child. It
// is added to the tables if it has no fault, nor the expression at it.
#[inline(always)]
fn pass(
    tables: &mut Tables,
    ifr: &[u8],
    op: Op,
    level: &Level,
    is_root: bool,
    first: Option<u8>,
) -> Result<bool, AllocError>
    requires met { IsMet ifr.now op level.now }
    requires root { is_root ≡ structure.is_root (node_in ifr.now op.place) }
    requires first { structure.first_number (node_in ifr.now op.place).children ≡ first }
    requires few { length tables.old.conditions.items < 2 ^ 32 }
    ensures sound { result ≡ Ok true
        → IsPassed (node_in ifr.now op.entry.place)
        × Adds level.now.guard (node_in ifr.now op.entry.place) tables.old tables.new }
    ensures faulty { result ≡ Ok false → HasNone (IsStructureFault (nodes_of ifr.now)) → ⊥ }
{
    if is_statement(op.code) && level.class == Class::OfForm {
        if !is_sound_statement(op) {
            return Ok(false);
        }
        tables.add_statement(op, level.guard)?;
        return Ok(true);
    }
    if op.code == ONE_OF_OPTION && admits(level.class, ONE_OF_OPTION) {
        if !is_sound_option(op) {
            return Ok(false);
        }
        tables.add_option(op, level.guard)?;
        return Ok(true);
    }
    if !is_sound(op, level, is_root, first) {
        return Ok(false);
    }
    if !has_sound_expression(ifr, op, level) {
        return Ok(false);
    }
    tables.add(ifr, op, level)?;
    Ok(true)
}

/// The index of a package that spells a forest (UEFI 2.8, 33.3.8 Forms Package), if its nodes by themselves and its expressions have
/// no fault. Where they have one, `check_structure` tells the least.
#[inline(never)]
pub fn index_of(alloc: Global, ifr: &[u8]) -> Result<Option<Index>, AllocError>
    requires header { 4 ≤ length ifr.now }
    requires small { length ifr.now < 2 ^ 32 }
    requires spelled { SpellsForest ifr.now (tree_of ifr.now) }
    ensures checked { IfOk result (λ found. IfSome found (λ _. IsChecked ifr.now)) }
    ensures index { IfOk result (λ found. IfSome found (IsIndexOf (nodes_of ifr.now))) }
    ensures faulty { result ≡ Ok None → HasNone (IsStructureFault (nodes_of ifr.now)) → ⊥ }
{
    if ifr.len() == HEADER {
        return Ok(None);
    }
    let outside = Level::outside();
    let mut tables = Tables::new(alloc)?;
    let mut levels: ArrayVec<Level, 64> = ArrayVec::new();
    let mut walk = Walk::over(ifr);
    while let Some(visit) = walk.step() {
        let op = visit.op;
        levels.truncate(visit.depth);
        let level = innermost(levels.as_slice(), &outside);
        let guards = tables.guard_count() as u32;
        let first = walk.first_child(&visit);
        if !pass(&mut tables, ifr, op, level, visit.depth == 0, first)? {
            return Ok(None);
        }
        if op.scope {
            let inner = level.open(op, guards);
            levels.push(inner);
        }
    }
    Ok(Some(tables.index(ifr)?))
}
