//! The tables of an index in the making, to which nodes are added by place.

ghost use Rattle.std.specs.Prelude.{◌≡◌, ◌<◌, ◌^◌, ◌||◌, ◌==◌, ◌++◌, ◌∷◌, [], true, false, ℕ, List, Option, filter, length, map, IfOk, OnOk};
ghost use Rattle.std.specs.BTreeMap.{get};
ghost use Rattle.std.specs.Ordering.{nat_cmp};
ghost use Rattle.ifr_opcodes.specs.Forest.{Forest, Ancestor, Node as Placed};
ghost use Rattle.ifr_opcodes.specs.Fields.{is_left_out};
ghost use Rattle.ifr_opcodes.specs.Rows.{is_short, is_statement_number};
ghost use Rattle.ifr_opcodes.specs.code.Ops.{bytes_of};
ghost use Rattle.ifr_opcodes.specs.declared.codes.TheConstants as codes;
ghost use Rattle.ifr_nodes.specs.Checked.{IsChecked};
ghost use Rattle.ifr_nodes.specs.Guards.{guards_among};
ghost use Rattle.ifr_nodes.specs.Nodes.{nodes_of, is_form, is_store};
ghost use Rattle.ifr_nodes.specs.Rules.{is_rule};
ghost use Rattle.ifr_nodes.specs.Locks.{has_place};
ghost use Rattle.ifr_nodes.specs.Structure.{innermost};
ghost use Rattle.ifr_nodes.specs.code.Checked.{node_in};
ghost use Rattle.ifr_nodes.specs.code.FormIds.{form_entry};
ghost use Rattle.ifr_index.specs.code.Index as indexed;
ghost use Rattle.ifr_index.specs.code.LockIndex.{Finds};
ghost use Rattle.ifr_index.specs.code.Tables.{IsIndexOf, places_of, is_question_condition, entry_of_node, guard_entry, condition_entry};
ghost use Rattle.ifr_index.specs.code.Levels.{IsMet, is_clear, node_with};

use crate::giving::add_giving;
use crate::index::{ConditionEntry, Entry, GuardEntry, Index};
use crate::level::Level;
use crate::locking::lock_entries;
use crate::references::References;
use hii_bytes::{IdEntry, IdTable};
use ifr_nodes::{end_of, is_guard};
use ifr_opcodes::{
    FORM, FormOp, LOCKED, ONE_OF_OPTION, Op, RULE, is_condition, is_statement, is_store,
};
use std::alloc::{AllocError, Global};
use std::collections::BTreeMap;

/// Whether this is the number of a form, a statement or an option.
pub(crate) fn is_indexed(code: u8) -> bool
    ensures { result ≡ (code == codes.FORM || is_statement_number code
        || code == codes.ONE_OF_OPTION) }
{
    code == FORM || is_statement(code) || code == ONE_OF_OPTION
}

// Adds a form, a statement or an option with the innermost guard around it, and not yet with what locks it.
fn add_entry(entries: &mut Vec<Entry>, op: Op, guard: Option<u32>) -> Result<(), AllocError>
    ensures { OnOk result ((path : List Ancestor) (children : Forest)
        → entries.new.items ≡ entries.old.items ++ map (entry_of_node guard)
        (filter indexed.is_indexed (node_with op.entry path children ∷ []))) }
{
    if is_indexed(op.code) {
        entries.push(Entry {
            place: op.place,
            code: op.code,
            guard,
            lock: None,
        })?;
    }
    Ok(())
}

// Adds a guard, with the innermost one around it.
fn add_guard(
    guards: &mut Vec<GuardEntry>,
    ifr: &[u8],
    op: Op,
    level: &Level,
) -> Result<(), AllocError>
    requires met { IsMet ifr.now op level.now }
    requires clear { is_clear (node_in ifr.now op.place) ≡ true }
    ensures { OnOk result (guards.new.items ≡ guards.old.items
        ++ map (guard_entry level.now.guard) (guards_among (node_in ifr.now op.entry.place ∷ []))) }
{
    if is_guard(op.code) {
        guards.push(GuardEntry {
            place: op.place,
            code: op.code,
            this: level.this,
            outer: level.guard,
            ends: end_of(ifr, op.place + op.len() as u32),
        })?;
    }
    Ok(())
}

// Adds a condition of a question, with the innermost guard around it.
fn add_condition(
    conditions: &mut Vec<ConditionEntry>,
    ifr: &[u8],
    op: Op,
    level: &Level,
) -> Result<(), AllocError>
    requires met { IsMet ifr.now op level.now }
    requires clear { is_clear (node_in ifr.now op.place) ≡ true }
    requires few { length conditions.old.items < 2 ^ 32 }
    ensures { OnOk result (conditions.new.items ≡ conditions.old.items
        ++ map (condition_entry level.now.guard (length conditions.old.items))
        (filter is_question_condition (node_in ifr.now op.entry.place ∷ []))) }
{
    if is_condition(op.code) {
        let number = conditions.len() as u32;
        conditions.push(ConditionEntry {
            place: op.place,
            code: op.code,
            number,
            question: level.place,
            this: level.this,
            guard: level.guard,
            ends: end_of(ifr, op.place + op.len() as u32),
        })?;
    }
    Ok(())
}

// Adds a form.
fn add_form(forms: &mut Vec<IdEntry>, op: Op) -> Result<(), AllocError>
    requires { is_short (bytes_of op) ≡ false }
    ensures { OnOk result ((path : List Ancestor) (children : Forest)
        → forms.new.items ≡ forms.old.items
        ++ map form_entry (filter is_form (node_with op.entry path children ∷ []))) }
{
    if op.code == FORM {
        forms.push(IdEntry {
            id: FormOp { op }.id(),
            number: op.place,
        })?;
    }
    Ok(())
}

// Adds the place of a store.
fn add_store(stores: &mut Vec<u32>, op: Op) -> Result<(), AllocError>
    ensures { OnOk result ((path : List Ancestor) (children : Forest)
        → stores.new.items ≡ stores.old.items
        ++ places_of is_store (node_with op.entry path children ∷ [])) }
{
    if is_store(op.code) {
        stores.push(op.place)?;
    }
    Ok(())
}

// Adds the place of a rule.
fn add_rule(rules: &mut Vec<u32>, op: Op) -> Result<(), AllocError>
    ensures { OnOk result ((path : List Ancestor) (children : Forest)
        → rules.new.items ≡ rules.old.items
        ++ places_of is_rule (node_with op.entry path children ∷ [])) }
{
    if op.code == RULE {
        rules.push(op.place)?;
    }
    Ok(())
}

// Adds the place of a LOCKED, by the place of what it stands in, where it is the first there.
fn add_lock(locks: &mut BTreeMap<u32, u32>, op: Op, scope: u32) -> Result<(), AllocError>
    ensures { OnOk result ((path : List Ancestor) (children : Forest)
        → (op.entry.code ≡ codes.LOCKED → has_place scope (innermost path) ≡ true)
        → (all : ℕ → Option ℕ) (left : List Placed)
        → Finds all (get nat_cmp locks.old) (node_with op.entry path children ∷ left)
        → Finds all (get nat_cmp locks.new) left) }
{
    if op.code == LOCKED {
        if locks.get(&scope).is_none() {
            locks.insert(scope, op.place)?;
        }
    }
    Ok(())
}

/// The tables as far as nodes were added.
#[derive(Drop)]
pub(crate) struct Tables {
    entries: Vec<Entry>,
    guards: Vec<GuardEntry>,
    conditions: Vec<ConditionEntry>,
    forms: Vec<IdEntry>,
    stores: Vec<u32>,
    rules: Vec<u32>,
    giving: Vec<u32>,
    // The place of the last statement, as long as it is not known to give a default.
    last: Option<u32>,
    locks: BTreeMap<u32, u32>,
    references: References,
}

impl Tables {
    ghost use Rattle.ifr_index.specs.code.Adding.{Adds, AreOfAll, IsStart};
    ghost use Rattle.ifr_index.specs.code.References.{AreReferred};

    /// Tables without entries.
    pub(crate) fn new(alloc: Global) -> Result<Tables, AllocError>
        ensures { IfOk result IsStart }
    {
        Ok(Tables {
            entries: Vec::new(alloc),
            guards: Vec::new(alloc),
            conditions: Vec::new(alloc),
            forms: Vec::new(alloc),
            stores: Vec::new(alloc),
            rules: Vec::new(alloc),
            giving: Vec::new(alloc),
            last: None,
            locks: BTreeMap::new(alloc),
            references: References::new(alloc)?,
        })
    }

    /// How many guards there are.
    pub(crate) fn guard_count(&self) -> usize
        ensures { result ≡ length self.now.guards.items }
    {
        self.guards.len()
    }

    /// Adds a statement, with the innermost guard around it.
    #[inline(always)]
    pub(crate) fn add_statement(&mut self, op: Op, guard: Option<u32>) -> Result<(), AllocError>
        requires statement { is_statement_number op.code ≡ true }
        requires whole { is_short (bytes_of op) ≡ false }
        ensures { OnOk result ((path : List Ancestor) (children : Forest)
            → Adds guard (node_with op.entry path children) self.old self.new) }
    {
        add_entry(&mut self.entries, op, guard)?;
        add_giving(&mut self.giving, &mut self.last, op)?;
        self.references.meet_statement(op)?;
        Ok(())
    }

    /// Adds an option, with the innermost guard around it.
    #[inline(always)]
    pub(crate) fn add_option(&mut self, op: Op, guard: Option<u32>) -> Result<(), AllocError>
        requires option { op.code ≡ codes.ONE_OF_OPTION }
        requires whole { is_short (bytes_of op) ≡ false }
        requires known { is_left_out (bytes_of op) ≡ false }
        ensures { OnOk result ((path : List Ancestor) (children : Forest)
            → Adds guard (node_with op.entry path children) self.old self.new) }
    {
        add_entry(&mut self.entries, op, guard)?;
        add_giving(&mut self.giving, &mut self.last, op)?;
        Ok(())
    }

    /// Adds a node that has no fault, with the innermost scope around it.
    pub(crate) fn add(&mut self, ifr: &[u8], op: Op, level: &Level) -> Result<(), AllocError>
        requires met { IsMet ifr.now op level.now }
        requires clear { is_clear (node_in ifr.now op.place) ≡ true }
        requires few { length self.old.conditions.items < 2 ^ 32 }
        ensures { OnOk result (Adds level.now.guard (node_in ifr.now op.entry.place) self.old self.new) }
    {
        add_entry(&mut self.entries, op, level.guard)?;
        add_giving(&mut self.giving, &mut self.last, op)?;
        add_guard(&mut self.guards, ifr, op, level)?;
        add_condition(&mut self.conditions, ifr, op, level)?;
        add_form(&mut self.forms, op)?;
        add_store(&mut self.stores, op)?;
        add_rule(&mut self.rules, op)?;
        add_lock(&mut self.locks, op, level.place)?;
        self.references.meet(op)?;
        Ok(())
    }

    // Whether it is known of the nodes that were added that none has a fault beside the others, and that none is a rule.
    fn are_referred(&self) -> bool
        ensures { result ≡ true → (ns : List Placed) → AreOfAll ns self.now → AreReferred ns }
    {
        if self.forms.is_empty() {
            return false;
        }
        if !self.rules.is_empty() {
            return false;
        }
        self.references.are_distinct()
    }

    /// The index of a package, of which all nodes were added.
    pub(crate) fn index(self, ifr: &[u8]) -> Result<Index, AllocError>
        requires checked { IsChecked ifr.now }
        requires all { AreOfAll (nodes_of ifr.now) self }
        ensures { IfOk result (IsIndexOf (nodes_of ifr.now)) }
    {
        let referred = self.are_referred();
        let Tables {
            mut entries,
            mut guards,
            mut conditions,
            forms,
            stores,
            rules,
            giving,
            last: _,
            locks,
            references: _,
        } = self;
        lock_entries(ifr, &locks, &mut entries);
        entries.shrink_to_fit();
        guards.shrink_to_fit();
        conditions.shrink_to_fit();
        Ok(Index {
            entries,
            guards,
            conditions,
            forms: IdTable::of(forms)?,
            stores,
            rules,
            giving,
            referred,
        })
    }
}
