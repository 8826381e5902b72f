//! Forms, questions and rules by their ids: whether one is named twice, whether there is a form at all, and how large the
//! rules are.

ghost use Rattle.std.specs.Prelude.{◌≡◌, ◌==◌, ◌&&◌, not, ℕ, Ok, Some, None, true, false, option_map, List, [], ◌∷◌, ◌++◌, IfOk, OnOk, IfErr, IfSome};
ghost use Rattle.std.specs.List.{list_any, last_or};
ghost use Rattle.hii_bytes.specs.Faults.{HasNone, Refuses};
ghost use Rattle.hii_bytes.specs.code.NumberSets.{has_number};
ghost use Rattle.ifr_opcodes.specs.Forest.{Node as Placed};
ghost use Rattle.ifr_nodes.specs.Checked.{IsChecked};
ghost use Rattle.ifr_nodes.specs.Nodes.{nodes_of, is_form, is_question, is_reference};
ghost use Rattle.ifr_opcodes.specs.Fields.{form_id, question_id};
ghost use Rattle.ifr_nodes.specs.code.Views.{node_of};
ghost use Rattle.ifr_nodes.specs.ReferenceFaults.{IsReferenceFault, has_form_id, has_question_id, is_lost as lost_among};
ghost use Rattle.ifr_nodes.specs.code.KeptRules.{AreKeptRules};
ghost use Rattle.ifr_nodes.specs.code.FormIds.{AreFormEntries};

use crate::form_end::FormEnd;
use crate::framing::HEADER;
use crate::node::Node;
use crate::nodes::Nodes;
use crate::rules::{RuleTable, expression_of};
use crate::scoped_nodes::{ScopedNode, ScopedNodes};
use hii_bytes::{Cause, Fault, IdTable, NumberSet};
use std::alloc::{AllocError, Global};

/// What was met of a package: the ids of its forms and of its questions, its rules, and the form in which the last of
/// these stands; beside the places of all its forms by their ids.
#[derive(Drop)]
struct Met<'t> {
    all: &'t IdTable,
    forms: NumberSet,
    questions: NumberSet,
    rules: RuleTable,
    form: Option<FormEnd>,
}

impl<'t> Met<'t> {
    ghost use Rattle.ifr_opcodes.specs.Fields.{ref_target};
    ghost use Rattle.ifr_nodes.specs.code.Met.{AreOf, Tells, Meets, TellsNext, MeetsNext};
    ghost use Rattle.ifr_nodes.specs.code.Around.{IsAround};
    ghost use Rattle.ifr_nodes.specs.code.Checked.{node_in, has_node};
    ghost use Rattle.ifr_nodes.specs.Nodes as ends;
    ghost use Rattle.ifr_nodes.specs.Rules.{is_rule, form_end, forms_among};

    /// Nothing of a package whose forms have these ids.
    fn new(alloc: Global, all: &'t IdTable) -> Result<Met<'t>, AllocError>
        ensures { IfOk result (λ met. (bytes : List ℕ)
            → AreFormEntries (nodes_of bytes) all.now → AreOf bytes [] met) }
    {
        Ok(Met {
            all,
            forms: NumberSet::new(alloc)?,
            questions: NumberSet::new(alloc)?,
            rules: RuleTable::new(alloc),
            form: None,
        })
    }

    /// Where the form at a place ends.
    fn form_end(&mut self, ifr: &[u8], place: u32) -> u32
        requires checked { IsChecked ifr.now }
        requires there { has_node ifr.now place ≡ true }
        requires known { IfSome self.old.form
            (λ form. form.ends ≡ ends.end_of (node_in ifr.now form.place)) }
        ensures end { result ≡ ends.end_of (node_in ifr.entry.now place) }
        ensures known { IfSome self.new.form
            (λ form. form.ends ≡ ends.end_of (node_in ifr.entry.now form.place)) }
        ensures stays { (self.new.all ≡ self.old.all) × (self.new.forms ≡ self.old.forms)
            × (self.new.questions ≡ self.old.questions) × (self.new.rules ≡ self.old.rules) }
    {
        let form = FormEnd::at(ifr, place, self.form);
        self.form = Some(form);
        form.ends
    }

    /// Meets the next node, and tells its fault beside those before it.
    fn meet(&mut self, nodes: &ScopedNodes, next: &ScopedNode) -> Result<Option<Cause>, AllocError>
        requires around { IsAround nodes.now next.now }
        requires known { IfSome self.old.form
            (λ form. form.ends ≡ ends.end_of (node_in next.now.node.ifr.now form.place)) }
        ensures told { IfOk result (TellsNext next.now.node self.old) }
        ensures met { result ≡ Ok None → MeetsNext next.now.node self.old self.new }
    {
        if !next.node.is_rule() {
            return Ok(self.meet_other(next.node));
        }
        // each rule of a checked package stands in a form
        let form = nodes.form(next).unwrap();
        self.meet_rule(next.node, form)
    }

    /// Meets the next node, a rule in the form at a place, and tells whether it is too large.
    fn meet_rule(&mut self, rule: Node, form: u32) -> Result<Option<Cause>, AllocError>
        requires rule { is_rule (node_of rule) ≡ true }
        requires form { Some form ≡ option_map (λ a. a.place)
            (last_or None (forms_among (node_of rule).path)) }
        requires known { IfSome self.old.form
            (λ form. form.ends ≡ ends.end_of (node_in rule.ifr.now form.place)) }
        ensures told { IfOk result (TellsNext rule.entry self.old) }
        ensures met { result ≡ Ok None → MeetsNext rule.entry self.old self.new }
    {
        let form_ends = self.form_end(rule.ifr, form);
        let Some(size) = self.rules.size_of(expression_of(rule)) else {
            return Ok(Some(Cause::RuleTooLarge));
        };
        self.rules.add(rule, form_ends, size)?;
        Ok(None)
    }

    /// Meets the next node, which is no rule, and tells whether its id was met before, or leads to no form.
    fn meet_other(&mut self, node: Node) -> Option<Cause>
        requires other { is_rule (node_of node) ≡ false }
        ensures told { (bytes : List ℕ) (before : List Placed)
            → Tells bytes before (node_of node.entry) self.old result }
        ensures met { result ≡ None → (bytes : List ℕ) (before : List Placed)
            → Meets bytes before (node_of node.entry) self.old self.new }
    {
        if repeats_form(&mut self.forms, node) {
            return Some(Cause::DuplicateForm);
        }
        if repeats_question(&mut self.questions, node) {
            return Some(Cause::DuplicateQuestion);
        }
        if self.is_lost(node) {
            return Some(Cause::NoForm);
        }
        None
    }

    /// Whether a question is a reference that leads to no form.
    fn is_lost(&self, node: Node) -> bool
        ensures { (ns : List Placed)
            → AreFormEntries ns self.now.all.now → result ≡ (is_reference (node_of node.entry)
            && lost_among ns (ref_target (node_of node.entry).op)) }
    {
        match node.target() {
            Some(id) => self.all.find(id).is_none(),
            None => false,
        }
    }
}

// Whether a node is a form of an id that was met before. If not, the ids are those of the forms to and with this node.
fn repeats_form(ids: &mut NumberSet, node: Node) -> bool
    ensures { (before : List Placed)
        → ((id : ℕ) → has_number ids.old id ≡ list_any (has_form_id id) before) →
        (result ≡ (is_form (node_of node.entry)
        && list_any (has_form_id (form_id (node_of node.entry).op)) before))
        × (result ≡ false → (id : ℕ) → has_number ids.new id
        ≡ list_any (has_form_id id) (before ++ node_of node.entry ∷ [])) }
{
    node.is_form() && !ids.insert(node.form().id())
}

// Whether a node is a question of an id, other than 0, that was met before. If not, the ids are those of the questions to
// and with this node.
fn repeats_question(ids: &mut NumberSet, node: Node) -> bool
    ensures { (before : List Placed)
        → ((id : ℕ) → has_number ids.old id ≡ list_any (has_question_id id) before) →
        (result ≡ (is_question (node_of node.entry)
        && (not (question_id (node_of node.entry).op == 0)
        && list_any (has_question_id (question_id (node_of node.entry).op)) before)))
        × (result ≡ false → (id : ℕ) → has_number ids.new id
        ≡ list_any (has_question_id id) (before ++ node_of node.entry ∷ [])) }
{
    if !node.is_question() {
        return false;
    }
    let id = node.question().id();
    !ids.insert(id) && id != 0
}

/// Whether a package, whose framing and nodes have no fault, has a form.
pub fn has_form(ifr: &[u8]) -> bool
    requires { IsChecked ifr.now }
    ensures { result ≡ list_any is_form (nodes_of ifr.now) }
{
    let mut nodes = Nodes::over(ifr);
    while let Some(node) = nodes.step() {
        if node.is_form() {
            return true;
        }
    }
    false
}

/// The rules of a package. A package without a form is refused by NoForm at 4, and a form or a question whose id one
/// before it has by DuplicateForm or DuplicateQuestion at the later one; a question may have the id 0 again (own rule). A
/// reference that leads to no form is refused by NoForm, a rule of a depth above 16 or a weight above 4,096 by
/// RuleTooLarge. Where an allocation fails the fault is OutOfMemory. The places of all forms are given by their ids.
pub fn check_references(alloc: Global, ifr: &[u8], forms: &IdTable) -> Result<RuleTable, Fault>
    requires checked { IsChecked ifr.now }
    requires forms { AreFormEntries (nodes_of ifr.now) forms.now }
    ensures sound { OnOk result (HasNone (IsReferenceFault (nodes_of ifr.now))) }
    ensures kept { IfOk result (AreKeptRules (nodes_of ifr.now)) }
    ensures refused { IfErr result (Refuses (IsReferenceFault (nodes_of ifr.now))) }
{
    if !has_form(ifr) {
        return Err(Fault::at(Cause::NoForm, HEADER as u64));
    }
    let mut met = Met::new(alloc, forms)?;
    let mut nodes = ScopedNodes::over(ifr);
    while let Some(next) = nodes.step() {
        if let Some(cause) = met.meet(&nodes, &next)? {
            return Err(next.node.op().fault(cause));
        }
    }
    Ok(met.rules)
}
