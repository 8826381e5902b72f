//! All faults of forms, questions, references and rules among each other.

ghost use Rattle.std.specs.Prelude.{◌≡◌, ◌==◌, ◌&&◌, not, ℕ, Some, None, true, false, option_map, List, [], ◌∷◌, ◌++◌, IfOk, IfSome, OnOk};
ghost use Rattle.std.specs.List.{list_any, last_or};
ghost use Rattle.hii_bytes.specs.code.NumberSets.{has_number};
ghost use Rattle.ifr_opcodes.specs.Fields.{form_id, question_id, ref_target};
ghost use Rattle.ifr_opcodes.specs.Forest.{Node as Placed};
ghost use Rattle.ifr_nodes.specs.Checked.{IsChecked};
ghost use Rattle.ifr_nodes.specs.Nodes.{nodes_of, is_form, is_question, is_reference};
ghost use Rattle.ifr_nodes.specs.ReferenceFaults.{IsReferenceFault, has_form_id, has_question_id, is_lost as lost_among};
ghost use Rattle.ifr_nodes.specs.code.Views.{node_of};
ghost use Rattle.package_faults.specs.AllFaults.{AreAll};

use crate::gathering::add_where;
use crate::met_rules::{MetRules, is_too_large};
use hii_bytes::{Cause, Fault, NumberSet};
use ifr_nodes::{FormEnd, Node, Nodes, ScopedNode, ScopedNodes, expression_of, has_form};
use std::alloc::{AllocError, Global};

/// Where the nodes of a package begin, behind its header (UEFI 2.8, 33.3.1.2 EFI_HII_PACKAGE_HEADER).
const HEADER: u32 = 4;

/// What was met of a package: the ids of its forms and of its questions, its rules, and the form in which the last of these stands;
/// beside the ids of all its forms.
#[derive(Drop)]
struct Met<'f> {
    all: &'f NumberSet,
    forms: NumberSet,
    questions: NumberSet,
    rules: MetRules,
    form: Option<FormEnd>,
}

impl<'f> Met<'f> {
    ghost use Rattle.ifr_nodes.specs.Nodes as ends;
    ghost use Rattle.ifr_nodes.specs.Rules.{is_rule, forms_among};
    ghost use Rattle.ifr_nodes.specs.code.Around.{IsAround};
    ghost use Rattle.ifr_nodes.specs.code.Checked.{node_in, has_node};
    ghost use Rattle.package_faults.specs.code.Met.{AreOf, EndsThere, Meets};

    /// Nothing of a package whose forms have these ids.
    fn new(alloc: Global, all: &'f NumberSet) -> Result<Met<'f>, AllocError>
        ensures { IfOk result (λ met. (bytes : List ℕ)
            → ((id : ℕ) → has_number all.now id ≡ list_any (has_form_id id) (nodes_of bytes))
            → AreOf bytes [] met) }
    {
        Ok(Met {
            all,
            forms: NumberSet::new(alloc)?,
            questions: NumberSet::new(alloc)?,
            rules: MetRules::new(alloc),
            form: None,
        })
    }

    /// Where the form at a place ends, which may be the one that is known.
    fn form_end(&mut self, ifr: &[u8], place: u32) -> u32
        requires checked { IsChecked ifr.now }
        requires there { has_node ifr.now place ≡ true }
        requires known { IfSome self.old.form (EndsThere ifr.now) }
        ensures end { result ≡ ends.end_of (node_in ifr.entry.now place) }
        ensures known { IfSome self.new.form (EndsThere ifr.entry.now) }
        ensures stays { (self.new.all ≡ self.old.all) × (self.new.forms ≡ self.old.forms)
            × (self.new.questions ≡ self.old.questions) × (self.new.rules ≡ self.old.rules) }
    {
        let form = FormEnd::at(ifr, place, self.form);
        self.form = Some(form);
        form.ends
    }

    /// Meets the next node, and adds its faults beside those before it.
    fn meet(
        &mut self,
        nodes: &ScopedNodes<'_>,
        next: &ScopedNode<'_>,
        faults: &mut Vec<Fault>,
    ) -> Result<(), AllocError>
        requires around { IsAround nodes.now next.now }
        requires known { IfSome self.old.form (EndsThere next.now.node.ifr.now) }
        ensures { OnOk result (Meets next.now.node self.old self.new faults.old.items faults.new.items) }
    {
        if !next.node.is_rule() {
            return self.meet_other(next.node, faults);
        }
        // each rule of a checked package stands in a form
        let form = nodes.form(next).unwrap();
        self.meet_rule(next.node, form, faults)
    }

    /// Meets the next node, a rule in the form at a place, and adds that it is too large, where it is.
    fn meet_rule(
        &mut self,
        rule: Node<'_>,
        form: u32,
        faults: &mut Vec<Fault>,
    ) -> Result<(), AllocError>
        requires rule { is_rule (node_of rule) ≡ true }
        requires form { Some form ≡ option_map (λ a. a.place)
            (last_or None (forms_among (node_of rule).path)) }
        requires known { IfSome self.old.form (EndsThere rule.ifr.now) }
        ensures { OnOk result (Meets rule.entry self.old self.new faults.old.items faults.new.items) }
    {
        let form_ends = self.form_end(rule.ifr, form);
        let size = self.rules.size_of(expression_of(rule));
        add_where(
            is_too_large(size),
            Cause::RuleTooLarge,
            rule.op().place,
            faults,
        )?;
        self.rules.add(rule, form_ends, size)
    }

    /// Meets the next node, which is no rule, and adds that its id was met before, and that it leads to no form, where it is so.
    fn meet_other(&mut self, node: Node<'_>, faults: &mut Vec<Fault>) -> Result<(), AllocError>
        requires { is_rule (node_of node) ≡ false }
        ensures { OnOk result (Meets node.entry self.old self.new faults.old.items faults.new.items) }
    {
        let place = node.op().place;
        let repeats = repeats_form(&mut self.forms, node);
        add_where(repeats, Cause::DuplicateForm, place, faults)?;
        let repeats = repeats_question(&mut self.questions, node);
        add_where(repeats, Cause::DuplicateQuestion, place, faults)?;
        add_where(is_lost(self.all, node), Cause::NoForm, place, faults)
    }
}

// Whether a node is a form of an id that was met before. The ids are then those of the forms to and with this node.
fn repeats_form(ids: &mut NumberSet, node: Node<'_>) -> bool
    ensures { (before : List Placed)
        → ((id : ℕ) → has_number ids.old id ≡ list_any (has_form_id id) before) →
        (result ≡ (is_form (node_of node.entry)
        && list_any (has_form_id (form_id (node_of node.entry).op)) before))
        × ((id : ℕ) → has_number ids.new id
        ≡ list_any (has_form_id id) (before ++ node_of node.entry ∷ [])) }
{
    node.is_form() && !ids.insert(node.form().id())
}

// Whether a node is a question of an id, other than 0, that was met before. The ids are then those of the questions to and with this
// node.
fn repeats_question(ids: &mut NumberSet, node: Node<'_>) -> bool
    ensures { (before : List Placed)
        → ((id : ℕ) → has_number ids.old id ≡ list_any (has_question_id id) before) →
        (result ≡ (is_question (node_of node.entry)
        && (not (question_id (node_of node.entry).op == 0)
        && list_any (has_question_id (question_id (node_of node.entry).op)) before)))
        × ((id : ℕ) → has_number ids.new id
        ≡ list_any (has_question_id id) (before ++ node_of node.entry ∷ [])) }
{
    if !node.is_question() {
        return false;
    }
    let id = node.question().id();
    !ids.insert(id) && id != 0
}

// Whether a node is a reference to a form that is not among all, which have these ids.
fn is_lost(all: &NumberSet, node: Node<'_>) -> bool
    ensures { (ns : List Placed) → ((id : ℕ) → has_number all.now id ≡ list_any (has_form_id id) ns)
        → result ≡ (is_reference (node_of node.entry)
        && lost_among ns (ref_target (node_of node.entry).op)) }
{
    match node.target() {
        Some(id) => !all.contains(id),
        None => false,
    }
}

// The ids of all forms.
fn form_ids(alloc: Global, ifr: &[u8]) -> Result<NumberSet, AllocError>
    requires { IsChecked ifr.now }
    ensures { IfOk result (λ ids. (id : ℕ) → has_number ids id
        ≡ list_any (has_form_id id) (nodes_of ifr.now)) }
{
    let mut ids = NumberSet::new(alloc)?;
    let mut nodes = Nodes::over(ifr);
    while let Some(node) = nodes.step() {
        if node.is_form() {
            ids.insert(node.form().id());
        }
    }
    Ok(ids)
}

/// All faults of the forms, questions, references and rules of a package whose framing and nodes have none, by place and then by
/// cause (own rule): that there is no form, NoForm (39) at 4; a form or a question whose id one before it has, DuplicateForm (32) or
/// DuplicateQuestion (33) at the later one, where a question may have the id 0 again; a reference that leads to no form, NoForm; a rule
/// of a depth above 16 or a weight above 4,096, RuleTooLarge (40).
pub fn reference_faults(alloc: Global, ifr: &[u8]) -> Result<Vec<Fault>, AllocError>
    requires { IsChecked ifr.now }
    ensures { IfOk result (λ faults. AreAll (IsReferenceFault (nodes_of ifr.now)) faults.items) }
{
    let forms = form_ids(alloc, ifr)?;
    let mut faults = Vec::new(alloc);
    add_where(!has_form(ifr), Cause::NoForm, HEADER, &mut faults)?;
    let mut met = Met::new(alloc, &forms)?;
    let mut nodes = ScopedNodes::over(ifr);
    while let Some(next) = nodes.step() {
        met.meet(&nodes, &next, &mut faults)?;
    }
    Ok(faults)
}
