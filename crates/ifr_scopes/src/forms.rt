//! A forms package that was read.

ghost use Rattle.std.specs.Prelude.{◌≡◌, ◌-◌, ◌≤◌, ◌==◌, ◌∷◌, [], true, nat_lt, if◌then◌else◌, List, IfOk, IfErr, IfSome, count_by, filter, length, option_map};
ghost use Rattle.std.specs.List.{find};
ghost use Rattle.hii_bytes.specs.Faults.{Refuses};
ghost use Rattle.ifr_opcodes.specs.Forest.{Node as Placed};
ghost use Rattle.ifr_opcodes.specs.Opcode.{number, has_scope};
ghost use Rattle.ifr_expr.specs.Meaning.{names};
ghost use Rattle.ifr_expr.specs.code.Rules.{AreOrdered};
ghost use Rattle.ifr_nodes.specs.Accepted.{IsAccepted, IsPackageFault};
ghost use Rattle.ifr_scopes.specs.code.AllConditionsLeft.{all_conditions_left};
ghost use Rattle.ifr_scopes.specs.code.AnyConditions.{any_condition_node};
ghost use Rattle.ifr_nodes.specs.code.Checked.{IsNodeOf, has_form};
ghost use Rattle.ifr_scopes.specs.code.ConditionsInLeft.{conditions_in_left};
ghost use Rattle.ifr_scopes.specs.code.ConditionsLeft.{conditions_of_left};
ghost use Rattle.ifr_index.specs.code.Giving.{is_giving};
ghost use Rattle.ifr_scopes.specs.code.GivingLeft.{giving_left};
ghost use Rattle.ifr_nodes.specs.Guards.{is_guard};
ghost use Rattle.ifr_scopes.specs.code.GuardsInLeft.{guards_in_left};
ghost use Rattle.ifr_index.specs.code.Index.{conditional_at, guards_of_indexed, indexed_at, lock_of_indexed};
ghost use Rattle.ifr_scopes.specs.code.Lists.{form_node, form_set_node, rule_node, stores_left, all_guards_left, forms_left, rules_left, all_statements_left, statement_node, guards_left};
ghost use Rattle.ifr_scopes.specs.code.AroundViews.{around_guards, around_lock, around_package};
ghost use Rattle.ifr_opcodes.specs.Rows.{is_condition_number, is_question_number};
ghost use Rattle.ifr_nodes.specs.Nodes.{nodes_of, is_form, is_question, is_store, is_statement, is_no_submit, of_question, options, statements};
ghost use Rattle.ifr_scopes.specs.code.NoSubmitsLeft.{no_submits_left};
ghost use Rattle.ifr_scopes.specs.code.OptionsLeft.{options_of_left};
ghost use Rattle.ifr_scopes.specs.code.StatementsLeft.{statements_of_left};
ghost use Rattle.ifr_nodes.specs.ReferenceFaults.{form_with};
ghost use Rattle.ifr_nodes.specs.Rules.{is_rule, as_rule, rule_nodes};
ghost use Rattle.ifr_nodes.specs.code.Rules.{rules_of};
ghost use Rattle.ifr_index.specs.code.Tables.{kept_entry, condition_table, entry_table};
ghost use Rattle.ifr_nodes.specs.code.Views.{node_of};

use crate::all_conditions::AllConditions;
use crate::all_statements::AllStatements;
use crate::any_condition::AnyCondition;
use crate::around::{Around, guard_number, lock_place};
use crate::condition_view::ConditionView;
use crate::conditions_in::ConditionsIn;
use crate::conditions_near::conditions_behind_near;
use crate::conditions_of::ConditionsOf;
use crate::form::{Form, FormViews};
use crate::form_set::FormSet;
use crate::giving::GivingStatements;
use crate::guard::{Guard, GuardViews};
use crate::guards_at::GuardsAt;
use crate::guards_in::{GuardsIn, guards_end};
use crate::guards_outward::GuardsOutward;
use crate::no_submits::NoSubmits;
use crate::options_of::OptionsOf;
use crate::rule::{RuleView, RuleViews};
use crate::statement::Statement;
use crate::statements_of::StatementsOf;
use crate::varstore::Varstores;
use hii_bytes::Fault;
use hii_packages::Package;
use ifr_expr::{Expr, NumberedRules, Rules};
use ifr_index::{
    ConditionEntry, Entry, Index, condition_at, conditions_behind, entries_behind, entry_at,
    guard_at, guards_behind, index_of, number_of, places_behind, rules_of,
};
use ifr_nodes::{Node, Nodes, RuleTable, check_framing, check_structure, expression_of, node_at};
use ifr_opcodes::is_question;
use std::alloc::Global;
use std::marker::Model;

// How many of some forms, statements and options are questions.
fn count_questions(entries: &[Entry]) -> usize
    ensures { result ≡ count_by (λ e. is_question_number e.code) entries.now }
{
    let mut count = 0;
    for entry in entries {
        if is_question(entry.code) {
            count += 1;
        }
    }
    count
}

/// The form set of a forms package (UEFI 2.8, 33.2.5.1 Form Sets), seen as the package's bytes.
pub struct Forms<'a> {
    ifr: &'a [u8],
    rules: RuleTable,
    index: Index,
}

impl<'a> Drop for Forms<'a> {
    fn drop(self) {
        let Forms {
            ifr: _,
            rules: _,
            index: _,
        } = self;
    }
}

impl<'a> Model for Forms<'a> {
    ghost use Rattle.std.specs.Prelude.{ℕ, List};
    ghost use Rattle.ifr_scopes.specs.code.ReadForms.{IsReadAs};

    ghost Value = { List ℕ };

    ghost view = { λ s. s.ifr.now };

    ghost invariant = { λ s. IsReadAs s.ifr.now s.rules s.index };
}

impl<'a> Forms<'a> {
    /// The form set of a package, or the least fault: of the framing (20 to 23), of a node by itself or an expression (24
    /// to 31), of nodes among each other (32, 33, 39, 40). Places are in bytes from the package's header. Where an
    /// allocation fails the fault is OutOfMemory (60) at 0.
    pub fn read(alloc: Global, source: Package<'a>) -> Result<Forms<'a>, Fault>
        ensures read { IfOk result (λ forms. forms ≡ source.entry.bytes.now) }
        ensures accepted { IfOk result IsAccepted }
        ensures refused { IfErr result (Refuses (IsPackageFault source.entry.bytes.now)) }
    {
        let ifr = source.bytes;
        check_framing(ifr)?;
        let Some(index) = index_of(alloc, ifr)? else {
            check_structure(ifr)?;
            // a package without a fault up to here has an index
            unreachable!()
        };
        let rules = rules_of(alloc, ifr, &index)?;
        Ok(Forms { ifr, rules, index })
    }

    /// The bytes of the package, which is accepted.
    pub fn bytes(&self) -> &'a [u8]
        ensures bytes { result.now ≡ self.now }
        ensures accepted { IsAccepted self.now }
    {
        self.ifr
    }

    /// The form set, which is the first node.
    pub fn formset(&self) -> FormSet<'a>
        ensures { (rest : List Placed) × (nodes_of self.now ≡ form_set_node result ∷ rest) }
    {
        let node = Nodes::over(self.ifr).step().unwrap();
        FormSet { node }
    }

    /// The stores of the package, which is accepted, by place.
    pub fn stores(&self) -> Varstores<'_, 'a>
        ensures stores { stores_left result ≡ filter is_store (nodes_of self.now) }
        ensures accepted { IsAccepted self.now }
    {
        Varstores {
            ifr: self.ifr,
            places: &self.index.stores,
        }
    }

    /// All guards of the package, which is accepted, by place.
    pub fn guards(&self) -> GuardViews<'_, 'a>
        ensures guards { all_guards_left result
            ≡ filter (λ n. is_guard (number n.op)) (nodes_of self.now) }
        ensures accepted { IsAccepted self.now }
    {
        GuardViews {
            ifr: self.ifr,
            guards: &self.index.guards,
        }
    }

    /// How many guards there are.
    pub fn guard_count(&self) -> usize
        ensures { result ≡ length (filter (λ n. is_guard (number n.op)) (nodes_of self.now)) }
    {
        self.index.guards.len()
    }

    /// The forms, by place.
    pub fn forms(&self) -> FormViews<'a>
        ensures { forms_left result ≡ filter is_form (nodes_of self.now) }
    {
        FormViews {
            nodes: Nodes::over(self.ifr),
        }
    }

    /// The form at a place, in bytes from the package's header, where one stands.
    pub fn form_at(&self, place: u32) -> Form<'a>
        requires { has_form self.now place ≡ true }
        ensures place { (form_node result).place ≡ place }
        ensures node { IsNodeOf self.now (form_node result) }
    {
        Form {
            node: node_at(self.ifr, place),
        }
    }

    /// The form of an id, found in a search.
    pub fn form(&self, id: u16) -> Option<Form<'a>>
        ensures { option_map form_node result ≡ form_with (nodes_of self.now) id }
    {
        let place = self.index.forms.find(id)?;
        Some(self.form_at(place))
    }

    /// The rules of all forms, by place.
    pub fn rules(&self) -> RuleViews<'_, 'a>
        ensures { rules_left result ≡ filter is_rule (nodes_of self.now) }
    {
        RuleViews {
            ifr: self.ifr,
            places: &self.index.rules,
        }
    }

    /// How many rules there are.
    pub fn rule_count(&self) -> usize
        ensures { result ≡ length (filter is_rule (nodes_of self.now)) }
    {
        self.index.rules.len()
    }

    // The node of the rule that a reference to an id at a place names, if there is one.
    fn node_named(&self, id: u8, place: u32) -> Option<Node<'a>>
        ensures ordered { AreOrdered (rules_of self.now) }
        ensures rule { IfSome result (λ node. is_rule (node_of node) ≡ true) }
        ensures named { option_map node_of result
            ≡ find (λ n. names id place (as_rule n)) (rule_nodes (nodes_of self.now)) }
    {
        let rule = self.rules.named(id, place)?;
        Some(node_at(self.ifr, rule.place))
    }

    /// The rule that a reference to an id names, if there is one. The place of the reference is in bytes from the
    /// package's header.
    pub fn rule_named(&self, id: u8, place: u32) -> Option<RuleView<'a>>
        ensures { option_map rule_node result
            ≡ find (λ n. names id place (as_rule n)) (rule_nodes (nodes_of self.now)) }
    {
        let node = self.node_named(id, place)?;
        Some(RuleView { node })
    }

    /// The statements of all forms, by place.
    pub fn statements(&self) -> AllStatements<'_, 'a>
        ensures { all_statements_left result ≡ filter is_statement (nodes_of self.now) }
    {
        AllStatements {
            ifr: self.ifr,
            entries: &self.index.entries,
            position: 0,
        }
    }

    /// How many questions there are.
    pub fn question_count(&self) -> usize
        ensures { result ≡ length (filter is_question (nodes_of self.now)) }
    {
        count_questions(&self.index.entries)
    }

    // How many forms, statements and options stand before these, which are the last of them.
    fn position_of(&self, kept: &[Entry]) -> u32
        requires { length kept.now ≤ length (entry_table (nodes_of self.now)) }
        ensures { result ≡ length (entry_table (nodes_of self.now)) - length kept.now }
    {
        (self.index.entries.len() - kept.len()) as u32
    }

    // What the index has behind a form, and how many stand before it.
    fn entries_from(&self, form: Form<'a>) -> (&[Entry], u32)
        ensures { result.0.now ≡ filter (λ e. nat_lt (form_node form.entry).place e.place)
            (entry_table (nodes_of self.now)) }
    {
        let entries = self.index.entries.as_slice();
        let kept = entries_behind(entries, form.place(), 0);
        (kept, (entries.len() - kept.len()) as u32)
    }

    /// The statements of a form, by place, the first of them found in one search. Each knows its position.
    pub fn statements_of(&self, form: Form<'a>) -> StatementsOf<'_, 'a>
        requires node { IsNodeOf self.now (form_node form) }
        ensures { statements_of_left result ≡ statements (form_node form.entry) }
    {
        let (kept, position) = self.entries_from(form);
        StatementsOf {
            ifr: self.ifr,
            kept,
            position,
        }
    }

    /// The statements of a form, by place, that may have a default: a DEFAULT stands in their scope, or a flag gives one. Two
    /// searches find where the form begins. Each knows its position.
    pub fn giving_statements_of(&self, form: Form<'a>) -> GivingStatements<'_, 'a>
        requires node { IsNodeOf self.now (form_node form) }
        ensures { giving_left result ≡ filter is_giving (statements (form_node form.entry)) }
    {
        let (kept, position) = self.entries_from(form);
        GivingStatements {
            ifr: self.ifr,
            kept,
            position,
            places: places_behind(&self.index.giving, form.place()),
        }
    }

    // The conditions behind a statement that opens a scope; none behind another.
    #[inline(always)]
    fn conditions_behind(&self, statement: Statement<'a>) -> &[ConditionEntry]
        ensures { result.now ≡ (if has_scope (statement_node statement.entry).op
            then filter (λ c. nat_lt (statement_node statement.entry).place c.place)
            (condition_table (nodes_of self.now))
            else []) }
    {
        let op = statement.op().op;
        if op.scope {
            conditions_behind(&self.index.conditions, op.place)
        } else {
            &[]
        }
    }

    // The same, with no search where they stand near a position.
    fn conditions_behind_near(&self, statement: Statement<'a>, near: usize) -> &[ConditionEntry]
        ensures { result.now ≡ (if has_scope (statement_node statement.entry).op
            then filter (λ c. nat_lt (statement_node statement.entry).place c.place)
            (condition_table (nodes_of self.now))
            else []) }
    {
        let op = statement.op().op;
        if op.scope {
            conditions_behind_near(&self.index.conditions, op.place, near)
        } else {
            &[]
        }
    }

    /// The conditions of a number that stand in the scope of the question that a statement is, by place, found in one search;
    /// none of a statement that is none.
    #[inline(always)]
    pub fn conditions_of(&self, statement: Statement<'a>, code: u8) -> ConditionsOf<'_, 'a>
        requires node { IsNodeOf self.now (statement_node statement) }
        requires condition { is_condition_number code ≡ true }
        ensures { conditions_of_left result
            ≡ of_question (λ n. number n.op == code) (statement_node statement.entry) }
    {
        ConditionsOf {
            ifr: self.ifr,
            kept: self.conditions_behind(statement),
            question: statement.place(),
            code,
        }
    }

    /// The same, with no search where they stand near a position.
    pub fn conditions_near(
        &self,
        statement: Statement<'a>,
        code: u8,
        near: usize,
    ) -> ConditionsOf<'_, 'a>
        requires node { IsNodeOf self.now (statement_node statement) }
        requires condition { is_condition_number code ≡ true }
        ensures { conditions_of_left result
            ≡ of_question (λ n. number n.op == code) (statement_node statement.entry) }
    {
        ConditionsOf {
            ifr: self.ifr,
            kept: self.conditions_behind_near(statement, near),
            question: statement.place(),
            code,
        }
    }

    /// Near which position conditions that were found stand.
    pub fn position_of_conditions(&self, conditions: &ConditionsOf<'_, 'a>) -> usize {
        self.index
            .conditions
            .len()
            .saturating_sub(conditions.kept.len())
    }

    /// All conditions, of any number, that stand in the scope of the question that a statement is, by place, found in one
    /// search; none of a statement that is none.
    pub fn conditions_in(&self, statement: Statement<'a>) -> ConditionsIn<'_, 'a>
        requires node { IsNodeOf self.now (statement_node statement) }
        ensures { conditions_in_left result
            ≡ of_question (λ n. is_condition_number (number n.op)) (statement_node statement.entry) }
    {
        ConditionsIn {
            ifr: self.ifr,
            kept: self.conditions_behind(statement),
            question: statement.place(),
        }
    }

    /// The guards that stand in the scope of the question that a statement is, as those around its options do, by place; none
    /// of a statement that is none. They are found in one search, and if there may be some the question is gone through for
    /// its end.
    pub fn guards_in(&self, statement: Statement<'a>) -> GuardsIn<'_, 'a>
        requires node { IsNodeOf self.now (statement_node statement) }
        ensures { guards_in_left result
            ≡ of_question (λ n. is_guard (number n.op)) (statement_node statement.entry) }
    {
        let guards = guards_behind(&self.index.guards, statement.place());
        GuardsIn {
            ifr: self.ifr,
            guards,
            ends: guards_end(self.ifr, statement.node, guards),
        }
    }

    // What the index has behind a statement that opens a scope; nothing behind another.
    fn entries_behind(&self, statement: Statement<'a>) -> &[Entry]
        ensures { result.now ≡ (if has_scope (statement_node statement.entry).op
            then filter (λ e. nat_lt (statement_node statement.entry).place e.place)
            (entry_table (nodes_of self.now))
            else []) }
    {
        let op = statement.op().op;
        if op.scope {
            entries_behind(&self.index.entries, op.place, statement.position())
        } else {
            &[]
        }
    }

    /// The options in the scope of the question that a statement is, by place, found with no search where the statement
    /// knows its position; none of a statement that is none. Each knows its position.
    pub fn options_of(&self, statement: Statement<'a>) -> OptionsOf<'_, 'a>
        requires node { IsNodeOf self.now (statement_node statement) }
        ensures { options_of_left result ≡ options (statement_node statement.entry) }
    {
        let kept = self.entries_behind(statement);
        OptionsOf {
            ifr: self.ifr,
            kept,
            position: self.position_of(kept),
        }
    }

    /// All conditions of questions of the package, which is accepted, by place.
    pub fn conditions(&self) -> AllConditions<'_, 'a>
        ensures conditions { all_conditions_left result
            ≡ filter (λ n. is_condition_number (number n.op)) (nodes_of self.now) }
        ensures accepted { IsAccepted self.now }
    {
        AllConditions {
            ifr: self.ifr,
            kept: &self.index.conditions,
        }
    }

    /// How many conditions of questions there are.
    pub fn condition_count(&self) -> usize
        ensures { result
            ≡ length (filter (λ n. is_condition_number (number n.op)) (nodes_of self.now)) }
    {
        self.index.conditions.len()
    }

    /// The NO_SUBMIT_IFs of all questions, by place, each with its guards.
    pub fn nosubmits(&self) -> NoSubmits<'_, 'a>
        ensures { no_submits_left result ≡ filter is_no_submit (nodes_of self.now) }
    {
        NoSubmits {
            ifr: self.ifr,
            guards: &self.index.guards,
            kept: &self.index.conditions,
        }
    }

    // What the index has of the form, statement or option at a place, which is looked for first at this position.
    fn entry_at(&self, place: u32, position: u32) -> Option<Entry>
        ensures { result
            ≡ option_map (kept_entry (nodes_of self.now)) (indexed_at (nodes_of self.now) place) }
    {
        entry_at(&self.index.entries, place, position)
    }

    /// What stands around the form, statement or option at a place, found in one search; nothing at any other place.
    pub fn around(&self, place: u32) -> Around<'_, 'a>
        ensures guards { around_guards result ≡ guards_of_indexed (nodes_of self.now) place }
        ensures lock { around_lock result ≡ lock_of_indexed (nodes_of self.now) place }
        ensures of_package { around_package result ≡ self.now }
    {
        self.around_at(place, 0)
    }

    /// The same, with no search where as many forms, statements and options stand before the place as the position says.
    #[inline(always)]
    pub fn around_at(&self, place: u32, position: u32) -> Around<'_, 'a>
        ensures guards { around_guards result ≡ guards_of_indexed (nodes_of self.now) place }
        ensures lock { around_lock result ≡ lock_of_indexed (nodes_of self.now) place }
        ensures of_package { around_package result ≡ self.now }
    {
        let entry = self.entry_at(place, position);
        Around {
            guards: GuardsOutward {
                ifr: self.ifr,
                guards: &self.index.guards,
                next: guard_number(entry),
            },
            lock: lock_place(entry),
        }
    }

    /// The guards of the form, statement or option at a place, the outermost first; none at any other place.
    pub fn guards_at(&self, place: u32) -> GuardsAt<'_, 'a>
        ensures guards { guards_left result ≡ guards_of_indexed (nodes_of self.now) place }
        ensures of_package { result.ifr.now ≡ self.now }
    {
        self.around(place).guards().outermost_first()
    }

    /// The condition of the opcode at a place, in bytes from the package's header, if it has one. It is looked for first where as many
    /// guards stand before it as the position says, and then, behind a search among the guards, where as many conditions of
    /// questions do. A position of 0 will do.
    pub fn condition_at(&self, place: u32, position: u32) -> Option<AnyCondition<'a>>
        ensures { option_map any_condition_node result ≡ conditional_at (nodes_of self.now) place }
    {
        if let Some(guard) = guard_at(&self.index.guards, place, position) {
            return Some(AnyCondition::Guard(Guard::kept(self.ifr, guard)));
        }
        let condition = condition_at(&self.index.conditions, place, position)?;
        Some(AnyCondition::Question(ConditionView::kept(self.ifr, condition)))
    }
}

impl<'a> Rules<'a> for Forms<'a> {
    ghost rules = { λ forms. rules_of forms };

    fn rule(&self, id: u8, place: u32) -> Option<Expr<'a>> {
        let node = self.node_named(id, place)?;
        Some(expression_of(node))
    }
}

impl<'a> NumberedRules<'a> for Forms<'a> {
    fn rule_number(&self, id: u8, place: u32) -> Option<usize> {
        let node = self.node_named(id, place)?;
        number_of(&self.index.rules, node.op().place)
    }
}
