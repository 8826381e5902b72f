//! How the dependents of a package are collected: the conditions that are kept and the rules, by place, with their values and
//! what each names.
//!
//! This is done once, as a session opens. The package has lists of its guards, conditions and rules, and finds a question and a
//! rule by its id: so the cost is that of a walk over the expressions, each of which is read once for what it names.

ghost use Rattle.std.specs.Prelude.{◌≡◌, ◌<◌, ◌≤◌, length, map, option_map, ◌+◌, drop, filter, ◌++◌, IfOk, ◌∷◌, ℕ, List, [], true, OnOk, Some};
ghost use Rattle.ifr_opcodes.specs.Forest.{Node};
ghost use Rattle.ifr_expr.specs.Dependence.{own, rule_ids};
ghost use Rattle.ifr_nodes.specs.Accepted.{IsAccepted};
ghost use Rattle.ifr_nodes.specs.code.Checked.{IsAccepted-prop};
ghost use Rattle.ifr_nodes.specs.Nodes.{nodes_of, is_no_submit, end_of};
ghost use Rattle.ifr_nodes.specs.Rules.{is_rule, rules_among};
ghost use Rattle.ifr_scopes.specs.code.Lists.{rules_left};
ghost use Rattle.ifr_scopes.specs.code.Frames.{ids_by};
ghost use Rattle.hii_questions.specs.code.Entries.{entry_range};
ghost use Rattle.hii_questions.specs.code.Ranges.{range_in};
ghost use Rattle.guard_policy.specs.code.RuleValues.{AreRuleValues};
ghost use Rattle.guard_policy.specs.code.Views.{bytes_of, world};
ghost use Rattle.guard_policy.specs.code.Worlds.{is_met_at};
ghost use Rattle.kept_conditions.specs.Touching.{field_with as field_with_id};
ghost use Rattle.kept_conditions.specs.code.Collection.{dependent_nodes, IsExpressionOf, dependent_node, is_kept_guard, Adds, IsBefore, dependency_ids, AreCollected};

use crate::dependents::Dependent;
use crate::index::{Dependency, RuleUse};
use guard_policy::{Evaluated, Policy};
use hii_questions::{FieldEntry, Questions};
use hii_varstore::Stores;
use ifr_expr::{Expr, Name, RuleReference, RuleValues};
use ifr_opcodes::{GRAY_OUT_IF, SUPPRESS_IF};
use ifr_scopes::{AnyCondition, Forms, GuardViews, RuleViews};
use std::alloc::{AllocError, Global};

/// A package, which is accepted, its questions, and the places of its dependents.
#[derive(Clone, Copy)]
pub(crate) struct Source<'p, 's, 'a> {
    pub(crate) forms: &'s Forms<'a>,
    pub(crate) questions: &'s Questions<'a>,
    pub(crate) places: &'p [u32],
    pub ghost accepted: { IsAccepted forms.now } by { IsAccepted-prop forms.now },
    pub ghost together: { questions.now.ifr ≡ forms.now },
    pub ghost placed: { places.now
        ≡ map (λ (n : Node). n.place) (dependent_nodes (nodes_of forms.now)) },
}

impl<'p, 's, 'a> Source<'p, 's, 'a> {
    ghost use Rattle.std.specs.Prelude.{Contains};

    // The field of the question of an id, if there is one.
    fn field_with(self, id: u16) -> Option<FieldEntry>
        ensures { option_map range_in (option_map entry_range result)
            ≡ field_with_id (nodes_of self.entry.forms.now) id }
    {
        self.questions.field_of(id)
    }

    // The place of the dependent of a number.
    fn place_of(self, number: usize) -> u32
        requires { number < length (dependent_nodes (nodes_of self.forms.now)) }
        ensures place { result ≡ (dependent_node (nodes_of self.entry.forms.now) number).place }
        // There is at most one dependent at each place.
        ensures high { number ≤ result }
    {
        self.places[number]
    }

    // The number of the dependent at a place.
    fn number_of(self, place: u32) -> u32
        requires { Contains self.places.now place }
        ensures within { result < length (dependent_nodes (nodes_of self.entry.forms.now)) }
        ensures there { (dependent_node (nodes_of self.entry.forms.now) result).place ≡ place }
    {
        let Ok(number) = self.places.binary_search(&place) else {
            unreachable!()
        };
        number as u32
    }
}

/// The guards of a package that are left behind those that were passed. It serves to spare searches, and nothing rests on it.
#[derive(Drop)]
pub(crate) struct PassedGuards<'s, 'a> {
    left: GuardViews<'s, 'a>,
    // How many were passed.
    count: u32,
}

impl<'s, 'a> PassedGuards<'s, 'a> {
    // All guards of a package are left.
    fn none(forms: &'s Forms<'a>) -> PassedGuards<'s, 'a> {
        PassedGuards {
            left: forms.guards(),
            count: 0,
        }
    }

    // Passes the guards up to the one at a place, and tells how many stand before that.
    fn pass(&mut self, place: u32) -> u32 {
        while let Some(guard) = self.left.next() {
            let before = self.count;
            self.count = before.saturating_add(1);
            if guard.place() == place {
                return before;
            }
        }
        0
    }

    // How many guards, or conditions of questions, stand before a condition.
    fn position_of(&mut self, condition: AnyCondition<'a>) -> u32 {
        match condition {
            AnyCondition::Guard(guard) => self.pass(guard.place()),
            AnyCondition::Question(condition) => condition.number().unwrap_or(0),
        }
    }
}

/// The expression of a dependent.
#[derive(Clone, Copy)]
pub(crate) struct DependentExpression<'a> {
    pub(crate) expression: Expr<'a>,
    /// The id of the question in whose scope it stands, or 0.
    pub(crate) this: u16,
    /// Whether it is that of a rule.
    pub(crate) is_rule: bool,
    /// How many guards, or conditions of questions, stand before a condition.
    pub(crate) position: u32,
}

// The expression of the dependent of a number, where the rules are left that do not stand before it.
fn expression_of<'a>(
    source: Source<'_, '_, 'a>,
    rules: &mut RuleViews<'_, 'a>,
    guards: &mut PassedGuards<'_, 'a>,
    number: usize,
) -> DependentExpression<'a>
    requires inside { number < length (dependent_nodes (nodes_of source.forms.now)) }
    requires left { rules_left rules.old
        ≡ filter is_rule (drop number (dependent_nodes (nodes_of source.forms.now))) }
    ensures is { IsExpressionOf (dependent_node (nodes_of source.entry.forms.now) number) result }
    ensures left { rules_left rules.new
        ≡ filter is_rule (drop (number + 1) (dependent_nodes (nodes_of source.entry.forms.now))) }
{
    let passed = guards.count;
    if let Some(condition) = source.forms.condition_at(source.place_of(number), passed) {
        return DependentExpression {
            expression: condition.condition(),
            this: condition.this(),
            is_rule: false,
            position: guards.position_of(condition),
        };
    }
    let rule = rules.next().unwrap();
    DependentExpression {
        expression: rule.expression(),
        this: 0,
        is_rule: true,
        position: 0,
    }
}

// Adds the places of SUPPRESS_IFs and GRAY_OUT_IFs.
fn add_guards(places: &mut Vec<u32>, forms: &Forms<'_>) -> Result<(), AllocError>
    ensures { IfOk result (λ done.
        places.new.items ≡ places.old.items ++ map (λ (n : Node). n.place)
        (filter is_kept_guard (nodes_of forms.now))) }
{
    let mut guards = forms.guards();
    while let Some(guard) = guards.next() {
        let code = guard.code();
        if code == SUPPRESS_IF || code == GRAY_OUT_IF {
            places.push(guard.place())?;
        }
    }
    Ok(())
}

// Adds the places of NO_SUBMIT_IFs.
fn add_no_submits(places: &mut Vec<u32>, forms: &Forms<'_>) -> Result<(), AllocError>
    ensures { IfOk result (λ done.
        places.new.items ≡ places.old.items ++ map (λ (n : Node). n.place)
        (filter is_no_submit (nodes_of forms.now))) }
{
    let mut conditions = forms.nosubmits();
    while let Some(nosubmit) = conditions.next() {
        places.push(nosubmit.condition.place())?;
    }
    Ok(())
}

// Adds the places of rules.
fn add_rules(places: &mut Vec<u32>, forms: &Forms<'_>) -> Result<(), AllocError>
    ensures { IfOk result (λ done.
        places.new.items ≡ places.old.items ++ map (λ (n : Node). n.place)
        (filter is_rule (nodes_of forms.now))) }
{
    let mut rules = forms.rules();
    while let Some(rule) = rules.next() {
        places.push(rule.place())?;
    }
    Ok(())
}

// The places of the conditions that are kept and of the rules, which rise.
fn dependent_places(alloc: Global, forms: &Forms<'_>) -> Result<Vec<u32>, AllocError>
    requires { IsAccepted forms.now }
    ensures { IfOk result (λ places.
        places.items ≡ map (λ (n : Node). n.place) (dependent_nodes (nodes_of forms.now))) }
{
    let mut places = Vec::new(alloc);
    add_guards(&mut places, forms)?;
    add_no_submits(&mut places, forms)?;
    add_rules(&mut places, forms)?;
    places.sort_unstable();
    Ok(places)
}

/// The dependents of a package, and on what they depend.
#[derive(Drop)]
pub(crate) struct Collected {
    pub(crate) list: Vec<Dependent>,
    pub(crate) dependencies: Vec<Dependency>,
    pub(crate) rule_uses: Vec<RuleUse>,
}

impl Collected {
    // Adds that a dependent depends on a field: that of the question of an id that it names.
    fn add_dependency(&mut self, number: u32, field: FieldEntry) -> Result<(), AllocError>
        ensures { OnOk result ((ns : List Node) (id : ℕ) → number < length (dependent_nodes ns)
            → field_with_id ns id ≡ Some (range_in (entry_range field))
            → Adds ns number (id ∷ []) self.old self.new) }
    {
        self.dependencies.push(Dependency {
            field,
            dependent: number,
        })?;
        Ok(())
    }

    // Adds that a dependent depends on the question of an id.
    fn add_question(
        &mut self,
        number: u32,
        id: u16,
        source: Source<'_, '_, '_>,
    ) -> Result<(), AllocError>
        requires { number < length (dependent_nodes (nodes_of source.forms.now)) }
        ensures { OnOk result (Adds (nodes_of source.entry.forms.now) number (id ∷ [])
            self.old self.new) }
    {
        if let Some(field) = source.field_with(id) {
            self.add_dependency(number, field)?;
        }
        Ok(())
    }

    // Adds that a dependent depends on the question in whose scope it stands.
    fn add_this(
        &mut self,
        number: u32,
        this: u16,
        source: Source<'_, '_, '_>,
    ) -> Result<(), AllocError>
        requires { number < length (dependent_nodes (nodes_of source.forms.now)) }
        ensures { OnOk result (Adds (nodes_of source.entry.forms.now) number (own this)
            self.old self.new) }
    {
        if this == 0 {
            return Ok(());
        }
        self.add_question(number, this, source)
    }

    // Adds that a dependent uses a rule.
    fn add_rule(
        &mut self,
        number: u32,
        reference: RuleReference,
        source: Source<'_, '_, '_>,
    ) -> Result<(), AllocError>
        requires inside { number < length (dependent_nodes (nodes_of source.forms.now)) }
        requires before { is_rule (dependent_node (nodes_of source.forms.now) number) ≡ true
            → reference.place < end_of (dependent_node (nodes_of source.forms.now) number) }
        ensures { OnOk result (Adds (nodes_of source.entry.forms.now) number
            (rule_ids (rules_among (nodes_of source.entry.forms.now)) reference.id reference.place)
            self.old self.new) }
    {
        if let Some(rule) = source.forms.rule_named(reference.id, reference.place) {
            self.rule_uses.push(RuleUse {
                rule: source.number_of(rule.place()),
                dependent: number,
            })?;
        }
        Ok(())
    }

    // Adds that a dependent depends on what a name stands for. It stands in the scope of the question of an id, or of 0 for none.
    fn add_name(
        &mut self,
        number: u32,
        this: u16,
        name: Name,
        source: Source<'_, '_, '_>,
    ) -> Result<(), AllocError>
        requires inside { number < length (dependent_nodes (nodes_of source.forms.now)) }
        requires before { is_rule (dependent_node (nodes_of source.forms.now) number) ≡ true
            → IsBefore (end_of (dependent_node (nodes_of source.forms.now) number)) name }
        ensures { OnOk result (Adds (nodes_of source.entry.forms.now) number
            (ids_by (rules_among (nodes_of source.entry.forms.now)) this name) self.old self.new) }
    {
        match name {
            Name::Question(id) => self.add_question(number, id, source),
            Name::This => self.add_this(number, this, source),
            Name::Rule(reference) => self.add_rule(number, reference, source),
        }
    }

    // Adds that a dependent depends on what its expression names.
    fn add_names(
        &mut self,
        number: u32,
        dependent: DependentExpression<'_>,
        source: Source<'_, '_, '_>,
    ) -> Result<(), AllocError>
        requires inside { number < length (dependent_nodes (nodes_of source.forms.now)) }
        requires is { IsExpressionOf (dependent_node (nodes_of source.forms.now) number) dependent }
        ensures { OnOk result (Adds (nodes_of source.entry.forms.now) number
            (dependency_ids (nodes_of source.entry.forms.now)
            (dependent_node (nodes_of source.entry.forms.now) number)) self.old self.new) }
    {
        let mut names = dependent.expression.names();
        while let Some(name) = names.next() {
            self.add_name(number, dependent.this, name, source)?;
        }
        Ok(())
    }
}

// Adds the dependent of a number, and on what it depends.
fn add_dependent<'a>(
    collected: &mut Collected,
    source: Source<'_, '_, 'a>,
    rules: &mut RuleViews<'_, 'a>,
    guards: &mut PassedGuards<'_, 'a>,
    number: usize,
    now: &Evaluated<'_, 'a, '_>,
    values: &mut RuleValues,
) -> Result<(), AllocError>
    requires inside { number < length (dependent_nodes (nodes_of source.forms.now)) }
    requires together { bytes_of now.now.policy ≡ source.forms.now }
    requires left { rules_left rules.old
        ≡ filter is_rule (drop number (dependent_nodes (nodes_of source.forms.now))) }
    requires before { AreCollected (nodes_of source.forms.now)
        (is_met_at (world now.now.policy now.now.stores.now)) number collected.old }
    requires kept { AreRuleValues (bytes_of now.now.policy) now.now.stores.now values.old }
    ensures left { OnOk result (rules_left rules.new
        ≡ filter is_rule (drop (number + 1) (dependent_nodes (nodes_of source.entry.forms.now)))) }
    ensures collected { OnOk result (AreCollected (nodes_of source.entry.forms.now)
        (is_met_at (world now.now.policy now.now.stores.now)) (number + 1) collected.new) }
    ensures kept { OnOk result
        (AreRuleValues (bytes_of now.now.policy) now.now.stores.now values.new) }
{
    let dependent = expression_of(source, rules, guards, number);
    let place = source.place_of(number);
    collected.add_names(number as u32, dependent, source)?;
    let holds = !dependent.is_rule
        && now.expression_holds_by(dependent.expression, dependent.this, values);
    collected.list.push(Dependent {
        place,
        round: 0,
        is_rule: dependent.is_rule,
        holds,
    })?;
    Ok(())
}

/// The dependents of a package by place, the conditions with their values over some stores, and on what they depend; and the places
/// of the dependents.
pub(crate) fn collect<'a, 's>(
    alloc: Global,
    policy: Policy<'a, 's>,
    questions: &'s Questions<'a>,
    stores: &Stores,
    values: &mut RuleValues,
) -> Result<(Collected, Vec<u32>), AllocError>
    requires together { questions.now.ifr ≡ bytes_of policy }
    requires kept { AreRuleValues (bytes_of policy) stores.now values.old }
    ensures collected { IfOk result (λ it.
        AreCollected (nodes_of (bytes_of policy.entry)) (is_met_at (world policy.entry stores.now))
        (length (dependent_nodes (nodes_of (bytes_of policy.entry)))) it.0) }
    ensures kept { OnOk result (AreRuleValues (bytes_of policy.entry) stores.now values.new) }
{
    let forms = policy.forms();
    let places = dependent_places(alloc, forms)?;
    let source = Source {
        forms,
        questions,
        places: &places,
    };
    let mut collected = Collected {
        list: Vec::with_capacity(alloc, places.len())?,
        dependencies: Vec::new(alloc),
        rule_uses: Vec::new(alloc),
    };
    let now = policy.over(stores);
    let mut rules = forms.rules();
    let mut guards = PassedGuards::none(forms);
    for number in 0..places.len() {
        add_dependent(
            &mut collected,
            source,
            &mut rules,
            &mut guards,
            number,
            &now,
            values,
        )?;
    }
    Ok((collected, places))
}
