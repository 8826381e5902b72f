//! The dependents of a package: the conditions that are kept and the rules, by place.
//!
//! A write begins a round, in which each dependent is visited once at most: it keeps the number of the round, so that all are
//! cleared before one write in 65,535 alone. A visit evaluates a condition; a rule is pending until its dependents are visited.
//! The numbers of dependents are at hand for guards and for conditions of questions: who asks for a value finds it by one look-up.

ghost use Rattle.std.specs.Prelude.{◌≡◌, ◌<◌, ◌≤◌, ◌&&◌, ℕ, [], IfOk, length, map, ◌+◌, drop, filter, false};
ghost use Rattle.std.specs.Vec.{vec_capacity};
ghost use Rattle.hii_bytes.specs.code.FirstFaults.{Rise};
ghost use Rattle.ifr_opcodes.specs.Forest.{Node};
ghost use Rattle.ifr_opcodes.specs.Opcode.{number};
ghost use Rattle.ifr_nodes.specs.Guards.{guards_among};
ghost use Rattle.ifr_opcodes.specs.Rows.{is_condition_number};
ghost use Rattle.ifr_nodes.specs.Nodes.{nodes_of};
ghost use Rattle.guard_policy.specs.code.RuleValues.{AreRuleValues};
ghost use Rattle.guard_policy.specs.code.Views.{bytes_of, world};
ghost use Rattle.guard_policy.specs.code.Worlds.{is_met_at};
ghost use Rattle.kept_conditions.specs.code.Dependents.{AreBefore, HasRoom, VisitsOne, at_number, is_condition, rules_in, timeless, passed, AreRuleUses, Follow, VisitsSome, KeepsFollowing, KeepsSound, Reaches};
ghost use Rattle.kept_conditions.specs.code.Index.{RulesRise, uses};
ghost use Rattle.kept_conditions.specs.declared.dependents.Dependent.{Dependent};

use crate::index::{RuleUse, uses_of};
use guard_policy::{Evaluated, Policy};
use ifr_expr::RuleValues;
use ifr_scopes::Forms;
use std::alloc::{AllocError, Global};

/// A condition that is kept, or a rule.
#[derive(Clone, Copy, Default)]
pub(crate) struct Dependent {
    /// Where its opcode stands, in bytes from the header of the forms package.
    pub(crate) place: u32,
    /// The number of the write after which it was visited last.
    pub(crate) round: u16,
    /// Whether it is a rule.
    pub(crate) is_rule: bool,
    /// Whether the condition holds.
    pub(crate) holds: bool,
}

impl Dependent {
    /// Whether it is a condition that holds.
    pub(crate) fn condition_holds(self) -> bool
        ensures { result ≡ (is_condition self && self.holds) }
    {
        !self.is_rule && self.holds
    }
}

/// Dependents by place, and which of them were visited after the last write. Each has its number, the place in the list.
#[derive(Drop)]
pub(crate) struct Dependents {
    pub(crate) list: Vec<Dependent>,
    /// For each of them how many guards of the package, or conditions of questions, stand before it. This may spare a search, and
    /// nothing rests on it.
    pub(crate) positions: Vec<u32>,
    /// The number of the last write.
    pub(crate) round: u16,
    /// The rules that were visited after it, and their dependents not yet. There is room for all rules.
    pub(crate) pending: Vec<u32>,
}

// How many rules there are among dependents.
fn count_rules(list: &[Dependent]) -> usize
    ensures { result ≡ rules_in list.now }
{
    let mut count = 0;
    for dependent in list {
        if dependent.is_rule {
            count += 1;
        }
    }
    count
}

// Forgets when dependents were visited.
fn forget_rounds(list: &mut [Dependent])
    ensures rounds { (k : ℕ) → k < length list.old → (at_number list.new k).round ≡ 0 }
    ensures same { map timeless list.new ≡ map timeless list.old }
{
    for dependent in list.iter_mut() {
        dependent.round = 0;
    }
}

impl Dependents {
    /// Some dependents, of which none was visited yet.
    pub(crate) fn over(
        alloc: Global,
        list: Vec<Dependent>,
        positions: Vec<u32>,
    ) -> Result<Dependents, AllocError>
        ensures list { IfOk result (λ dependents. dependents.list.items ≡ list.items) }
        ensures round { IfOk result (λ dependents. dependents.round ≡ 0) }
        ensures idle { IfOk result (λ dependents. dependents.pending.items ≡ []) }
        ensures room { IfOk result
            (λ dependents. rules_in list.items ≤ vec_capacity dependents.pending) }
    {
        let pending = Vec::with_capacity(alloc, count_rules(&list))?;
        Ok(Dependents {
            list,
            positions,
            round: 0,
            pending,
        })
    }

    /// The next round, in which no dependent was visited yet.
    pub(crate) fn next_round(&mut self)
        requires { (k : ℕ) → k < length self.old.list.items
            → (at_number self.old.list.items k).round ≤ self.old.round }
        ensures before { AreBefore self.new.round self.new.list.items }
        ensures same { map timeless self.new.list.items ≡ map timeless self.old.list.items }
        ensures pending { self.new.pending ≡ self.old.pending }
    {
        match self.round.checked_add(1) {
            Some(next) => self.round = next,
            None => {
                forget_rounds(&mut self.list);
                self.round = 1;
            }
        }
    }

    // How many guards, or conditions of questions, stand before the dependent of a number, if that is kept.
    fn position_of(&self, number: u32) -> u32 {
        match self.positions.get(number as usize) {
            Some(position) => *position,
            None => 0,
        }
    }

    /// Visits the dependent of a number, where this was not done in the round: evaluates a condition anew, the one place that
    /// does so, and makes a rule pending. It tells whether it evaluated.
    #[tactic(auto, using(crate::proofs::VisitsOneLemmas::room_for))]
    pub(crate) fn visit(
        &mut self,
        number: u32,
        now: &Evaluated<'_, '_, '_>,
        rules: &mut RuleValues,
    ) -> bool
        requires inside { number < length self.old.list.items }
        requires room { HasRoom self.old }
        requires kept { AreRuleValues (bytes_of now.now.policy) now.now.stores.now rules.old }
        ensures visits { VisitsOne (is_met_at (world now.now.policy now.now.stores.now)) number
            self.old self.new result }
        ensures kept { AreRuleValues (bytes_of now.now.policy) now.now.stores.now rules.new }
    {
        let mut dependent = self.list[number as usize];
        if dependent.round == self.round {
            return false;
        }
        dependent.round = self.round;
        if dependent.is_rule {
            self.list[number as usize] = dependent;
            self.pending.push_reserved(number);
            return false;
        }
        dependent.holds = now.holds_by(dependent.place, self.position_of(number), rules);
        self.list[number as usize] = dependent;
        true
    }
}

// Visits the dependents of a rule, and counts the conditions that it evaluates.
fn visit_dependents(
    dependents: &mut Dependents,
    rule_uses: &[RuleUse],
    rule: u32,
    now: &Evaluated<'_, '_, '_>,
    rules: &mut RuleValues,
) -> usize
    requires sorted { RulesRise rule_uses.now }
    requires are_uses { AreRuleUses dependents.old.list.items rule_uses.now }
    requires room { HasRoom dependents.old }
    requires kept { AreRuleValues (bytes_of now.now.policy) now.now.stores.now rules.old }
    ensures visits { VisitsSome (is_met_at (world now.now.policy now.now.stores.now)) dependents.old
        dependents.new result }
    ensures kept { AreRuleValues (bytes_of now.now.policy) now.now.stores.now rules.new }
    ensures reaches { Reaches (uses rule_uses.now rule) dependents.old dependents.new }
    ensures follows { KeepsFollowing dependents.old dependents.new }
{
    let mut count = 0;
    for rule_use in uses_of(rule_uses, rule) {
        if dependents.visit(rule_use.dependent, now, rules) {
            count += 1;
        }
    }
    count
}

/// Visits the dependents of pending rules, and of those that are pending then, until none is, and counts the conditions that it
/// evaluates.
#[inline(always)]
pub(crate) fn visit_pending(
    dependents: &mut Dependents,
    rule_uses: &[RuleUse],
    now: &Evaluated<'_, '_, '_>,
    rules: &mut RuleValues,
) -> usize
    requires sorted { RulesRise rule_uses.now }
    requires are_uses { AreRuleUses dependents.old.list.items rule_uses.now }
    requires room { HasRoom dependents.old }
    requires follow { Follow (λ _. false) rule_uses.now dependents.old }
    requires kept { AreRuleValues (bytes_of now.now.policy) now.now.stores.now rules.old }
    ensures visits { VisitsSome (is_met_at (world now.now.policy now.now.stores.now)) dependents.old
        dependents.new result }
    ensures kept { AreRuleValues (bytes_of now.now.policy) now.now.stores.now rules.new }
    ensures idle { dependents.new.pending.items ≡ [] }
    ensures follow { Follow (λ _. false) rule_uses.now dependents.new }
    ensures sound { KeepsSound rule_uses.now dependents.old dependents.new }
{
    let mut count = 0;
    while let Some(rule) = dependents.pending.pop() {
        count += visit_dependents(dependents, rule_uses, rule, now, rules);
    }
    count
}

// ---- by the numbers of guards and conditions

// The number of the first dependent, from this one on, that does not stand before a place.
fn first_from(dependents: &[Dependent], from: usize, place: u32) -> usize
    requires { from ≤ length dependents.now }
    ensures { result ≡ from + passed place (drop from dependents.now) }
{
    let mut next = from;
    while next < dependents.len() && dependents[next].place < place {
        next += 1;
    }
    next
}

// Puts for each of these places the number of the first dependent that does not stand before it.
fn number_dependents(places: &mut [u32], dependents: &[Dependent])
    requires dependents { Rise (λ (r : Dependent). r.place) 0 dependents.now }
    requires places { Rise (λ (p : ℕ). p) 0 places.old }
    ensures { places.new ≡ map (λ p. passed p dependents.now) places.old }
{
    let mut next = 0;
    for place in places.iter_mut() {
        next = first_from(dependents, next, *place);
        *place = next as u32;
    }
}

/// For each guard of the package, by its number, the number of the first dependent that does not stand before it: its own, where
/// its condition is kept.
pub(crate) fn guard_dependents(
    alloc: Global,
    policy: Policy<'_, '_>,
    dependents: &[Dependent],
) -> Result<Vec<u32>, AllocError>
    requires { Rise (λ (r : Dependent). r.place) 0 dependents.now }
    ensures { IfOk result (λ numbers.
        numbers.items ≡ map (λ (n : Node). passed n.place dependents.now)
        (guards_among (nodes_of (bytes_of policy.entry)))) }
{
    let forms = policy.forms();
    let mut numbers = Vec::with_capacity(alloc, forms.guard_count())?;
    let mut guards = forms.guards();
    while let Some(guard) = guards.next() {
        numbers.push(guard.place())?;
    }
    number_dependents(&mut numbers, dependents);
    Ok(numbers)
}

/// The same for each condition of a question.
pub(crate) fn condition_dependents(
    alloc: Global,
    policy: Policy<'_, '_>,
    dependents: &[Dependent],
) -> Result<Vec<u32>, AllocError>
    requires { Rise (λ (r : Dependent). r.place) 0 dependents.now }
    ensures { IfOk result (λ numbers.
        numbers.items ≡ map (λ (n : Node). passed n.place dependents.now)
        (filter (λ n. is_condition_number (number n.op)) (nodes_of (bytes_of policy.entry)))) }
{
    let forms = policy.forms();
    let mut numbers = Vec::with_capacity(alloc, forms.condition_count())?;
    let mut conditions = forms.conditions();
    while let Some(condition) = conditions.next() {
        numbers.push(condition.place())?;
    }
    number_dependents(&mut numbers, dependents);
    Ok(numbers)
}

// ---- how many stand before each

// Puts a position for the dependent of a number, where that is the one at a place.
fn put_position(
    positions: &mut [u32],
    dependents: &[Dependent],
    number: u32,
    place: u32,
    position: u32,
) {
    let at = number as usize;
    if at < positions.len() && at < dependents.len() && dependents[at].place == place {
        positions[at] = position;
    }
}

// Puts how many guards stand before each dependent that is one. For each guard this tells the number of its dependent.
fn put_guards(
    positions: &mut [u32],
    forms: &Forms<'_>,
    dependents: &[Dependent],
    guard_dependents: &[u32],
) {
    let mut guards = forms.guards();
    let mut before = 0u32;
    for number in guard_dependents {
        let Some(guard) = guards.next() else {
            return;
        };
        put_position(positions, dependents, *number, guard.place(), before);
        before = before.wrapping_add(1);
    }
}

// Puts how many conditions of questions stand before each dependent that is one. For each of them this tells the number of its
// dependent.
fn put_conditions(
    positions: &mut [u32],
    forms: &Forms<'_>,
    dependents: &[Dependent],
    condition_dependents: &[u32],
) {
    let mut conditions = forms.conditions();
    let mut before = 0u32;
    for number in condition_dependents {
        let Some(condition) = conditions.next() else {
            return;
        };
        put_position(positions, dependents, *number, condition.place(), before);
        before = before.wrapping_add(1);
    }
}

/// Puts for each dependent how many guards, or conditions of questions, stand before it. These tell the numbers of the dependents of
/// guards and of conditions. It serves to spare searches, and nothing rests on it.
pub(crate) fn put_positions(
    positions: &mut [u32],
    forms: &Forms<'_>,
    dependents: &[Dependent],
    guard_dependents: &[u32],
    condition_dependents: &[u32],
) {
    for position in positions.iter_mut() {
        *position = 0;
    }
    put_guards(positions, forms, dependents, guard_dependents);
    put_conditions(positions, forms, dependents, condition_dependents);
}
