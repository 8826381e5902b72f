//! The cache of conditions: the stores of a session, and the values of the conditions that are kept over them.
//!
//! Values are computed once, at opening, and renewed by writes alone: a page, and a decision whether a question may be seen or
//! changed, looks up a value for each guard and evaluates no expression. Only calls of `KeptStores` write the stores, so that
//! the values are at all times those over them.

ghost use Rattle.std.specs.Iterator.{YieldsFirstBy};
ghost use Rattle.std.specs.Prelude.{◌≡◌, ◌&&◌, true, IfOk, IfErr, IfSome, OnOk, ℕ, Some};
ghost use Rattle.hii_bytes.specs.Faults.{out_of_memory};
ghost use Rattle.ifr_opcodes.specs.Opcode.{has_scope};
ghost use Rattle.ifr_nodes.specs.Nodes.{nodes_of};
ghost use Rattle.ifr_nodes.specs.code.Checked.{IsNodeOf};
ghost use Rattle.hii_varstore.specs.Stores.{StoreMap, shape_of, byte_of, bytes_of_field};
ghost use Rattle.hii_varstore.specs.code.Ranges.{HasRange};
ghost use Rattle.hii_varstore.specs.code.Table.{AreBuffers};
ghost use Rattle.hii_questions.specs.code.Views.{question_node};
ghost use Rattle.guard_policy.specs.code.RuleValues.{AreRuleValues};
ghost use Rattle.guard_policy.specs.code.Views.{bytes_of, world};
ghost use Rattle.guard_policy.specs.code.WarningsLeft.{warnings_among};
ghost use Rattle.kept_conditions.specs.Touching.{difference, range_of, renewals};
ghost use Rattle.kept_conditions.specs.Kept.{held, kept_over, changed_to};
ghost use Rattle.kept_conditions.specs.laws.Writes.{IsWrite};
ghost use Rattle.kept_conditions.specs.code.Invalidation.{HaveRanges, AreAlike, AreAlikeOutside};
ghost use Rattle.kept_conditions.specs.code.Dependents.{is_condition};
ghost use Rattle.kept_conditions.specs.code.Cache.{SetsField};

use crate::collection::collect;
use crate::dependents::{Dependents, condition_dependents, guard_dependents, put_positions};
use crate::index::{Index, index_over};
use crate::invalidation::{Ranges, renew, renew_between, renew_within};
use guard_policy::{Conditions, Denial, Policy, Warning};
use hii_bytes::Fault;
use hii_questions::{Field, FieldRange, Question, Questions};
use hii_varstore::Stores;
use ifr_expr::RuleValues;
use ifr_scopes::ConditionsOf;
use std::alloc::Global;
use std::marker::Model;
use std::mem;

/// Whether the conditions of the SUPPRESS_IFs, GRAY_OUT_IFs and NO_SUBMIT_IFs of a package hold over some stores, kept by their
/// places, with the bytes of stores on which each depends. What a rule depends on is kept once, for all that use it.
pub struct Kept<'a> {
    ifr: &'a [u8],
    dependents: Dependents,
    index: Index,
    // For each guard by its number, the number of its dependent, where its condition is kept.
    guard_dependents: Vec<u32>,
    // The same for each condition of a question.
    condition_dependents: Vec<u32>,
}

impl<'a> Drop for Kept<'a> {
    fn drop(self) {
        let Kept {
            ifr: _,
            dependents: _,
            index: _,
            guard_dependents: _,
            condition_dependents: _,
        } = self;
    }
}

impl<'a> Model for Kept<'a> {
    ghost use Rattle.kept_conditions.specs.Kept.{KeptValues};
    ghost use Rattle.kept_conditions.specs.code.Cache.{values_of, IsIndex};

    ghost Value = { KeptValues };

    ghost view = { λ k. record { ifr = k.ifr.now; values = values_of k.dependents } };

    ghost invariant = { λ k. IsIndex k.ifr.now k.dependents k.index };
}

impl<'a> Kept<'a> {
    /// What is kept of a package's conditions over some stores. Want of memory is OutOfMemory (60) at 0, and there is no other
    /// fault. Policy and questions are those of the package.
    pub(crate) fn read(
        alloc: Global,
        policy: Policy<'a, '_>,
        questions: &Questions<'a>,
        stores: &Stores,
        rules: &mut RuleValues,
    ) -> Result<Kept<'a>, Fault>
        requires together { questions.now.ifr ≡ bytes_of policy }
        requires values { AreRuleValues (bytes_of policy) stores.now rules.old }
        ensures kept { IfOk result (λ kept. kept ≡ kept_over (bytes_of policy.entry) stores.now) }
        ensures values { OnOk result (AreRuleValues (bytes_of policy.entry) stores.now rules.new) }
        ensures refused { IfErr result (λ fault. fault ≡ out_of_memory) }
    {
        let (collected, places) = collect(alloc, policy, questions, stores, rules)?;
        let index = index_over(alloc, collected.dependencies, collected.rule_uses)?;
        // The places stand in the list, too: their room is that of the positions.
        let mut dependents = Dependents::over(alloc, collected.list, places)?;
        let guard_dependents = guard_dependents(alloc, policy, &dependents.list)?;
        let condition_dependents = condition_dependents(alloc, policy, &dependents.list)?;
        put_positions(
            &mut dependents.positions,
            policy.forms(),
            &dependents.list,
            &guard_dependents,
            &condition_dependents,
        );
        Ok(Kept {
            ifr: policy.forms().bytes(),
            dependents,
            index,
            guard_dependents,
            condition_dependents,
        })
    }

    // Whether the condition at a place holds, whose dependent these tell for a number. Where that is another, it is searched for.
    #[inline(always)]
    fn holds_by(&self, dependents: &[u32], number: u32, place: u32) -> bool
        ensures { result ≡ held self.now.values place }
    {
        if let Some(at) = dependents.get(number as usize) {
            if let Some(dependent) = self.dependents.list.get(*at as usize) {
                if dependent.place == place {
                    return dependent.condition_holds();
                }
            }
        }
        self.holds(place)
    }

    /// Evaluates the conditions anew, over the stores after a write of so many bytes, that depend on one of these bytes, and
    /// counts them. The policy is that of the package.
    #[inline(always)]
    pub(crate) fn renew(
        &mut self,
        policy: Policy<'a, '_>,
        stores: &Stores,
        written: FieldRange,
        rules: &mut RuleValues,
    ) -> u64
        requires package { bytes_of policy ≡ self.old.ifr }
        requires values { AreRuleValues self.old.ifr stores.now rules.old }
        ensures package { self.new.ifr ≡ self.old.ifr }
        ensures kept { (old : StoreMap)
            → IsWrite (range_of written.store written.offset written.width) old stores.now
            → self.old ≡ kept_over self.old.ifr old → self.new ≡ kept_over self.old.ifr stores.now }
        ensures count { result ≡ renewals (nodes_of self.old.ifr)
            (range_of written.store written.offset written.width) }
        ensures values { AreRuleValues self.old.ifr stores.now rules.new }
    {
        renew(
            &mut self.dependents,
            &self.index,
            policy,
            stores,
            written,
            rules,
        ) as u64
    }

    /// Evaluates the conditions anew, over new stores, that depend on one of the bytes in which these differ from old ones of the
    /// same layout, and counts them. The policy is that of the package.
    pub(crate) fn renew_between(
        &mut self,
        policy: Policy<'a, '_>,
        old: &Stores,
        new: &Stores,
        rules: &mut RuleValues,
    ) -> u64
        requires package { bytes_of policy ≡ self.old.ifr }
        requires shape { shape_of old.now ≡ shape_of new.now }
        requires values { AreRuleValues self.old.ifr new.now rules.old }
        ensures package { self.new.ifr ≡ self.old.ifr }
        ensures kept { self.old ≡ kept_over self.old.ifr old.now
            → self.new ≡ kept_over self.old.ifr new.now }
        ensures count { result ≡ renewals (nodes_of self.old.ifr) (difference old.now new.now) }
        ensures values { AreRuleValues self.old.ifr new.now rules.new }
    {
        renew_between(&mut self.dependents, &self.index, policy, old, new, rules) as u64
    }

    /// Evaluates the conditions anew, over new stores, that depend on one of the bytes in which these differ from the old ones,
    /// and counts them. They differ in some ranges alone, and the old stores become as the new ones are. The policy is that of the
    /// package.
    pub(crate) fn renew_within<R: Ranges>(
        &mut self,
        policy: Policy<'a, '_>,
        old: &mut Stores,
        new: &Stores,
        ranges: R,
        rules: &mut RuleValues,
    ) -> u64
        requires package { bytes_of policy ≡ self.old.ifr }
        requires shape { shape_of old.old ≡ shape_of new.now }
        requires inside { HaveRanges (shape_of new.now) (R.ranges ranges) }
        requires alike { AreAlikeOutside (R.ranges ranges) old.old new.now }
        requires values { AreRuleValues self.old.ifr new.now rules.old }
        ensures package { self.new.ifr ≡ self.old.ifr }
        ensures kept { self.old ≡ kept_over self.old.ifr old.old
            → self.new ≡ kept_over self.old.ifr new.now }
        ensures count { result ≡ renewals (nodes_of self.old.ifr) (difference old.old new.now) }
        ensures shape { shape_of old.new ≡ shape_of old.old }
        ensures same { AreAlike old.new new.now }
        ensures values { AreRuleValues self.old.ifr new.now rules.new }
    {
        renew_within(
            &mut self.dependents,
            &self.index,
            policy,
            old,
            new,
            ranges,
            rules,
        ) as u64
    }
}

impl<'a> Conditions for Kept<'a> {
    ghost holding = { λ kept place. held kept.values place };

    #[inline(never)]
    fn holds(&self, place: u32) -> bool {
        let dependents = &self.dependents.list;
        match dependents.binary_search_by_key(&place, |dependent| dependent.place) {
            Ok(at) => dependents[at].condition_holds(),
            Err(_) => false,
        }
    }

    #[inline(always)]
    fn guard_holds(&self, number: u32, place: u32) -> bool {
        self.holds_by(&self.guard_dependents, number, place)
    }

    fn condition_holds(&self, number: u32, place: u32) -> bool {
        self.holds_by(&self.condition_dependents, number, place)
    }
}

/// Stores that are written, what is kept of the conditions of their package over them at all times, and how many conditions were
/// evaluated anew.
pub struct KeptStores<'a> {
    stores: Stores,
    kept: Kept<'a>,
    // values of rules over the stores
    rules: RuleValues,
    // at most 2^64 - 1
    renewed: u64,
    // Near which position conditions of questions were found last. It may spare a search, and nothing rests on it.
    near: usize,
}

impl<'a> Drop for KeptStores<'a> {
    fn drop(self) {
        let KeptStores {
            stores: _,
            kept: _,
            rules: _,
            renewed: _,
            near: _,
        } = self;
    }
}

impl<'a> Model for KeptStores<'a> {
    ghost use Rattle.kept_conditions.specs.Kept.{KeptMap};
    ghost use Rattle.kept_conditions.specs.code.Cache.{AreKept};

    ghost Value = { KeptMap };

    ghost view = { λ s. record { ifr = s.kept.ifr; stores = s.stores; renewed = s.renewed } };

    ghost invariant = { λ s. AreKept s.kept s.stores s.rules };
}

impl<'a> KeptStores<'a> {
    /// These stores, of which no two have one id. Want of memory is OutOfMemory (60) at 0, and there is no other fault. Policy and
    /// questions are those of the package.
    pub fn read(
        alloc: Global,
        policy: Policy<'a, '_>,
        questions: &Questions<'a>,
        stores: Stores,
    ) -> Result<KeptStores<'a>, Fault>
        requires together { questions.now.ifr ≡ bytes_of policy }
        requires buffers { AreBuffers (shape_of stores).buffers }
        ensures read { IfOk result (λ it.
            it ≡ record { ifr = bytes_of policy.entry; stores = stores; renewed = 0 }) }
        ensures refused { IfErr result (λ fault. fault ≡ out_of_memory) }
    {
        let mut rules = RuleValues::new(alloc, policy.forms().rule_count())?;
        let kept = Kept::read(alloc, policy, questions, &stores, &mut rules)?;
        Ok(KeptStores {
            stores,
            kept,
            rules,
            renewed: 0,
            near: 0,
        })
    }

    /// The stores.
    pub fn stores(&self) -> &Stores
        ensures { result.now ≡ self.now.stores }
    {
        &self.stores
    }

    /// Of what the next of some WARNING_IFs that holds over them warns.
    pub fn next_warning(
        &mut self,
        policy: Policy<'a, '_>,
        conditions: &mut ConditionsOf<'_, 'a>,
    ) -> Option<Warning>
        requires { bytes_of policy ≡ self.old.ifr }
        ensures next { YieldsFirstBy (λ warning. warning)
            (warnings_among (world policy.entry self.old.stores))
            conditions.old result conditions.new }
        ensures same { self.new ≡ self.old }
    {
        policy.next_warning_by(conditions, &self.stores, &mut self.rules)
    }

    /// What is kept of the conditions over them.
    pub fn kept(&self) -> &Kept<'a>
        ensures { result.now ≡ kept_over self.now.ifr self.now.stores }
    {
        &self.kept
    }

    /// How many conditions were evaluated anew since counting began; 2^64 - 1 where there were more.
    pub fn renewed(&self) -> u64
        ensures { result ≡ self.now.renewed }
    {
        self.renewed
    }

    /// Begins to count.
    pub fn count_anew(&mut self)
        ensures { self.new
            ≡ record { ifr = self.old.ifr; stores = self.old.stores; renewed = 0 } }
    {
        self.renewed = 0;
    }

    /// Puts the new bytes of a field of a question of the package, unless an INCONSISTENT_IF of it holds over the stores with them,
    /// which then stay as they are. `old` are the bytes that the field has, where the question opens a scope.
    #[inline(always)]
    pub fn set(
        &mut self,
        policy: Policy<'a, '_>,
        question: Question<'a>,
        field: Field<'_>,
        old: &[u8],
    ) -> Result<(), Denial>
        requires package { bytes_of policy ≡ self.old.ifr }
        requires node { IsNodeOf (bytes_of policy) (question_node question) }
        requires range { HasRange (shape_of self.old.stores) field.store field.offset field.width }
        requires bytes { has_scope (question_node question).op ≡ true
            → bytes_of_field self.old.stores field.store field.offset field.width ≡ Some old.now }
        ensures { SetsField policy.entry (question_node question.entry) field.entry
            self.old self.new result }
    {
        field.put(&mut self.stores);
        self.rules.forget();
        let (rules, near) = (&mut self.rules, &mut self.near);
        if let Err(denial) = policy.consistent_by(question, &self.stores, rules, near) {
            // Neither the try nor taking it back is a write.
            self.stores
                .field_mut(field.store, usize::from(field.offset), field.width)
                .copy_from_slice(old);
            self.rules.forget();
            return Err(denial);
        }
        let written = FieldRange {
            store: field.store,
            offset: field.offset,
            width: field.width,
        };
        let touched = self
            .kept
            .renew(policy, &self.stores, written, &mut self.rules);
        self.renewed = self.renewed.saturating_add(touched);
        Ok(())
    }

    /// Takes over the bytes of other stores of the same layout; stores of before hold what these hold.
    pub fn copy_from(&mut self, policy: Policy<'a, '_>, before: &Stores, others: &Stores)
        requires package { bytes_of policy ≡ self.old.ifr }
        requires before { before.now ≡ self.old.stores }
        requires shape { shape_of before.now ≡ shape_of others.now }
        ensures { self.new ≡ changed_to self.old others.now }
    {
        self.stores.copy_from(others);
        self.rules.forget();
        let changed = self
            .kept
            .renew_between(policy, before, others, &mut self.rules);
        self.renewed = self.renewed.saturating_add(changed);
    }

    /// Goes back to stores that differ from these in some ranges alone; both are then those.
    pub fn give_back<R: Ranges>(&mut self, policy: Policy<'a, '_>, before: &mut Stores, ranges: R)
        requires package { bytes_of policy ≡ self.old.ifr }
        requires shape { shape_of self.old.stores ≡ shape_of before.old }
        requires inside { HaveRanges (shape_of before.old) (R.ranges ranges) }
        requires alike { AreAlikeOutside (R.ranges ranges) self.old.stores before.old }
        ensures these { self.new ≡ changed_to self.old before.old }
        ensures shape { shape_of before.new ≡ shape_of before.old }
        ensures same { (store at : ℕ) → byte_of before.new store at ≡ byte_of before.old store at }
    {
        mem::swap(&mut self.stores, before);
        self.rules.forget();
        let restored = self
            .kept
            .renew_within(policy, before, &self.stores, ranges, &mut self.rules);
        self.renewed = self.renewed.saturating_add(restored);
    }
}
