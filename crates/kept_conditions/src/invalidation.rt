//! Which dependents a write touches, and their renewal.
//!
//! A write of a field looks up the dependencies that overlap it. Where other stores are taken over, only bytes in which they
//! differ count; and where these lie in known ranges, as those that a denied `route` gives back, only dependencies that overlap
//! one are asked. So a text over few fields of a large store costs what it names, and not what the store holds.

ghost use Rattle.std.specs.Prelude.{◌≡◌, length};
ghost use Rattle.ifr_nodes.specs.Nodes.{nodes_of};
ghost use Rattle.hii_varstore.specs.Stores.{shape_of, StoreMap};
ghost use Rattle.guard_policy.specs.code.RuleValues.{AreRuleValues};
ghost use Rattle.guard_policy.specs.code.Views.{bytes_of, world};
ghost use Rattle.guard_policy.specs.code.Worlds.{is_met_at};
ghost use Rattle.kept_conditions.specs.Touching.{difference, range_of, renewals};
ghost use Rattle.kept_conditions.specs.Kept.{told_over};
ghost use Rattle.kept_conditions.specs.laws.Writes.{IsWrite};
ghost use Rattle.kept_conditions.specs.code.Invalidation.{common, HaveRanges, AreAlike, AreAlikeOutside, in_range};
ghost use Rattle.kept_conditions.specs.code.Dependents.{VisitsSome, HasRoom, KeepsFollowing, Reaches};
ghost use Rattle.kept_conditions.specs.code.Index.{hits, AreGaps, AreSummaries, AreSorted, HaveNumbers, depends_on, AreSmall};
ghost use Rattle.kept_conditions.specs.code.Cache.{IsIndex, values_of};

use crate::dependents::{Dependents, visit_pending};
use crate::differences::{Differences, differ};
use crate::index::{Dependency, Gaps, Index, Summary, last_overlapping, place_behind};
use guard_policy::{Evaluated, Policy};
use hii_questions::FieldRange;
use hii_varstore::Stores;
use ifr_expr::RuleValues;

/// Ranges of bytes of stores, one after the other.
pub trait Ranges: Drop {
    ghost use Rattle.std.specs.Prelude.{List};
    ghost use Rattle.std.specs.Iterator.{YieldsFirstBy};
    ghost use Rattle.hii_questions.specs.declared.field_range.FieldRange.{FieldRange};

    /// The ranges that are left.
    ghost ranges: { Self → List FieldRange };

    /// The next range.
    fn next(&mut self) -> Option<FieldRange>
        ensures { YieldsFirstBy (λ r. r) ranges self.old result self.new };
}

// ---- visits

// Visits the dependents with a dependency that overlaps the bytes from a number on up to before another, and counts the conditions
// that it evaluates.
#[inline(always)]
fn visit_overlapping(
    dependents: &mut Dependents,
    dependencies: &[Dependency],
    summaries: &[Summary],
    gaps: &Gaps,
    from: u64,
    end: u64,
    now: &Evaluated<'_, '_, '_>,
    rules: &mut RuleValues,
) -> usize
    requires sorted { AreSorted dependencies.now }
    requires all { length summaries.now ≡ length dependencies.now }
    requires summaries { AreSummaries dependencies.now summaries.now }
    requires gaps { AreGaps dependencies.now gaps.now }
    requires numbers { HaveNumbers (length dependents.old.list.items) dependencies.now }
    requires room { HasRoom dependents.old }
    requires kept { AreRuleValues (bytes_of now.now.policy) now.now.stores.now rules.old }
    ensures visits { VisitsSome (is_met_at (world now.now.policy now.now.stores.now)) dependents.old
        dependents.new result }
    ensures kept { AreRuleValues (bytes_of now.now.policy) now.now.stores.now rules.new }
    ensures reaches { Reaches (hits from end dependencies.now) dependents.old dependents.new }
    ensures follows { KeepsFollowing dependents.old dependents.new }
{
    let mut before = place_behind(dependencies, gaps, from, end);
    let mut count = 0;
    while let Some(at) = last_overlapping(dependencies, summaries, from, end, before) {
        if dependents.visit(dependencies[at].dependent, now, rules) {
            count += 1;
        }
        before = at;
    }
    count
}

// Visits the dependents that depend on one of the bytes in which two sets of stores differ, and counts the conditions that it
// evaluates.
fn visit_differing(
    dependents: &mut Dependents,
    dependencies: &[Dependency],
    old: &Stores,
    new: &Stores,
    now: &Evaluated<'_, '_, '_>,
    rules: &mut RuleValues,
) -> usize
    requires numbers { HaveNumbers (length dependents.old.list.items) dependencies.now }
    requires room { HasRoom dependents.old }
    requires shape { shape_of old.now ≡ shape_of new.now }
    requires kept { AreRuleValues (bytes_of now.now.policy) now.now.stores.now rules.old }
    ensures visits { VisitsSome (is_met_at (world now.now.policy now.now.stores.now)) dependents.old
        dependents.new result }
    ensures kept { AreRuleValues (bytes_of now.now.policy) now.now.stores.now rules.new }
    ensures reaches { Reaches (depends_on (difference old.now new.now) dependencies.now)
        dependents.old dependents.new }
    ensures follows { KeepsFollowing dependents.old dependents.new }
{
    let mut differences = Differences::between(old, new);
    let mut count = 0;
    for dependency in dependencies {
        if !differences.are_in(dependency.range()) {
            continue;
        }
        if dependents.visit(dependency.dependent, now, rules) {
            count += 1;
        }
    }
    count
}

// Visits the dependents that depend on one of the bytes of a range in which two sets of stores differ, and counts the conditions
// that it evaluates.
fn visit_range(
    dependents: &mut Dependents,
    dependencies: &[Dependency],
    summaries: &[Summary],
    gaps: &Gaps,
    range: FieldRange,
    old: &Stores,
    new: &Stores,
    now: &Evaluated<'_, '_, '_>,
    rules: &mut RuleValues,
) -> usize
    requires sorted { AreSorted dependencies.now }
    requires all { length summaries.now ≡ length dependencies.now }
    requires summaries { AreSummaries dependencies.now summaries.now }
    requires gaps { AreGaps dependencies.now gaps.now }
    requires numbers { HaveNumbers (length dependents.old.list.items) dependencies.now }
    requires small { AreSmall dependencies.now }
    requires room { HasRoom dependents.old }
    requires shape { shape_of old.now ≡ shape_of new.now }
    requires kept { AreRuleValues (bytes_of now.now.policy) now.now.stores.now rules.old }
    ensures visits { VisitsSome (is_met_at (world now.now.policy now.now.stores.now)) dependents.old
        dependents.new result }
    ensures kept { AreRuleValues (bytes_of now.now.policy) now.now.stores.now rules.new }
    ensures reaches { Reaches
        (depends_on (common (difference old.now new.now) (in_range range)) dependencies.now)
        dependents.old dependents.new }
    ensures follows { KeepsFollowing dependents.old dependents.new }
{
    let from = range.first();
    let end = range.behind();
    let mut before = place_behind(dependencies, gaps, from, end);
    let mut count = 0;
    while let Some(at) = last_overlapping(dependencies, summaries, from, end, before) {
        before = at;
        let dependency = dependencies[at];
        if !differ(old, new, dependency.range(), range) {
            continue;
        }
        if dependents.visit(dependency.dependent, now, rules) {
            count += 1;
        }
    }
    count
}

// Visits the dependents that depend on one of the bytes in which two sets of stores differ, which do so in some ranges alone, and
// counts the conditions that it evaluates. The old stores become as the new ones are.
fn visit_ranges<R: Ranges>(
    dependents: &mut Dependents,
    index: &Index,
    old: &mut Stores,
    new: &Stores,
    ranges: R,
    now: &Evaluated<'_, '_, '_>,
    rules: &mut RuleValues,
) -> usize
    requires sorted { AreSorted index.now.dependencies.items }
    requires all { length index.now.summaries.items ≡ length index.now.dependencies.items }
    requires summaries { AreSummaries index.now.dependencies.items index.now.summaries.items }
    requires gaps { AreGaps index.now.dependencies.items index.now.gaps }
    requires numbers { HaveNumbers (length dependents.old.list.items) index.now.dependencies.items }
    requires small { AreSmall index.now.dependencies.items }
    requires room { HasRoom dependents.old }
    requires shape { shape_of old.old ≡ shape_of new.now }
    requires inside { HaveRanges (shape_of new.now) (R.ranges ranges) }
    requires alike { AreAlikeOutside (R.ranges ranges) old.old new.now }
    requires kept { AreRuleValues (bytes_of now.now.policy) now.now.stores.now rules.old }
    ensures visits { VisitsSome (is_met_at (world now.now.policy now.now.stores.now)) dependents.old
        dependents.new result }
    ensures kept { AreRuleValues (bytes_of now.now.policy) now.now.stores.now rules.new }
    ensures reaches { Reaches (depends_on (difference old.old new.now) index.now.dependencies.items)
        dependents.old dependents.new }
    ensures follows { KeepsFollowing dependents.old dependents.new }
    ensures shape { shape_of old.new ≡ shape_of old.old }
    ensures same { AreAlike old.new new.now }
{
    let mut ranges = ranges;
    let mut count = 0;
    while let Some(range) = ranges.next() {
        count += visit_range(
            dependents,
            &index.dependencies,
            &index.summaries,
            &index.gaps,
            range,
            old,
            new,
            now,
            rules,
        );
        old.copy_range(new, range.store, usize::from(range.offset), range.width);
    }
    count
}

// ---- renewal

/// Evaluates the conditions anew, over the stores after a write of so many bytes, that depend on one of these bytes, each once,
/// and counts them.
#[inline(always)]
pub(crate) fn renew(
    dependents: &mut Dependents,
    index: &Index,
    policy: Policy<'_, '_>,
    stores: &Stores,
    written: FieldRange,
    rules: &mut RuleValues,
) -> usize
    requires index { IsIndex (bytes_of policy) dependents.old index.now }
    requires kept { AreRuleValues (bytes_of policy) stores.now rules.old }
    ensures index { IsIndex (bytes_of policy.entry) dependents.new index.now }
    ensures values { (old : StoreMap)
        → IsWrite (range_of written.store written.offset written.width) old stores.now
        → values_of dependents.old ≡ told_over (bytes_of policy.entry) old
        → values_of dependents.new ≡ told_over (bytes_of policy.entry) stores.now }
    ensures count { result ≡ renewals (nodes_of (bytes_of policy.entry))
        (range_of written.store written.offset written.width) }
    ensures kept { AreRuleValues (bytes_of policy.entry) stores.now rules.new }
{
    let now = policy.over(stores);
    dependents.next_round();
    let from = written.first();
    let end = written.behind();
    let count = visit_overlapping(
        dependents,
        &index.dependencies,
        &index.summaries,
        &index.gaps,
        from,
        end,
        &now,
        rules,
    );
    count + visit_pending(dependents, &index.rule_uses, &now, rules)
}

/// Evaluates the conditions anew, over new stores, that depend on one of the bytes in which these differ from the old ones, each
/// once, and counts them.
pub(crate) fn renew_between(
    dependents: &mut Dependents,
    index: &Index,
    policy: Policy<'_, '_>,
    old: &Stores,
    new: &Stores,
    rules: &mut RuleValues,
) -> usize
    requires index { IsIndex (bytes_of policy) dependents.old index.now }
    requires shape { shape_of old.now ≡ shape_of new.now }
    requires kept { AreRuleValues (bytes_of policy) new.now rules.old }
    ensures index { IsIndex (bytes_of policy.entry) dependents.new index.now }
    ensures values { values_of dependents.old ≡ told_over (bytes_of policy.entry) old.now
        → values_of dependents.new ≡ told_over (bytes_of policy.entry) new.now }
    ensures count { result ≡ renewals (nodes_of (bytes_of policy.entry))
        (difference old.now new.now) }
    ensures kept { AreRuleValues (bytes_of policy.entry) new.now rules.new }
{
    let now = policy.over(new);
    dependents.next_round();
    let count = visit_differing(dependents, &index.dependencies, old, new, &now, rules);
    count + visit_pending(dependents, &index.rule_uses, &now, rules)
}

/// Evaluates the conditions anew, over new stores, that depend on one of the bytes in which these differ from the old ones, each
/// once, and counts them. They differ in some ranges alone, and the old stores become as the new ones are.
pub(crate) fn renew_within<R: Ranges>(
    dependents: &mut Dependents,
    index: &Index,
    policy: Policy<'_, '_>,
    old: &mut Stores,
    new: &Stores,
    ranges: R,
    rules: &mut RuleValues,
) -> usize
    requires index { IsIndex (bytes_of policy) dependents.old index.now }
    requires shape { shape_of old.old ≡ shape_of new.now }
    requires inside { HaveRanges (shape_of new.now) (R.ranges ranges) }
    requires alike { AreAlikeOutside (R.ranges ranges) old.old new.now }
    requires kept { AreRuleValues (bytes_of policy) new.now rules.old }
    ensures index { IsIndex (bytes_of policy.entry) dependents.new index.now }
    ensures values { values_of dependents.old ≡ told_over (bytes_of policy.entry) old.old
        → values_of dependents.new ≡ told_over (bytes_of policy.entry) new.now }
    ensures count { result ≡ renewals (nodes_of (bytes_of policy.entry))
        (difference old.old new.now) }
    ensures shape { shape_of old.new ≡ shape_of old.old }
    ensures same { AreAlike old.new new.now }
    ensures kept { AreRuleValues (bytes_of policy.entry) new.now rules.new }
{
    let now = policy.over(new);
    dependents.next_round();
    let count = visit_ranges(dependents, index, old, new, ranges, &now, rules);
    count + visit_pending(dependents, &index.rule_uses, &now, rules)
}
