//! The index of dependencies: on which bytes of stores and on which rules each dependent depends.
//!
//! Dependencies stand by their first byte, each with a summary of a block that it ends: how far that block reaches. So a search
//! for those that overlap some bytes passes over whole blocks, and a write costs a few steps for each dependency that it hits,
//! however many there are. Of most bytes that none has this is known by a look-up. On what a rule depends is kept once, and not
//! again for each that uses the rule.

ghost use Rattle.std.specs.Prelude.{nat_lt, true, false, ◌≡◌, ◌==◌, filter, ◌<◌, ◌≤◌, ◌+◌, ◌^◌, ℕ, List, length, slice_get, IfOk, Some, None};
ghost use Rattle.std.specs.List.{AllWithin};
ghost use Rattle.hii_questions.specs.code.Entries.{entry_range};
ghost use Rattle.kept_conditions.specs.code.Index.{first_of, behind_of, overlaps, RulesRise, AllEndBy, IsNear, IsSummary, AreSummaries, IsLastOverlapping, HasSame, AreSmall, AreSorted, NoneOverlaps, NoneHas, EndBy, BeginFrom, AreGapSteps, AreGaps, at_place, step_start};
ghost use Rattle.kept_conditions.specs.declared.index.Dependency.{Dependency};

use hii_questions::{FieldEntry, FieldRange};
use std::alloc::{AllocError, Global};

/// Bytes on which a dependent depends: those of the field of a question that it names. Dependencies follow one another by field and
/// dependent.
#[derive(Clone, Copy, PartialEq, Eq, PartialOrd, Ord)]
pub(crate) struct Dependency {
    pub(crate) field: FieldEntry,
    /// The number of the dependent.
    pub(crate) dependent: u32,
}

impl Dependency {
    /// Where the bytes lie.
    pub(crate) fn range(self) -> FieldRange
        ensures { result ≡ entry_range self.field }
    {
        self.field.range()
    }

    /// The number of the first byte.
    pub(crate) fn first(self) -> u64
        ensures { result ≡ first_of self }
    {
        self.range().first()
    }

    /// The number behind the last.
    pub(crate) fn behind(self) -> u64
        ensures { result ≡ behind_of self }
    {
        self.range().behind()
    }

    /// The number of the byte that lies so far behind the first.
    #[inline(always)]
    fn past_first(self, distance: u32) -> u64
        ensures is { result ≡ first_of self + distance }
        ensures near { result < first_of self + 2 ^ 32 }
    {
        self.first() + u64::from(distance)
    }

    /// Whether one of these bytes is among those from a number on up to before another.
    pub(crate) fn overlaps(self, from: u64, end: u64) -> bool
        ensures { result ≡ overlaps from end self }
    {
        let first = self.first();
        let behind = self.behind();
        from < end && first < behind && first < end && from < behind
    }
}

/// A rule and a dependent that uses it, by their numbers. Rule uses follow one another by rule and dependent.
#[derive(Clone, Copy, PartialEq, Eq, PartialOrd, Ord)]
pub(crate) struct RuleUse {
    pub(crate) rule: u32,
    pub(crate) dependent: u32,
}

/// The uses of the rule of a number.
pub(crate) fn uses_of(rule_uses: &[RuleUse], rule: u32) -> &[RuleUse]
    requires { RulesRise rule_uses.now }
    ensures { result.now ≡ filter (λ l. l.rule == rule) rule_uses.now }
{
    let first = rule_uses.partition_point(|rule_use| rule_use.rule < rule);
    let from = &rule_uses[first..];
    let count = from.partition_point(|rule_use| rule_use.rule <= rule);
    &from[..count]
}

/// How many dependencies a block has at most that is joined with another.
const MOST_JOINED: usize = 65536;

/// A block of dependencies that ends with one: how many they are, and how far they reach behind the first byte of that one.
#[derive(Clone, Copy, Default)]
pub(crate) struct Summary {
    pub(crate) len: u32,
    /// From that byte to the greatest end of these.
    pub(crate) to_end: u32,
    /// From that byte to the greatest end of all dependencies up to it.
    pub(crate) to_reach: u32,
}

// The greatest end of the dependencies up to a place, of which those before it have their summaries.
fn reach_at(dependencies: &[Dependency], summaries: &[Summary], at: usize) -> u64
    requires inside { at < length dependencies.now }
    requires behind { length summaries.now ≡ at }
    requires sorted { AreSorted dependencies.now }
    requires summaries { AreSummaries dependencies.now summaries.now }
    ensures all { AllEndBy dependencies.now at result }
    ensures near { IsNear dependencies.now at result }
{
    let end = dependencies[at].behind();
    if at == 0 {
        return end;
    }
    end.max(dependencies[at - 1].past_first(summaries[at - 1].to_reach))
}

// The summary of the dependency at a place behind others that have theirs: blocks of the same length are joined.
fn summary_at(dependencies: &[Dependency], summaries: &[Summary], at: usize) -> Summary
    requires inside { at < length dependencies.now }
    requires behind { length summaries.now ≡ at }
    requires sorted { AreSorted dependencies.now }
    requires summaries { AreSummaries dependencies.now summaries.now }
    ensures { IsSummary dependencies.now at result }
{
    let reach = reach_at(dependencies, summaries, at);
    let mut max_end = dependencies[at].behind();
    let mut len = 1;
    while len <= at && len <= MOST_JOINED && summaries[at - len].len as usize == len {
        let before = dependencies[at - len].past_first(summaries[at - len].to_end);
        max_end = max_end.max(before);
        len += len;
    }
    let first = dependencies[at].first();
    Summary {
        len: len as u32,
        to_end: (max_end - first) as u32,
        to_reach: (reach - first) as u32,
    }
}

/// The summaries of some dependencies.
pub(crate) fn summaries_of(
    alloc: Global,
    dependencies: &[Dependency],
) -> Result<Vec<Summary>, AllocError>
    requires { AreSorted dependencies.now }
    ensures { IfOk result (λ summaries.
        (length summaries.items ≡ length dependencies.now) × AreSummaries dependencies.now summaries.items) }
{
    let mut summaries = Vec::with_capacity(alloc, dependencies.len())?;
    for at in 0..dependencies.len() {
        let summary = summary_at(dependencies, &summaries, at);
        summaries.push(summary)?;
    }
    Ok(summaries)
}

// The number of the first byte of a step, where steps of 2 to a power of bytes follow one another from a number on.
#[inline(always)]
fn start_of(first: u64, power: u32, step: usize) -> u64
    ensures { result ≡ step_start first power step }
{
    first.wrapping_add((step as u64).wrapping_shl(power))
}

/// Where no dependency has a byte: before and behind all of them, and in some of the steps of as many bytes each which follow one
/// another from the first byte on.
#[derive(Drop)]
pub(crate) struct Gaps {
    // The number of the first byte of all dependencies, and the one behind the last.
    first: u64,
    behind: u64,
    // A step has 2 to the power of this bytes, and there are no more steps than dependencies.
    power: u32,
    // By the number of the step, whether no dependency has a byte of it.
    steps: Vec<bool>,
}

impl Gaps {
    // The number of the step in which a byte lies.
    #[inline(always)]
    fn step_of(&self, number: u64) -> usize {
        number.wrapping_sub(self.first).wrapping_shr(self.power) as usize
    }

    // Whether the bytes from a number on up to before another lie in a step that no dependency has a byte of.
    #[inline(always)]
    fn has_in_step(&self, from: u64, end: u64) -> bool
        ensures { result ≡ true → (step : ℕ) × (slice_get self.now.steps.items step ≡ Some true)
            × (step_start self.now.first self.now.power step ≤ from)
            × (end ≤ step_start self.now.first self.now.power (step + 1)) }
    {
        let step = self.step_of(from);
        match self.steps.get(step) {
            Some(true) => {
                start_of(self.first, self.power, step) <= from
                    && end <= start_of(self.first, self.power, step + 1)
            }
            _ => false,
        }
    }

    // Whether it is known that no dependency has one of the bytes from a number on up to before another.
    #[inline(always)]
    fn has(&self, from: u64, end: u64) -> bool
        ensures { (rs : List Dependency) → AreGaps rs self.now → result ≡ true → NoneHas rs from end }
    {
        end <= self.first || self.behind <= from || self.has_in_step(from, end)
    }
}

// The first dependencies, up to one that does not begin before some byte.
#[derive(Clone, Copy)]
struct Passed {
    count: usize,
    // No number behind the last byte of one of them is above this.
    reach: u64,
}

// How many dependencies there are up to the first, from a place on, that does not begin before a number.
#[inline(always)]
fn count_before(dependencies: &[Dependency], from: usize, end: u64) -> usize
    requires { from ≤ length dependencies.now }
    ensures within { result ≤ length dependencies.now }
    ensures next { result < length dependencies.now → end ≤ first_of (at_place dependencies.now result) }
{
    let mut count = from;
    while count < dependencies.len() && dependencies[count].first() < end {
        count += 1;
    }
    count
}

// A number that no end of so many dependencies is above.
#[inline(always)]
fn reach_of(dependencies: &[Dependency], summaries: &[Summary], count: usize) -> u64
    requires within { count ≤ length dependencies.now }
    requires all { length summaries.now ≡ length dependencies.now }
    requires summaries { AreSummaries dependencies.now summaries.now }
    ensures { EndBy dependencies.now count result }
{
    if count == 0 {
        return 0;
    }
    dependencies[count - 1].past_first(summaries[count - 1].to_reach)
}

// Passes over the dependencies, from the next on, that begin before a number.
#[inline(always)]
fn pass_before(
    dependencies: &[Dependency],
    summaries: &[Summary],
    passed: Passed,
    end: u64,
) -> Passed
    requires sorted { AreSorted dependencies.now }
    requires all { length summaries.now ≡ length dependencies.now }
    requires summaries { AreSummaries dependencies.now summaries.now }
    requires within { passed.count ≤ length dependencies.now }
    requires reach { EndBy dependencies.now passed.count passed.reach }
    ensures within { result.count ≤ length dependencies.now }
    ensures reach { EndBy dependencies.now result.count result.reach }
    ensures others { BeginFrom dependencies.now result.count end }
{
    let count = count_before(dependencies, passed.count, end);
    if count == passed.count {
        return passed;
    }
    Passed {
        count,
        reach: reach_of(dependencies, summaries, count),
    }
}

// Whether no dependency has a byte of each of so many steps.
fn gap_steps(
    alloc: Global,
    dependencies: &[Dependency],
    summaries: &[Summary],
    first: u64,
    power: u32,
    count: usize,
) -> Result<Vec<bool>, AllocError>
    requires sorted { AreSorted dependencies.now }
    requires all { length summaries.now ≡ length dependencies.now }
    requires summaries { AreSummaries dependencies.now summaries.now }
    requires few { count ≤ length dependencies.now }
    ensures { IfOk result (λ steps. AreGapSteps dependencies.now first power steps.items) }
{
    let mut steps = Vec::with_capacity(alloc, count)?;
    let mut passed = Passed { count: 0, reach: 0 };
    for step in 0..count {
        passed = pass_before(
            dependencies,
            summaries,
            passed,
            start_of(first, power, step + 1),
        );
        steps.push(passed.reach <= start_of(first, power, step))?;
    }
    Ok(steps)
}

// The power of two that steps have as bytes, of which there are so many at most over so many bytes.
fn power_for(bytes: u64, most: usize) -> u32 {
    let Some(mean) = bytes.checked_div(most as u64) else {
        return 0;
    };
    match mean.checked_ilog2() {
        Some(power) => power + 1,
        None => 0,
    }
}

// Where some dependencies have no byte.
fn gaps_of(
    alloc: Global,
    dependencies: &[Dependency],
    summaries: &[Summary],
) -> Result<Gaps, AllocError>
    requires sorted { AreSorted dependencies.now }
    requires all { length summaries.now ≡ length dependencies.now }
    requires summaries { AreSummaries dependencies.now summaries.now }
    ensures { IfOk result (AreGaps dependencies.now) }
{
    let first = match dependencies.first() {
        Some(dependency) => dependency.first(),
        None => 0,
    };
    let behind = reach_of(dependencies, summaries, dependencies.len());
    let bytes = behind.wrapping_sub(first);
    let power = power_for(bytes, dependencies.len());
    let count = (bytes.wrapping_shr(power) as usize)
        .saturating_add(1)
        .min(dependencies.len());
    Ok(Gaps {
        first,
        behind,
        power,
        steps: gap_steps(alloc, dependencies, summaries, first, power, count)?,
    })
}

// How many dependencies begin before a number.
#[inline(never)]
fn beginning_before(dependencies: &[Dependency], end: u64) -> usize
    requires { AreSorted dependencies.now }
    ensures bound { result ≤ length dependencies.now }
    ensures behind { AllWithin (λ (r : Dependency). nat_lt (first_of r) end ≡ false)
        dependencies.now result (length dependencies.now) }
{
    dependencies.partition_point(|dependency| dependency.first() < end)
}

/// A place from which on no dependency overlaps the bytes from a number on up to before another.
#[inline(always)]
pub(crate) fn place_behind(dependencies: &[Dependency], gaps: &Gaps, from: u64, end: u64) -> usize
    requires sorted { AreSorted dependencies.now }
    requires gaps { AreGaps dependencies.now gaps.now }
    ensures bound { result ≤ length dependencies.now }
    ensures behind { NoneOverlaps from end dependencies.now result (length dependencies.now) }
{
    if gaps.has(from, end) {
        0
    } else {
        beginning_before(dependencies, end)
    }
}

/// The last dependency before a place that overlaps the bytes from a number on up to before another.
#[inline(always)]
pub(crate) fn last_overlapping(
    dependencies: &[Dependency],
    summaries: &[Summary],
    from: u64,
    end: u64,
    before: usize,
) -> Option<usize>
    requires inside { before ≤ length dependencies.now }
    requires all { length summaries.now ≡ length dependencies.now }
    requires summaries { AreSummaries dependencies.now summaries.now }
    ensures { IsLastOverlapping from end dependencies.now before result }
{
    let mut left = before;
    while left > 0 {
        let at = left - 1;
        let dependency = dependencies[at];
        if dependency.past_first(summaries[at].to_reach) <= from {
            // None up to here reaches so far.
            return None;
        }
        if dependency.past_first(summaries[at].to_end) <= from {
            // None of the block reaches so far.
            left -= summaries[at].len as usize;
        } else if dependency.overlaps(from, end) {
            return Some(at);
        } else {
            left = at;
        }
    }
    None
}

/// On what dependents depend, each once.
pub(crate) struct Index {
    /// By the first byte.
    pub(crate) dependencies: Vec<Dependency>,
    /// One for each dependency.
    pub(crate) summaries: Vec<Summary>,
    /// Where none of them has a byte.
    pub(crate) gaps: Gaps,
    /// By the number of the rule.
    pub(crate) rule_uses: Vec<RuleUse>,
}

impl Drop for Index {
    fn drop(self) {
        let Index {
            dependencies: _,
            summaries: _,
            gaps: _,
            rule_uses: _,
        } = self;
    }
}

// Puts dependencies into the order of their first bytes, each once.
fn order_dependencies(dependencies: &mut Vec<Dependency>)
    requires { AreSmall dependencies.old.items }
    ensures sorted { AreSorted dependencies.new.items }
    ensures same { HasSame dependencies.old.items dependencies.new.items }
{
    dependencies.sort_unstable();
    dependencies.dedup();
}

// Puts rule uses into the order of their rules, each once.
fn order_rule_uses(rule_uses: &mut Vec<RuleUse>)
    ensures sorted { RulesRise rule_uses.new.items }
    ensures same { HasSame rule_uses.old.items rule_uses.new.items }
{
    rule_uses.sort_unstable();
    rule_uses.dedup();
}

/// The index over some dependencies and rule uses.
pub(crate) fn index_over(
    alloc: Global,
    dependencies: Vec<Dependency>,
    rule_uses: Vec<RuleUse>,
) -> Result<Index, AllocError>
    requires { AreSmall dependencies.items }
    ensures sorted { IfOk result (λ index. AreSorted index.dependencies.items) }
    ensures all { IfOk result (λ index. length index.summaries.items ≡ length index.dependencies.items) }
    ensures summed { IfOk result (λ index. AreSummaries index.dependencies.items index.summaries.items) }
    ensures gaps { IfOk result (λ index. AreGaps index.dependencies.items index.gaps) }
    ensures rise { IfOk result (λ index. RulesRise index.rule_uses.items) }
    ensures dependencies { IfOk result (λ index. HasSame dependencies.items index.dependencies.items) }
    ensures rule_uses { IfOk result (λ index. HasSame rule_uses.items index.rule_uses.items) }
{
    let mut dependencies = dependencies;
    let mut rule_uses = rule_uses;
    order_dependencies(&mut dependencies);
    order_rule_uses(&mut rule_uses);
    let summaries = summaries_of(alloc, &dependencies)?;
    let gaps = gaps_of(alloc, &dependencies, &summaries)?;
    Ok(Index {
        dependencies,
        summaries,
        gaps,
        rule_uses,
    })
}
