//! Lists of values of options.

ghost use Rattle.std.specs.Prelude.{◌≡◌, ◌≤◌, ◌==◌, ◌&&◌, ℕ, OnOk, length, take};
ghost use Rattle.std.specs.List.{list_any};
ghost use Rattle.hii_values.specs.code.ChoiceViews.{choice_values};
ghost use Rattle.hii_values.specs.code.Fitting.{Tells};
ghost use Rattle.hii_values.specs.Inputs.{list_denial, element_denial, is_offered};
ghost use Rattle.hii_values.specs.code.ItemsLeft.{items_left};
ghost use Rattle.hii_values.specs.code.MetValues.{is_met, is_sought};

use crate::choices::Choices;
use crate::denial::DenialKind;
use crate::field_type::ListType;
use crate::items::Items;
use crate::met_values::MetValues;
use crate::texts::count_within;

// How many elements are so few that what is kept for many would take longer.
const FEW: u16 = 8;

/// Refuses a list that an ordered list does not take.
pub(crate) fn check_list(list: ListType<'_>, items: Items<'_>) -> Result<(), DenialKind>
    ensures told { Tells (list_denial list.entry.most list.entry.unique list.entry.some
        (choice_values list.entry.choices) (items_left items.entry)) result }
    ensures few { OnOk result (length (items_left items.entry) ≤ list.entry.most) }
{
    let Some(count) = count_within(items, u16::from(list.most)) else {
        return Err(DenialKind::Length);
    };
    if list.some && count == 0 {
        return Err(DenialKind::EmptySet);
    }
    if count <= FEW {
        check_few(list, items)
    } else {
        check_many(list, items)
    }
}

// Refuses an element that no option has, or that stands before itself in a list that is a set. Each is looked for by itself.
fn check_few(list: ListType<'_>, items: Items<'_>) -> Result<(), DenialKind>
    requires { length (items_left items) ≤ 65535 }
    ensures { Tells (element_denial (choice_values list.entry.choices) list.entry.unique
        (items_left items.entry)) result }
{
    let mut count = 0;
    for item in items {
        if item == 0 || !list.choices.offer(item) {
            return Err(DenialKind::NoOption);
        }
        if list.unique && stands_before(items, count, item) {
            return Err(DenialKind::Repeat);
        }
        count += 1;
    }
    Ok(())
}

// Whether one of the first `count` items is this one.
fn stands_before(items: Items<'_>, count: u16, wanted: u64) -> bool
    ensures { result ≡ list_any (λ item. item == wanted) (take count (items_left items.entry)) }
{
    let mut left = count;
    for item in items {
        if left == 0 {
            return false;
        }
        if item == wanted {
            return true;
        }
        left -= 1;
    }
    false
}

// The elements that are values of options are met.
fn offered_values(choices: Choices<'_>, items: Items<'_>) -> MetValues
    ensures sought { (v : ℕ) → is_sought result v
        ≡ list_any (λ item. item == v) (take 255 (items_left items.entry)) }
    ensures met { (v : ℕ) → is_met result v
        ≡ (is_sought result v && is_offered (choice_values choices.entry) v) }
{
    let mut offered = MetValues::of(items);
    for option in choices.question.options() {
        offered.meet(option.op().value());
    }
    offered
}

// The same, where one walk over the options finds the elements that have one.
fn check_many(list: ListType<'_>, items: Items<'_>) -> Result<(), DenialKind>
    requires { length (items_left items) ≤ 255 }
    ensures { Tells (element_denial (choice_values list.entry.choices) list.entry.unique
        (items_left items.entry)) result }
{
    let offered = offered_values(list.choices, items);
    let mut before = MetValues::of(items);
    for item in items {
        if item == 0 || !offered.has_met(item) {
            return Err(DenialKind::NoOption);
        }
        if list.unique && before.has_met(item) {
            return Err(DenialKind::Repeat);
        }
        before.meet(item);
    }
    Ok(())
}
