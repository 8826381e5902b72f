//! New values of questions.

ghost use Rattle.std.specs.Prelude.{◌≡◌, option_copied};
ghost use Rattle.hii_values.specs.code.ItemsLeft.{items_left};
ghost use Rattle.hii_values.specs.code.Offers.{offer_of};
ghost use Rattle.hii_questions.specs.Changes.{field_bytes};
ghost use Rattle.hii_questions.specs.code.LyingIn.{LiesIn};
ghost use Rattle.hii_questions.specs.code.NewBytes.{new_items};
ghost use Rattle.hii_questions.specs.code.Offers.{IsGiven};
ghost use Rattle.hii_questions.specs.code.Views.{question_node, question_view};
ghost use Rattle.hii_varstore.specs.Stores.{shape_of};
ghost use Rattle.guard_policy.specs.Policy.{first_closed};
ghost use Rattle.guard_policy.specs.code.Answers.{unless};
ghost use Rattle.guard_policy.specs.code.Views.{bytes_of, world};
ghost use Rattle.browser_commands.specs.code.Changing.{GivesValue, GoesBack, IsBrowsed, IsFreeQuestion, TakesField, SetsValue};
ghost use Rattle.browser_commands.specs.code.Standing.{IsOffered, IsQuestionIn};

use guard_policy::{Denial, Policy};
use hii_questions::{Field, Input, Items, Question, check_value_in};
use hii_varstore::Stores;
use ifr_scopes::Around;
use kept_conditions::KeptStores;

// Up to how many bytes a field has so few elements that each is looked for by itself: what is kept for many would take longer.
const NARROW: usize = 8;

/// Of a `set`: a number is given.
pub(crate) struct OfNumbers;
/// Of an `order` or a `text`: bytes are given.
pub(crate) struct OfBytes;
/// Of `defaults` or a button: defaults are given.
pub(crate) struct OfDefaults;

/// Gives a question a value, or tells why it may not have it. The working stores then hold what they held, or new bytes in
/// the question's field. The spare stores, which hold what the working ones do, follow. For each kind of what is given
/// there is a copy of this, called from one place, so that it is inlined there.
#[inline(always)]
pub(crate) fn give_value<'a, Given>(
    policy: Policy<'a, '_>,
    question: Question<'a>,
    input: Input<'_>,
    working: &mut KeptStores<'a>,
    spare: &mut Stores,
) -> Result<(), Denial>
    requires question { IsQuestionIn (bytes_of policy) (question_view question) }
    requires browsed { IsBrowsed policy working.old }
    requires same { spare.old ≡ working.old.stores }
    requires input { IsOffered input }
    ensures gives { GivesValue policy.entry (question_view question.entry) (offer_of input.entry)
        working.old working.new result }
    ensures same { spare.new ≡ working.new.stores }
    ensures shape { shape_of spare.new ≡ shape_of spare.old }
{
    let around = working.changeable_question(policy, question)?;
    let old = held_in(spare, question);
    let field = set_value(policy, question, around, input, working, old)?;
    field.put(spare);
    Ok(())
}

/// Gives a question that is not fixed, around which this stands, a value, or tells why it may not have it. `old` are the bytes of
/// its field, if it has one and opens a scope. The working stores then hold what they held, or new bytes in this field.
#[inline(always)]
pub(crate) fn set_value<'a, 's, 'i>(
    policy: Policy<'a, 's>,
    question: Question<'a>,
    around: Around<'s, 'a>,
    input: Input<'i>,
    working: &mut KeptStores<'a>,
    old: &[u8],
) -> Result<Field<'i>, Denial>
    requires free { IsFreeQuestion policy working.old question around }
    requires held { GoesBack working.old.stores (question_view question) old.now }
    requires input { IsGiven (question_view question).field input }
    ensures { SetsValue policy.entry (question_view question.entry) (offer_of input.entry)
        working.old working.new result }
{
    let field = new_field(policy, question, around, input, working)?;
    working.set(policy, question, field, old)?;
    Ok(field)
}

// The new bytes with which a question that is not fixed has a value, where it takes the value and its options may be chosen.
#[inline(always)]
fn new_field<'a, 's, 'i>(
    policy: Policy<'a, 's>,
    question: Question<'a>,
    around: Around<'s, 'a>,
    input: Input<'i>,
    working: &KeptStores<'a>,
) -> Result<Field<'i>, Denial>
    requires free { IsFreeQuestion policy working.now question around }
    requires input { IsGiven (question_view question).field input }
    ensures { TakesField policy.entry working.now.stores (question_view question.entry)
        (offer_of input.entry) result }
{
    let field = check_value_in(policy.questions(), question, input)?;
    if !field.names_options() {
        return Ok(field);
    }
    options_open(policy, question, around, field, working)?;
    Ok(field)
}

// Whether an option of each of these values of a question that is not fixed may be chosen: each is looked for by itself.
#[inline(always)]
fn each_option_open<'a, 's>(
    policy: Policy<'a, 's>,
    question: Question<'a>,
    around: Around<'s, 'a>,
    values: Items<'_>,
    working: &KeptStores<'a>,
) -> Result<(), Denial>
    requires { IsFreeQuestion policy working.now question around }
    ensures { result
        ≡ unless (first_closed (world policy.entry working.now.stores) (question_node question.entry)
        (items_left values.entry)) }
{
    let mut values = values;
    while let Some(value) = values.next() {
        working.option_open_within(policy, question, value, around)?;
    }
    Ok(())
}

// The same, where one walk over the options finds the values of which an option may be chosen.
fn all_options_open<'a, 's>(
    policy: Policy<'a, 's>,
    question: Question<'a>,
    around: Around<'s, 'a>,
    values: Items<'_>,
    working: &KeptStores<'a>,
) -> Result<(), Denial>
    requires { IsFreeQuestion policy working.now question around }
    ensures { result
        ≡ unless (first_closed (world policy.entry working.now.stores) (question_node question.entry)
        (items_left values.entry)) }
{
    let met = working.open_values(policy, question, values, around);
    let mut values = values;
    while let Some(value) = values.next() {
        if !met.has_met(value) {
            working.option_open_within(policy, question, value, around)?;
        }
    }
    Ok(())
}

// Whether an option of each of the values that new bytes of a field name, of a question that is not fixed, may be chosen: of a number,
// or of the elements of a list.
#[inline(always)]
fn options_open<'a, 's>(
    policy: Policy<'a, 's>,
    question: Question<'a>,
    around: Around<'s, 'a>,
    field: Field<'_>,
    working: &KeptStores<'a>,
) -> Result<(), Denial>
    requires { IsFreeQuestion policy working.now question around }
    ensures { result
        ≡ unless (first_closed (world policy.entry working.now.stores) (question_node question.entry)
        (new_items field.entry)) }
{
    let values = field.items();
    match values {
        Items::List(_) | Items::Stored(_) if field.width > NARROW => {
            all_options_open(policy, question, around, values, working)
        }
        _ => each_option_open(policy, question, around, values, working),
    }
}

// The bytes of the field of a question, if it has one.
#[inline(always)]
pub(crate) fn bytes_in<'s>(stores: &'s Stores, question: Question<'_>) -> Option<&'s [u8]>
    requires { LiesIn (shape_of stores.now) (question_view question) }
    ensures { option_copied result ≡ field_bytes stores.now (question_view question.entry).field }
{
    let field = question.field()?;
    stores.field(field.store, usize::from(field.offset), field.width)
}

// The bytes of the field of a question that opens a scope, none if it has no field: where an INCONSISTENT_IF in the scope holds, they
// are put back. Of a question that opens none they are not looked up.
#[inline(always)]
fn held_in<'s>(stores: &'s Stores, question: Question<'_>) -> &'s [u8]
    requires { LiesIn (shape_of stores.now) (question_view question) }
    ensures { GoesBack stores.now (question_view question.entry) result.now }
{
    if !question.statement().opens_scope() {
        return &[];
    }
    match bytes_in(stores, question) {
        Some(bytes) => bytes,
        None => &[],
    }
}
