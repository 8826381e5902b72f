//! The blocks of a configuration text, and the questions that they set.

ghost use Rattle.std.specs.Prelude.{◌≡◌, ◌<◌, ◌^◌, Some, Ok, length, take};
ghost use Rattle.config_text.specs.code.BlocksLeft.{blocks_left};
ghost use Rattle.config_text.specs.code.Views.{block_view};
ghost use Rattle.hii_questions.specs.code.Ranges.{range_in};
ghost use Rattle.hii_varstore.specs.code.Ranges.{HasRange};
ghost use Rattle.hii_varstore.specs.Stores.{bytes_of_field, shape_of};
ghost use Rattle.guard_policy.specs.code.Views.{bytes_of};
ghost use Rattle.session_steps.specs.Configuration.{block_field};
ghost use Rattle.browser_commands.specs.code.Changing.{Chooses, CopiesBlocks, FirstChoice, HaveRanges, IsBrowsed, SetsBlock, SetsBlocks, range_of_block};

use crate::change::set_value;
use config_text::{Block, Blocks};
use guard_policy::{Denial, Policy};
use hii_bytes::laws::are_bytes;
use hii_questions::{DenialKind, FieldRange, Input, Question, Questions, WIDEST_FIELD};
use hii_varstore::Stores;
use ifr_scopes::Around;
use kept_conditions::{KeptStores, Ranges};

// The most bytes that a number has. Room for them is made in no time, where that for the widest field takes some.
const WIDEST_NUMBER: usize = 8;

/// Sets the question of each block of a store, one after the other, and tells how many blocks there are; or tells why one is
/// denied, and none is set. The spare stores hold what the working ones do, before and afterwards: they follow in the fields of the
/// blocks alone, and so do the working ones where they go back.
pub(crate) fn set_blocks<'a>(
    policy: Policy<'a, '_>,
    questions: &Questions<'a>,
    store: u16,
    blocks: Blocks<'_>,
    working: &mut KeptStores<'a>,
    spare: &mut Stores,
) -> Result<u64, Denial>
    requires together { questions.now.ifr ≡ bytes_of policy }
    requires browsed { IsBrowsed policy working.old }
    requires same { spare.old ≡ working.old.stores }
    requires few { length (blocks_left blocks) < 2 ^ 64 }
    ensures { SetsBlocks policy.entry store (blocks_left blocks.entry) working.old working.new
        spare.new result }
{
    let mut left = blocks;
    let mut count = 0;
    while let Some(block) = left.next() {
        match set_block(policy, questions, store, block, working) {
            Ok(()) => count += 1,
            Err(denial) => {
                let fields = BlockFields {
                    store,
                    blocks,
                    count,
                };
                working.give_back(policy, spare, fields);
                return Err(denial);
            }
        }
    }
    copy_blocks(store, blocks, count, working.stores(), spare);
    Ok(count)
}

/// The fields of the first so many blocks that are left.
#[derive(Drop)]
struct BlockFields<'t> {
    store: u16,
    blocks: Blocks<'t>,
    count: u64,
}

impl<'t> Ranges for BlockFields<'t> {
    ghost use Rattle.browser_commands.specs.code.Changing.{fields_left};

    ghost ranges = { fields_left };

    fn next(&mut self) -> Option<FieldRange> {
        if self.count == 0 {
            return None;
        }
        let block = self.blocks.next()?;
        self.count -= 1;
        Some(field_of(self.store, block))
    }
}

// The field of a block of a store.
fn field_of(store: u16, block: Block<'_>) -> FieldRange
    ensures { result ≡ range_of_block store (block_view block.entry) }
{
    FieldRange {
        store,
        offset: block.offset,
        width: usize::from(block.width),
    }
}

// Takes over the bytes of the first so many blocks of a store from other stores.
fn copy_blocks(store: u16, blocks: Blocks<'_>, count: u64, from: &Stores, into: &mut Stores)
    requires same { shape_of into.old ≡ shape_of from.now }
    requires ranges { HaveRanges (shape_of into.old) store (take count (blocks_left blocks)) }
    ensures { CopiesBlocks store (take count (blocks_left blocks.entry)) from.now into.old
        into.new }
{
    let mut blocks = blocks;
    let mut count = count;
    while count > 0 {
        let Some(block) = blocks.next() else {
            return;
        };
        let width = usize::from(block.width);
        into.copy_range(from, store, usize::from(block.offset), width);
        count -= 1;
    }
}

// Sets the question of a block, or tells why it is denied.
fn set_block<'a>(
    policy: Policy<'a, '_>,
    questions: &Questions<'a>,
    store: u16,
    block: Block<'_>,
    working: &mut KeptStores<'a>,
) -> Result<(), Denial>
    requires together { questions.now.ifr ≡ bytes_of policy }
    requires browsed { IsBrowsed policy working.old }
    ensures { SetsBlock policy.entry store (block_view block.entry) working.old working.new result }
{
    let range = field_of(store, block);
    let (question, around) = question_with(policy, questions, range, working)?;
    if range.width <= WIDEST_NUMBER {
        let (mut new, mut old) = ([0; WIDEST_NUMBER], [0; WIDEST_NUMBER]);
        let (new, old) = (&mut new[..range.width], &mut old[..range.width]);
        return set_bytes(policy, store, question, around, block, working, new, old);
    }
    let (mut new, mut old) = ([0; WIDEST_FIELD], [0; WIDEST_FIELD]);
    let (new, old) = (&mut new[..range.width], &mut old[..range.width]);
    set_bytes(policy, store, question, around, block, working, new, old)
}

// Sets the question of a block, which is chosen, or tells why it is denied. There is room for the new bytes of its field, and for
// the old ones.
fn set_bytes<'a, 's>(
    policy: Policy<'a, 's>,
    store: u16,
    question: Question<'a>,
    around: Around<'s, 'a>,
    block: Block<'_>,
    working: &mut KeptStores<'a>,
    new: &mut [u8],
    old: &mut [u8],
) -> Result<(), Denial>
    requires browsed { IsBrowsed policy working.old }
    requires chosen { Chooses policy working.old.stores (block_field store (block_view block))
        (Ok (question, around)) }
    requires new { length new.old ≡ block.width }
    requires old { length old.old ≡ block.width }
    ensures { SetsBlock policy.entry store (block_view block.entry) working.old working.new result }
{
    let range = field_of(store, block);
    block.value_into(new);
    are_bytes(new);
    keep_field(working.stores(), range, old);
    set_value(policy, question, around, Input::Field(new), working, old)?;
    Ok(())
}

// Copies the bytes of a field.
fn keep_field(stores: &Stores, field: FieldRange, into: &mut [u8])
    requires range { HasRange (shape_of stores.now) field.store field.offset field.width }
    requires size { length into.old ≡ field.width }
    ensures { bytes_of_field stores.now field.store field.offset field.width ≡ Some into.new }
{
    let bytes = stores.field(field.store, usize::from(field.offset), field.width);
    into.copy_from_slice(bytes.unwrap());
}

// The question that a block with this field sets, and what stands around it, or why it sets none.
fn question_with<'a, 's>(
    policy: Policy<'a, 's>,
    questions: &Questions<'a>,
    field: FieldRange,
    working: &KeptStores<'a>,
) -> Result<(Question<'a>, Around<'s, 'a>), Denial>
    requires together { questions.now.ifr ≡ bytes_of policy }
    requires browsed { IsBrowsed policy working.now }
    ensures { Chooses policy.entry working.now.stores (range_in field) result }
{
    let Some((question, free)) = first_choice(policy, questions, field, working) else {
        return Err(Denial::by(DenialKind::NoField, 0));
    };
    if question.is_password() {
        return Err(Denial::by(DenialKind::Password, question.place()));
    }
    Ok((question, free?))
}

// Of the questions that have exactly this field the first by place that is not fixed, with what stands around it, or else the first,
// with what fixes it.
fn first_choice<'a, 's>(
    policy: Policy<'a, 's>,
    questions: &Questions<'a>,
    field: FieldRange,
    working: &KeptStores<'a>,
) -> Option<(Question<'a>, Result<Around<'s, 'a>, Denial>)>
    requires together { questions.now.ifr ≡ bytes_of policy }
    requires browsed { IsBrowsed policy working.now }
    ensures { FirstChoice policy.entry working.now.stores (range_in field) result }
{
    let mut first = None;
    let mut sharing = questions.with_field(field);
    while let Some(question) = sharing.next() {
        // Whatever stands around it, this one is fixed.
        if first.is_some() && question.op().is_read_only() {
            continue;
        }
        match working.changeable_question(policy, question) {
            Ok(around) => return Some((question, Ok(around))),
            Err(denial) => {
                if first.is_none() {
                    first = Some((question, Err(denial)));
                }
            }
        }
    }
    first
}
