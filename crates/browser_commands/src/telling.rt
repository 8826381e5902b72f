//! Which blocks of stores are told.

ghost use Rattle.std.specs.Prelude.{◌≡◌};
ghost use Rattle.config_text.specs.code.BlocksLeft.{blocks_left};
ghost use Rattle.config_text.specs.code.Views.{block_view};
ghost use Rattle.ifr_nodes.specs.Nodes.{nodes_of};
ghost use Rattle.guard_policy.specs.code.Answers.{unless};
ghost use Rattle.session_steps.specs.Step.{telling_denial, first_untold};

use config_text::{Block, Blocks};
use guard_policy::Denial;
use hii_questions::{DenialKind, FieldRange, Questions};

/// Whether all of some blocks of a store of so many bytes may be told, or why the first that may not.
pub(crate) fn blocks_told(
    questions: &Questions<'_>,
    store: u16,
    size: usize,
    blocks: Blocks<'_>,
) -> Result<(), Denial>
    ensures { result
        ≡ unless (first_untold (nodes_of questions.now.ifr) store size (blocks_left blocks.entry)) }
{
    let mut blocks = blocks;
    while let Some(block) = blocks.next() {
        block_told(questions, store, size, block)?;
    }
    Ok(())
}

// A block may not be told that leaves the store, or meets the field of a password.
fn block_told(
    questions: &Questions<'_>,
    store: u16,
    size: usize,
    block: Block<'_>,
) -> Result<(), Denial>
    ensures { result
        ≡ unless (telling_denial (nodes_of questions.now.ifr) store size (block_view block.entry)) }
{
    let field = FieldRange {
        store,
        offset: block.offset,
        width: usize::from(block.width),
    };
    if size < usize::from(field.offset) + field.width {
        return Err(Denial::by(DenialKind::NoField, 0));
    }
    match questions.password_in(field) {
        Some(password) => Err(Denial::by(DenialKind::Password, password.place())),
        None => Ok(()),
    }
}
