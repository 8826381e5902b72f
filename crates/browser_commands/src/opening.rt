//! What a session reads of a forms package and of an image when it is opened.

ghost use Rattle.std.specs.Prelude.{◌≡◌, IfOk, IfErr};
ghost use Rattle.browser_commands.specs.code.Opened.{AreHeld, AreRead};
ghost use Rattle.hii_bytes.specs.Faults.{Refuses};
ghost use Rattle.hii_varstore.specs.Faults.{IsImageFault};
ghost use Rattle.session_steps.specs.Opening.{IsFormSetFault, layout_in};

use crate::varstores::Varstores;
use guard_policy::{Policy, Removed};
use hii_bytes::Fault;
use hii_packages::Package;
use hii_questions::Questions;
use hii_varstore::{Layout, Stores};
use ifr_scopes::Forms;
use kept_conditions::KeptStores;
use std::alloc::Global;

/// What a forms package has: its forms, its stores, and its questions.
#[derive(Drop)]
pub(crate) struct FormSetParts<'a> {
    pub(crate) forms: Forms<'a>,
    pub(crate) varstores: Varstores<'a>,
    pub(crate) layout: Layout<'a>,
    pub(crate) questions: Questions<'a>,
}

/// The stores that a session begins with, what is removed over them, and room for the ids of all questions.
#[derive(Drop)]
pub(crate) struct HeldStores<'a> {
    pub(crate) removed: Removed,
    pub(crate) committed: Stores,
    pub(crate) working: KeptStores<'a>,
    pub(crate) spare: Stores,
    pub(crate) changed: Vec<u16>,
}

/// The parts of a forms package, or the least of its faults.
pub(crate) fn read_form_set<'a>(
    alloc: Global,
    source: Package<'a>,
) -> Result<FormSetParts<'a>, Fault>
    ensures forms { IfOk result (λ parts. parts.forms ≡ source.entry.bytes.now) }
    ensures read { IfOk result AreRead }
    ensures refused { IfErr result (Refuses (IsFormSetFault source.entry.bytes.now)) }
{
    let forms = Forms::read(alloc, source)?;
    let varstores = Varstores::read(alloc, &forms)?;
    let layout = Layout::read(alloc, &forms)?;
    let questions = Questions::read(alloc, &forms, &layout)?;
    Ok(FormSetParts {
        forms,
        varstores,
        layout,
        questions,
    })
}

/// The stores that an image spells and what a session holds beside them when it begins, or the least fault of the image.
pub(crate) fn hold_stores<'a>(
    alloc: Global,
    parts: &FormSetParts<'a>,
    image: &[u8],
) -> Result<HeldStores<'a>, Fault>
    requires { AreRead parts.now }
    ensures held { IfOk result (AreHeld parts.now.forms image.now) }
    ensures refused { IfErr result (Refuses (IsImageFault (layout_in parts.now.forms) image.now)) }
{
    let changed = Vec::with_capacity(alloc, parts.questions.count())?;
    let committed = Stores::read(alloc, &parts.layout, image)?;
    let removed = Removed::at_open(alloc, &parts.forms, &parts.questions, &committed)?;
    let policy = Policy::new(&parts.forms, &parts.questions, &removed);
    let working = KeptStores::read(alloc, policy, &parts.questions, committed.copy(alloc)?)?;
    let spare = committed.copy(alloc)?;
    Ok(HeldStores {
        removed,
        committed,
        working,
        spare,
        changed,
    })
}
