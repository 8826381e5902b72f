//! One forms package.

ghost use Rattle.std.specs.Prelude.{◌≡◌, ◌⊎◌, ◌∷◌, ◌+◌, ◌<◌, ◌^◌, List, ℕ, IfErr, IfOk, OnErr, OnOk, Ok, filter, length};
ghost use Rattle.exported_config.specs.Exported.{Response, responses_in};
ghost use Rattle.exported_config.specs.code.Views.{exported_view};
ghost use Rattle.hii_bytes.specs.Faults.{HasNone};
ghost use Rattle.hii_bytes.specs.Watching.{Puts, pen_of};
ghost use Rattle.hii_packages.specs.code.Package.{package_of};
ghost use Rattle.hii_varstore.specs.StoreNodes.{layout_of};
ghost use Rattle.hii_varstore.specs.Stores.{shape_of};
ghost use Rattle.ifr_nodes.specs.Nodes.{is_form, nodes_of};
ghost use Rattle.guard_policy.specs.World.{removed_at};
ghost use Rattle.ifr_nodes.specs.Accepted.{IsAccepted};
ghost use Rattle.ifr_nodes.specs.code.Checked.{IsNodeOf};
ghost use Rattle.ifr_opcodes.specs.Forest.{Node};
ghost use Rattle.ifr_scopes.specs.code.Lists.{form_node};
ghost use Rattle.session_steps.specs.Opening.{IsBrowsable, IsFormSetFault};
ghost use Rattle.question_audit.specs.code.Beginnings.{Begins};
ghost use Rattle.store_commands.specs.Configured as spec;
ghost use Rattle.store_commands.specs.code.Sources.{IsUnsourced};
ghost use Rattle.survey_audit.specs.code.Headings.{heading_of};
ghost use Rattle.survey_commands.specs.Surveying.{BeginsSet, Finding, IsFound, finding_told};
ghost use Rattle.survey_commands.specs.code.Views.{StandsIn, TellsOpened, asked_view};

use crate::asked::Asked;
use exported_config::{ExportedConfig, Unread};
use form_page::Page;
use guard_policy::{Policy, Removed};
use hii_bytes::{Cause, Fault, Watched};
use hii_languages::Languages;
use hii_varstore::Stores;
use hii_varstore::laws::images_are_read_back;
use ifr_scopes::{Form, Forms};
use kept_conditions::KeptStores;
use kept_conditions::laws::what_is_kept_tells_of_the_stores;
use std::alloc::{AllocError, Global};
use std::io::Write;
use store_audit::{Declared, filled, first_unfit};
use store_commands::{StoreFiles, Unsourced, config_in, fillings};
use survey_audit::{Heading, put_fault, put_opened, put_unfit};

// What the configuration text, which has no fault, gives to the stores of a form set.
fn config_for<'t>(
    alloc: Global,
    declared: &Declared<'_>,
    text: &'t [u8],
) -> Result<ExportedConfig<'t>, AllocError>
    requires { (responses : List Response) × (responses_in text.now ≡ Ok responses) }
    ensures { IfOk result (λ config. spec.config_in declared.now text.entry.now ≡ Ok (exported_view config)) }
{
    match config_in(alloc, declared, text) {
        Ok(config) => Ok(config),
        Err(Unread::NoMemory) => Err(AllocError),
        Err(Unread::Bad(_)) => unreachable!(),
    }
}

// The first form of a form set by place.
fn first_form<'a>(forms: &Forms<'a>) -> Form<'a>
    requires { IsAccepted forms.now }
    ensures first { (others : List Node)
        × (filter is_form (nodes_of forms.now) ≡ form_node result ∷ others) }
    ensures node { IsNodeOf forms.now (form_node result) }
{
    forms.forms().next().unwrap()
}

// Tells of a forms package over stores of which the conditions are kept. The one error is that an allocation failed; then the beginning
// of this may be written.
fn put_page<'a, 's, F: StoreFiles, W: Write>(
    alloc: Global,
    asked: &Asked<'_, '_, F>,
    heading: Heading<'_, 'a>,
    languages: &'s Languages<'a>,
    declared: &'s Declared<'a>,
    removed: &'s Removed,
    kept: &'s KeptStores<'a>,
    out: &mut Watched<W>,
) -> Result<(), Fault>
    requires browsable { IsBrowsable declared.now }
    requires laid { shape_of kept.now.stores ≡ layout_of (nodes_of declared.now) }
    requires removed { removed.now ≡ removed_at (nodes_of declared.now) kept.now.stores }
    requires kept { kept.now.ifr ≡ declared.now }
    requires same { declared.now ≡ heading.source.bytes.now }
    requires in_dump { heading.base + length declared.now < 2 ^ 64 }
    ensures told { (list : List ℕ) → StandsIn list heading.entry languages.now
        → OnOk result ((text : List ℕ)
        × TellsOpened (asked_view F.known asked.now) list (heading_of heading.entry) kept.now.stores text
        × Puts W.contents out.old out.new text) }
    ensures begun { (list : List ℕ) → StandsIn list heading.entry languages.now
        → OnErr result ((text : List ℕ)
        × TellsOpened (asked_view F.known asked.now) list (heading_of heading.entry) kept.now.stores text
        × Begins (pen_of W.contents out.old) (pen_of W.contents out.new) text) }
{
    images_are_read_back();
    what_is_kept_tells_of_the_stores();
    let policy = Policy::new(declared.forms(), declared.questions(), removed);
    let page = Page::new(
        first_form(declared.forms()),
        policy,
        declared.questions(),
        kept.stores(),
        languages,
        languages.choose(asked.options.lang.as_bytes()),
        kept.kept(),
    );
    put_opened(alloc, heading, page, asked.letters, out)
}

// Tells of a forms package from which this was removed over these stores. The one error is that an allocation failed; then the beginning of
// this may be written.
fn put_kept<'a, 's, F: StoreFiles, W: Write>(
    alloc: Global,
    asked: &Asked<'_, '_, F>,
    heading: Heading<'_, 'a>,
    languages: &'s Languages<'a>,
    declared: &'s Declared<'a>,
    removed: &'s Removed,
    stores: Stores,
    out: &mut Watched<W>,
) -> Result<(), Fault>
    requires browsable { IsBrowsable declared.now }
    requires laid { shape_of stores ≡ layout_of (nodes_of declared.now) }
    requires removed { removed.now ≡ removed_at (nodes_of declared.now) stores }
    requires same { declared.now ≡ heading.source.bytes.now }
    requires in_dump { heading.base + length declared.now < 2 ^ 64 }
    ensures told { (list : List ℕ) → StandsIn list heading.entry languages.now
        → OnOk result ((text : List ℕ)
        × TellsOpened (asked_view F.known asked.now) list (heading_of heading.entry) stores text
        × Puts W.contents out.old out.new text) }
    ensures begun { (list : List ℕ) → StandsIn list heading.entry languages.now
        → OnErr result ((out.new ≡ out.old) ⊎ ((text : List ℕ)
        × TellsOpened (asked_view F.known asked.now) list (heading_of heading.entry) stores text
        × Begins (pen_of W.contents out.old) (pen_of W.contents out.new) text)) }
{
    // No two stores have one id.
    declared.layout().buffers();
    let policy = Policy::new(declared.forms(), declared.questions(), removed);
    let kept = KeptStores::read(alloc, policy, declared.questions(), stores)?;
    put_page(
        alloc, asked, heading, languages, declared, removed, &kept, out,
    )
}

// Tells of a forms package over these stores. The one error is that an allocation failed; then the beginning of this may be written.
fn put_over<'a, F: StoreFiles, W: Write>(
    alloc: Global,
    asked: &Asked<'_, '_, F>,
    heading: Heading<'_, 'a>,
    languages: &Languages<'a>,
    declared: &Declared<'a>,
    stores: Stores,
    out: &mut Watched<W>,
) -> Result<(), Fault>
    requires browsable { IsBrowsable declared.now }
    requires laid { shape_of stores ≡ layout_of (nodes_of declared.now) }
    requires same { declared.now ≡ heading.source.bytes.now }
    requires in_dump { heading.base + length declared.now < 2 ^ 64 }
    ensures told { (list : List ℕ) → StandsIn list heading.entry languages.now
        → OnOk result ((text : List ℕ)
        × TellsOpened (asked_view F.known asked.now) list (heading_of heading.entry) stores text
        × Puts W.contents out.old out.new text) }
    ensures begun { (list : List ℕ) → StandsIn list heading.entry languages.now
        → OnErr result ((out.new ≡ out.old) ⊎ ((text : List ℕ)
        × TellsOpened (asked_view F.known asked.now) list (heading_of heading.entry) stores text
        × Begins (pen_of W.contents out.old) (pen_of W.contents out.new) text)) }
{
    let removed = Removed::at_open(alloc, declared.forms(), declared.questions(), &stores)?;
    put_kept(
        alloc, asked, heading, languages, declared, &removed, stores, out,
    )
}

// Tells of a forms package without a fault, over what its stores are given.
fn put_declared<'a, F: StoreFiles, W: Write>(
    alloc: Global,
    asked: &Asked<'_, '_, F>,
    heading: Heading<'_, 'a>,
    languages: &Languages<'a>,
    declared: &Declared<'a>,
    out: &mut Watched<W>,
) -> Result<(), Unsourced>
    requires browsable { IsBrowsable declared.now }
    requires sound { HasNone (IsFormSetFault heading.source.bytes.now) }
    requires same { declared.now ≡ heading.source.bytes.now }
    requires in_dump { heading.base + length declared.now < 2 ^ 64 }
    requires config { (responses : List Response) × (responses_in asked.now.text.now ≡ Ok responses) }
    ensures told { (list : List ℕ) → StandsIn list heading.entry languages.now
        → OnOk result ((finding : Finding)
        × IsFound (asked_view F.known asked.now) list heading.entry.number (package_of heading.entry.source) finding
        × Puts W.contents out.old out.new (finding_told (asked_view F.known asked.now) (heading_of heading.entry) finding)) }
    ensures begun { (list : List ℕ) → StandsIn list heading.entry languages.now
        → OnErr result ((text : List ℕ)
        × BeginsSet (asked_view F.known asked.now) list (heading_of heading.entry) text
        × Puts W.contents out.old out.new text) }
    ensures err { IfErr result IsUnsourced }
{
    let config = config_for(alloc, declared, asked.text)?;
    let fillings = fillings(
        alloc,
        asked.files,
        declared,
        &asked.options.sources,
        &config,
    )?;
    let given = fillings.as_slice();
    if let Some(filling) = first_unfit(given) {
        put_unfit(heading, filling, out);
        return Ok(());
    }
    let Ok(stores) = filled(alloc, declared, given) else {
        return Err(Unsourced::NoMemory);
    };
    match put_over(alloc, asked, heading, languages, declared, stores, out) {
        Ok(()) => Ok(()),
        Err(_) => Err(Unsourced::NoMemory),
    }
}

/// Tells what is found of a forms package of a list, of whose string packages these are the texts. Where an allocation fails or a file is
/// not read, the beginning of this may be written.
pub(crate) fn put_set<'a, F: StoreFiles, W: Write>(
    alloc: Global,
    asked: &Asked<'_, '_, F>,
    heading: Heading<'_, 'a>,
    languages: &Languages<'a>,
    out: &mut Watched<W>,
) -> Result<(), Unsourced>
    requires in_dump { heading.base + length heading.source.bytes.now < 2 ^ 64 }
    requires config { (responses : List Response) × (responses_in asked.now.text.now ≡ Ok responses) }
    ensures told { (list : List ℕ) → StandsIn list heading.entry languages.now
        → OnOk result ((finding : Finding)
        × IsFound (asked_view F.known asked.now) list heading.entry.number (package_of heading.entry.source) finding
        × Puts W.contents out.old out.new (finding_told (asked_view F.known asked.now) (heading_of heading.entry) finding)) }
    ensures begun { (list : List ℕ) → StandsIn list heading.entry languages.now
        → OnErr result ((text : List ℕ)
        × BeginsSet (asked_view F.known asked.now) list (heading_of heading.entry) text
        × Puts W.contents out.old out.new text) }
    ensures err { IfErr result IsUnsourced }
{
    match Declared::of_package(alloc, heading.source) {
        Ok(declared) => put_declared(alloc, asked, heading, languages, &declared, out),
        Err(fault) if fault.cause == Cause::OutOfMemory => Err(Unsourced::NoMemory),
        Err(fault) => {
            put_fault(heading, fault, out);
            Ok(())
        }
    }
}
