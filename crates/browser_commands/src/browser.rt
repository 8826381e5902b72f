//! A form set that is browsed.

ghost use Rattle.std.specs.Prelude.{◌≡◌, ◌∷◌, List, filter, IfOk, IfErr};
ghost use Rattle.hii_bytes.specs.Faults.{Refuses, IsLeast, out_of_memory};
ghost use Rattle.hii_packages.specs.code.Package.{package_of};
ghost use Rattle.ifr_opcodes.specs.Forest.{Node};
ghost use Rattle.ifr_nodes.specs.Accepted.{IsAccepted};
ghost use Rattle.ifr_nodes.specs.code.Checked.{IsNodeOf};
ghost use Rattle.ifr_scopes.specs.code.Lists.{form_node};
ghost use Rattle.ifr_nodes.specs.Nodes.{nodes_of, is_form};
ghost use Rattle.hii_languages.specs.code.Views.{choice_of};
ghost use Rattle.guard_policy.specs.code.Views.{bytes_of};
ghost use Rattle.session_steps.specs.Renewed.{Shown, opened};
ghost use Rattle.session_steps.specs.State.{State};
ghost use Rattle.session_steps.specs.Opening.{HasSource, Opens, IsOpenFault, IsSourceFault};

use crate::history::History;
use crate::opening::{hold_stores, read_form_set};
use crate::varstores::Varstores;
use guard_policy::{Denial, Policy, Removed};
use hii_bytes::Fault;
use hii_languages::{Choice, Languages};
use hii_packages::{Package, PackageList};
use hii_questions::Questions;
use hii_varstore::Stores;
use ifr_scopes::{Form, Forms};
use kept_conditions::KeptStores;
use std::alloc::Global;
use std::marker::Model;

/// A form set, the stores as they were last submitted, the stores that commands read and change, the current form, and those
/// that references have led away from.
pub struct Browser<'a> {
    pub(crate) forms: Forms<'a>,
    // the body of the list's first DEVICE_PATH package, or empty
    pub(crate) path: &'a [u8],
    pub(crate) varstores: Varstores<'a>,
    pub(crate) languages: Languages<'a>,
    pub(crate) language: Choice,
    pub(crate) questions: Questions<'a>,
    pub(crate) removed: Removed,
    pub(crate) committed: Stores,
    pub(crate) working: KeptStores<'a>,
    // what the working stores held before a command
    pub(crate) spare: Stores,
    // whether the working stores may hold other bytes than when they were last submitted
    pub(crate) is_written: bool,
    // whether the working stores may be submitted, where this was asked since they were written
    pub(crate) submission: Option<Result<(), Denial>>,
    // the ids of the questions that a submit tells, with room for all
    pub(crate) changed: Vec<u16>,
    pub(crate) form: Form<'a>,
    pub(crate) history: History,
}

impl<'a> Drop for Browser<'a> {
    fn drop(self) {
        let Browser {
            forms: _,
            path: _,
            varstores: _,
            languages: _,
            language: _,
            questions: _,
            removed: _,
            committed: _,
            working: _,
            spare: _,
            is_written: _,
            submission: _,
            changed: _,
            form: _,
            history: _,
        } = self;
    }
}

impl<'a> Model for Browser<'a> {
    ghost use Rattle.std.specs.Prelude.{vec_capacity};
    ghost use Rattle.hii_languages.specs.code.Views.{choice_of};
    ghost use Rattle.ifr_scopes.specs.code.Lists.{form_node};
    ghost use Rattle.session_steps.specs.Renewed.{Shown};
    ghost use Rattle.browser_commands.specs.code.Standing.{Stands};

    ghost Value = { Shown };

    ghost view = { λ c. record {
      state = record {
        ifr = c.forms;
        path = c.path.now;
        removed = c.removed;
        spoken = c.languages;
        language = choice_of c.language;
        committed = c.committed;
        working = c.working.stores;
        form = (form_node c.form).place;
        history = c.history.items;
      };
      renewed = c.working.renewed;
    } };

    ghost invariant = { λ c. Stands c.forms c.varstores c.questions c.committed c.working c.spare
        c.is_written (vec_capacity c.changed) (form_node c.form) c.history.items c.removed
        c.submission };
}

impl<'a> Browser<'a> {
    /// The forms package of a number in a list, over the image of its stores, at its first form; or the least fault of
    /// these bytes. Texts are those of the string package that is chosen for the language.
    pub fn open(
        alloc: Global,
        list: &'a [u8],
        forms: usize,
        stores: &[u8],
        lang: &[u8],
    ) -> Result<Browser<'a>, Fault>
        ensures opened { IfOk result (λ core. Opens list.entry.now forms stores.now lang.now core.state
            × (core.renewed ≡ 0)) }
        ensures refused { IfErr result (Refuses (IsOpenFault list.entry.now forms stores.now)) }
        // Where the bytes open a session, nothing but an allocation that fails refuses it.
        ensures accepted { (start : State) → Opens list.entry.now forms stores.now lang.now start
            → IfErr result (λ fault. fault ≡ out_of_memory) }
    {
        let found = find_source(list, forms)?;
        let languages = Languages::read(alloc, &found.packages)?;
        let parts = read_form_set(alloc, found.forms)?;
        let held = hold_stores(alloc, &parts, stores)?;
        let form = first_form(&parts.forms);
        let language = languages.choose(lang);
        Ok(Browser {
            forms: parts.forms,
            path: found.packages.device_path(),
            varstores: parts.varstores,
            languages,
            language,
            questions: parts.questions,
            removed: held.removed,
            committed: held.committed,
            working: held.working,
            spare: held.spare,
            is_written: false,
            submission: None,
            changed: held.changed,
            form,
            history: History::new(),
        })
    }

    /// The stores as they were last submitted, or opened.
    pub fn committed(&self) -> &Stores
        ensures { result.now ≡ self.now.state.committed }
    {
        &self.committed
    }

    /// The stores that commands read and change.
    pub fn working(&self) -> &Stores
        ensures { result.now ≡ self.now.state.working }
    {
        self.working.stores()
    }

    /// How many conditions the last command evaluated anew, at most 2^64 - 1.
    pub fn renewed(&self) -> u64
        ensures { result ≡ self.now.renewed }
    {
        self.working.renewed()
    }

    // What decides over the form set.
    pub(crate) fn policy(&self) -> Policy<'a, '_>
        ensures bytes { bytes_of result ≡ self.now.state.ifr }
        ensures removed { result.removed.now ≡ self.now.state.removed }
    {
        Policy::new(&self.forms, &self.questions, &self.removed)
    }
}

// The packages of a list, and the forms package of a number among them.
#[derive(Drop)]
struct Source<'a> {
    packages: PackageList<'a>,
    forms: Package<'a>,
}

// The packages of a list, with the forms package of a number.
fn find_source(list: &[u8], number: usize) -> Result<Source<'_>, Fault>
    ensures read { IfOk result (λ source. source.packages ≡ list.now) }
    ensures found { IfOk result (λ source. HasSource list.now number (package_of source.forms)) }
    ensures refused { IfErr result (IsLeast (IsSourceFault list.now number)) }
{
    let packages = PackageList::read(list)?;
    let forms = packages.forms(number)?;
    Ok(Source { packages, forms })
}

// The first form, by place.
fn first_form<'a>(forms: &Forms<'a>) -> Form<'a>
    requires { IsAccepted forms.now }
    ensures first { (others : List Node)
        × (filter is_form (nodes_of forms.now) ≡ form_node result ∷ others) }
    ensures node { IsNodeOf forms.now (form_node result) }
{
    forms.forms().next().unwrap()
}
