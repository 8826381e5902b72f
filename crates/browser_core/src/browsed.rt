//! A form set that is browsed, by the chapters of `browser_rules`.

ghost use Rattle.std.specs.Prelude.{◌≡◌, ℕ, List, [], Some, IfOk, IfErr};
ghost use Rattle.browser_rules.specs.Faults.{open_faults};
ghost use Rattle.browser_rules.specs.Forest.{nodes_of};
ghost use Rattle.browser_rules.specs.Script as script;
ghost use Rattle.browser_rules.specs.Session.{step, step_line};
ghost use Rattle.browser_rules.specs.Stores as stores;
ghost use Rattle.hii_bytes.specs.Watching.{Puts};
ghost use Rattle.hii_commands.specs.Meaning.{command_meant, HasList};
ghost use Rattle.hii_commands.specs.code.Held.{held_of};
ghost use Rattle.hii_languages.specs.code.Views.{choice_of};
ghost use Rattle.hii_questions.specs.Fields.{questions};
ghost use Rattle.hii_questions.specs.code.LyingIn.{LieIn};
ghost use Rattle.hii_varstore.specs.Image.{image_of};
ghost use Rattle.hii_varstore.specs.Stores.{shape_of};
ghost use Rattle.ifr_scopes.specs.code.Lists.{form_node};
ghost use Rattle.guard_policy.specs.code.Views.{bytes_of};
ghost use Rattle.form_page.specs.Pages.{page_text};
ghost use Rattle.form_page.specs.code.PageViews as pages;
ghost use Rattle.rules_laws.specs.laws.Stores.{stores_for};
ghost use Rattle.session_steps.specs.State.{State, texts, world_of};
ghost use Rattle.session_steps.specs.Step.{form_of};
ghost use Rattle.session_laws.specs.laws.Session.{state_for};
ghost use Rattle.session_laws.specs.Replies.{reply_for};
ghost use Rattle.browser_core.specs.Opening.{IsOfMemory, Opens, RefusesOpening};
ghost use Rattle.browser_core.specs.Shown.{shown_after, shown_line};

use browser_commands::Browser;
use form_page::Page;
use hii_bytes::laws::are_bytes;
use hii_bytes::{Fault, Watched};
use hii_commands::{Command, LineBuffer};
use hii_varstore::Stores;
use kept_conditions::Kept;
use session_steps::Reply;
use std::alloc::Global;
use std::io::Write;
use std::marker::Model;

/// A form set that is browsed, seen as the state that the chapters speak of.
#[derive(Drop)]
pub(crate) struct Browsed<'a> {
    browser: Browser<'a>,
}

impl<'a> Model for Browsed<'a> {
    ghost use Rattle.browser_core.specs.Shown.{Shown};
    ghost use Rattle.session_laws.specs.laws.Session.{Stands, state_for};

    ghost Value = { Shown };

    ghost view = { λ c. record {
      state = state_for c.browser.state;
      renewed = c.browser.renewed;
    } };

    ghost invariant = { λ c. Stands c.browser.state };
}

impl<'a> Browsed<'a> {
    /// The forms package of a number in a list, over the image of its stores, at its first form; or the least fault of
    /// these bytes. Texts are those of the string package that is chosen for the language.
    pub(crate) fn open(
        alloc: Global,
        list: &'a [u8],
        forms: usize,
        stores: &[u8],
        lang: &[u8],
    ) -> Result<Browsed<'a>, Fault>
        ensures opened { IfOk result (λ core. Opens list.entry.now forms stores.now lang.now core.state
            × (core.renewed ≡ 0)) }
        ensures refused { IfErr result (RefusesOpening list.entry.now forms stores.now) }
        // Where the bytes have no fault, nothing but an allocation that fails refuses them.
        ensures accepted { open_faults list.entry.now forms stores.now ≡ []
            → IfErr result IsOfMemory }
    {
        are_bytes(list);
        are_bytes(stores);
        let browser = Browser::open(alloc, list, forms, stores, lang)?;
        Ok(Browsed { browser })
    }

    pub(crate) fn committed(&self) -> &Stores
        ensures held { stores_for result.now ≡ self.now.state.committed }
        ensures image { image_of result.now
            ≡ stores.image_of (stores.shape_of (nodes_of self.now.state.ifr)).guid
            self.now.state.committed }
    {
        self.browser.committed()
    }

    pub(crate) fn working(&self) -> &Stores
        ensures held { stores_for result.now ≡ self.now.state.working }
        ensures image { image_of result.now
            ≡ stores.image_of (stores.shape_of (nodes_of self.now.state.ifr)).guid
            self.now.state.working }
    {
        self.browser.working()
    }

    /// How many conditions the last command evaluated anew, at most 2^64 - 1.
    pub(crate) fn renewed(&self) -> u64
        ensures { result ≡ self.now.renewed }
    {
        self.browser.renewed()
    }

    /// The page of the current form, by what is kept of conditions.
    pub(crate) fn page(&self) -> Page<'a, '_, Kept<'a>>
        ensures text { page_text (pages.texts_of result) (pages.world_of result) result.stores.now
            (form_node result.form)
            ≡ (step self.now.state script.Page).text }
        ensures shows { (s : State) × (self.now.state ≡ state_for s)
            × (form_of s ≡ Some (form_node result.form))
            × (bytes_of result.policy ≡ s.ifr)
            × (pages.world_of result ≡ world_of s)
            × (result.stores.now ≡ s.working)
            × (pages.texts_of result ≡ texts s)
            × (result.languages.now ≡ s.spoken)
            × (choice_of result.choice ≡ s.language)
            × LieIn (shape_of s.working) (questions (nodes_of s.ifr)) }
    {
        self.browser.page()
    }

    /// Carries the command out and writes its text as far as the writer takes it.
    pub(crate) fn carry_out<W: Write>(
        &mut self,
        command: Command<'_>,
        out: &mut Watched<W>,
    ) -> Reply
        requires { HasList command }
        ensures shown { self.new ≡ shown_after self.old (command_meant command.entry) }
        ensures text { Puts W.contents out.old out.new
            (step self.old.state (command_meant command.entry)).text }
        ensures reply { reply_for result
            ≡ (step self.old.state (command_meant command.entry)).reply }
    {
        self.browser.carry_out(command, out)
    }

    /// Carries the line that is held out and writes its text as far as the writer takes it; or writes why it is refused.
    pub(crate) fn run_line<W: Write>(&mut self, line: &LineBuffer, out: &mut Watched<W>)
        ensures shown { (bytes : List ℕ) → line.now ≡ held_of bytes
            → self.new ≡ shown_line self.old bytes }
        ensures text { (bytes : List ℕ) → line.now ≡ held_of bytes
            → Puts W.contents out.old out.new (step_line self.old.state bytes).text }
    {
        self.browser.run_line(line, out);
    }

    /// The same of a line that is given.
    pub(crate) fn run_bytes<W: Write>(&mut self, line: &[u8], out: &mut Watched<W>)
        ensures shown { self.new ≡ shown_line self.old line.now }
        ensures text { Puts W.contents out.old out.new (step_line self.old.state line.now).text }
    {
        self.browser.run_bytes(line, out);
    }
}
