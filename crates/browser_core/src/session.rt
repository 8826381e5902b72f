//! A session over a package list and the image of its stores.

ghost use Rattle.std.specs.Prelude.{◌≡◌, [], true, false, Err, Some, IfOk, IfErr, IfSome, OnOk};
ghost use Rattle.std.specs.Io.KnownBytes.{Appends};
ghost use Rattle.browser_rules.specs.Faults.{open_faults};
ghost use Rattle.browser_rules.specs.Forest.{nodes_of};
ghost use Rattle.browser_rules.specs.Headline.{after_lines, text_of_script};
ghost use Rattle.browser_rules.specs.Script as script;
ghost use Rattle.browser_rules.specs.Script.{lines_run};
ghost use Rattle.browser_rules.specs.Session.{step};
ghost use Rattle.browser_rules.specs.Stores as stores;
ghost use Rattle.hii_bytes.specs.Watching.{pen_of, inner_of, has_failed, has_passed_on, Tells};
ghost use Rattle.hii_commands.specs.Meaning.{command_meant, HasList};
ghost use Rattle.hii_languages.specs.code.Views.{choice_of};
ghost use Rattle.hii_questions.specs.Fields.{questions};
ghost use Rattle.hii_questions.specs.code.LyingIn.{LieIn};
ghost use Rattle.hii_varstore.specs.Image.{image_of};
ghost use Rattle.hii_varstore.specs.Stores.{shape_of};
ghost use Rattle.ifr_scopes.specs.code.Lists.{form_node};
ghost use Rattle.guard_policy.specs.code.Views.{bytes_of};
ghost use Rattle.form_page.specs.Pages.{page_text};
ghost use Rattle.form_page.specs.code.PageViews as pages;
ghost use Rattle.rules_laws.specs.laws.Stores.{stores_for};
ghost use Rattle.session_steps.specs.State.{State, texts, world_of};
ghost use Rattle.session_steps.specs.Step.{form_of};
ghost use Rattle.session_laws.specs.laws.Session.{state_for};
ghost use Rattle.session_laws.specs.Replies.{reply_for};
ghost use Rattle.browser_core.specs.Opening.{IsOfMemory, Opens, RefusesOpening};
ghost use Rattle.browser_core.specs.Run.{Runs, end_of};
ghost use Rattle.browser_core.specs.Shown.{shown_after};

use crate::browsed::Browsed;
use crate::script::run_all;
use form_page::Page;
use hii_bytes::{Fault, Watched, WriteFault};
use hii_commands::{Command, LineBuffer};
use hii_varstore::Stores;
use kept_conditions::Kept;
use session_steps::{End, Reply, RunFault};
use std::alloc::Global;
use std::io::{Read, Write};
use std::marker::Model;

/// A form set that is browsed: the stores as they were last submitted, the stores that commands read and change, and the
/// current form.
#[derive(Drop)]
pub struct Session<'a> {
    core: Browsed<'a>,
    line: LineBuffer,
}

impl<'a> Model for Session<'a> {
    ghost use Rattle.browser_core.specs.Shown.{Shown};

    ghost Value = { Shown };

    ghost view = { λ s. s.core };
}

impl<'a> Session<'a> {
    /// Opens the forms package of this number, counted from 1, of a list, over the image of its stores, with texts in a
    /// language; or the least fault of these bytes. It takes all memory that the session ever takes.
    pub fn open(
        alloc: Global,
        list: &'a [u8],
        forms: usize,
        stores: &[u8],
        lang: &[u8],
    ) -> Result<Session<'a>, Fault>
        ensures opened { IfOk result (λ session. Opens list.entry.now forms stores.now lang.now
            session.state × (session.renewed ≡ 0)) }
        ensures refused { IfErr result (RefusesOpening list.entry.now forms stores.now) }
        // Where the bytes have no fault, nothing but an allocation that fails refuses them.
        ensures accepted { open_faults list.entry.now forms stores.now ≡ []
            → IfErr result IsOfMemory }
    {
        let core = Browsed::open(alloc, list, forms, stores, lang)?;
        let line = LineBuffer::new(alloc)?;
        Ok(Session { core, line })
    }

    /// The stores as they were last submitted, or opened.
    pub fn committed(&self) -> &Stores
        ensures held { stores_for result.now ≡ self.now.state.committed }
        ensures image { image_of result.now
            ≡ stores.image_of (stores.shape_of (nodes_of self.now.state.ifr)).guid
            self.now.state.committed }
    {
        self.core.committed()
    }

    /// The stores that commands read and change.
    pub fn working(&self) -> &Stores
        ensures held { stores_for result.now ≡ self.now.state.working }
        ensures image { image_of result.now
            ≡ stores.image_of (stores.shape_of (nodes_of self.now.state.ifr)).guid
            self.now.state.working }
    {
        self.core.working()
    }

    /// How many conditions the last command evaluated anew: for each write of it those of SUPPRESS_IF, GRAY_OUT_IF and NO_SUBMIT_IF
    /// that depend on a question whose field has one of the written bytes, at most 2^64 - 1; 0 before the first command.
    pub fn renewed(&self) -> u64
        ensures { result ≡ self.now.renewed }
    {
        self.core.renewed()
    }

    /// The page of the current form over the working stores.
    pub fn page(&self) -> Page<'a, '_, Kept<'a>>
        ensures text { page_text (pages.texts_of result) (pages.world_of result) result.stores.now
            (form_node result.form)
            ≡ (step self.now.state script.Page).text }
        ensures shows { (s : State) × (self.now.state ≡ state_for s)
            × (form_of s ≡ Some (form_node result.form))
            × (bytes_of result.policy ≡ s.ifr)
            × (pages.world_of result ≡ world_of s)
            × (result.stores.now ≡ s.working)
            × (pages.texts_of result ≡ texts s)
            × (result.languages.now ≡ s.spoken)
            × (choice_of result.choice ≡ s.language)
            × LieIn (shape_of s.working) (questions (nodes_of s.ifr)) }
    {
        self.core.page()
    }

    /// Carries the command out, and then writes its text, without a flush. Where the writer fails, the command is carried out
    /// all the same, and `WriteFault::written` is how many bytes of the text were written, from the first on.
    pub fn run<W: Write>(
        &mut self,
        command: Command<'_>,
        out: &mut Watched<W>,
    ) -> Result<Reply, WriteFault>
        requires { HasList command }
        ensures shown { self.new ≡ shown_after self.old (command_meant command.entry) }
        ensures text { Tells (pen_of W.contents out.old) (pen_of W.contents out.new) result
            (step self.old.state (command_meant command.entry)).text }
        ensures reply { IfOk result (λ reply. reply_for reply
            ≡ (step self.old.state (command_meant command.entry)).reply) }
    {
        out.restart();
        let reply = self.core.carry_out(command, out);
        if out.failed() {
            return Err(WriteFault {
                written: out.taken(),
            });
        }
        Ok(reply)
    }

    /// Runs the lines of a script, each complete line of a piece of at most 512 bytes before the next is read. It reads
    /// at most 1,048,577 bytes. The answers are flushed before each read and at the end.
    ///
    /// `TooLong` is a script of more than 1,048,576 bytes: the lines whose LF is among these were run, an answer tells it,
    /// and what stands behind one byte more is not read. `RunFault::Read` is a reader that failed: the lines whose LF was
    /// read were run, and their answers are written and flushed. `RunFault::Write` is a writer that failed, at a write or a
    /// flush: the lines whose LF stands before the last 512 bytes that were read were run, and maybe some behind them, and
    /// of the answers to all of these at most the last is not written whole.
    pub fn run_script<R: Read, W: Write>(
        &mut self,
        script: &mut Watched<R>,
        out: &mut Watched<W>,
    ) -> Result<End, RunFault>
        // The whole run, where the script's bytes are known.
        ensures whole { IfSome (R.remaining (inner_of script.old)) (λ bytes. IfOk result (λ end.
            (end ≡ end_of bytes) × (self.new.state ≡ after_lines self.old.state (lines_run bytes))
            × Appends (W.contents (inner_of out.old)) (W.contents (inner_of out.new))
            (text_of_script self.old.state bytes))) }
        // At any reader and writer, and at their faults.
        ensures run { Runs self.old (pen_of W.contents out.old)
            (R.remaining (inner_of script.old)) result
            self.new (pen_of W.contents out.new) (R.remaining (inner_of script.new)) }
        ensures reads { result ≡ Err RunFault.Read → has_failed script.new ≡ true }
        ensures writes { result ≡ Err RunFault.Write → has_failed out.new ≡ true }
        ensures sound { IfOk result (λ end. has_failed script.new ≡ false) }
        // No answer is held back, but where the writer fails.
        ensures passed_on { OnOk result (has_passed_on out.new ≡ true) }
        ensures passed_on_before_reads { result ≡ Err RunFault.Read → has_passed_on out.new ≡ true }
    {
        run_all(&mut self.core, &mut self.line, script, out)
    }
}
