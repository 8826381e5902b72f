//! Commands and the lines that spell them.

ghost use Rattle.std.specs.Prelude.{◌≡◌, ◌⊎◌, ℕ, List};
ghost use Rattle.hii_bytes.specs.Watching.{Puts};
ghost use Rattle.ifr_nodes.specs.Nodes.{nodes_of};
ghost use Rattle.hii_commands.specs.Meaning.{command_meant, HasList};
ghost use Rattle.hii_commands.specs.code.Held.{held_of};
ghost use Rattle.browser_rules.specs.Script as script;
ghost use Rattle.session_steps.specs.Renewed.{opened, shown_after, shown_line, writes_of};
ghost use Rattle.browser_commands.specs.code.Counting.{counted_all};
ghost use Rattle.session_steps.specs.Step as steps;
ghost use Rattle.session_steps.specs.Step.{step, step_line, denied};
ghost use Rattle.browser_commands.specs.code.Standing.{answered};

use crate::browser::Browser;
use crate::change::OfNumbers;
use crate::texts::{put_denial, put_done, put_refusal};
use guard_policy::Denial;
use hii_bytes::{Cause, Watched};
use hii_commands::{Command, LineBuffer, is_blank, read_line};
use hii_questions::Input;
use session_steps::Reply;
use std::io::Write;

impl<'a> Browser<'a> {
    /// Carries the command out and writes its text as far as the writer takes it.
    pub fn carry_out<W: Write>(&mut self, command: Command<'_>, out: &mut Watched<W>) -> Reply
        requires { HasList command }
        ensures shown { self.new ≡ shown_after self.old (command_meant command.entry) }
        ensures text { Puts W.contents out.old out.new
            (step self.old.state (command_meant command.entry)).text }
        ensures reply { result ≡ (step self.old.state (command_meant command.entry)).reply }
    {
        self.count_anew();
        match command {
            // What scripts say most takes no further call.
            Command::Set { question, value } => {
                self.set::<OfNumbers, W>(question, Input::Number(value), out)
            }
            Command::Why(question) => self.answer(self.why(question), out),
            other => self.obey(other, out),
        }
    }

    /// Carries the line that is held out and writes its text as far as the writer takes it; or writes why it is refused.
    pub fn run_line<W: Write>(&mut self, line: &LineBuffer, out: &mut Watched<W>)
        ensures shown { (bytes : List ℕ) → line.now ≡ held_of bytes
            → self.new ≡ shown_line self.old bytes }
        ensures text { (bytes : List ℕ) → line.now ≡ held_of bytes
            → Puts W.contents out.old out.new (step_line self.old.state bytes).text }
        // Whatever is held, no more than a line is carried out.
        ensures one { (self.new ≡ self.old)
            ⊎ ((bytes : List ℕ) × (self.new ≡ shown_line self.old bytes)) }
    {
        match line.line() {
            Ok(bytes) => self.run_bytes(bytes, out),
            Err(bad) => put_refusal(bad.cause(), out),
        }
    }

    /// The same of a line that is given: nothing is done where it is blank.
    // Lines are read and carried out in this one place, so that what that takes is inlined.
    #[inline(never)]
    pub fn run_bytes<W: Write>(&mut self, line: &[u8], out: &mut Watched<W>)
        ensures shown { self.new ≡ shown_line self.old line.now }
        ensures text { Puts W.contents out.old out.new (step_line self.old.state line.now).text }
    {
        if is_blank(line) {
            return;
        }
        match read_line(line) {
            Ok(command) => {
                self.carry_out(command, out);
            }
            Err(bad) => put_refusal(bad.cause(), out),
        }
    }

    // Begins to count the conditions that are evaluated anew.
    fn count_anew(&mut self)
        ensures { self.new ≡ opened self.old.state }
    {
        self.working.count_anew();
    }

    // Carries the command out, writes its text and counts on.
    fn obey<W: Write>(&mut self, command: Command<'_>, out: &mut Watched<W>) -> Reply
        requires { HasList command }
        ensures state { self.new.state ≡ (step self.old.state (command_meant command.entry)).state }
        ensures text { Puts W.contents out.old out.new
            (step self.old.state (command_meant command.entry)).text }
        ensures reply { result ≡ (step self.old.state (command_meant command.entry)).reply }
        ensures renewed { self.new.renewed ≡ counted_all self.old.renewed
            (nodes_of self.old.state.ifr)
            (writes_of self.old.state (command_meant command.entry)) }
    {
        match command {
            Command::Page => {
                self.put_page(out);
                Reply::Accepted
            }
            Command::Set { question, value } => self.set_apart(question, Input::Number(value), out),
            Command::Order { question, list } => self.set_apart(question, Input::List(list), out),
            Command::Text { question, text } => self.set_apart(question, Input::Utf8(text), out),
            Command::Go(question) => {
                let followed = self.follow(question);
                self.answer(followed, out)
            }
            Command::Back => {
                let left = self.go_back();
                self.answer(left, out)
            }
            Command::Press(row) => self.press(row, out),
            Command::Defaults(class) => self.take_defaults(class, out),
            Command::Extract(text) => self.extract(text, out),
            Command::Route(text) => self.route(text, out),
            Command::Why(question) => self.answer(self.why(question), out),
            Command::Lang(language) => {
                self.choose_language(language);
                put_done(out);
                Reply::Accepted
            }
            Command::Submit => self.submit(out),
            Command::Discard => {
                self.discard();
                out.put(b"OK\n");
                Reply::Accepted
            }
        }
    }

    // Shows the texts of the string package that is chosen for a language.
    fn choose_language(&mut self, language: &[u8])
        ensures state { self.new.state ≡ (step self.old.state (script.Lang language.now)).state }
        ensures renewed { self.new.renewed ≡ self.old.renewed }
    {
        self.language = self.languages.choose(language);
    }

    // Writes that a command was carried out, or why it is denied.
    fn answer<W: Write>(&self, done: Result<(), Denial>, out: &mut Watched<W>) -> Reply
        ensures text { Puts W.contents out.old out.new (answered self.now.state done).text }
        ensures reply { result ≡ (answered self.now.state done).reply }
    {
        match done {
            Ok(()) => {
                put_done(out);
                Reply::Accepted
            }
            Err(denial) => self.deny(denial, out),
        }
    }

    // Writes why a command is denied.
    pub(crate) fn deny<W: Write>(&self, denial: Denial, out: &mut Watched<W>) -> Reply
        ensures text { Puts W.contents out.old out.new (denied self.now.state denial).text }
        ensures reply { result ≡ Reply.Denied denial }
    {
        let message = self.languages.text(self.language, denial.message);
        put_denial(denial, message.chars(), out);
        Reply::Denied(denial)
    }

    // Writes by which cause a text in a command is refused.
    pub(crate) fn refuse<W: Write>(&self, cause: Cause, out: &mut Watched<W>) -> Reply
        ensures text { Puts W.contents out.old out.new (steps.refused self.now.state cause).text }
        ensures reply { result ≡ Reply.Refused cause }
    {
        put_refusal(cause, out);
        Reply::Refused(cause)
    }
}
