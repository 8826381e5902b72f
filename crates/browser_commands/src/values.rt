//! What forbids a change of a question, and new values of questions.

ghost use Rattle.std.specs.Prelude.{◌≡◌, Some};
ghost use Rattle.hii_bytes.specs.Watching.{Puts};
ghost use Rattle.ifr_nodes.specs.code.Checked.{IsNodeOf};
ghost use Rattle.ifr_scopes.specs.code.Lists.{statement_node};
ghost use Rattle.ifr_nodes.specs.Nodes.{nodes_of};
ghost use Rattle.hii_varstore.specs.Stores.{shape_of};
ghost use Rattle.hii_values.specs.code.Offers.{offer_of};
ghost use Rattle.hii_questions.specs.Fields.{question_with};
ghost use Rattle.hii_questions.specs.code.Views.{question_node, question_view};
ghost use Rattle.guard_policy.specs.Policy.{fixed};
ghost use Rattle.guard_policy.specs.code.Answers.{unless};
ghost use Rattle.session_steps.specs.Renewed.{field_writes, named_if};
ghost use Rattle.session_steps.specs.State.{world_of};
ghost use Rattle.browser_commands.specs.code.Counting.{counted_all};
ghost use Rattle.session_steps.specs.Step.{why_question, set_question};
ghost use Rattle.browser_commands.specs.code.Standing.{IsQuestionIn, Finds, Changes, Sets, IsOffered, answered, written_of};
ghost use Rattle.session_steps.specs.Opening.{layout_in, IsBrowsable};

use crate::browser::Browser;
use crate::change::{OfBytes, give_value};
use crate::texts::{put_done, put_warnings};
use guard_policy::{Denial, Policy};
use hii_bytes::Watched;
use hii_questions::{DenialKind, Input, Question};
use ifr_scopes::Statement;
use session_steps::Reply;
use std::io::Write;

impl<'a> Browser<'a> {
    // The question of an id.
    #[inline(always)]
    pub(crate) fn find(&self, id: u16) -> Result<Question<'a>, Denial>
        ensures { Finds self.now.state id result }
    {
        match self.questions.find(id) {
            Some(question) => Ok(question),
            None => Err(Denial::by(DenialKind::NoQuestion, 0)),
        }
    }

    // Whether a statement may be changed.
    pub(crate) fn changeable(&self, statement: Statement<'a>) -> Result<(), Denial>
        requires { IsNodeOf self.now.state.ifr (statement_node statement) }
        ensures denied { result
            ≡ unless (fixed (world_of self.now.state) (statement_node statement.entry)) }
        ensures browsable { IsBrowsable self.now.state.ifr }
        ensures laid { shape_of self.now.state.working ≡ layout_in self.now.state.ifr }
    {
        self.working.changeable(self.policy(), statement)
    }

    // Whether a question of the session may be changed.
    #[inline(always)]
    pub(crate) fn question_changeable(&self, question: Question<'a>) -> Result<(), Denial>
        requires { IsQuestionIn self.now.state.ifr (question_view question) }
        ensures denied { result
            ≡ unless (fixed (world_of self.now.state) (question_node question.entry)) }
        ensures browsable { IsBrowsable self.now.state.ifr }
        ensures laid { shape_of self.now.state.working ≡ layout_in self.now.state.ifr }
    {
        self.working.question_changeable(self.policy(), question)
    }

    // Tells what forbids a change of the question of an id, if something does.
    pub(crate) fn why(&self, id: u16) -> Result<(), Denial>
        ensures { why_question self.now.state (question_with (nodes_of self.now.state.ifr) id)
            ≡ answered self.now.state result }
    {
        let question = self.find(id)?;
        self.question_changeable(question)
    }

    // Sets the question of an id to a value and writes of what it warns, or writes why it is denied.
    #[inline(always)]
    pub(crate) fn set<Given, W: Write>(
        &mut self,
        id: u16,
        input: Input<'_>,
        out: &mut Watched<W>,
    ) -> Reply
        requires { IsOffered input }
        ensures state { self.new.state
            ≡ (set_question self.old.state (question_with (nodes_of self.old.state.ifr) id)
            (offer_of input.entry)).state }
        ensures text { Puts W.contents out.old out.new
            (set_question self.old.state (question_with (nodes_of self.old.state.ifr) id)
            (offer_of input.entry)).text }
        ensures reply { result
            ≡ (set_question self.old.state (question_with (nodes_of self.old.state.ifr) id)
            (offer_of input.entry)).reply }
        ensures renewed { self.new.renewed ≡ counted_all self.old.renewed
            (nodes_of self.old.state.ifr) (field_writes (nodes_of self.old.state.ifr)
            (named_if (question_with (nodes_of self.old.state.ifr) id) result)) }
    {
        match self.set_named::<Given, W>(id, input, out) {
            Ok(()) => Reply::Accepted,
            Err(denial) => self.deny(denial, out),
        }
    }

    // The same as `set`, by a call of its own.
    #[inline(never)]
    pub(crate) fn set_apart<W: Write>(
        &mut self,
        id: u16,
        input: Input<'_>,
        out: &mut Watched<W>,
    ) -> Reply
        requires { IsOffered input }
        ensures state { self.new.state
            ≡ (set_question self.old.state (question_with (nodes_of self.old.state.ifr) id)
            (offer_of input.entry)).state }
        ensures text { Puts W.contents out.old out.new
            (set_question self.old.state (question_with (nodes_of self.old.state.ifr) id)
            (offer_of input.entry)).text }
        ensures reply { result
            ≡ (set_question self.old.state (question_with (nodes_of self.old.state.ifr) id)
            (offer_of input.entry)).reply }
        ensures renewed { self.new.renewed ≡ counted_all self.old.renewed
            (nodes_of self.old.state.ifr) (field_writes (nodes_of self.old.state.ifr)
            (named_if (question_with (nodes_of self.old.state.ifr) id) result)) }
    {
        self.set::<OfBytes, W>(id, input, out)
    }

    // Sets the question of an id to a value and writes of what it warns, or tells why it may not have it.
    #[inline(always)]
    fn set_named<Given, W: Write>(
        &mut self,
        id: u16,
        input: Input<'_>,
        out: &mut Watched<W>,
    ) -> Result<(), Denial>
        requires { IsOffered input }
        ensures sets { Sets self.old (question_with (nodes_of self.old.state.ifr) id)
            (offer_of input.entry) self.new result }
        ensures text { Puts W.contents out.old out.new (written_of
            (set_question self.old.state (question_with (nodes_of self.old.state.ifr) id)
            (offer_of input.entry)) result) }
    {
        let question = self.find(id)?;
        self.set_question::<Given, W>(question, input, out)
    }

    // Sets a question to a value and writes of what it warns then, or tells why it may not have it.
    #[inline(always)]
    fn set_question<Given, W: Write>(
        &mut self,
        question: Question<'a>,
        input: Input<'_>,
        out: &mut Watched<W>,
    ) -> Result<(), Denial>
        requires question { IsQuestionIn self.old.state.ifr (question_view question) }
        requires input { IsOffered input }
        ensures changes { Changes self.old (question_node question.entry) (offer_of input.entry)
            self.new result }
        ensures text { Puts W.contents out.old out.new (written_of
            (set_question self.old.state (Some (question_node question.entry)) (offer_of input.entry))
            result) }
    {
        self.is_written = true;
        self.submission = None;
        let policy = Policy::new(&self.forms, &self.questions, &self.removed);
        give_value::<Given>(policy, question, input, &mut self.working, &mut self.spare)?;
        put_done(out);
        put_warnings(
            policy,
            question,
            &mut self.working,
            &self.languages,
            self.language,
            out,
        );
        Ok(())
    }
}
