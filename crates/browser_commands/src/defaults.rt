//! Defaults of the questions of a form.

ghost use Rattle.std.specs.Prelude.{◌≡◌, ◌<◌, ◌^◌, [], IfSome, length, option_map};
ghost use Rattle.hii_bytes.specs.Watching.{Puts};
ghost use Rattle.ifr_nodes.specs.code.Checked.{AreNodesOf, IsNodeOf};
ghost use Rattle.ifr_scopes.specs.code.Lists.{statement_node};
ghost use Rattle.ifr_scopes.specs.code.GivingLeft.{giving_left};
ghost use Rattle.ifr_nodes.specs.Nodes.{nodes_of};
ghost use Rattle.ifr_defaults.specs.code.DefaultSources.{gives};
ghost use Rattle.hii_values.specs.code.Offers.{offer_of};
ghost use Rattle.hii_questions.specs.code.Views.{question_node};
ghost use Rattle.guard_policy.specs.code.Views.{bytes_of};
ghost use Rattle.session_steps.specs.Renewed.{field_writes, pressed_if};
ghost use Rattle.browser_commands.specs.code.Changing.{IsBrowsed};
ghost use Rattle.browser_commands.specs.code.Counting.{counted_all};
ghost use Rattle.browser_commands.specs.code.Defaulting.{sources_over, TakeDefaults, TakesDefault};
ghost use Rattle.session_steps.specs.Step as steps;
ghost use Rattle.session_steps.specs.Step.{taken, take_defaults as defaults_taken};
ghost use Rattle.browser_commands.specs.code.Standing.{Presses, IsOffered};

use crate::browser::Browser;
use crate::change::{OfDefaults, give_value};
use crate::sources::Sources;
use crate::texts::put_count;
use guard_policy::{Denial, Policy};
use hii_bytes::Watched;
use hii_questions::{DenialKind, Input, Question};
use hii_varstore::Stores;
use ifr_defaults::{DefaultSource, default_source};
use ifr_scopes::laws::{statements_are_few, statements_are_nodes};
use ifr_scopes::{GivingStatements, Statement, StatementKind};
use kept_conditions::KeptStores;
use session_steps::Reply;
use std::io::Write;

impl<'a> Browser<'a> {
    // Sets the questions of the current form to their defaults of a class, and writes how many took them.
    pub(crate) fn take_defaults<W: Write>(&mut self, class: u16, out: &mut Watched<W>) -> Reply
        ensures state { self.new.state ≡ (defaults_taken self.old.state class).state }
        ensures text { Puts W.contents out.old out.new (defaults_taken self.old.state class).text }
        ensures reply { result ≡ (defaults_taken self.old.state class).reply }
        ensures renewed { self.new.renewed ≡ counted_all self.old.renewed
            (nodes_of self.old.state.ifr) (field_writes (nodes_of self.old.state.ifr)
            (taken self.old.state class).questions) }
    {
        put_count(take_defaults(self, class), out);
        Reply::Accepted
    }

    // The class of defaults that the button in a row sets, where it may be pressed.
    fn button(&self, row: u32) -> Result<u16, Denial>
        ensures { Presses self.now.state row result }
    {
        let Some(statement) = self.statement_in_row(row) else {
            return Err(Denial::by(DenialKind::NoRow, 0));
        };
        let StatementKind::ResetButton(button) = statement.kind() else {
            return Err(Denial::by(DenialKind::NotButton, statement.place()));
        };
        self.changeable(statement)?;
        Ok(button.default_id())
    }

    // Presses the button in a row of the page, or writes why it may not be pressed.
    pub(crate) fn press<W: Write>(&mut self, row: u32, out: &mut Watched<W>) -> Reply
        ensures state { self.new.state ≡ (steps.press self.old.state row).state }
        ensures text { Puts W.contents out.old out.new (steps.press self.old.state row).text }
        ensures reply { result ≡ (steps.press self.old.state row).reply }
        ensures renewed { self.new.renewed ≡ counted_all self.old.renewed
            (nodes_of self.old.state.ifr) (field_writes (nodes_of self.old.state.ifr)
            (pressed_if self.old.state (steps.row_of_form self.old.state row
            (steps.form_of self.old.state)) result)) }
    {
        match self.button(row) {
            Ok(class) => self.take_defaults(class, out),
            Err(denial) => self.deny(denial, out),
        }
    }
}

impl<'a, 's> Sources<'a, 's> {
    // The default of a question that this gives over some stores, if it gives one.
    fn given_by(
        self,
        source: DefaultSource<'a>,
        question: Question<'a>,
        stores: &Stores,
    ) -> Option<Input<'a>>
        ensures default { option_map offer_of result ≡ gives (sources_over self.entry stores.now)
            (question_node question.entry) source.entry }
        ensures offered { IfSome result IsOffered }
    {
        let answers = self.questions.over(stores);
        source.input(
            question,
            &answers,
            self.policy.forms(),
            self.languages,
            self.language,
        )
    }

    // Sets the question that a statement is to its default of a class, where it has one and may have it, and tells
    // whether. The spare stores, which hold what the working ones do, follow.
    fn take_default(
        self,
        statement: Statement<'a>,
        class: u16,
        working: &mut KeptStores<'a>,
        spare: &mut Stores,
    ) -> bool
        requires node { IsNodeOf (bytes_of self.policy) (statement_node statement) }
        requires browsed { IsBrowsed self.policy working.old }
        requires same { spare.old ≡ working.old.stores }
        ensures takes { TakesDefault self.entry class (statement_node statement.entry)
            working.old working.new result }
        ensures same { spare.new ≡ working.new.stores }
    {
        let Some(source) = default_source(statement, class) else {
            return false;
        };
        let Some(question) = self.policy.question(statement) else {
            return false;
        };
        let Some(input) = self.given_by(source, question, working.stores()) else {
            return false;
        };
        match give_value::<OfDefaults>(self.policy, question, input, working, spare) {
            Ok(()) => true,
            Err(_) => false,
        }
    }

    // Sets the questions among some statements of the package to their defaults of a class, each over the stores that
    // those before it have left, and tells how many took them. The spare stores, which hold what the working ones do,
    // follow.
    fn take_each(
        self,
        statements: GivingStatements<'_, 'a>,
        class: u16,
        working: &mut KeptStores<'a>,
        spare: &mut Stores,
    ) -> u64
        requires nodes { AreNodesOf (bytes_of self.policy) (giving_left statements) }
        requires few { length (giving_left statements) < 2 ^ 32 }
        requires browsed { IsBrowsed self.policy working.old }
        requires same { spare.old ≡ working.old.stores }
        ensures take { TakeDefaults self.entry class (giving_left statements.entry) []
            working.old working.new result }
        ensures same { spare.new ≡ working.new.stores }
    {
        let mut left = statements;
        let mut count = 0;
        while let Some(statement) = left.next() {
            if self.take_default(statement, class, working, spare) {
                count += 1;
            }
        }
        count
    }
}

/// Sets the questions of the current form, by place, to their defaults of a class, each over the stores that those before it
/// have left, and tells how many took them. Only statements that give a default are asked.
pub(crate) fn take_defaults(core: &mut Browser<'_>, class: u16) -> u64
    ensures state { core.new.state ≡ (taken core.old.state class).state }
    ensures count { result ≡ length (taken core.old.state class).questions }
    ensures renewed { core.new.renewed ≡ counted_all core.old.renewed
        (nodes_of core.old.state.ifr) (field_writes (nodes_of core.old.state.ifr)
        (taken core.old.state class).questions) }
{
    statements_are_few();
    statements_are_nodes();
    core.is_written = true;
    core.submission = None;
    let sources = Sources {
        policy: Policy::new(&core.forms, &core.questions, &core.removed),
        questions: &core.questions,
        languages: &core.languages,
        language: core.language,
    };
    let statements = core.forms.giving_statements_of(core.form);
    sources.take_each(statements, class, &mut core.working, &mut core.spare)
}
