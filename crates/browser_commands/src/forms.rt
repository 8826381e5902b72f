//! The page of the current form, and the way from form to form.

ghost use Rattle.std.specs.Prelude.{◌≡◌, Some, IfSome, option_and_then, option_map};
ghost use Rattle.hii_bytes.specs.Watching.{Puts};
ghost use Rattle.ifr_nodes.specs.code.Checked.{IsNodeOf};
ghost use Rattle.ifr_scopes.specs.code.Lists.{form_node, statement_node};
ghost use Rattle.ifr_nodes.specs.Nodes.{nodes_of};
ghost use Rattle.ifr_nodes.specs.ReferenceFaults.{form_with};
ghost use Rattle.hii_languages.specs.code.Views.{choice_of};
ghost use Rattle.hii_varstore.specs.Stores.{shape_of};
ghost use Rattle.hii_questions.specs.Fields.{question_with, questions};
ghost use Rattle.hii_questions.specs.code.LyingIn.{LieIn};
ghost use Rattle.guard_policy.specs.code.Views.{bytes_of};
ghost use Rattle.form_page.specs.code.PageViews as pages;
ghost use Rattle.session_steps.specs.State.{world_of, texts};
ghost use Rattle.session_steps.specs.Step as steps;
ghost use Rattle.session_steps.specs.Step.{show_page};
ghost use Rattle.browser_commands.specs.code.Standing.{Leads, answered};

use crate::browser::Browser;
use form_page::Page;
use guard_policy::Denial;
use hii_bytes::Watched;
use hii_questions::DenialKind;
use ifr_scopes::{Form, Statement, StatementKind};
use kept_conditions::Kept;
use std::io::Write;

impl<'a> Browser<'a> {
    /// The page of the current form, by what is kept of conditions.
    pub fn page(&self) -> Page<'a, '_, Kept<'a>>
        ensures form { steps.form_of self.now.state ≡ Some (form_node result.form) }
        ensures bytes { bytes_of result.policy ≡ self.now.state.ifr }
        ensures world { pages.world_of result ≡ world_of self.now.state }
        ensures stores { result.stores.now ≡ self.now.state.working }
        ensures texts { pages.texts_of result ≡ texts self.now.state }
        ensures spoken { result.languages.now ≡ self.now.state.spoken }
        ensures language { choice_of result.choice ≡ self.now.state.language }
        ensures fields { LieIn (shape_of self.now.state.working)
            (questions (nodes_of self.now.state.ifr)) }
    {
        Page::new(
            self.form,
            self.policy(),
            &self.questions,
            self.working.stores(),
            &self.languages,
            self.language,
            self.working.kept(),
        )
    }

    // Writes the page of the current form.
    pub(crate) fn put_page<W: Write>(&self, out: &mut Watched<W>)
        ensures { Puts W.contents out.old out.new (show_page self.now.state).text }
    {
        self.page().put_page(out);
    }

    // The statement in a row of the page.
    pub(crate) fn statement_in_row(&self, row: u32) -> Option<Statement<'a>>
        ensures found { option_map statement_node result
            ≡ steps.row_of_form self.now.state row (steps.form_of self.now.state) }
        ensures node { IfSome result (λ statement. IsNodeOf self.now.state.ifr
            (statement_node statement)) }
    {
        self.page().statement_in_row(row)
    }

    // The form of an id.
    fn form_of(&self, id: Option<u16>) -> Option<Form<'a>>
        ensures found { option_map form_node result
            ≡ option_and_then (form_with (nodes_of self.now.state.ifr)) id }
        ensures node { IfSome result (λ form. IsNodeOf self.now.state.ifr (form_node form)) }
    {
        self.forms.form(id?)
    }

    // The form to which the reference of an id leads, where it may be selected and the form is not hidden.
    fn target(&self, id: u16) -> Result<Form<'a>, Denial>
        ensures { Leads self.now.state id result }
    {
        let question = self.find(id)?;
        let StatementKind::Ref(reference) = question.statement().kind() else {
            return Err(Denial::by(DenialKind::NotRef, question.place()));
        };
        self.question_changeable(question)?;
        let Some(form) = self.form_of(reference.target()) else {
            return Err(Denial::by(DenialKind::Outside, question.place()));
        };
        self.working.opens(self.policy(), form)?;
        Ok(form)
    }

    // Goes to the form to which the reference of an id leads, and keeps the current one.
    pub(crate) fn follow(&mut self, id: u16) -> Result<(), Denial>
        ensures answer { steps.follow self.old.state (question_with (nodes_of self.old.state.ifr) id)
            ≡ answered self.new.state result }
        ensures renewed { self.new.renewed ≡ self.old.renewed }
    {
        let form = self.target(id)?;
        if self.history.is_full() {
            return Err(Denial::by(DenialKind::DeepHistory, 0));
        }
        self.history.push(self.form.place());
        self.form = form;
        Ok(())
    }

    // Goes back to the form that a reference has led away from last.
    pub(crate) fn go_back(&mut self) -> Result<(), Denial>
        ensures answer { steps.go_back self.old.state ≡ answered self.new.state result }
        ensures renewed { self.new.renewed ≡ self.old.renewed }
    {
        let Some(place) = self.history.pop() else {
            return Err(Denial::by(DenialKind::NoBack, 0));
        };
        self.form = self.forms.form_at(place);
        Ok(())
    }
}
