//! Pages.

ghost use Rattle.std.specs.Prelude.{◌≡◌, IfSome, option_map};
ghost use Rattle.ifr_opcodes.specs.Fields.{form_title};
ghost use Rattle.ifr_nodes.specs.code.Checked.{IsNodeOf, IsNodeOf-prop};
ghost use Rattle.ifr_scopes.specs.code.Lists.{form_node, statement_node};
ghost use Rattle.hii_languages.specs.code.Views.{choice_of, text_of};
ghost use Rattle.guard_policy.specs.code.KeptConditions.{TellsAll, TellsAll-prop};
ghost use Rattle.guard_policy.specs.code.Views.{bytes_of, world};
ghost use Rattle.form_page.specs.Pages as pages;

use crate::listed::Listed;
use crate::row_value::RowValue;
use crate::rows::Rows;
use crate::statement_value::statement_value;
use guard_policy::{Conditions, Effects, Policy};
use hii_languages::{Choice, Languages, Shown};
use hii_questions::Questions;
use hii_varstore::Stores;
use ifr_scopes::laws::{statements_are_few, statements_are_nodes};
use ifr_scopes::{Form, Statement};
use std::alloc::AllocError;

/// The page of a form over some stores (UEFI 2.8, 33.2.5.2 Forms), by what is kept of conditions.
pub struct Page<'a, 's, C: Conditions> {
    pub(crate) form: Form<'a>,
    pub(crate) policy: Policy<'a, 's>,
    pub(crate) questions: &'s Questions<'a>,
    pub(crate) stores: &'s Stores,
    pub(crate) languages: &'s Languages<'a>,
    pub(crate) choice: Choice,
    pub(crate) conditions: &'s C,
    pub ghost together: { IsNodeOf (bytes_of policy) (form_node form) } by { IsNodeOf-prop (bytes_of policy) (form_node form) },
    pub ghost own: { questions.now.ifr ≡ bytes_of policy },
    pub ghost told: { TellsAll (C.holding conditions.now) (world policy stores.now) } by { TellsAll-prop (C.holding conditions.now) (world policy stores.now) },
}

impl<'a, 's, C: Conditions> Copy for Page<'a, 's, C> {}

impl<'a, 's, C: Conditions> Clone for Page<'a, 's, C> {
    ghost use Rattle.std.specs.Prelude.{⊤};

    ghost is_clone = { λ page clone. clone ≡ page };

    ghost is_infallible = { λ _. ⊤ };

    fn clone(&self) -> Result<Page<'a, 's, C>, AllocError> {
        Ok(*self)
    }
}

impl<'a, 's, C: Conditions> Page<'a, 's, C> {
    ghost use Rattle.form_page.specs.code.PageViews.{texts_of, world_of};
    ghost use Rattle.form_page.specs.code.ListedViews.{listed_left};
    ghost use Rattle.form_page.specs.code.RowViews.{value_text};
    ghost use Rattle.form_page.specs.code.Views.{rows_left};
    ghost use Rattle.form_page.specs.RowValues.{value_shown};

    /// The page of a form of the policy's package, with texts in the chosen language. The questions are those of this package, and
    /// what is kept of its conditions tells whether they hold over the stores.
    pub fn new(
        form: Form<'a>,
        policy: Policy<'a, 's>,
        questions: &'s Questions<'a>,
        stores: &'s Stores,
        languages: &'s Languages<'a>,
        choice: Choice,
        conditions: &'s C,
    ) -> Page<'a, 's, C>
        requires node { IsNodeOf (bytes_of policy) (form_node form) }
        requires own { questions.now.ifr ≡ bytes_of policy }
        requires told { TellsAll (C.holding conditions.now) (world policy stores.now) }
        ensures form { form_node result.form ≡ form_node form.entry }
        ensures policy { result.policy ≡ policy.entry }
        ensures stores { result.stores.now ≡ stores.now }
        ensures languages { result.languages.now ≡ languages.now }
        ensures choice { choice_of result.choice ≡ choice_of choice }
    {
        Page {
            form,
            policy,
            questions,
            stores,
            languages,
            choice,
            conditions,
        }
    }

    /// The title of the form.
    pub fn title(&self) -> Shown<'a>
        ensures { text_of result ≡ texts_of self.now (form_title (form_node self.now.form).op) }
    {
        self.text(self.form.op().title())
    }

    /// The rows of the page: one for each statement of the form that is not hidden.
    pub fn rows(&self) -> Rows<'a, 's, C>
        ensures { rows_left result ≡ pages.rows_of_form (texts_of self.now)
            (world_of self.now) self.now.stores.now (form_node self.now.form) }
    {
        statements_are_few();
        Rows {
            listed: self.listed(),
            number: 1,
        }
    }

    /// What decides over the form set of the page.
    pub fn policy(&self) -> Policy<'a, 's>
        ensures { result ≡ self.now.policy }
    {
        self.policy
    }

    /// The questions of the form set.
    pub fn questions(&self) -> &'s Questions<'a>
        ensures same { result.now ≡ self.now.questions.now }
        ensures own { result.now.ifr ≡ bytes_of self.now.policy }
    {
        self.questions
    }

    /// The stores over which the page is.
    pub fn stores(&self) -> &'s Stores
        ensures { result.now ≡ self.now.stores.now }
    {
        self.stores
    }

    /// What is kept of conditions, which tells whether they hold over the stores of the page.
    pub fn conditions(&self) -> &'s C
        ensures { TellsAll (C.holding result.now) (world_of self.now) }
    {
        self.conditions
    }

    /// The string packages of the page's texts.
    pub fn languages(&self) -> &'s Languages<'a>
        ensures { result.now ≡ self.now.languages.now }
    {
        self.languages
    }

    /// Which string package is chosen.
    pub fn choice(&self) -> Choice
        ensures { choice_of result ≡ choice_of self.now.choice }
    {
        self.choice
    }

    /// What is shown of a string id.
    pub fn text(&self, id: u16) -> Shown<'a>
        ensures { text_of result ≡ texts_of self.now id }
    {
        self.languages.text(self.choice, id)
    }

    /// What a statement of the form set shows between the brackets of a row, on whichever form it stands and whether it is seen or
    /// not.
    pub fn value_of(&self, statement: Statement<'a>) -> RowValue<'a, 's, C>
        requires { IsNodeOf (bytes_of self.now.policy) (statement_node statement) }
        ensures { value_text result ≡ value_shown (texts_of self.now) (world_of self.now)
            self.now.stores.now (statement_node statement.entry) }
    {
        statement_value(*self, statement, self.policy.question(statement))
    }

    /// The statement of a row, numbered from 1, if the page has that row.
    pub fn statement_in_row(&self, row: u32) -> Option<Statement<'a>>
        ensures found { option_map statement_node result
            ≡ pages.statement_in_row (world_of self.now) (form_node self.now.form) row }
        ensures node { IfSome result (λ statement. IsNodeOf (bytes_of self.now.policy)
            (statement_node statement)) }
    {
        let above = row.checked_sub(1)?;
        let mut listed = self.listed();
        listed.nth(above as usize)
    }

    // The statements of the form that are not hidden.
    fn listed(&self) -> Listed<'a, 's, C>
        ensures page { result.page ≡ self.now }
        ensures left { listed_left result ≡ pages.listed_statements (world_of self.now)
            (form_node self.now.form) }
    {
        statements_are_nodes();
        Listed {
            page: *self,
            statements: self.policy.forms().statements_of(self.form),
            last: Effects::none(),
        }
    }
}
