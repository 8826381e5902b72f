//! How the forms of a form set are reached.

ghost use Rattle.std.specs.Prelude.{◌≡◌, ◌++◌, ℕ, false, None, IfOk, OnOk};
ghost use Rattle.std.specs.List.{filter_map};
ghost use Rattle.std.specs.List.Sorted.{IsSortedByKey};
ghost use Rattle.std.specs.Ordering.{nat_cmp};
ghost use Rattle.hii_bytes.specs.code.NumberSets.{has_number};
ghost use Rattle.ifr_nodes.specs.Nodes.{nodes_of, statements};
ghost use Rattle.ifr_nodes.specs.code.Checked.{IsNodeOf};
ghost use Rattle.ifr_scopes.specs.code.Lists.{form_node, statement_node};
ghost use Rattle.guard_policy.specs.code.Views.{bytes_of};
ghost use Rattle.form_page.specs.code.PageViews.{world_of};
ghost use Rattle.question_audit.specs.Reach.{closing, is_named, named_form, reach_by, reach_of};
ghost use Rattle.question_audit.specs.code.Closings.{TellsWays, closed_reference, first_closing};
ghost use Rattle.question_audit.specs.declared.ways.ClosedReference.{ClosedReference as Closing};

use crate::numbered::{Numbered, first_with};
use crate::reach::reached_forms;
use form_page::Page;
use guard_policy::{Conditions, Denial};
use hii_bytes::NumberSet;
use ifr_scopes::laws::statements_are_nodes;
use ifr_scopes::{Form, Forms, Statement, StatementKind};
use std::alloc::{AllocError, Global};

/// How a form is reached from the first form of its form set (own rule).
#[derive(Clone, Copy)]
pub enum Reach {
    /// By references that are open, each on a form that is reached itself; or it is the first.
    Open,
    /// It is hidden.
    Hidden(Denial),
    /// References on forms that are reached name it, of which none is open: what forbids to follow the first by place.
    Closed(Denial),
    /// References name it on forms alone that are not reached.
    Below,
    /// No reference names it.
    Unnamed,
}

/// A reference on a form that is reached, to one that is not.
#[derive(Clone, Copy)]
pub(crate) struct ClosedReference {
    /// The id of the form that it names.
    form: u16,
    /// What forbids to follow it.
    denial: Option<Denial>,
}

impl Numbered for ClosedReference {
    ghost number_of = { λ reference. reference.form };

    fn number(&self) -> u16 {
        self.form
    }
}

/// Which forms of a form set are reached, which are named, and what forbids to follow references to the others.
#[derive(Drop)]
pub struct Ways {
    pub(crate) reached: NumberSet,
    pub(crate) named: NumberSet,
    // Sorted by the forms that they name.
    pub(crate) closed: Vec<ClosedReference>,
}

// The form that a statement names, if it is a reference.
fn named_form(statement: Statement<'_>) -> Option<u16>
    ensures { result ≡ named_form (statement_node statement.entry) }
{
    match statement.kind() {
        StatementKind::Ref(reference) => reference.target(),
        _ => None,
    }
}

// The ids of the forms that references of a form set name.
fn named_forms(alloc: Global, forms: &Forms<'_>) -> Result<NumberSet, AllocError>
    ensures { IfOk result (λ ids. (id : ℕ) → has_number ids id ≡ is_named (nodes_of forms.now) id) }
{
    let mut ids = NumberSet::new(alloc)?;
    for statement in forms.statements() {
        if let Some(id) = named_form(statement) {
            ids.insert(id);
        }
    }
    Ok(ids)
}

// The reference that a statement is, if it is one to a form that is not reached.
fn closed_reference<'a, C: Conditions>(
    page: Page<'a, '_, C>,
    reached: &NumberSet,
    statement: Statement<'a>,
) -> Option<ClosedReference>
    requires { IsNodeOf (bytes_of page.policy) (statement_node statement) }
    ensures { result ≡ closed_reference (world_of page.entry) (has_number reached.now)
        (statement_node statement.entry) }
{
    let form = named_form(statement)?;
    if reached.contains(form) {
        return None;
    }
    let verdict = page.policy().changeable_by(statement, page.conditions());
    Some(ClosedReference {
        form,
        denial: verdict.err(),
    })
}

// Adds the references of a form to forms that are not reached.
fn add_closed<'a, C: Conditions>(
    page: Page<'a, '_, C>,
    reached: &NumberSet,
    form: Form<'a>,
    closed: &mut Vec<ClosedReference>,
) -> Result<(), AllocError>
    requires { IsNodeOf (bytes_of page.policy) (form_node form) }
    ensures { OnOk result (closed.new.items ≡ closed.old.items
        ++ filter_map (closed_reference (world_of page.entry) (has_number reached.now))
        (statements (form_node form.entry))) }
{
    statements_are_nodes();
    let mut statements = page.policy().forms().statements_of(form);
    while let Some(statement) = statements.next() {
        if let Some(reference) = closed_reference(page, reached, statement) {
            closed.push(reference)?;
        }
    }
    Ok(())
}

// The references on forms that are reached, to forms that are not, by the forms that they name.
fn closed_references<'a, C: Conditions>(
    alloc: Global,
    page: Page<'a, '_, C>,
    reached: &NumberSet,
) -> Result<Vec<ClosedReference>, AllocError>
    ensures sorted { IfOk result (λ closed.
        IsSortedByKey (λ (r : Closing). r.form) nat_cmp closed.items) }
    ensures first { IfOk result (λ closed. (id : ℕ) → has_number reached.now id ≡ false
        → first_closing closed.items id ≡ closing (world_of page.entry) (has_number reached.now) id) }
{
    let mut closed = Vec::new(alloc);
    let mut forms = page.policy().forms().forms();
    while let Some(form) = forms.next() {
        if reached.contains(form.op().id()) {
            add_closed(page, reached, form, &mut closed)?;
        }
    }
    closed.sort_by_key(|reference| reference.form)?;
    Ok(closed)
}

impl Ways {
    /// How the forms of a page's form set are reached over the stores of the page. The one error is that an allocation failed.
    pub fn read<'a, C: Conditions>(alloc: Global, page: Page<'a, '_, C>) -> Result<Ways, AllocError>
        ensures { IfOk result (TellsWays (world_of page.entry)) }
    {
        let reached = reached_forms(alloc, page)?;
        let named = named_forms(alloc, page.policy().forms())?;
        let closed = closed_references(alloc, page, &reached)?;
        Ok(Ways {
            reached,
            named,
            closed,
        })
    }

    /// How a form of the form set is reached.
    pub fn to<'a, C: Conditions>(&self, page: Page<'a, '_, C>, form: Form<'a>) -> Reach
        requires node { IsNodeOf (bytes_of page.policy) (form_node form) }
        requires told { TellsWays (world_of page) self.now }
        ensures { result ≡ reach_of (world_of page.entry) (has_number self.now.reached)
            (form_node form.entry) }
    {
        match page.policy().opens_by(form, page.conditions()) {
            Ok(()) => self.to_seen(form.op().id()),
            Err(denial) => Reach::Hidden(denial),
        }
    }

    // How the form of an id is reached, which is not hidden.
    fn to_seen(&self, id: u16) -> Reach
        requires { IsSortedByKey (λ (r : Closing). r.form) nat_cmp self.now.closed.items }
        ensures { result ≡ reach_by None (has_number self.now.reached id)
            (first_closing self.now.closed.items id) (has_number self.now.named id) }
    {
        if self.reached.contains(id) {
            return Reach::Open;
        }
        match self.closing(id) {
            Some(denial) => Reach::Closed(denial),
            None if self.named.contains(id) => Reach::Below,
            None => Reach::Unnamed,
        }
    }

    // What forbids to follow the first reference to a form.
    fn closing(&self, form: u16) -> Option<Denial>
        requires { IsSortedByKey (λ (r : Closing). r.form) nat_cmp self.now.closed.items }
        ensures { result ≡ first_closing self.now.closed.items form }
    {
        first_with(&self.closed, form)?.denial
    }
}
