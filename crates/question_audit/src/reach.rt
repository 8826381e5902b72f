//! Which forms references lead to.

ghost use Rattle.std.specs.Prelude.{◌≡◌, IfOk, is_none, map, option_map};
ghost use Rattle.hii_bytes.specs.code.NumberSets.{has_number};
ghost use Rattle.ifr_nodes.specs.Nodes.{statements};
ghost use Rattle.ifr_nodes.specs.code.Checked.{IsNodeOf};
ghost use Rattle.ifr_scopes.specs.code.Lists.{form_node, statement_node};
ghost use Rattle.guard_policy.specs.Policy.{fixed};
ghost use Rattle.guard_policy.specs.code.Views.{bytes_of};
ghost use Rattle.form_page.specs.code.PageViews.{world_of};
ghost use Rattle.question_audit.specs.Reach.{TellsReached, led_to};
ghost use Rattle.question_audit.specs.code.Meeting.{AreOfIds, AreOfIds-prop};

use form_page::Page;
use guard_policy::Conditions;
use hii_bytes::NumberSet;
use ifr_scopes::laws::statements_are_nodes;
use ifr_scopes::{Form, Statement, StatementKind};
use std::alloc::{AllocError, Global};

// Whether a statement may be changed.
fn is_open<'a, C: Conditions>(page: Page<'a, '_, C>, statement: Statement<'a>) -> bool
    requires { IsNodeOf (bytes_of page.policy) (statement_node statement) }
    ensures { result ≡ is_none (fixed (world_of page.entry) (statement_node statement.entry)) }
{
    page.policy()
        .changeable_by(statement, page.conditions())
        .is_ok()
}

// The form to which a statement leads: that of a reference that is open.
fn led_to<'a, C: Conditions>(page: Page<'a, '_, C>, statement: Statement<'a>) -> Option<Form<'a>>
    requires { IsNodeOf (bytes_of page.policy) (statement_node statement) }
    ensures { option_map form_node result
        ≡ led_to (world_of page.entry) (statement_node statement.entry) }
{
    let StatementKind::Ref(reference) = statement.kind() else {
        return None;
    };
    if !is_open(page, statement) {
        return None;
    }
    page.policy().forms().form(reference.target()?)
}

/// Forms that were met, no two of one id, in the order in which they were, and their ids.
#[derive(Drop)]
struct Met<'a> {
    ids: NumberSet,
    order: Vec<Form<'a>>,
    ghost known: { AreOfIds ids (map form_node order.items) } by { AreOfIds-prop ids (map form_node order.items) },
}

impl<'a> Met<'a> {
    ghost use Rattle.std.specs.Prelude.{◌≤◌, ℕ, [], OnOk, length, slice_get};
    ghost use Rattle.question_audit.specs.code.Meeting.{has_id, led_by, with_form, with_forms};
    ghost use Rattle.question_audit.specs.code.MetForms.{forms_met};

    // No form is met yet.
    fn new(alloc: Global) -> Result<Met<'a>, AllocError>
        ensures { IfOk result (λ met. forms_met met ≡ []) }
    {
        Ok(Met {
            ids: NumberSet::new(alloc)?,
            order: Vec::new(alloc),
        })
    }

    // The form that was met after so many others, if there is one. No more are met than there are ids.
    fn form(&self, number: usize) -> Option<Form<'a>>
        ensures form { option_map form_node result ≡ slice_get (forms_met self.now) number }
        ensures few { length (forms_met self.now) ≤ 65536 }
    {
        self.order.get(number).copied()
    }

    // Meets a form, unless one of its id was met.
    fn meet(&mut self, form: Form<'a>) -> Result<(), AllocError>
        ensures { OnOk result (forms_met self.new
            ≡ with_form (forms_met self.old) (form_node form.entry)) }
    {
        let id = form.op().id();
        if self.ids.contains(id) {
            return Ok(());
        }
        self.order.push(form)?;
        self.ids.insert(id);
        Ok(())
    }

    // Meets the forms to which statements of a form lead.
    fn follow<C: Conditions>(
        &mut self,
        page: Page<'a, '_, C>,
        form: Form<'a>,
    ) -> Result<(), AllocError>
        requires { IsNodeOf (bytes_of page.policy) (form_node form) }
        ensures { OnOk result (forms_met self.new ≡ with_forms (forms_met self.old)
            (led_by (world_of page.entry) (statements (form_node form.entry)))) }
    {
        statements_are_nodes();
        let mut statements = page.policy().forms().statements_of(form);
        while let Some(statement) = statements.next() {
            let Some(next) = led_to(page, statement) else {
                continue;
            };
            self.meet(next)?;
        }
        Ok(())
    }

    // The ids of the forms that were met.
    fn into_ids(self) -> NumberSet
        ensures { (id : ℕ) → has_number result id ≡ has_id (forms_met self.entry) id }
    {
        self.ids
    }
}

/// The ids of the forms to which references that are open lead from the first form on, each on a form that is reached itself; and
/// that of the first form. The one error is that an allocation failed.
pub(crate) fn reached_forms<'a, C: Conditions>(
    alloc: Global,
    page: Page<'a, '_, C>,
) -> Result<NumberSet, AllocError>
    ensures { IfOk result (λ ids. TellsReached (world_of page.entry) (has_number ids)) }
{
    let mut met = Met::new(alloc)?;
    if let Some(first) = page.policy().forms().forms().next() {
        met.meet(first)?;
    }
    let mut followed = 0;
    while let Some(form) = met.form(followed) {
        met.follow(page, form)?;
        followed += 1;
    }
    Ok(met.into_ids())
}
