//! Forms that no reference names.

ghost use Rattle.std.specs.Prelude.{◌≡◌, ◌++◌, ℕ, IfOk, OnOk, drop, filter};
ghost use Rattle.hii_bytes.specs.code.NumberSets.{has_number};
ghost use Rattle.ifr_nodes.specs.Nodes.{is_form, nodes_of};
ghost use Rattle.ifr_scopes.specs.code.Lists.{form_node, forms_left, statement_node};
ghost use Rattle.check_audit.specs.Warnings.{is_named, named_form, unreached_at, unreached_warnings};

use crate::warning::{Oddity, Warning};
use hii_bytes::NumberSet;
use ifr_scopes::{Form, FormViews, Forms, Statement, StatementKind};
use std::alloc::{AllocError, Global};

// The form that a statement names, if it is a reference.
fn named_form(statement: Statement<'_>) -> Option<u16>
    ensures { result ≡ named_form (statement_node statement.entry) }
{
    match statement.kind() {
        StatementKind::Ref(reference) => reference.target(),
        _ => None,
    }
}

// The ids of the forms that references of a form set name.
fn named_forms(alloc: Global, forms: &Forms<'_>) -> Result<NumberSet, AllocError>
    ensures { IfOk result (λ ids. (id : ℕ) → has_number ids id ≡ is_named (nodes_of forms.now) id) }
{
    let mut ids = NumberSet::new(alloc)?;
    for statement in forms.statements() {
        if let Some(id) = named_form(statement) {
            ids.insert(id);
        }
    }
    Ok(ids)
}

// The warning of a form that is none of those that are named.
fn unreached_at(named: &NumberSet, form: Form<'_>) -> Option<Warning>
    ensures { result ≡ unreached_at (has_number named.now) (form_node form.entry) }
{
    let id = form.op().id();
    if named.contains(id) {
        return None;
    }
    Some(Warning {
        place: form.place(),
        oddity: Oddity::Unreached(id),
    })
}

// The forms behind the first.
fn behind_first<'a>(forms: &Forms<'a>) -> FormViews<'a>
    ensures { forms_left result ≡ drop 1 (filter is_form (nodes_of forms.now)) }
{
    let mut left = forms.forms();
    left.next();
    left
}

/// Adds the forms but the first that no reference names.
pub(crate) fn add_unreached(
    alloc: Global,
    forms: &Forms<'_>,
    warnings: &mut Vec<Warning>,
) -> Result<(), AllocError>
    ensures { OnOk result (warnings.new.items
        ≡ warnings.old.items ++ unreached_warnings (nodes_of forms.now)) }
{
    let named = named_forms(alloc, forms)?;
    let mut left = behind_first(forms);
    while let Some(form) = left.next() {
        if let Some(warning) = unreached_at(&named, form) {
            warnings.push(warning)?;
        }
    }
    Ok(())
}
