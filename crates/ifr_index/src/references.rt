//! Forms and questions by their ids, and where references lead, as far as nodes were met in a walk.

ghost use Rattle.std.specs.Prelude.{◌≡◌, ◌==◌, ◌&&◌, ◌||◌, ◌++◌, [], false, true, not, ℕ, List, IfOk, OnOk};
ghost use Rattle.hii_bytes.specs.code.NumberSets.{has_number};
ghost use Rattle.ifr_opcodes.specs.Forest.{Forest, Ancestor, Node as Placed};
ghost use Rattle.ifr_opcodes.specs.Rows.{is_short, is_statement_number};
ghost use Rattle.ifr_opcodes.specs.code.Ops.{bytes_of};
ghost use Rattle.ifr_index.specs.code.Levels.{node_with};
ghost use Rattle.ifr_index.specs.code.References.{AreDistinct, AreReferencesOf, Refers, leads_to, unmet};

use hii_bytes::NumberSet;
use ifr_opcodes::{FORM, FormOp, Op, QuestionOp, REF, RefOp, is_question};
use std::alloc::{AllocError, Global};

/// The ids of the forms and questions that were met, and of the forms that are still awaited.
#[derive(Drop)]
pub(crate) struct References {
    forms: NumberSet,
    questions: NumberSet,
    // The ids of forms to which references lead that stand before them.
    awaited: Vec<u16>,
    // Whether an id was met twice.
    repeated: bool,
}

// Whether an id, other than 0, was met before. It is met now.
#[inline(always)]
fn repeats(ids: &mut NumberSet, id: u16) -> bool
    ensures told { result ≡ (not (id == 0) && has_number ids.old id) }
    ensures met { (other : ℕ) → has_number ids.new other
        ≡ (id == other || has_number ids.old other) }
{
    !ids.insert(id) && id != 0
}

impl References {
    /// Nothing was met.
    pub(crate) fn new(alloc: Global) -> Result<References, AllocError>
        ensures { IfOk result (AreReferencesOf []) }
    {
        Ok(References {
            forms: NumberSet::new(alloc)?,
            questions: NumberSet::new(alloc)?,
            awaited: Vec::new(alloc),
            repeated: false,
        })
    }

    // Meets a form.
    fn meet_form(&mut self, form: FormOp)
        ensures { (path : List Ancestor) (children : Forest)
            → Refers (node_with form.entry.op path children) self.old self.new }
    {
        if !self.forms.insert(form.id()) {
            self.repeated = true;
        }
    }

    // Awaits the form to which a question leads, where it is a reference and no form of that id was met.
    #[inline(always)]
    fn await_form(&mut self, question: QuestionOp) -> Result<(), AllocError>
        ensures awaited { OnOk result ((path : List Ancestor) (children : Forest)
            → self.new.awaited.items ≡ self.old.awaited.items
            ++ unmet self.old.forms (leads_to (node_with question.entry.op path children))) }
        ensures stays { (self.new.forms ≡ self.old.forms) × (self.new.questions ≡ self.old.questions)
            × (self.new.repeated ≡ self.old.repeated) }
    {
        let op = question.op;
        if op.code == REF {
            if let Some(id) = (RefOp { op }).target() {
                if !self.forms.contains(id) {
                    self.awaited.push(id)?;
                }
            }
        }
        Ok(())
    }

    // Meets a question.
    #[inline(always)]
    fn meet_question(&mut self, question: QuestionOp) -> Result<(), AllocError>
        ensures { OnOk result ((path : List Ancestor) (children : Forest)
            → Refers (node_with question.entry.op path children) self.old self.new) }
    {
        if repeats(&mut self.questions, question.id()) {
            self.repeated = true;
        }
        self.await_form(question)?;
        Ok(())
    }

    /// Meets a statement.
    #[inline(always)]
    pub(crate) fn meet_statement(&mut self, op: Op) -> Result<(), AllocError>
        requires statement { is_statement_number op.code ≡ true }
        requires whole { is_short (bytes_of op) ≡ false }
        ensures { OnOk result ((path : List Ancestor) (children : Forest)
            → Refers (node_with op.entry path children) self.old self.new) }
    {
        if is_question(op.code) {
            self.meet_question(QuestionOp { op })?;
        }
        Ok(())
    }

    /// Meets a node.
    #[inline(always)]
    pub(crate) fn meet(&mut self, op: Op) -> Result<(), AllocError>
        requires { is_short (bytes_of op) ≡ false }
        ensures { OnOk result ((path : List Ancestor) (children : Forest)
            → Refers (node_with op.entry path children) self.old self.new) }
    {
        if op.code == FORM {
            self.meet_form(FormOp { op });
        } else if is_question(op.code) {
            self.meet_question(QuestionOp { op })?;
        }
        Ok(())
    }

    /// Whether no id is there twice, and each form was met that is awaited.
    pub(crate) fn are_distinct(&self) -> bool
        ensures { result ≡ true → (ns : List Placed) → AreReferencesOf ns self.now → AreDistinct ns }
    {
        !self.repeated && self.awaited.iter().all(|id| self.forms.contains(*id))
    }
}
