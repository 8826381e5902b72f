//! What is kept of questions.

ghost use Rattle.std.specs.Prelude.{◌≡◌, true};
ghost use Rattle.ifr_opcodes.specs.Fields.{question_store};
ghost use Rattle.ifr_opcodes.specs.code.Marks.{mark};
ghost use Rattle.ifr_opcodes.specs.code.Ops.{op_of};
ghost use Rattle.ifr_scopes.specs.code.Lists.{statement_node};
ghost use Rattle.ifr_nodes.specs.Nodes.{is_question};
ghost use Rattle.hii_varstore.specs.Layout.{Shape, size_of};
ghost use Rattle.hii_questions.specs.code.Entries.{IsEntryOf, entry_field, entry_range};

use crate::field_range::FieldRange;
use crate::locate::field_in;
use ifr_opcodes::QuestionOp;
use ifr_scopes::Statement;

/// Where a field lies, in less room than a `FieldRange` takes. Fields follow one another by store, offset and width.
#[derive(Clone, Copy, PartialEq, Eq, PartialOrd, Ord)]
pub struct FieldEntry {
    /// The id of the store.
    pub store: u16,
    /// The offset of the field in the store, in bytes.
    pub offset: u16,
    /// How many bytes the field has.
    pub width: u32,
}

impl FieldEntry {
    /// Where the field lies.
    pub fn range(self) -> FieldRange
        ensures { result ≡ entry_range self }
    {
        FieldRange {
            store: self.store,
            offset: self.offset,
            width: self.width as usize,
        }
    }
}

/// A question.
#[derive(Clone, Copy)]
pub struct QuestionEntry {
    /// The place of the question, in bytes from the package's header.
    pub(crate) place: u32,
    /// The position of its statement in the index of the package.
    pub(crate) position: u32,
    /// Where its field lies, if it has one.
    pub(crate) field: Option<FieldEntry>,
}

impl QuestionEntry {
    /// What is kept of the question that a statement is, whose store holds so many bytes, if any.
    pub fn of(statement: Statement<'_>, op: QuestionOp<'_>, size: Option<u16>) -> QuestionEntry
        requires same { op_of op.op ≡ mark (statement_node statement) }
        requires asks { is_question (statement_node statement) ≡ true }
        ensures { (shape : Shape)
            → size ≡ size_of shape (question_store (statement_node statement.entry).op)
            → IsEntryOf shape (statement_node statement.entry) result }
    {
        QuestionEntry {
            place: statement.place(),
            position: statement.position(),
            field: field_in(statement, op, size),
        }
    }

    /// Where its field lies, if it has one.
    pub(crate) fn field(self) -> Option<FieldRange>
        ensures { result ≡ entry_field self }
    {
        match self.field {
            Some(field) => Some(field.range()),
            None => None,
        }
    }
}
