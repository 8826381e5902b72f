//! One question.

ghost use Rattle.std.specs.Prelude.{◌≡◌, true};
ghost use Rattle.ifr_opcodes.specs.code.Marks.{mark};
ghost use Rattle.ifr_opcodes.specs.code.Ops.{op_of};
ghost use Rattle.ifr_scopes.specs.code.Lists.{statement_node};
ghost use Rattle.ifr_nodes.specs.Nodes.{is_question};
ghost use Rattle.hii_questions.specs.code.Ranges.{HasWidth, HasWidth-prop, IsNarrow, IsNarrow-prop};

use crate::entry::QuestionEntry;
use crate::field_range::FieldRange;
use ifr_opcodes::{PASSWORD, QuestionOp};
use ifr_scopes::Statement;

/// A question (UEFI 2.8, 33.2.5.4 Questions), and where its field lies.
#[derive(Clone, Copy)]
pub struct Question<'a> {
    pub(crate) statement: Statement<'a>,
    pub(crate) field: Option<FieldRange>,
    pub ghost asks: { is_question (statement_node statement) ≡ true },
    pub ghost wide: { HasWidth (statement_node statement) field } by { HasWidth-prop (statement_node statement) field },
    pub ghost narrow: { IsNarrow (statement_node statement) field } by { IsNarrow-prop (statement_node statement) field },
}

impl<'a> Question<'a> {
    ghost use Rattle.std.specs.Prelude.{option_map};
    ghost use Rattle.ifr_opcodes.specs.Fields.{question_id};
    ghost use Rattle.ifr_opcodes.specs.code.Ops.{bytes_of};
    ghost use Rattle.ifr_nodes.specs.Accepted.{IsAccepted};
    ghost use Rattle.hii_values.specs.Types.{is_password};
    ghost use Rattle.hii_questions.specs.code.Entries.{IsQuestionEntry, entry_field, entry_view};
    ghost use Rattle.hii_questions.specs.code.Ranges.{range_in};
    ghost use Rattle.hii_questions.specs.code.Views.{question_node, question_view};

    /// The question of an accepted package of which this is kept.
    #[inline(always)]
    pub(crate) fn kept(ifr: &'a [u8], entry: QuestionEntry) -> Question<'a>
        requires accepted { IsAccepted ifr.now }
        requires kept { IsQuestionEntry ifr.now entry }
        ensures { question_view result ≡ entry_view ifr.entry.now entry }
    {
        let statement = Statement::at(ifr, entry.place, entry.position);
        Question::of(statement, entry)
    }

    /// The question that a statement is, of which this is kept.
    #[inline(always)]
    pub fn of(statement: Statement<'a>, entry: QuestionEntry) -> Question<'a>
        requires asks { is_question (statement_node statement) ≡ true }
        requires wide { HasWidth (statement_node statement) (entry_field entry) }
        requires narrow { IsNarrow (statement_node statement) (entry_field entry) }
        ensures { question_view result ≡ record {
          node = statement_node statement.entry;
          field = option_map range_in (entry_field entry);
        } }
    {
        Question {
            statement,
            field: entry.field(),
        }
    }

    /// The statement that it is.
    pub fn statement(self) -> Statement<'a>
        ensures { statement_node result ≡ question_node self.entry }
    {
        self.statement
    }

    /// The id of the question, or 0.
    pub fn id(self) -> u16
        ensures { result ≡ question_id (question_node self.entry).op }
    {
        self.op().id()
    }

    /// The place of the question, in bytes from the package's header.
    pub fn place(self) -> u32
        ensures { result ≡ (question_node self.entry).place }
    {
        self.statement.place()
    }

    /// The opcode of the question.
    pub fn op(self) -> QuestionOp<'a>
        ensures place { result.op.place ≡ (question_node self.entry).place }
        ensures bytes { bytes_of result.op ≡ (question_node self.entry).op }
    {
        self.statement.question_op()
    }

    /// Where its field lies, if it has one. That of a question that is no PASSWORD has at most `WIDEST_FIELD` bytes.
    pub fn field(self) -> Option<FieldRange>
        ensures found { option_map range_in result ≡ (question_view self.entry).field }
        ensures narrow { IsNarrow (question_node self.entry) result }
    {
        self.field
    }

    /// Whether it is for a password (UEFI 2.8, 33.3.8.3, EFI_IFR_PASSWORD).
    pub fn is_password(self) -> bool
        ensures { result ≡ is_password (question_node self.entry) }
    {
        self.op().op.code == PASSWORD
    }
}
