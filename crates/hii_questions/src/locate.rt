//! Where fields lie.

ghost use Rattle.std.specs.Prelude.{◌≡◌, option_map};
ghost use Rattle.ifr_opcodes.specs.Fields.{question_offset, question_store};
ghost use Rattle.ifr_opcodes.specs.code.Marks.{mark};
ghost use Rattle.ifr_opcodes.specs.code.Ops.{op_of};
ghost use Rattle.ifr_scopes.specs.code.Lists.{statement_node};
ghost use Rattle.hii_questions.specs.Fields.{field_in, field_width};
ghost use Rattle.hii_questions.specs.code.Entries.{entry_range};
ghost use Rattle.hii_questions.specs.code.Ranges.{range_in, HasWidth, IsNarrow};

use crate::entry::FieldEntry;
use hii_values::FieldType;
use ifr_opcodes::QuestionOp;
use ifr_scopes::Statement;

/// The field of a question whose store holds so many bytes, if any.
pub(crate) fn field_in(
    statement: Statement<'_>,
    op: QuestionOp<'_>,
    size: Option<u16>,
) -> Option<FieldEntry>
    requires { op_of op.op ≡ mark (statement_node statement) }
    ensures found { option_map range_in (option_map entry_range result)
        ≡ field_in (question_store (statement_node statement.entry).op)
        (question_offset (statement_node statement.entry).op) size
        (field_width (statement_node statement.entry)) }
    ensures wide { HasWidth (statement_node statement.entry) (option_map entry_range result) }
    ensures narrow { IsNarrow (statement_node statement.entry) (option_map entry_range result) }
{
    let store = op.store();
    if store == 0 {
        return None;
    }
    size?;
    let field_type = FieldType::of(statement)?;
    Some(FieldEntry {
        store,
        offset: op.offset(),
        width: field_type.size() as u32,
    })
}
