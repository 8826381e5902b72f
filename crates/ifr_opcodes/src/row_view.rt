//! Views of the opcodes of one number.

ghost use Rattle.std.specs.Prelude.{◌≡◌, ◌≤◌, length};
ghost use Rattle.ifr_opcodes.specs.code.Ops.{bytes_of};
ghost use Rattle.ifr_opcodes.specs.code.Tables.{row_length};

use crate::op::Op;
use hii_bytes::Fault;

/// An opcode of the number CODE that has all its fields (UEFI 2.8, 33.3.8.3 Opcode Reference).
#[derive(Clone, Copy)]
pub struct RowView<'a, const CODE: u8> {
    pub op: Op<'a>,
    pub ghost coded: { op.code ≡ CODE },
    pub ghost sized: { row_length CODE (bytes_of op) ≤ length (bytes_of op) },
}

impl<'a, const CODE: u8> RowView<'a, CODE> {
    ghost use Rattle.ifr_opcodes.specs.Rows.{is_row};
    ghost use Rattle.ifr_opcodes.specs.code.Views.{Reads};

    /// Another opcode, and one that is refused as if it were not known, is refused by OpOutside, one that lacks bytes of
    /// its fields by OpSize, each at its place.
    pub fn read(op: Op<'a>) -> Result<RowView<'a, CODE>, Fault>
        ensures { Reads (is_row CODE) (λ view. view.op) op.entry result }
    {
        op.check_row(CODE)?;
        Ok(RowView { op })
    }
}
