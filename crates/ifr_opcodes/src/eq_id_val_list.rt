//! A question compared with several numbers.

ghost use Rattle.std.specs.Prelude.{◌≡◌, ◌+◌, ◌*◌, ◌≤◌, length};
ghost use Rattle.ifr_opcodes.specs.declared.codes.TheConstants.{EQ_ID_VAL_LIST};
ghost use Rattle.ifr_opcodes.specs.Fields.{eq_id_val_list_count};
ghost use Rattle.ifr_opcodes.specs.code.Ops.{bytes_of};

use crate::op::Op;

/// Whether a question's value is one of several numbers (UEFI 2.8, 33.3.8.3, EFI_IFR_EQ_ID_VAL_LIST).
#[derive(Clone, Copy)]
pub struct EqIdValListOp<'a> {
    pub op: Op<'a>,
    pub ghost coded: { op.code ≡ EQ_ID_VAL_LIST },
    pub ghost sized: { 6 ≤ length (bytes_of op) },
    pub ghost listed: { 6 + 2 * eq_id_val_list_count (bytes_of op) ≤ length (bytes_of op) },
}

impl<'a> EqIdValListOp<'a> {
    ghost use Rattle.ifr_opcodes.specs.Fields.{eq_id_val_list_question, eq_id_val_list_values};
    ghost use Rattle.ifr_opcodes.specs.code.Views.{values_left};

    /// The question's id.
    pub fn question(self) -> u16
        ensures { result ≡ eq_id_val_list_question (bytes_of self.entry.op) }
    {
        self.op.u16_at(2)
    }

    /// How many numbers there are.
    pub fn count(self) -> u16
        ensures { result ≡ eq_id_val_list_count (bytes_of self.entry.op) }
    {
        self.op.u16_at(4)
    }

    /// The numbers, in their order.
    pub fn values(self) -> ListValues<'a>
        ensures { values_left result ≡ eq_id_val_list_values (bytes_of self.entry.op) }
    {
        let end = 4 + 2 * usize::from(self.count());
        ListValues {
            rest: &self.op.body[4..end],
        }
    }
}

/// The numbers that are left of an EQ_ID_VAL_LIST.
#[derive(Clone, Drop)]
pub struct ListValues<'a> {
    rest: &'a [u8],
}

impl<'a> Iterator for ListValues<'a> {
    ghost use Rattle.std.specs.Iterator.{YieldsFirstBy, item_count};
    ghost use Rattle.ifr_opcodes.specs.code.Views.{values_left};

    type Item = u16;

    ghost next_gives = { YieldsFirstBy (λ value. value) values_left };

    ghost remaining = { item_count values_left };

    fn next(&mut self) -> Option<u16> {
        let [low, high, rest @ ..] = self.rest else {
            return None;
        };
        let value = u16::from(*low) + 256 * u16::from(*high);
        self.rest = rest;
        Some(value)
    }
}
