//! The opcodes of an expression.

ghost use Rattle.std.specs.Prelude.{◌+◌, ◌<◌, ◌^◌, length};
ghost use Rattle.ifr_expr.specs.code.Bytes.{AreOpcodes};
ghost use Rattle.ifr_expr.specs.code.Checked.{AreOpcodes-prop};

use ifr_opcodes::{END, Op, split_opcode};

/// The opcodes that are left up to the first END.
#[derive(Clone, Copy)]
pub struct Opcodes<'a> {
    rest: &'a [u8],
    place: u32,
    pub ghost opcodes: { AreOpcodes rest.now } by { AreOpcodes-prop rest.now },
    pub ghost small: { place + length rest.now < 2 ^ 32 },
}

impl<'a> Opcodes<'a> {
    ghost use Rattle.std.specs.Prelude.{◌≡◌, true, []};
    ghost use Rattle.std.specs.Iterator.{YieldsFirstBy};
    ghost use Rattle.ifr_opcodes.specs.code.Ops.{op_of};
    ghost use Rattle.ifr_expr.specs.code.Checked.{marks};
    ghost use Rattle.ifr_expr.specs.code.OpcodesLeft.{opcodes_left};

    /// The opcodes of these bytes, which begin at this place.
    pub(crate) fn over(bytes: &'a [u8], place: u32) -> Opcodes<'a>
        requires opcodes { AreOpcodes bytes.now }
        requires small { place + length bytes.now < 2 ^ 32 }
        ensures { opcodes_left result ≡ marks place bytes.entry.now }
    {
        Opcodes { rest: bytes, place }
    }

    // Whether no byte is left, and so no opcode.
    pub(crate) fn is_done(&self) -> bool
        ensures { result ≡ true → opcodes_left self.now ≡ [] }
    {
        self.rest.is_empty()
    }

    // Goes to the next.
    #[inline(always)]
    fn step(&mut self) -> Option<Op<'a>>
        ensures { YieldsFirstBy op_of opcodes_left self.old result self.new }
    {
        let Some((op, rest)) = split_opcode(self.rest, self.place) else {
            return None;
        };
        if op.code == END {
            return None;
        }
        self.place += op.len() as u32;
        self.rest = rest;
        Some(op)
    }
}

impl<'a> Iterator for Opcodes<'a> {
    ghost use Rattle.std.specs.Iterator.{YieldsFirstBy, item_count};
    ghost use Rattle.ifr_opcodes.specs.code.Ops.{op_of};
    ghost use Rattle.ifr_expr.specs.code.OpcodesLeft.{opcodes_left};

    type Item = Op<'a>;

    ghost next_gives = { YieldsFirstBy op_of opcodes_left };

    ghost remaining = { item_count opcodes_left };

    #[inline(always)]
    fn next(&mut self) -> Option<Op<'a>> {
        self.step()
    }
}
