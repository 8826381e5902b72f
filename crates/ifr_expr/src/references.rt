//! The rules that an expression names.

ghost use Rattle.std.specs.Prelude.{◌≡◌};
ghost use Rattle.ifr_opcodes.specs.code.Ops.{op_of};
ghost use Rattle.ifr_expr.specs.code.Checked.{IsSized};
ghost use Rattle.ifr_expr.specs.code.ReferencesLeft.{as_list};
ghost use Rattle.ifr_expr.specs.References.{references_of};

use crate::operators::Operators;
use ifr_opcodes::{Op, RULE_REF, RuleRefOp};

/// A reference to a rule (UEFI 2.8, 33.3.8.3, EFI_IFR_RULE_REF).
#[derive(Clone, Copy, Debug, PartialEq, Eq)]
pub struct RuleReference {
    /// The rule's id.
    pub id: u8,
    /// Where the reference stands, in bytes from the package's header.
    pub place: u32,
}

// The reference that an operator's opcode is, if it is one.
fn reference_in(op: Op) -> Option<RuleReference>
    requires { IsSized (op_of op) }
    ensures { as_list result ≡ references_of (op_of op.entry) }
{
    if op.code != RULE_REF {
        return None;
    }
    let view = RuleRefOp { op };
    Some(RuleReference {
        id: view.rule(),
        place: op.place,
    })
}

/// The references to rules that are left of an expression, by place.
#[derive(Clone, Drop)]
pub struct RuleReferences<'a> {
    pub(crate) ops: Operators<'a>,
}

impl<'a> RuleReferences<'a> {
    ghost use Rattle.std.specs.Iterator.{YieldsFirstBy};
    ghost use Rattle.ifr_expr.specs.code.ReferencesLeft.{references_left};

    // Goes to the next.
    fn step(&mut self) -> Option<RuleReference>
        ensures { YieldsFirstBy (λ reference. reference) references_left self.old result self.new }
    {
        while let Some(op) = self.ops.next_op() {
            if let Some(reference) = reference_in(op) {
                return Some(reference);
            }
        }
        None
    }
}

impl<'a> Iterator for RuleReferences<'a> {
    ghost use Rattle.std.specs.Iterator.{YieldsFirstBy, item_count};
    ghost use Rattle.ifr_expr.specs.code.ReferencesLeft.{references_left};

    type Item = RuleReference;

    ghost next_gives = { YieldsFirstBy (λ reference. reference) references_left };

    ghost remaining = { item_count references_left };

    fn next(&mut self) -> Option<RuleReference> {
        self.step()
    }
}
