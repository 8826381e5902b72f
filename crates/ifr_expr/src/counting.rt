//! Each opcode of an expression by itself, and how many values there are behind it.

ghost use Rattle.std.specs.Prelude.{◌≡◌, ◌≤◌, IfOk};
ghost use Rattle.hii_bytes.specs.code.FirstFaults.{first_cause};
ghost use Rattle.ifr_opcodes.specs.code.Ops.{op_of};
ghost use Rattle.ifr_expr.specs.code.Counting as counting;
ghost use Rattle.ifr_expr.specs.Faults.{has_opcode_fault};
ghost use Rattle.ifr_expr.specs.code.Counting.{opcode_causes};

use hii_bytes::{Cause, Fault};
use ifr_opcodes::{Op, is_operator, is_outside, is_short, operands};

/// So many values there are at once, at most.
pub(crate) const MAX_VALUES: usize = 64;

// The least cause for which an opcode of the expression at a place is refused by itself.
pub(crate) fn cause_of(op: Op, at: u32) -> Option<Cause>
    ensures { result ≡ first_cause (has_opcode_fault at) (op_of op.entry) opcode_causes }
{
    if is_outside(op) {
        return Some(Cause::OpOutside);
    }
    if is_short(op) {
        return Some(Cause::OpSize);
    }
    if !is_operator(op.code) {
        return Some(Cause::Misplaced);
    }
    if op.scope && op.place != at {
        return Some(Cause::ScopeBit);
    }
    None
}

// How many values there are behind an opcode, where there are so many before it.
fn after(count: usize, op: Op) -> Result<usize, Fault>
    requires { count ≤ 64 }
    ensures { result ≡ counting.after count (op_of op.entry) }
{
    let wanted = operands(op.code).unwrap_or(0);
    if count < wanted {
        return Err(op.fault(Cause::ExprShape));
    }
    if count - wanted + 1 > MAX_VALUES {
        return Err(op.fault(Cause::ExprDepth));
    }
    Ok(count - wanted + 1)
}

// How many values there are behind an opcode, where the first fault before it stays.
pub(crate) fn counted(count: Result<usize, Fault>, op: Op) -> Result<usize, Fault>
    requires { IfOk count (λ n. n ≤ 64) }
    ensures count { result ≡ counting.counted count (op_of op.entry) }
    ensures few { IfOk result (λ n. n ≤ 64) }
{
    match count {
        Ok(count) => after(count, op),
        Err(fault) => Err(fault),
    }
}
