//! The condition that forbids a command.

ghost use Rattle.std.specs.Prelude.{◌≡◌, None, Some, IfOk, IfSome, OnOk, OnErr, option_map};
ghost use Rattle.hii_bytes.specs.Faults.{out_of_memory};
ghost use Rattle.hii_bytes.specs.Watching.{Puts};
ghost use Rattle.hii_bytes.specs.code.NumberSets.{has_number};
ghost use Rattle.ifr_opcodes.specs.Opcode.{number};
ghost use Rattle.ifr_opcodes.specs.code.Ops.{bytes_of as op_bytes};
ghost use Rattle.ifr_nodes.specs.Nodes.{nodes_of};
ghost use Rattle.ifr_scopes.specs.code.AnyConditions.{any_condition_node};
ghost use Rattle.ifr_scopes.specs.code.Parts.{condition_op};
ghost use Rattle.guard_policy.specs.code.Views.{bytes_of};
ghost use Rattle.condition_text.specs.code.Conditions.{words_of};
ghost use Rattle.question_audit.specs.ConditionFacts.{condition_words};
ghost use Rattle.script_audit.specs.Because as spec;
ghost use Rattle.script_audit.specs.code.Forbiddings.{forbidding_meant};

use audit_text::{opcode_name, put_hexadecimal};
use condition_text::ConditionText;
use hii_bytes::Watched;
use hii_questions::DenialKind;
use ifr_scopes::{AnyCondition, ConditionOp, Forms};
use session_steps::Reply;
use std::io::Write;

/// A condition that denies, and how it is.
#[derive(Clone, Copy)]
pub(crate) struct Forbidding<'a> {
    pub(crate) state: &'static [u8],
    pub(crate) condition: AnyCondition<'a>,
}

// How the condition of the opcode that denies is, where one does.
fn state_words(kind: DenialKind) -> Option<&'static [u8]>
    ensures { option_map (λ words. words.now) result ≡ spec.state_words kind }
{
    match kind {
        DenialKind::DisableIf => Some(b"was removed"),
        DenialKind::SuppressIf => Some(b"holds"),
        DenialKind::GrayOutIf => Some(b"holds"),
        DenialKind::NoSubmitIf => Some(b"holds"),
        DenialKind::InconsistentIf => Some(b"would hold"),
        _ => None,
    }
}

/// The condition by which a line is not answered with OK, if one forbids it.
pub(crate) fn what_forbids<'a>(forms: &Forms<'a>, reply: Reply) -> Option<Forbidding<'a>>
    ensures { option_map forbidding_meant result ≡ spec.forbidding (nodes_of forms.now) reply }
{
    let Reply::Denied(denial) = reply else {
        return None;
    };
    let state = state_words(denial.kind)?;
    let condition = forms.condition_at(denial.place, 0)?;
    Some(Forbidding { state, condition })
}

// The number of the opcode of a condition.
fn code_of(condition: AnyCondition<'_>) -> u8
    ensures { result ≡ number (any_condition_node condition.entry).op }
{
    match condition {
        AnyCondition::Guard(guard) => guard.code(),
        AnyCondition::Question(view) => check_code(view.op()),
    }
}

fn check_code(op: ConditionOp<'_>) -> u8
    ensures { result ≡ number (op_bytes (condition_op op.entry)) }
{
    match op {
        ConditionOp::InconsistentIf(view) => view.op.code,
        ConditionOp::NoSubmitIf(view) => view.op.code,
        ConditionOp::WarningIf(view) => view.op.code,
    }
}

/// Writes a condition that forbids: its opcode, its place and its byte in the file, how it is, and what it says, which is this text.
pub(crate) fn put_forbidding<W: Write>(
    package_place: u64,
    forbidding: Forbidding<'_>,
    text: &ConditionText<'_>,
    out: &mut Watched<W>,
)
    requires { words_of text.now ≡ condition_words (any_condition_node forbidding.condition) }
    ensures { Puts W.contents out.old out.new
        (spec.condition_text package_place forbidding.entry.state.now
        (any_condition_node forbidding.entry.condition)) }
{
    let place = u64::from(forbidding.condition.place());
    out.put(opcode_name(code_of(forbidding.condition)));
    out.put(b" at ");
    out.put_place(place);
    out.put(b" (byte ");
    put_hexadecimal(out, package_place.saturating_add(place));
    out.put(b") ");
    out.put(forbidding.state);
    out.put(b": ");
    text.put(out);
}
