//! The texts of operators that take no operands.

ghost use Rattle.std.specs.Prelude.{◌≡◌, ◌++◌, codes, decimal};
ghost use Rattle.std.specs.List.{flat_map};
ghost use Rattle.hii_bytes.specs.Watching.{Puts};
ghost use Rattle.ifr_opcodes.specs.code.Ops.{bytes_of};
ghost use Rattle.ifr_opcodes.specs.code.Views.{leaf_operator, values_left};
ghost use Rattle.condition_text.specs.Senses.{leaf_sense};
ghost use Rattle.condition_text.specs.Texts.{text};

use crate::words::{bits_of, constant_word};
use hii_bytes::Watched;
use ifr_opcodes::{LeafOp, ListValues, RuleRefOp};
use std::io::Write;

/// Writes the text of an operator that takes no operands and is no reference to a rule.
pub(crate) fn put_leaf<W: Write>(out: &mut Watched<W>, op: LeafOp<'_>)
    ensures { Puts W.contents out.old out.new
        (text (leaf_sense (bytes_of (leaf_operator op.entry)))) }
{
    match op {
        LeafOp::EqIdVal(op) => {
            out.put(b"ideqval q");
            out.put_decimal(u64::from(op.question()));
            out.put(b" == ");
            out.put_decimal(u64::from(op.value()));
        }
        LeafOp::EqIdId(op) => {
            out.put(b"ideqid q");
            out.put_decimal(u64::from(op.first()));
            out.put(b" == q");
            out.put_decimal(u64::from(op.second()));
        }
        LeafOp::EqIdValList(op) => {
            out.put(b"ideqvallist q");
            out.put_decimal(u64::from(op.question()));
            out.put(b" ==");
            put_values(out, op.values());
        }
        LeafOp::QuestionRef(op) => {
            out.put(b"questionref(");
            out.put_decimal(u64::from(op.question()));
            out.put(b")");
        }
        LeafOp::Uint(op) => {
            out.put_decimal(op.value());
            out.put(b"u");
            out.put_decimal(bits_of(op.op.code));
        }
        LeafOp::Constant(op) => out.put(constant_word(op.constant)),
        LeafOp::This(_) => out.put(b"THIS"),
    }
}

/// Writes the text of a reference to a rule.
pub(crate) fn put_rule_ref<W: Write>(out: &mut Watched<W>, op: RuleRefOp<'_>)
    ensures { Puts W.contents out.old out.new (text (leaf_sense (bytes_of op.entry.op))) }
{
    out.put(b"ruleref(");
    out.put_decimal(u64::from(op.rule()));
    out.put(b")");
}

// Writes the numbers, each behind a space.
fn put_values<W: Write>(out: &mut Watched<W>, values: ListValues<'_>)
    ensures { Puts W.contents out.old out.new
        (flat_map (λ value. codes " " ++ decimal value) (values_left values.entry)) }
{
    let mut values = values;
    while let Some(value) = values.next() {
        out.put(b" ");
        out.put_decimal(u64::from(value));
    }
}
