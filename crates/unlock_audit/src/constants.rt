//! The numbers that conditions name, as a NUMERIC takes them.

ghost use Rattle.std.specs.Prelude.{◌≡◌, ◌∷◌, [], ◌^◌, ◌≤ℤ◌, nat_lt, neg_ℤ, pos, OnOk};
ghost use Rattle.std.specs.List.{flat_map};
ghost use Rattle.ifr_opcodes.specs.Fields.{numeric_width};
ghost use Rattle.ifr_opcodes.specs.code.Ops.{bytes_of as op_bytes, op_of};
ghost use Rattle.ifr_opcodes.specs.code.Codes.{constant_code};
ghost use Rattle.ifr_opcodes.specs.code.Views.{leaf_operator, operator, values_left};
ghost use Rattle.ifr_expr.specs.Values.{constant_value};
ghost use Rattle.ifr_expr.specs.code.Expressions.{tree_of};
ghost use Rattle.ifr_nodes.specs.Nodes.{nodes_of};
ghost use Rattle.ifr_nodes.specs.Rules.{rules_among};
ghost use Rattle.ifr_scopes.specs.code.Lists.{guard_node};
ghost use Rattle.hii_questions.specs.code.Views.{question_node, question_view};
ghost use Rattle.question_audit.specs.RuleFacts.{references_over, rule_references};
ghost use Rattle.unlock_audit.specs.Constants as spec;
ghost use Rattle.unlock_audit.specs.Moves as moves;
ghost use Rattle.unlock_audit.specs.code.Offered.{offered, offered_near};

use hii_questions::{Input, Question, check_value, shown};
use ifr_expr::Expr;
use ifr_opcodes::{Constant, Display, ExprOp, LeafOp, ListValues, NumericOp};
use ifr_scopes::{Forms, Guard};
use std::alloc::{AllocError, Global};
use std::collections::BTreeSet;

/// A question that is a NUMERIC, with its opcode.
#[derive(Clone, Copy)]
pub(crate) struct Numeric<'a> {
    pub(crate) question: Question<'a>,
    pub(crate) op: NumericOp<'a>,
    pub ghost own: { op_bytes op.op ≡ (question_node question).op },
}

impl<'a> Numeric<'a> {
    // Adds a value, where the question takes it.
    pub(crate) fn add(self, value: i128, values: &mut BTreeSet<i128>) -> Result<(), AllocError>
        ensures { OnOk result (values.new.keys
            ≡ offered (question_view self.entry.question) values.old.keys (value ∷ [])) }
    {
        if check_value(self.question, Input::Number(value)).is_ok() {
            values.insert(value)?;
        }
        Ok(())
    }

    // Bits as the question reads them.
    pub(crate) fn as_read(self, bits: u64) -> i128
        ensures { result ≡ moves.as_read (question_node self.entry.question) bits }
    {
        let signed = match self.op.display() {
            Display::Signed => true,
            Display::Unsigned | Display::Hexadecimal => false,
        };
        shown(signed, self.op.width(), bits)
    }

    // Whether the field can hold a number.
    fn can_hold(self, number: u64) -> bool
        ensures { result ≡ nat_lt number (256 ^ numeric_width (question_node self.entry.question).op) }
    {
        match self.op.width() {
            1 => number < 0x100,
            2 => number < 0x1_0000,
            4 => number < 0x1_0000_0000,
            _ => true,
        }
    }

    // Adds a number and its neighbours.
    fn add_near(self, number: i128, values: &mut BTreeSet<i128>) -> Result<(), AllocError>
        requires least { neg_ℤ (pos (2 ^ 64)) ≤ℤ number }
        requires most { number ≤ℤ pos (2 ^ 64) }
        ensures { OnOk result (values.new.keys
            ≡ offered (question_view self.entry.question) values.old.keys (moves.near number)) }
    {
        let below = number - 1;
        let above = number + 1;
        self.add(below, values)?;
        self.add(number, values)?;
        self.add(above, values)
    }

    // Adds a constant with its neighbours, as it is and as the field reads it.
    fn add_constant(self, constant: u64, values: &mut BTreeSet<i128>) -> Result<(), AllocError>
        ensures { OnOk result (values.new.keys ≡ offered_near (question_view self.entry.question) values.old.keys (constant ∷ [])) }
    {
        self.add_near(i128::from(constant), values)?;
        if self.can_hold(constant) {
            self.add_near(self.as_read(constant), values)?;
        }
        Ok(())
    }

    // Adds constants.
    fn add_list(self, list: ListValues<'_>, values: &mut BTreeSet<i128>) -> Result<(), AllocError>
        ensures { OnOk result (values.new.keys ≡ offered_near (question_view self.entry.question) values.old.keys
            (values_left list.entry)) }
    {
        let mut list = list;
        while let Some(constant) = list.next() {
            self.add_constant(u64::from(constant), values)?;
        }
        Ok(())
    }

    // Adds those of an operator without operands.
    fn add_leaf(self, op: LeafOp<'_>, values: &mut BTreeSet<i128>) -> Result<(), AllocError>
        ensures { OnOk result (values.new.keys ≡ offered_near (question_view self.entry.question) values.old.keys
            (spec.mark_constants (op_of (leaf_operator op.entry)))) }
    {
        match op {
            LeafOp::EqIdVal(op) => self.add_constant(u64::from(op.value()), values),
            LeafOp::EqIdValList(op) => self.add_list(op.values(), values),
            LeafOp::Uint(op) => self.add_constant(op.value(), values),
            LeafOp::Constant(op) => self.add_plain(op.constant, values),
            LeafOp::EqIdId(_) => Ok(()),
            LeafOp::QuestionRef(_) => Ok(()),
            LeafOp::This(_) => Ok(()),
        }
    }

    // Adds those of an operator.
    fn add_operator(self, op: ExprOp<'_>, values: &mut BTreeSet<i128>) -> Result<(), AllocError>
        ensures { OnOk result (values.new.keys ≡ offered_near (question_view self.entry.question) values.old.keys
            (spec.mark_constants (op_of (operator op.entry)))) }
    {
        match op {
            ExprOp::Leaf(op) => self.add_leaf(op, values),
            ExprOp::RuleRef(_) => Ok(()),
            ExprOp::Unary(_) => Ok(()),
            ExprOp::Binary(_) => Ok(()),
        }
    }

    // Adds the number that an opcode stands for, if it is one.
    fn add_plain(self, constant: Constant, values: &mut BTreeSet<i128>) -> Result<(), AllocError>
        ensures { OnOk result (values.new.keys ≡ offered_near (question_view self.entry.question) values.old.keys
            (spec.number_in (constant_value (constant_code constant)))) }
    {
        match constant {
            Constant::Zero => self.add_constant(0, values),
            Constant::One => self.add_constant(1, values),
            Constant::Ones => self.add_constant(u64::MAX, values),
            _ => Ok(()),
        }
    }

    // Adds those of an expression.
    fn add_expression(
        self,
        expression: Expr<'_>,
        values: &mut BTreeSet<i128>,
    ) -> Result<(), AllocError>
        ensures { OnOk result (values.new.keys ≡ offered_near (question_view self.entry.question) values.old.keys
            (spec.tree_constants (tree_of expression.entry))) }
    {
        let mut left = expression.operators();
        while let Some(op) = left.next() {
            self.add_operator(op, values)?;
        }
        Ok(())
    }

    // Adds those of the rules that an expression names, and of those that these name in turn.
    fn add_named(
        self,
        alloc: Global,
        forms: &Forms<'a>,
        expression: Expr<'a>,
        values: &mut BTreeSet<i128>,
    ) -> Result<(), AllocError>
        ensures { OnOk result (values.new.keys ≡ offered_near (question_view self.entry.question) values.old.keys
            (flat_map (spec.named_constants (nodes_of forms.now))
            (references_over (rule_references (rules_among (nodes_of forms.now))) (tree_of expression.entry)))) }
    {
        // The package is accepted, so that no rule names one behind it.
        forms.bytes();
        let mut frames = Vec::new(alloc);
        frames.push(expression.references())?;
        while let Some(mut references) = frames.pop() {
            let Some(reference) = references.next() else {
                continue;
            };
            frames.push(references)?;
            if let Some(rule) = forms.rule_named(reference.id, reference.place) {
                let named = rule.expression();
                self.add_expression(named, values)?;
                frames.push(named.references())?;
            }
        }
        Ok(())
    }

    // Adds those of the condition of a guard, and of the rules that it names.
    pub(crate) fn add_condition(
        self,
        alloc: Global,
        forms: &Forms<'a>,
        guard: Guard<'a>,
        values: &mut BTreeSet<i128>,
    ) -> Result<(), AllocError>
        ensures { OnOk result (values.new.keys ≡ offered_near (question_view self.entry.question) values.old.keys
            (spec.constants (nodes_of forms.now) (guard_node guard.entry))) }
    {
        let condition = guard.condition();
        self.add_expression(condition, values)?;
        self.add_named(alloc, forms, condition, values)
    }
}
