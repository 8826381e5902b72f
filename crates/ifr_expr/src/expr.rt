//! Expressions.

ghost use Rattle.ifr_expr.specs.code.Checked.{IsChecked, IsChecked-prop};

use crate::counting::{cause_of, counted};
use crate::given;
use crate::names::Names;
use crate::opcodes::Opcodes;
use crate::operators::Operators;
use crate::references::RuleReferences;
use crate::rule_values::RuleValues;
use crate::rules::{NumberedRules, Rules};
use crate::support::Support;
use crate::value::{Answers, Value};
use hii_bytes::{Cause, Fault};

/// An expression that was checked (UEFI 2.8, 33.2.5.7 Expressions).
#[derive(Clone, Copy)]
pub struct Expr<'a> {
    bytes: &'a [u8],
    place: u32,
    pub ghost checked: { IsChecked place bytes.now } by { IsChecked-prop place bytes.now },
}

impl<'a> Expr<'a> {
    ghost use Rattle.std.specs.Prelude.{◌≡◌, ◌≤◌, true, IfOk, IfErr, IsOk, length, slice_range};
    ghost use Rattle.hii_bytes.specs.Faults.{IsLeast, HasNone};
    ghost use Rattle.ifr_expr.specs.code.Expressions.{tree_of, end_of, operators_left};
    ghost use Rattle.ifr_expr.specs.Faults.{IsOpcodeFault, IsExpressionFault};
    ghost use Rattle.ifr_expr.specs.Meaning.{value};
    ghost use Rattle.ifr_expr.specs.Support.{support};
    ghost use Rattle.ifr_expr.specs.code.Names.{names_in};
    ghost use Rattle.ifr_expr.specs.code.NamesLeft.{names_left};
    ghost use Rattle.ifr_expr.specs.code.Bytes.{IsExpressionNode, opcodes_of};
    ghost use Rattle.ifr_expr.specs.References.{references};
    ghost use Rattle.ifr_expr.specs.code.ReferencesLeft.{references_left};
    ghost use Rattle.ifr_expr.specs.code.Supports.{ids_left};
    ghost use Rattle.ifr_expr.specs.Trees.{Tree, Means, need, post};
    ghost use Rattle.ifr_expr.specs.Values.{holds};
    ghost use Rattle.ifr_expr.specs.code.RuleValues.{AreValues, kept_under};
    ghost use Rattle.ifr_expr.specs.code.Views.{value_of};

    /// The expression that stands at a range of a package, in bytes from its header: the node of an operator. It is refused
    /// by the least fault: of its opcodes, each by itself (26 to 29, and places in bytes from the package's header), or
    /// where these have none of their number and order (30, 31).
    pub fn check(ifr: &'a [u8], from: u32, to: u32) -> Result<Expr<'a>, Fault>
        requires ordered { from ≤ to }
        requires within { to ≤ length ifr.now }
        requires node { IsExpressionNode (slice_range ifr.now from to) }
        ensures read { IfOk result
            (λ expr. Means (opcodes_of from (slice_range ifr.entry.now from to)) (tree_of expr)) }
        ensures range { IfOk result (λ expr. (expr.place ≡ from) × (end_of expr ≡ to)) }
        ensures sound { IfOk result
            (λ _. HasNone (IsExpressionFault from
            (opcodes_of from (slice_range ifr.entry.now from to)))) }
        ensures refused { IfErr result
            (IsLeast (IsExpressionFault from
            (opcodes_of from (slice_range ifr.entry.now from to)))) }
        ensures accepted { HasNone
            (IsExpressionFault from (opcodes_of from (slice_range ifr.entry.now from to)))
            → IsOk result }
        ensures meant { (tree : Tree)
            → Means (opcodes_of from (slice_range ifr.entry.now from to)) tree → need tree ≤ 64
            → HasNone (IsOpcodeFault from (opcodes_of from (slice_range ifr.entry.now from to)))
            → IsOk result }
    {
        let bytes = &ifr[from as usize..to as usize];
        let mut values = Ok(0);
        let mut ops = Opcodes::over(bytes, from);
        while let Some(op) = ops.next() {
            if let Some(cause) = cause_of(op, from) {
                return Err(op.fault(cause));
            }
            values = counted(values, op);
        }
        match values {
            Ok(1) => Ok(Expr { bytes, place: from }),
            Ok(_) => Err(Fault::at(Cause::ExprShape, u64::from(from))),
            Err(fault) => Err(fault),
        }
    }

    /// The expression that stands at a range of a package, in bytes from its header: the node of an operator, which has no
    /// fault.
    pub fn over(ifr: &'a [u8], from: u32, to: u32) -> Expr<'a>
        requires ordered { from ≤ to }
        requires within { to ≤ length ifr.now }
        requires node { IsExpressionNode (slice_range ifr.now from to) }
        requires sound { HasNone
            (IsExpressionFault from (opcodes_of from (slice_range ifr.now from to))) }
        ensures read { Means (opcodes_of from (slice_range ifr.entry.now from to)) (tree_of result) }
        ensures range { (result.place ≡ from) × (end_of result ≡ to) }
    {
        Expr {
            bytes: &ifr[from as usize..to as usize],
            place: from,
        }
    }

    /// The operators of the expression, by place: those of an operator's operands stand before it, of the left one first.
    pub fn operators(self) -> Operators<'a>
        ensures { operators_left result ≡ post (tree_of self.entry) }
    {
        Operators {
            ops: Opcodes::over(self.bytes, self.place),
        }
    }

    // Whether its bytes are too few to need more values at once than these: an operator has two bytes or more, and to n values
    // at once there are 2 n - 1 operators or more.
    pub(crate) fn needs_few(self, count: usize) -> bool
        requires { count ≤ 64 }
        ensures { result ≡ true → need (tree_of self.entry) ≤ count }
    {
        self.bytes.len() < 4 * count + 2
    }

    /// How many opcodes it has; an END is none of them.
    pub fn len(self) -> usize
        ensures { result ≡ length (post (tree_of self.entry)) }
    {
        let mut count = 0;
        let mut ops = Opcodes::over(self.bytes, self.place);
        while let Some(_op) = ops.next() {
            count += 1;
        }
        count
    }

    /// The references of the expression to rules, by place.
    pub fn references(self) -> RuleReferences<'a>
        ensures { references_left result ≡ references (tree_of self.entry) }
    {
        RuleReferences {
            ops: self.operators(),
        }
    }

    /// The value of the expression, over what the questions answer, the rules, and the id of the question in whose scope
    /// it stands, 0 for none.
    pub fn value<A: Answers<'a>, R: Rules<'a>>(self, answers: &A, rules: &R, this: u16) -> Value<'a>
        ensures { value_of result ≡ value (R.rules rules.now) (A.answers answers.now) this
            (tree_of self.entry) }
    {
        given::value(self, answers, rules, this)
    }

    /// The same, by values of rules over the same answers. Those that it asks for are kept there.
    pub fn value_by<A: Answers<'a>, R: NumberedRules<'a>>(
        self,
        answers: &A,
        rules: &R,
        this: u16,
        values: &mut RuleValues,
    ) -> Value<'a>
        requires { AreValues (R.rules rules.now) (A.answers answers.now) (kept_under values.old) }
        ensures value { value_of result
            ≡ value (R.rules rules.now) (A.answers answers.now) this (tree_of self.entry) }
        ensures kept { AreValues (R.rules rules.now) (A.answers answers.now) (kept_under values.new) }
    {
        given::value_by(self, answers, rules, this, values)
    }

    // Whether a value is that of a condition that holds.
    fn is_met(value: Value<'a>) -> bool
        ensures { result ≡ holds (value_of value.entry) }
    {
        match value {
            Value::Boolean(holds) => holds,
            Value::Number(number) => number != 0,
            Value::Undefined => false,
            Value::Text(_) => false,
            Value::Buffer(_) => false,
        }
    }

    /// Whether it holds as a condition: its value is true, or a number other than 0.
    pub fn holds<A: Answers<'a>, R: Rules<'a>>(self, answers: &A, rules: &R, this: u16) -> bool
        ensures { result
            ≡ holds (value (R.rules rules.now) (A.answers answers.now) this (tree_of self.entry)) }
    {
        Self::is_met(self.value(answers, rules, this))
    }

    /// The same, by values of rules over the same answers. Those that it asks for are kept there.
    pub fn holds_by<A: Answers<'a>, R: NumberedRules<'a>>(
        self,
        answers: &A,
        rules: &R,
        this: u16,
        values: &mut RuleValues,
    ) -> bool
        requires { AreValues (R.rules rules.now) (A.answers answers.now) (kept_under values.old) }
        ensures holds { result
            ≡ holds (value (R.rules rules.now) (A.answers answers.now) this (tree_of self.entry)) }
        ensures kept { AreValues (R.rules rules.now) (A.answers answers.now) (kept_under values.new) }
    {
        Self::is_met(self.value_by(answers, rules, this, values))
    }

    /// What its operators name, by place.
    pub fn names(self) -> Names<'a>
        ensures { names_left result ≡ names_in (tree_of self.entry) }
    {
        Names {
            ops: self.operators(),
            second: None,
        }
    }

    /// The ids of the questions that it names, by place.
    pub fn support(self) -> Support<'a>
        ensures { ids_left result ≡ support (tree_of self.entry) }
    {
        Support {
            names: self.names(),
        }
    }
}
