//! One node of a checked package.

ghost use Rattle.ifr_opcodes.specs.code.Props.{spelled};
ghost use Rattle.ifr_nodes.specs.Checked.{IsChecked};
ghost use Rattle.ifr_nodes.specs.code.Checked.{IsChecked-prop, IsAt, IsAt-prop};

use crate::ends::end_of;
use crate::guards::is_guard;
use ifr_expr::Expr;
use ifr_opcodes::{
    DefaultOp, FORM, FORM_SET, FormOp, FormSetOp, Op, OptionOp, QuestionOp, REF, RULE, RefOp,
    RuleOp, StatementOp, is_question, is_statement, is_store,
};

/// A node of a package whose nodes were checked.
#[derive(Clone, Copy)]
pub struct Node<'a> {
    pub ifr: &'a [u8],
    pub op: Op<'a>,
    pub ghost checked: { IsChecked ifr.now } by { IsChecked-prop ifr.now },
    pub ghost stands: { IsAt ifr.now op.place (spelled op.code op.scope op.body.now) } by { IsAt-prop ifr.now op.place (spelled op.code op.scope op.body.now) },
}

impl<'a> Node<'a> {
    ghost use Rattle.std.specs.Prelude.{◌≡◌, ◌==◌, true, None, if◌then◌else◌};
    ghost use Rattle.ifr_opcodes.specs.code.Ops.{bytes_of};
    ghost use Rattle.ifr_opcodes.specs.Opcode.{number};
    ghost use Rattle.ifr_nodes.specs.Guards.{is_guard as is_guard_number};
    ghost use Rattle.ifr_nodes.specs.Nodes as nodes;
    ghost use Rattle.ifr_nodes.specs.Rules as rules;
    ghost use Rattle.ifr_nodes.specs.code.Views.{node_of};
    ghost use Rattle.ifr_opcodes.specs.Fields.{ref_target};
    ghost use Rattle.ifr_expr.specs.code.Expressions.{tree_of};
    ghost use Rattle.ifr_nodes.specs.code.Ends.{expression_end};
    ghost use Rattle.ifr_nodes.specs.NodeExpressions.{expression_tree};
    ghost use Rattle.ifr_nodes.specs.Table.{wants_expression};

    /// The opcode of the node.
    pub fn op(self) -> Op<'a>
        ensures place { result.place ≡ (node_of self.entry).place }
        ensures bytes { bytes_of result ≡ (node_of self.entry).op }
    {
        self.op
    }

    /// Whether it is the form set.
    pub fn is_form_set(self) -> bool
        ensures { result ≡ nodes.is_form_set (node_of self.entry) }
    {
        self.op.code == FORM_SET
    }

    /// Whether it is a form.
    pub fn is_form(self) -> bool
        ensures { result ≡ nodes.is_form (node_of self.entry) }
    {
        self.op.code == FORM
    }

    /// Whether it is a store.
    pub fn is_store(self) -> bool
        ensures { result ≡ nodes.is_store (node_of self.entry) }
    {
        is_store(self.op.code)
    }

    /// Whether it is a question.
    pub fn is_question(self) -> bool
        ensures { result ≡ nodes.is_question (node_of self.entry) }
    {
        is_question(self.op.code)
    }

    /// Whether it is a statement; the questions are among them.
    pub fn is_statement(self) -> bool
        ensures { result ≡ nodes.is_statement (node_of self.entry) }
    {
        is_statement(self.op.code)
    }

    /// Whether it is a guard: SUPPRESS_IF, GRAY_OUT_IF or DISABLE_IF.
    pub fn is_guard(self) -> bool
        ensures { result ≡ is_guard_number (number (node_of self.entry).op) }
    {
        is_guard(self.op.code)
    }

    /// Whether it is a rule.
    pub fn is_rule(self) -> bool
        ensures { result ≡ rules.is_rule (node_of self.entry) }
    {
        self.op.code == RULE
    }

    /// The opcode of the form set.
    pub fn form_set(self) -> FormSetOp<'a>
        requires { nodes.is_form_set (node_of self) ≡ true }
        ensures place { result.op.place ≡ (node_of self.entry).place }
        ensures bytes { bytes_of result.op ≡ (node_of self.entry).op }
    {
        FormSetOp { op: self.op }
    }

    /// The opcode of a form.
    pub fn form(self) -> FormOp<'a>
        requires { nodes.is_form (node_of self) ≡ true }
        ensures place { result.op.place ≡ (node_of self.entry).place }
        ensures bytes { bytes_of result.op ≡ (node_of self.entry).op }
    {
        FormOp { op: self.op }
    }

    /// The opcode of a rule.
    pub fn rule(self) -> RuleOp<'a>
        requires { rules.is_rule (node_of self) ≡ true }
        ensures place { result.op.place ≡ (node_of self.entry).place }
        ensures bytes { bytes_of result.op ≡ (node_of self.entry).op }
    {
        RuleOp { op: self.op }
    }

    /// The opcode of an option.
    pub fn option(self) -> OptionOp<'a>
        requires { nodes.is_option (node_of self) ≡ true }
        ensures place { result.op.place ≡ (node_of self.entry).place }
        ensures bytes { bytes_of result.op ≡ (node_of self.entry).op }
    {
        OptionOp { op: self.op }
    }

    /// The opcode of a default.
    pub fn default(self) -> DefaultOp<'a>
        requires { nodes.is_default (node_of self) ≡ true }
        ensures place { result.op.place ≡ (node_of self.entry).place }
        ensures bytes { bytes_of result.op ≡ (node_of self.entry).op }
    {
        DefaultOp { op: self.op }
    }

    /// The form to which it leads, where it is a reference to one of this form set.
    pub fn target(self) -> Option<u16>
        ensures { result ≡ (if nodes.is_reference (node_of self.entry)
            then ref_target (node_of self.entry).op else None) }
    {
        if self.op.code == REF {
            RefOp { op: self.op }.target()
        } else {
            None
        }
    }

    /// Where the expression ends with which its scope begins, in bytes from the package's header.
    pub fn expression_end(self) -> u32
        requires { wants_expression (number (node_of self).op) ≡ true }
        ensures { result ≡ expression_end (node_of self.entry) }
    {
        end_of(self.ifr, self.op.place + self.op.len() as u32)
    }

    /// The expression with which its scope begins, which ends there.
    pub fn expression_to(self, to: u32) -> Expr<'a>
        requires wants { wants_expression (number (node_of self).op) ≡ true }
        requires ends { to ≡ expression_end (node_of self) }
        ensures { tree_of result ≡ expression_tree (node_of self.entry) }
    {
        let from = self.op.place + self.op.len() as u32;
        Expr::over(self.ifr, from, to)
    }

    /// The expression with which its scope begins.
    pub fn expression(self) -> Expr<'a>
        requires { wants_expression (number (node_of self).op) ≡ true }
        ensures { tree_of result ≡ expression_tree (node_of self.entry) }
    {
        self.expression_to(self.expression_end())
    }

    /// The opcode of a question, as far as all questions have the same.
    pub fn question(self) -> QuestionOp<'a>
        requires { nodes.is_question (node_of self) ≡ true }
        ensures place { result.op.place ≡ (node_of self.entry).place }
        ensures bytes { bytes_of result.op ≡ (node_of self.entry).op }
    {
        QuestionOp { op: self.op }
    }

    /// The opcode of a statement, as far as all statements have the same.
    pub fn statement(self) -> StatementOp<'a>
        requires { nodes.is_statement (node_of self) ≡ true }
        ensures place { result.op.place ≡ (node_of self.entry).place }
        ensures bytes { bytes_of result.op ≡ (node_of self.entry).op }
    {
        StatementOp { op: self.op }
    }
}
