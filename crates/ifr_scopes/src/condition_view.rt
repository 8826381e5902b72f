//! The conditions of questions: of their values, of a submission, and of a warning.

ghost use Rattle.std.specs.Prelude.{◌≡◌, true, Some};
ghost use Rattle.ifr_opcodes.specs.Opcode.{number as opcode_number};
ghost use Rattle.ifr_opcodes.specs.Rows.{is_condition_number};
ghost use Rattle.ifr_nodes.specs.Nodes.{nodes_of, of_question, this_of};
ghost use Rattle.ifr_nodes.specs.Checked.{IsChecked};
ghost use Rattle.ifr_nodes.specs.code.Checked.{node_in};
ghost use Rattle.ifr_nodes.specs.code.Ends.{expression_end};
ghost use Rattle.ifr_nodes.specs.code.PartsLeft.{parts_left, HaveThis, HaveThis-prop};
ghost use Rattle.ifr_index.specs.code.Tables.{AreConditionsBefore, AreConditionsBefore-prop, IsConditionEntry};
ghost use Rattle.ifr_nodes.specs.code.Views.{node_of};

use ifr_expr::Expr;
use ifr_index::ConditionEntry;
use ifr_nodes::{Node, NodesOf, node_at};
use ifr_opcodes::{
    INCONSISTENT_IF, InconsistentIfOp, NO_SUBMIT_IF, NoSubmitIfOp, Op, WARNING_IF, WarningIfOp,
};

/// The opcode of a question's condition.
#[derive(Clone, Copy)]
pub enum ConditionOp<'a> {
    /// INCONSISTENT_IF, which denies a value.
    InconsistentIf(InconsistentIfOp<'a>),
    /// NO_SUBMIT_IF, which denies a submission.
    NoSubmitIf(NoSubmitIfOp<'a>),
    /// WARNING_IF, which warns.
    WarningIf(WarningIfOp<'a>),
}

impl<'a> ConditionOp<'a> {
    ghost use Rattle.std.specs.Prelude.{◌≤◌, length};
    ghost use Rattle.ifr_opcodes.specs.code.Tables.{least_length};
    ghost use Rattle.ifr_opcodes.specs.code.Ops.{bytes_of};
    ghost use Rattle.ifr_nodes.specs.NodeExpressions.{message};
    ghost use Rattle.ifr_opcodes.specs.Rows.{is_among};
    ghost use Rattle.ifr_scopes.specs.code.Parts.{condition_numbers, condition_op};

    // The view of an opcode that has all its fields.
    fn of(op: Op<'a>) -> ConditionOp<'a>
        requires condition { is_among op.code condition_numbers ≡ true }
        requires sized { least_length (bytes_of op) ≤ length (bytes_of op) }
        ensures { condition_op result ≡ op.entry }
    {
        match op.code {
            INCONSISTENT_IF => ConditionOp::InconsistentIf(InconsistentIfOp { op }),
            NO_SUBMIT_IF => ConditionOp::NoSubmitIf(NoSubmitIfOp { op }),
            WARNING_IF => ConditionOp::WarningIf(WarningIfOp { op }),
            _ => unreachable!(),
        }
    }

    /// The string id of the text that it tells where it holds.
    pub fn message(self) -> u16
        ensures { result ≡ message (bytes_of (condition_op self.entry)) }
    {
        match self {
            ConditionOp::InconsistentIf(view) => view.error(),
            ConditionOp::NoSubmitIf(view) => view.error(),
            ConditionOp::WarningIf(view) => view.text(),
        }
    }
}

/// A condition in the scope of a question (UEFI 2.8, 33.3.8.3, EFI_IFR_INCONSISTENT_IF, EFI_IFR_NO_SUBMIT_IF and
/// EFI_IFR_WARNING_IF).
#[derive(Clone, Copy)]
pub struct ConditionView<'a> {
    pub(crate) node: Node<'a>,
    pub(crate) this: u16,
    // Where its expression ends, in bytes from the package's header.
    pub(crate) ends: u32,
    // How many conditions of questions of the package stand before it, if that is known.
    pub(crate) number: Option<u32>,
    pub ghost condition: { is_condition_number (opcode_number (node_of node).op) ≡ true },
    pub ghost within: { this ≡ this_of (node_of node) },
    pub ghost ended: { ends ≡ expression_end (node_of node) },
    pub ghost counted: { AreConditionsBefore (nodes_of node.ifr.now) number node.op.place } by { AreConditionsBefore-prop (nodes_of node.ifr.now) number node.op.place },
}

impl<'a> ConditionView<'a> {
    ghost use Rattle.ifr_opcodes.specs.code.Ops.{bytes_of};
    ghost use Rattle.ifr_expr.specs.code.Expressions.{tree_of};
    ghost use Rattle.ifr_nodes.specs.NodeExpressions.{expression_tree};
    ghost use Rattle.ifr_scopes.specs.code.Parts.{condition_node, condition_op, condition_package};

    /// A condition of an index.
    pub(crate) fn kept(ifr: &'a [u8], condition: ConditionEntry) -> ConditionView<'a>
        requires checked { IsChecked ifr.now }
        requires kept { IsConditionEntry ifr.now condition }
        ensures node { condition_node result ≡ node_in ifr.entry.now condition.place }
        ensures number { result.number ≡ Some condition.number }
    {
        ConditionView {
            node: node_at(ifr, condition.place),
            this: condition.this,
            ends: condition.ends,
            number: Some(condition.number),
        }
    }

    /// The place of the condition, in bytes from the package's header.
    pub fn place(self) -> u32
        ensures { result ≡ (condition_node self.entry).place }
    {
        self.node.op().place
    }

    /// Its number among the conditions of questions of the package, by place, from 0 on: it is known of those that `Forms` looks
    /// up.
    pub fn number(self) -> Option<u32>
        ensures known { result ≡ self.entry.number }
        ensures counted { AreConditionsBefore (nodes_of (condition_package self.entry)) result
            (condition_node self.entry).place }
    {
        self.number
    }

    /// The opcode of the condition.
    pub fn op(self) -> ConditionOp<'a>
        ensures place { (condition_op result).place ≡ (condition_node self.entry).place }
        ensures bytes { bytes_of (condition_op result) ≡ (condition_node self.entry).op }
    {
        ConditionOp::of(self.node.op())
    }

    /// The id of the question in whose scope it stands, or 0.
    pub fn this(self) -> u16
        ensures { result ≡ this_of (condition_node self.entry) }
    {
        self.this
    }

    /// What is to hold: the expression with which its scope begins.
    pub fn condition(self) -> Expr<'a>
        ensures { tree_of result ≡ expression_tree (condition_node self.entry) }
    {
        self.node.expression_to(self.ends)
    }
}

/// The conditions of one kind that are left of a question, by place.
#[derive(Drop)]
pub struct ConditionViews<'a> {
    nodes: NodesOf<'a>,
    this: u16,
    pub ghost coded: { is_condition_number nodes.code ≡ true },
    pub ghost within: { HaveThis this (parts_left nodes) } by { HaveThis-prop this (parts_left nodes) },
}

impl<'a> ConditionViews<'a> {
    ghost use Rattle.std.specs.Prelude.{◌==◌};
    ghost use Rattle.ifr_scopes.specs.code.Parts.{conditions_left};

    /// The conditions of a number in the scope of a node, where it is a question; none of another.
    pub(crate) fn question(node: Node<'a>, code: u8) -> ConditionViews<'a>
        requires { is_condition_number code ≡ true }
        ensures { conditions_left result
            ≡ of_question (λ n. opcode_number n.op == code) (node_of node.entry) }
    {
        let this = if node.is_question() {
            node.question().id()
        } else {
            0
        };
        ConditionViews {
            nodes: NodesOf::question(node, code),
            this,
        }
    }
}

impl<'a> Iterator for ConditionViews<'a> {
    ghost use Rattle.std.specs.Iterator.{YieldsFirstBy, item_count};
    ghost use Rattle.ifr_scopes.specs.code.Parts.{condition_node, conditions_left};

    type Item = ConditionView<'a>;

    ghost next_gives = { YieldsFirstBy condition_node conditions_left };

    ghost remaining = { item_count conditions_left };

    fn next(&mut self) -> Option<ConditionView<'a>> {
        let node = self.nodes.step()?;
        Some(ConditionView {
            node,
            this: self.this,
            ends: node.expression_end(),
            number: None,
        })
    }
}
