//! Statements.

ghost use Rattle.std.specs.Prelude.{◌≡◌, true, false, Bool, [], Some, None, option_map, if◌then◌else◌};
ghost use Rattle.ifr_opcodes.specs.Forest.{Node as Placed};
ghost use Rattle.ifr_opcodes.specs.Opcode.{has_scope};
ghost use Rattle.ifr_opcodes.specs.code.Marks.{mark};
ghost use Rattle.ifr_opcodes.specs.code.Ops.{op_of};
ghost use Rattle.ifr_nodes.specs.Accepted.{IsAccepted};
ghost use Rattle.ifr_nodes.specs.Nodes.{is_statement, is_question, of_question, options, defaults, inconsistents, no_submits, warnings};
ghost use Rattle.ifr_nodes.specs.code.Checked.{has_statement, node_in};
ghost use Rattle.ifr_nodes.specs.code.Views.{node_of};

use crate::condition_view::ConditionViews;
use crate::default_view::Defaults;
use crate::guards_of::GuardsOf;
use crate::locks::Locks;
use crate::option_view::Options;
use ifr_nodes::{Node, Nodes, NodesOf, node_at};
use ifr_opcodes::{
    ACTION, ActionOp, CHECKBOX, CheckboxOp, DATE, DEFAULT, DateOp, INCONSISTENT_IF, NO_SUBMIT_IF,
    NUMERIC, NumericOp, ONE_OF, ONE_OF_OPTION, ORDERED_LIST, OneOfOp, Op, OrderedListOp, PASSWORD,
    PasswordOp, QuestionOp, REF, RESET_BUTTON, RefOp, ResetButtonOp, STRING, SUBTITLE, StatementOp,
    StringOp, SubtitleOp, TEXT, TIME, TextOp, TimeOp, WARNING_IF,
};

/// The opcode of a statement, by what it is.
#[derive(Clone, Copy)]
pub enum StatementKind<'a> {
    /// SUBTITLE, a heading.
    Subtitle(SubtitleOp<'a>),
    /// TEXT, two texts.
    Text(TextOp<'a>),
    /// RESET_BUTTON, which sets defaults.
    ResetButton(ResetButtonOp<'a>),
    /// CHECKBOX, a question with two answers.
    Checkbox(CheckboxOp<'a>),
    /// NUMERIC, a question for a number.
    Numeric(NumericOp<'a>),
    /// ONE_OF, a question for one of its options.
    OneOf(OneOfOp<'a>),
    /// STRING, a question for a text.
    String(StringOp<'a>),
    /// PASSWORD, a question for a password.
    Password(PasswordOp<'a>),
    /// ORDERED_LIST, a question for some of its options in order.
    OrderedList(OrderedListOp<'a>),
    /// DATE, a question for a date.
    Date(DateOp<'a>),
    /// TIME, a question for a time of day.
    Time(TimeOp<'a>),
    /// ACTION, a question whose choice calls the driver.
    Action(ActionOp<'a>),
    /// REF, a question that leads to a form.
    Ref(RefOp<'a>),
}

impl<'a> StatementKind<'a> {
    ghost use Rattle.std.specs.Prelude.{◌≤◌, length};
    ghost use Rattle.ifr_opcodes.specs.code.Ops.{bytes_of};
    ghost use Rattle.ifr_opcodes.specs.Rows.{is_among};
    ghost use Rattle.ifr_opcodes.specs.code.Tables.{least_length};
    ghost use Rattle.ifr_scopes.specs.code.Lists.{kind_op, statement_numbers};

    // The view of an opcode that has all its fields.
    #[inline(always)]
    fn of(op: Op<'a>) -> StatementKind<'a>
        requires statement { is_among op.code statement_numbers ≡ true }
        requires sized { least_length (bytes_of op) ≤ length (bytes_of op) }
        ensures { kind_op result ≡ op.entry }
    {
        match op.code {
            SUBTITLE => StatementKind::Subtitle(SubtitleOp { op }),
            TEXT => StatementKind::Text(TextOp { op }),
            RESET_BUTTON => StatementKind::ResetButton(ResetButtonOp { op }),
            CHECKBOX => StatementKind::Checkbox(CheckboxOp { op }),
            NUMERIC => StatementKind::Numeric(NumericOp { op }),
            ONE_OF => StatementKind::OneOf(OneOfOp { op }),
            STRING => StatementKind::String(StringOp { op }),
            PASSWORD => StatementKind::Password(PasswordOp { op }),
            ORDERED_LIST => StatementKind::OrderedList(OrderedListOp { op }),
            DATE => StatementKind::Date(DateOp { op }),
            TIME => StatementKind::Time(TimeOp { op }),
            ACTION => StatementKind::Action(ActionOp { op }),
            REF => StatementKind::Ref(RefOp { op }),
            _ => unreachable!(),
        }
    }
}

/// A statement (UEFI 2.8, 33.2.5.3 Statements), which may be a question (33.2.5.4 Questions).
#[derive(Clone, Copy)]
pub struct Statement<'a> {
    pub(crate) node: Node<'a>,
    // At which position of the index it is looked for first.
    pub(crate) position: u32,
    pub ghost statement: { is_statement (node_of node) ≡ true },
}

impl<'a> Statement<'a> {
    ghost use Rattle.ifr_opcodes.specs.code.Ops.{bytes_of};
    ghost use Rattle.ifr_nodes.specs.Guards.{guards};
    ghost use Rattle.ifr_nodes.specs.Locks.{locks};
    ghost use Rattle.ifr_scopes.specs.code.LocksLeft.{locks_left};
    ghost use Rattle.ifr_nodes.specs.Nodes.{nodes_of};
    ghost use Rattle.ifr_scopes.specs.code.Lists.{guards_of_left, statement_node, statement_package, kind_op};
    ghost use Rattle.ifr_scopes.specs.code.Parts.{options_left, defaults_left, conditions_left};

    /// The statement at a place of an accepted package, in bytes from its header, where one stands, with its position as
    /// `position` gave it.
    #[inline(always)]
    pub fn at(ifr: &'a [u8], place: u32, position: u32) -> Statement<'a>
        requires accepted { IsAccepted ifr.now }
        requires there { has_statement ifr.now place ≡ true }
        ensures node { statement_node result ≡ node_in ifr.entry.now place }
        ensures of_package { statement_package result ≡ ifr.entry.now }
    {
        Statement {
            node: node_at(ifr, place),
            position,
        }
    }

    /// How many forms, statements and options stand before it, if it comes from an index, and else 0: where `Forms` looks for
    /// it first. What is found there is compared with its place.
    pub fn position(self) -> u32
        ensures { result ≡ self.entry.position }
    {
        self.position
    }

    /// The place of the statement, in bytes from the package's header.
    pub fn place(self) -> u32
        ensures { result ≡ (statement_node self.entry).place }
    {
        self.node.op().place
    }

    /// The guards of the statement, the outermost first, found by a walk from the package's start; `Forms::guards_at` looks them
    /// up.
    pub fn guards(self) -> GuardsOf<'a>
        ensures guards { guards_of_left result ≡ guards (statement_node self.entry) }
        ensures of_package { result.ifr.now ≡ statement_package self.entry }
    {
        GuardsOf::around(self.node.ifr, self.node.op.place)
    }

    /// The opcode of the statement.
    pub fn op(self) -> StatementOp<'a>
        ensures place { result.op.place ≡ (statement_node self.entry).place }
        ensures bytes { bytes_of result.op ≡ (statement_node self.entry).op }
    {
        self.node.statement()
    }

    /// The opcode of the statement as that of a question, where it is one.
    pub fn question(self) -> Option<QuestionOp<'a>>
        ensures { option_map (λ question. op_of question.op) result
            ≡ (if is_question (statement_node self.entry)
            then Some (mark (statement_node self.entry)) else None) }
    {
        if self.node.is_question() {
            Some(self.node.question())
        } else {
            None
        }
    }

    /// Whether it opens a scope. Where it does not, it has no conditions, and nothing else stands in its scope.
    #[inline(always)]
    pub fn opens_scope(self) -> bool
        ensures scope { result ≡ has_scope (statement_node self.entry).op }
        ensures none { result ≡ false
            → (which : Placed → Bool) → of_question which (statement_node self.entry) ≡ [] }
    {
        self.node.op().scope
    }

    /// The opcode of the statement, which is a question, as that of one.
    #[inline(always)]
    pub fn question_op(self) -> QuestionOp<'a>
        requires { is_question (statement_node self) ≡ true }
        ensures place { result.op.place ≡ (statement_node self.entry).place }
        ensures bytes { bytes_of result.op ≡ (statement_node self.entry).op }
    {
        self.node.question()
    }

    /// The opcode of the statement, by what it is.
    #[inline(always)]
    pub fn kind(self) -> StatementKind<'a>
        ensures place { (kind_op result).place ≡ (statement_node self.entry).place }
        ensures bytes { bytes_of (kind_op result) ≡ (statement_node self.entry).op }
    {
        StatementKind::of(self.node.op())
    }

    /// The LOCKED that lock it, by what they stand in, the outermost first, then by place; found by walks from the package's
    /// start.
    pub fn locks(self) -> Locks<'a>
        ensures locks { locks_left result
            ≡ locks (nodes_of (statement_package self.entry)) (statement_node self.entry) }
        ensures of_package { result.ifr.now ≡ statement_package self.entry }
    {
        Locks::around(self.node.ifr, self.node.op.place)
    }

    /// The options of the statement, by place.
    pub fn options(self) -> Options<'a>
        ensures { options_left result ≡ options (statement_node self.entry) }
    {
        Options {
            nodes: NodesOf::question(self.node, ONE_OF_OPTION),
        }
    }

    /// The defaults of the statement, by place.
    pub fn defaults(self) -> Defaults<'a>
        ensures { defaults_left result ≡ defaults (statement_node self.entry) }
    {
        Defaults {
            nodes: NodesOf::question(self.node, DEFAULT),
        }
    }

    /// The conditions that deny the statement a value, by place.
    #[tactic(auto, using(ifr_opcodes::proofs::StatementLemmas::inconsistent_is))]
    pub fn inconsistents(self) -> ConditionViews<'a>
        ensures { conditions_left result ≡ inconsistents (statement_node self.entry) }
    {
        ConditionViews::question(self.node, INCONSISTENT_IF)
    }

    /// The conditions of the statement that deny a submission, by place.
    #[tactic(auto, using(ifr_opcodes::proofs::StatementLemmas::no_submit_is))]
    pub fn nosubmits(self) -> ConditionViews<'a>
        ensures { conditions_left result ≡ no_submits (statement_node self.entry) }
    {
        ConditionViews::question(self.node, NO_SUBMIT_IF)
    }

    /// The conditions of the statement that warn, by place.
    #[tactic(auto, using(ifr_opcodes::proofs::StatementLemmas::warning_is))]
    pub fn warnings(self) -> ConditionViews<'a>
        ensures { conditions_left result ≡ warnings (statement_node self.entry) }
    {
        ConditionViews::question(self.node, WARNING_IF)
    }
}

/// The statements that are left of a form or of a package, by place.
#[derive(Drop)]
pub struct Statements<'a> {
    pub(crate) nodes: Nodes<'a>,
}

impl<'a> Iterator for Statements<'a> {
    ghost use Rattle.std.specs.Iterator.{YieldsFirstBy, item_count};
    ghost use Rattle.ifr_scopes.specs.code.Lists.{statement_node, statements_left};

    type Item = Statement<'a>;

    ghost next_gives = { YieldsFirstBy statement_node statements_left };

    ghost remaining = { item_count statements_left };

    fn next(&mut self) -> Option<Statement<'a>> {
        while let Some(node) = self.nodes.step() {
            if node.is_statement() {
                return Some(Statement { node, position: 0 });
            }
        }
        None
    }
}
