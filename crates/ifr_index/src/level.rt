//! The scope that is open innermost in a walk over a package, with what is known of what stands in it.

ghost use Rattle.std.specs.Prelude.{◌≡◌, ◌==◌, ◌||◌, ◌&&◌, ◌+◌, ◌<◌, ◌^◌, ◌++◌, ◌∷◌, [], false, List, length};
ghost use Rattle.ifr_opcodes.specs.Forest.{Forest, Ancestor, Node as Placed};
ghost use Rattle.ifr_opcodes.specs.Rows.{is_short};
ghost use Rattle.ifr_opcodes.specs.code.Ops.{bytes_of};
ghost use Rattle.ifr_opcodes.specs.Opcode.{number};
ghost use Rattle.ifr_nodes.specs.Nodes.{this_among};
ghost use Rattle.ifr_nodes.specs.Structure as structure;
ghost use Rattle.ifr_nodes.specs.Structure.{innermost};
ghost use Rattle.ifr_nodes.specs.Table as table;
ghost use Rattle.ifr_index.specs.code.Levels.{level_of, node_with, AreLevels};
ghost use Rattle.ifr_index.specs.code.Tables.{guards_before, inner_guard};

use ifr_nodes::{Class, admits, class_of, guarded, is_guard, wants_expression, wants_value};
use ifr_opcodes::{Op, QuestionOp, is_operator, is_question};

/// An open scope. Places are in bytes from the package's header.
#[derive(Clone, Copy)]
pub(crate) struct Level {
    /// The place of its opcode.
    pub place: u32,
    /// Where what stands in it begins.
    pub inside: u32,
    /// The number of its opcode.
    pub code: u8,
    /// Whether it is to begin with a VALUE.
    pub value: bool,
    /// What may stand in it.
    pub class: Class,
    /// The number of the innermost guard around what stands in it, if there is one.
    pub guard: Option<u32>,
    /// The id of the question in whose scope stands what stands in it, or 0.
    pub this: u16,
}

impl Default for Level {
    fn default() -> Self {
        Level::outside()
    }
}

impl Level {
    /// Around the form set, where no scope is open.
    pub(crate) fn outside() -> Level
        ensures { (ns : List Placed) → result ≡ level_of ns [] }
    {
        Level {
            place: 0,
            inside: 0,
            code: 0,
            value: false,
            class: Class::OfNothing,
            guard: None,
            this: 0,
        }
    }

    // What may stand in the scope of an opcode in this one.
    fn class_in(&self, code: u8) -> Class
        ensures { (path : List Ancestor) (a : Ancestor) → self.now.class ≡ table.class_around path
            → number a.op ≡ code → result ≡ table.class_around (path ++ a ∷ []) }
    {
        if is_guard(code) {
            guarded(self.class)
        } else {
            class_of(code)
        }
    }

    // The number of the innermost guard around what stands in the scope of an opcode in this one, before which so many stand.
    fn guard_in(&self, code: u8, guards: u32) -> Option<u32>
        ensures { (ns : List Placed) (path : List Ancestor) (a : Ancestor)
            → self.now.guard ≡ inner_guard ns path → number a.op ≡ code
            → guards ≡ guards_before ns a.place → result ≡ inner_guard ns (path ++ a ∷ []) }
    {
        if is_guard(code) {
            Some(guards)
        } else {
            self.guard
        }
    }

    // The id of the question in whose scope stands what stands in the scope of an opcode in this one.
    fn this_in(&self, op: Op) -> u16
        requires { is_short (bytes_of op) ≡ false }
        ensures { (path : List Ancestor) (children : Forest) → self.now.this ≡ this_among path
            → result ≡ this_among (path
            ++ record { place = op.entry.place; op = bytes_of op.entry; children = children } ∷ []) }
    {
        if is_question(op.code) {
            QuestionOp { op }.id()
        } else {
            self.this
        }
    }

    /// The scope of an opcode in this one, before which so many guards stand.
    pub(crate) fn open(&self, op: Op, guards: u32) -> Level
        requires within { op.place + length (bytes_of op) < 2 ^ 32 }
        requires whole { is_short (bytes_of op) ≡ false }
        ensures { (ns : List Placed) (path : List Ancestor) (children : Forest)
            → self.now ≡ level_of ns path → guards ≡ guards_before ns op.entry.place
            → result ≡ level_of ns (path
            ++ record { place = op.entry.place; op = bytes_of op.entry; children = children } ∷ []) }
    {
        Level {
            place: op.place,
            inside: op.place + op.len() as u32,
            code: op.code,
            value: wants_value(op),
            class: self.class_in(op.code),
            guard: self.guard_in(op.code, guards),
            this: self.this_in(op),
        }
    }

    // Whether the expression with which it begins is to stand at a place.
    fn begins_with_expression(&self, place: u32) -> bool
        ensures { (ns : List Placed) (path : List Ancestor) → self.now ≡ level_of ns path
            → result ≡ structure.begins_scope place (innermost path) }
    {
        place == self.inside && wants_expression(self.code)
    }

    // Whether the VALUE with which it begins is to stand at a place.
    fn begins_with_value(&self, place: u32) -> bool
        ensures { (ns : List Placed) (path : List Ancestor) → self.now ≡ level_of ns path
            → result ≡ structure.begins_with_value place (innermost path) }
    {
        place == self.inside && self.value
    }

    /// Whether it is the scope of an operator.
    pub(crate) fn is_operator_scope(&self) -> bool
        ensures { (ns : List Placed) (path : List Ancestor) → self.now ≡ level_of ns path
            → result ≡ structure.is_operator_scope (innermost path) }
    {
        is_operator(self.code)
    }

    /// Whether an expression stands at an opcode in it.
    pub(crate) fn has_expression(&self, op: Op) -> bool
        ensures { (ns : List Placed) (path : List Ancestor) (children : Forest)
            → self.now ≡ level_of ns path
            → result ≡ structure.is_expression (node_with op.entry path children) }
    {
        self.begins_with_expression(op.place) && is_operator(op.code)
    }

    /// Whether an opcode may stand in it.
    #[inline(always)]
    pub(crate) fn holds(&self, op: Op) -> bool
        ensures { (ns : List Placed) (path : List Ancestor) (children : Forest)
            → self.now ≡ level_of ns path
            → result ≡ (table.admits (table.class_around path) op.entry.code
            || structure.is_wanted (node_with op.entry path children)) }
    {
        admits(self.class, op.code)
            || self.begins_with_expression(op.place)
            || self.begins_with_value(op.place)
    }
}

/// The innermost of the scopes that are open, the outermost first, or what is around them all.
pub(crate) fn innermost<'a>(levels: &'a [Level], outside: &'a Level) -> &'a Level
    ensures { (ns : List Placed) (path : List Ancestor) → outside.entry.now ≡ level_of ns []
        → AreLevels ns path levels.entry.now → result.now ≡ level_of ns path }
{
    match levels.last() {
        Some(level) => level,
        None => outside,
    }
}
