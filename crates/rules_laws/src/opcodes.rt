//! Laws of opcodes: their rows say of kinds, scopes and operators what the contracts say.

ghost use Rattle.std.specs.Prelude.{◌≡◌, ◌==◌, ◌++◌, ◌∷◌, [], map, Bool, List, ℕ, Some};
ghost use Rattle.browser_rules.specs.Expressions as expressions;
ghost use Rattle.browser_rules.specs.Expressions.{sense_of, value_of};
ghost use Rattle.browser_rules.specs.Opcodes as rules;
ghost use Rattle.browser_rules.specs.Opcodes.{a_default, a_guard, an_operator, an_option, is_a, listed_values, row_of};
ghost use Rattle.browser_rules.specs.Values as values;
ghost use Rattle.browser_rules.specs.Words.{is_some_and};
ghost use Rattle.hii_bytes.specs.Numbers.{AreBytes};
ghost use Rattle.ifr_opcodes.specs.Fields.{eq_id_val_list_values};
ghost use Rattle.ifr_opcodes.specs.Forest.{Ancestor, Forest, Mark};
ghost use Rattle.ifr_opcodes.specs.Opcode.{number};
ghost use Rattle.ifr_opcodes.specs.Rows.{is_operator, operands};
ghost use Rattle.ifr_opcodes.specs.declared.codes.TheConstants.{DEFAULT, ONE_OF_OPTION, SHIFT_RIGHT};
ghost use Rattle.ifr_expr.specs.Meaning.{Rule, leaf_value, value};
ghost use Rattle.ifr_expr.specs.Trees.{Means, Tree, expression};
ghost use Rattle.ifr_expr.specs.Values.{Value, binary_value, holds, unary_value};
ghost use Rattle.ifr_nodes.specs.Guards.{is_guard};
ghost use Rattle.ifr_nodes.specs.Structure.{has_wrong_scope};
ghost use Rattle.ifr_nodes.specs.Table.{admits, class_around, row, wants_expression, wants_value};
ghost use Rattle.ifr_nodes.specs.declared.table.Class.{Class};
ghost use Rattle.rules_laws.specs.laws.Opcodes.{AreGoodRules, AreOfBytes, IsSmall, around_at, class_for, mark_for, rule_for, value_for, made_of_none, made_of_one, made_of_two};

/// A list holds the same numbers.
pub fn lists_hold_the_same_numbers()
    ensures { (op : List ℕ) → listed_values op ≡ eq_id_val_list_values op }
{}

/// The opcodes that make something of operands are the operators.
pub fn operators_take_operands()
    ensures { (op : List ℕ) → is_a an_operator op ≡ is_operator (number op) }
{}

/// Options, defaults and guards are the same.
pub fn the_rows_have_the_same_kinds()
    ensures options { (op : List ℕ) → is_a an_option op ≡ (number op == ONE_OF_OPTION) }
    ensures defaults { (op : List ℕ) → is_a a_default op ≡ (number op == DEFAULT) }
    ensures guards { (op : List ℕ) → is_a a_guard op ≡ is_guard (number op) }
{}

/// A scope admits the same opcodes. The scope of an opcode in another is of the same class, and outside of all nothing is admitted.
pub fn the_rows_admit_the_same_opcodes()
    ensures admitted { (class : Class) (code : ℕ) → rules.admits (class_for class) code
        ≡ admits class code }
    ensures outside { rules.of_nothing ≡ class_for (class_around []) }
    ensures inside { (path : List Ancestor) (a : Ancestor) →
        rules.class_inside (class_for (class_around path)) (number a.op)
        ≡ class_for (class_around (path ++ a ∷ [])) }
{}

/// The same scopes begin with an expression, and the same with a VALUE.
pub fn the_rows_begin_their_scopes_alike()
    ensures expressions { (op : List ℕ) → rules.wants_expression op ≡ wants_expression (number op) }
    ensures values { (op : List ℕ) → rules.wants_value op ≡ wants_value op }
{}

/// Of the same opcodes it is wrong that they have Scope, or have none.
pub fn the_rows_have_wrong_scopes_alike()
    ensures { (is_operand : Bool) (op : List ℕ) →
        is_some_and (λ r. rules.is_wrong_scope r.scope is_operand op) (row_of (number op))
        ≡ has_wrong_scope (row (number op)) is_operand op }
{}

/// Operators make the same values; of a shift to the right this holds where its left operand has at most 64 bits.
pub fn operators_make_the_same_values()
    ensures of_none { (named : ℕ → ℕ → Value) (answers : ℕ → Value) (this : ℕ) (m : Mark) →
        operands (number m.op) ≡ Some 0 →
        made_of_none (sense_of m.op) (around_at named answers this m.place) m.op
        ≡ value_for (leaf_value named answers this m) }
    ensures of_one { (op : List ℕ) (operand : Value) → operands (number op) ≡ Some 1 →
        made_of_one (sense_of op) (value_for operand) ≡ value_for (unary_value (number op) operand) }
    ensures of_two { (op : List ℕ) (left right : Value) → operands (number op) ≡ Some 2 →
        (number op ≡ SHIFT_RIGHT → IsSmall left) → made_of_two (sense_of op) (value_for left) (value_for right)
        ≡ value_for (binary_value (number op) left right) }
{}

/// Numbers that operators make have at most 64 bits, where those of answers, of the values of rules and of operands do.
pub fn operators_make_small_values()
    ensures of_none { (named : ℕ → ℕ → Value) (answers : ℕ → Value) (this : ℕ) (m : Mark) →
        ((id place : ℕ) → IsSmall (named id place)) → ((id : ℕ) → IsSmall (answers id))
        → AreBytes m.op → IsSmall (leaf_value named answers this m) }
    ensures of_one { (code : ℕ) (operand : Value) → IsSmall (unary_value code operand) }
    ensures of_two { (code : ℕ) (left right : Value) → IsSmall left → IsSmall right
        → IsSmall (binary_value code left right) }
{}

/// An expression has the same opcodes and, over answers and rules of numbers of at most 64 bits, the same value, which holds alike.
pub fn expressions_have_the_same_values()
    ensures opcodes { (at : ℕ) (op : List ℕ) (children : Forest) →
        expressions.expression at op children ≡ map mark_for (expression at op children) }
    ensures values { (rs : List Rule) (answers : ℕ → Value) (this : ℕ) (marks : List Mark)
        (tree : Tree) → ((id : ℕ) → IsSmall (answers id)) → AreGoodRules rs → Means marks tree
        → AreOfBytes marks →
        value_of (map rule_for rs) (λ id. value_for (answers id)) this (map mark_for marks)
        ≡ value_for (value rs answers this tree) }
    ensures holding { (v : Value) → values.holds (value_for v) ≡ holds v }
{}
