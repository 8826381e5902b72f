//! What operators make of values.

ghost use Rattle.std.specs.Prelude.{◌≡◌, ◌==◌, ◌-◌, ◌*◌, ◌/◌, ◌%◌, ◌^◌, ◌&&◌, ◌||◌, nat_lt, if◌then◌else◌};
ghost use Rattle.ifr_opcodes.specs.code.Codes.{constant_code, unary_code, binary_code};
ghost use Rattle.ifr_expr.specs.Values as spec;
ghost use Rattle.ifr_expr.specs.code.Views.{value_of, outcome_value, number_or};

use crate::value::{Outcome, Value};
use ifr_opcodes::{Binary, Constant, Unary};

// A value where a number is wanted: a Boolean counts as 0 or 1.
fn as_number(value: Value<'_>) -> Option<u64>
    ensures { result ≡ spec.as_number (value_of value.entry) }
{
    match value {
        Value::Boolean(b) => Some(u64::from(b)),
        Value::Number(n) => Some(n),
        Value::Undefined => None,
        Value::Text(_) => None,
        Value::Buffer(_) => None,
    }
}

/// The value of a constant.
#[tactic(auto, unfolding(crate::specs::Values::constant_value))]
pub(crate) fn constant(constant: Constant) -> Outcome
    ensures { outcome_value result ≡ spec.constant_value (constant_code constant) }
{
    match constant {
        Constant::True => Outcome::Boolean(true),
        Constant::False => Outcome::Boolean(false),
        Constant::Zero => Outcome::Number(0),
        Constant::One => Outcome::Number(1),
        Constant::Ones => Outcome::Number(u64::MAX),
        Constant::Undefined => Outcome::Undefined,
    }
}

fn not(value: Value<'_>) -> Outcome
    ensures { outcome_value result ≡ spec.negated (value_of value.entry) }
{
    match value {
        Value::Boolean(b) => Outcome::Boolean(!b),
        Value::Number(_) => Outcome::Undefined,
        Value::Undefined => Outcome::Undefined,
        Value::Text(_) => Outcome::Undefined,
        Value::Buffer(_) => Outcome::Undefined,
    }
}

fn bitwise_not(value: Value<'_>) -> Outcome
    ensures { outcome_value result ≡ spec.on_numbers (λ x y. spec.natural (2 ^ 64 - 1 - x))
        (value_of value.entry) (value_of value.entry) }
{
    match as_number(value) {
        Some(n) => Outcome::Number(u64::MAX - n),
        None => Outcome::Undefined,
    }
}

/// The value of an operator with one operand.
#[tactic(auto, unfolding(crate::specs::Values::unary_value))]
pub(crate) fn unary(operator: Unary, value: Value<'_>) -> Outcome
    ensures { outcome_value result ≡ spec.unary_value (unary_code operator) (value_of value.entry) }
{
    match operator {
        Unary::Not => not(value),
        Unary::BitwiseNot => bitwise_not(value),
    }
}

fn both(left: Value<'_>, right: Value<'_>) -> Outcome
    ensures { outcome_value result ≡ spec.on_booleans (λ a b. a && b) (value_of left.entry)
        (value_of right.entry) }
{
    match (left, right) {
        (Value::Boolean(a), Value::Boolean(b)) => Outcome::Boolean(a && b),
        _ => Outcome::Undefined,
    }
}

fn either(left: Value<'_>, right: Value<'_>) -> Outcome
    ensures { outcome_value result ≡ spec.on_booleans (λ a b. a || b) (value_of left.entry)
        (value_of right.entry) }
{
    match (left, right) {
        (Value::Boolean(a), Value::Boolean(b)) => Outcome::Boolean(a || b),
        _ => Outcome::Undefined,
    }
}

/// Whether two numbers are equal, where both are there.
pub(crate) fn same_numbers(left: Option<u64>, right: Option<u64>) -> Outcome
    ensures { outcome_value result ≡ spec.of_both (λ x y. spec.boolean (x == y)) left right }
{
    match (left, right) {
        (Some(x), Some(y)) => Outcome::Boolean(x == y),
        _ => Outcome::Undefined,
    }
}

// Whether two values are equal as numbers.
fn same(left: Value<'_>, right: Value<'_>) -> Outcome
    ensures { outcome_value result ≡ spec.are_same (value_of left.entry) (value_of right.entry) }
{
    same_numbers(as_number(left), as_number(right))
}

fn equal(left: Value<'_>, right: Value<'_>) -> Outcome
    ensures { outcome_value result ≡ spec.are_equal (value_of left.entry) (value_of right.entry) }
{
    match (left, right) {
        (Value::Text(xs), Value::Text(ys)) => Outcome::Boolean(xs == ys),
        (Value::Buffer(xs), Value::Buffer(ys)) => Outcome::Boolean(xs == ys),
        _ => same(left, right),
    }
}

// A quotient, or none by 0.
fn or_undefined(number: Option<u64>) -> Outcome
    ensures { outcome_value result ≡ number_or number }
{
    match number {
        Some(n) => Outcome::Number(n),
        None => Outcome::Undefined,
    }
}

// A number's bits moved to the higher ones.
fn shifted_left(x: u64, y: u64) -> u64
    ensures { result ≡ (if nat_lt y 64 then (x * 2 ^ y) % 2 ^ 64 else 0) }
{
    if y < 64 { x.wrapping_shl(y as u32) } else { 0 }
}

// A number's bits moved to the lower ones.
fn shifted_right(x: u64, y: u64) -> u64
    ensures { result ≡ (if nat_lt y 64 then x / 2 ^ y else 0) }
{
    if y < 64 { x.wrapping_shr(y as u32) } else { 0 }
}

// The value of an operator over two numbers.
#[tactic(auto, unfolding(crate::specs::Values::number_value))]
fn of_numbers(operator: Binary, x: u64, y: u64) -> Outcome
    ensures { outcome_value result ≡ spec.number_value (binary_code operator) x y }
{
    match operator {
        Binary::GreaterThan => Outcome::Boolean(x > y),
        Binary::GreaterEqual => Outcome::Boolean(x >= y),
        Binary::LessThan => Outcome::Boolean(x < y),
        Binary::LessEqual => Outcome::Boolean(x <= y),
        Binary::BitwiseAnd => Outcome::Number(x & y),
        Binary::BitwiseOr => Outcome::Number(x | y),
        Binary::ShiftLeft => Outcome::Number(shifted_left(x, y)),
        Binary::ShiftRight => Outcome::Number(shifted_right(x, y)),
        Binary::Add => Outcome::Number(x.wrapping_add(y)),
        Binary::Subtract => Outcome::Number(x.wrapping_sub(y)),
        Binary::Multiply => Outcome::Number(x.wrapping_mul(y)),
        Binary::Divide => or_undefined(x.checked_div(y)),
        Binary::Modulo => or_undefined(x.checked_rem(y)),
        Binary::And => Outcome::Undefined,
        Binary::Or => Outcome::Undefined,
        Binary::Equal => Outcome::Undefined,
        Binary::NotEqual => Outcome::Undefined,
    }
}

// The value of an operator over two operands that are to be numbers.
fn on_numbers(operator: Binary, left: Value<'_>, right: Value<'_>) -> Outcome
    ensures { outcome_value result ≡ spec.on_numbers (spec.number_value (binary_code operator))
        (value_of left.entry) (value_of right.entry) }
{
    match (as_number(left), as_number(right)) {
        (Some(x), Some(y)) => of_numbers(operator, x, y),
        _ => Outcome::Undefined,
    }
}

/// The value of an operator with two operands.
#[tactic(auto, unfolding(crate::specs::Values::binary_value))]
pub(crate) fn binary(operator: Binary, left: Value<'_>, right: Value<'_>) -> Outcome
    ensures { outcome_value result ≡ spec.binary_value (binary_code operator) (value_of left.entry)
        (value_of right.entry) }
{
    match operator {
        Binary::And => both(left, right),
        Binary::Or => either(left, right),
        Binary::Equal => equal(left, right),
        Binary::NotEqual => not(equal(left, right).value()),
        Binary::GreaterThan => on_numbers(Binary::GreaterThan, left, right),
        Binary::GreaterEqual => on_numbers(Binary::GreaterEqual, left, right),
        Binary::LessThan => on_numbers(Binary::LessThan, left, right),
        Binary::LessEqual => on_numbers(Binary::LessEqual, left, right),
        Binary::BitwiseAnd => on_numbers(Binary::BitwiseAnd, left, right),
        Binary::BitwiseOr => on_numbers(Binary::BitwiseOr, left, right),
        Binary::ShiftLeft => on_numbers(Binary::ShiftLeft, left, right),
        Binary::ShiftRight => on_numbers(Binary::ShiftRight, left, right),
        Binary::Add => on_numbers(Binary::Add, left, right),
        Binary::Subtract => on_numbers(Binary::Subtract, left, right),
        Binary::Multiply => on_numbers(Binary::Multiply, left, right),
        Binary::Divide => on_numbers(Binary::Divide, left, right),
        Binary::Modulo => on_numbers(Binary::Modulo, left, right),
    }
}
