//! The words of operators.

ghost use Rattle.std.specs.Prelude.{◌≡◌, ◌*◌};
ghost use Rattle.ifr_opcodes.specs.code.Codes.{constant_code, unary_code, binary_code};
ghost use Rattle.ifr_opcodes.specs.Fields.{uint_width};
ghost use Rattle.condition_text.specs.Texts.{word_in, constant_words, unary_words, binary_words};

use ifr_opcodes::{Binary, Constant, UINT8, UINT16, UINT32, Unary};

/// The word of a constant.
pub(crate) fn constant_word(constant: Constant) -> &'static [u8]
    ensures { result.now ≡ word_in constant_words (constant_code constant) }
{
    match constant {
        Constant::True => b"TRUE",
        Constant::False => b"FALSE",
        Constant::Zero => b"ZERO",
        Constant::One => b"ONE",
        Constant::Ones => b"ONES",
        Constant::Undefined => b"UNDEFINED",
    }
}

/// The word of an operator with one operand, and what stands before the operand.
pub(crate) fn unary_word(operator: Unary) -> &'static [u8]
    ensures { result.now ≡ word_in unary_words (unary_code operator) }
{
    match operator {
        Unary::Not => b"not ",
        Unary::BitwiseNot => b"~",
    }
}

/// The word of an operator with two operands.
pub(crate) fn binary_word(operator: Binary) -> &'static [u8]
    ensures { result.now ≡ word_in binary_words (binary_code operator) }
{
    match operator {
        Binary::And => b"and",
        Binary::Or => b"or",
        Binary::Equal => b"==",
        Binary::NotEqual => b"!=",
        Binary::GreaterThan => b">",
        Binary::GreaterEqual => b">=",
        Binary::LessThan => b"<",
        Binary::LessEqual => b"<=",
        Binary::BitwiseAnd => b"&",
        Binary::BitwiseOr => b"|",
        Binary::ShiftLeft => b"<<",
        Binary::ShiftRight => b">>",
        Binary::Add => b"+",
        Binary::Subtract => b"-",
        Binary::Multiply => b"*",
        Binary::Divide => b"/",
        Binary::Modulo => b"%",
    }
}

/// How many bits the number of an operator has, by the number of its opcode.
pub(crate) fn bits_of(code: u8) -> u64
    ensures { result ≡ 8 * uint_width code }
{
    match code {
        UINT8 => 8,
        UINT16 => 16,
        UINT32 => 32,
        _ => 64,
    }
}
