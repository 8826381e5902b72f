//! The Types of values, of options and defaults (UEFI 2.8, 33.3.8.3, EFI_IFR_ONE_OF_OPTION).

ghost use Rattle.std.specs.Prelude.{◌≡◌};
ghost use Rattle.browser_rules.specs.Opcodes.{type_width};

/// EFI_IFR_TYPE_NUM_SIZE_8, a number of 1 byte.
pub const TYPE_NUM_SIZE_8: u8 = 0x00;

/// EFI_IFR_TYPE_NUM_SIZE_16, a number of 2 bytes.
pub const TYPE_NUM_SIZE_16: u8 = 0x01;

/// EFI_IFR_TYPE_NUM_SIZE_32, a number of 4 bytes.
pub const TYPE_NUM_SIZE_32: u8 = 0x02;

/// EFI_IFR_TYPE_NUM_SIZE_64, a number of 8 bytes.
pub const TYPE_NUM_SIZE_64: u8 = 0x03;

/// EFI_IFR_TYPE_BOOLEAN.
pub const TYPE_BOOLEAN: u8 = 0x04;

/// EFI_IFR_TYPE_TIME, of 3 bytes.
pub const TYPE_TIME: u8 = 0x05;

/// EFI_IFR_TYPE_DATE, of 4 bytes.
pub const TYPE_DATE: u8 = 0x06;

/// EFI_IFR_TYPE_STRING, a string id.
pub const TYPE_STRING: u8 = 0x07;

/// EFI_IFR_TYPE_OTHER, the value of an expression.
pub const TYPE_OTHER: u8 = 0x08;

/// EFI_IFR_TYPE_BUFFER, all the bytes to the opcode's end.
pub const TYPE_BUFFER: u8 = 0x0b;

/// EFI_IFR_TYPE_REF.
pub const TYPE_REF: u8 = 0x0c;

// How many bytes a value of a Type takes; of a buffer, which takes the rest of its opcode, and from TYPE_OTHER on, 0.
#[tactic(auto, using(crate::proofs::SizeLemmas::none_asked))]
pub(crate) fn kind_width(kind: u8) -> usize
    ensures { result ≡ type_width kind }
{
    match kind {
        TYPE_NUM_SIZE_8 => 1,
        TYPE_NUM_SIZE_16 => 2,
        TYPE_NUM_SIZE_32 => 4,
        TYPE_NUM_SIZE_64 => 8,
        TYPE_BOOLEAN => 1,
        TYPE_TIME => 3,
        TYPE_DATE => 4,
        TYPE_STRING => 2,
        _ => 0,
    }
}
