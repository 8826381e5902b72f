//! The numbers of opcodes (UEFI 2.8, 33.3.8.3).

/// EFI_IFR_FORM_OP.
pub const FORM: u8 = 0x01;

/// EFI_IFR_SUBTITLE_OP.
pub const SUBTITLE: u8 = 0x02;

/// EFI_IFR_TEXT_OP.
pub const TEXT: u8 = 0x03;

/// EFI_IFR_IMAGE_OP.
pub const IMAGE: u8 = 0x04;

/// EFI_IFR_ONE_OF_OP.
pub const ONE_OF: u8 = 0x05;

/// EFI_IFR_CHECKBOX_OP.
pub const CHECKBOX: u8 = 0x06;

/// EFI_IFR_NUMERIC_OP.
pub const NUMERIC: u8 = 0x07;

/// EFI_IFR_PASSWORD_OP.
pub const PASSWORD: u8 = 0x08;

/// EFI_IFR_ONE_OF_OPTION_OP.
pub const ONE_OF_OPTION: u8 = 0x09;

/// EFI_IFR_SUPPRESS_IF_OP.
pub const SUPPRESS_IF: u8 = 0x0a;

/// EFI_IFR_LOCKED_OP.
pub const LOCKED: u8 = 0x0b;

/// EFI_IFR_ACTION_OP.
pub const ACTION: u8 = 0x0c;

/// EFI_IFR_RESET_BUTTON_OP.
pub const RESET_BUTTON: u8 = 0x0d;

/// EFI_IFR_FORM_SET_OP.
pub const FORM_SET: u8 = 0x0e;

/// EFI_IFR_REF_OP.
pub const REF: u8 = 0x0f;

/// EFI_IFR_NO_SUBMIT_IF_OP.
pub const NO_SUBMIT_IF: u8 = 0x10;

/// EFI_IFR_INCONSISTENT_IF_OP.
pub const INCONSISTENT_IF: u8 = 0x11;

/// EFI_IFR_EQ_ID_VAL_OP.
pub const EQ_ID_VAL: u8 = 0x12;

/// EFI_IFR_EQ_ID_ID_OP.
pub const EQ_ID_ID: u8 = 0x13;

/// EFI_IFR_EQ_ID_VAL_LIST_OP.
pub const EQ_ID_VAL_LIST: u8 = 0x14;

/// EFI_IFR_AND_OP.
pub const AND: u8 = 0x15;

/// EFI_IFR_OR_OP.
pub const OR: u8 = 0x16;

/// EFI_IFR_NOT_OP.
pub const NOT: u8 = 0x17;

/// EFI_IFR_RULE_OP.
pub const RULE: u8 = 0x18;

/// EFI_IFR_GRAY_OUT_IF_OP.
pub const GRAY_OUT_IF: u8 = 0x19;

/// EFI_IFR_DATE_OP.
pub const DATE: u8 = 0x1a;

/// EFI_IFR_TIME_OP.
pub const TIME: u8 = 0x1b;

/// EFI_IFR_STRING_OP.
pub const STRING: u8 = 0x1c;

/// EFI_IFR_REFRESH_OP.
pub const REFRESH: u8 = 0x1d;

/// EFI_IFR_DISABLE_IF_OP.
pub const DISABLE_IF: u8 = 0x1e;

/// EFI_IFR_ANIMATION_OP.
pub const ANIMATION: u8 = 0x1f;

/// EFI_IFR_ORDERED_LIST_OP.
pub const ORDERED_LIST: u8 = 0x23;

/// EFI_IFR_VARSTORE_OP.
pub const VARSTORE: u8 = 0x24;

/// EFI_IFR_VARSTORE_NAME_VALUE_OP.
pub const VARSTORE_NAME_VALUE: u8 = 0x25;

/// EFI_IFR_VARSTORE_EFI_OP.
pub const VARSTORE_EFI: u8 = 0x26;

/// EFI_IFR_END_OP.
pub const END: u8 = 0x29;

/// EFI_IFR_EQUAL_OP.
pub const EQUAL: u8 = 0x2f;

/// EFI_IFR_NOT_EQUAL_OP.
pub const NOT_EQUAL: u8 = 0x30;

/// EFI_IFR_GREATER_THAN_OP.
pub const GREATER_THAN: u8 = 0x31;

/// EFI_IFR_GREATER_EQUAL_OP.
pub const GREATER_EQUAL: u8 = 0x32;

/// EFI_IFR_LESS_THAN_OP.
pub const LESS_THAN: u8 = 0x33;

/// EFI_IFR_LESS_EQUAL_OP.
pub const LESS_EQUAL: u8 = 0x34;

/// EFI_IFR_BITWISE_AND_OP.
pub const BITWISE_AND: u8 = 0x35;

/// EFI_IFR_BITWISE_OR_OP.
pub const BITWISE_OR: u8 = 0x36;

/// EFI_IFR_BITWISE_NOT_OP.
pub const BITWISE_NOT: u8 = 0x37;

/// EFI_IFR_SHIFT_LEFT_OP.
pub const SHIFT_LEFT: u8 = 0x38;

/// EFI_IFR_SHIFT_RIGHT_OP.
pub const SHIFT_RIGHT: u8 = 0x39;

/// EFI_IFR_ADD_OP.
pub const ADD: u8 = 0x3a;

/// EFI_IFR_SUBTRACT_OP.
pub const SUBTRACT: u8 = 0x3b;

/// EFI_IFR_MULTIPLY_OP.
pub const MULTIPLY: u8 = 0x3c;

/// EFI_IFR_DIVIDE_OP.
pub const DIVIDE: u8 = 0x3d;

/// EFI_IFR_MODULO_OP.
pub const MODULO: u8 = 0x3e;

/// EFI_IFR_RULE_REF_OP.
pub const RULE_REF: u8 = 0x3f;

/// EFI_IFR_QUESTION_REF1_OP.
pub const QUESTION_REF1: u8 = 0x40;

/// EFI_IFR_UINT8_OP.
pub const UINT8: u8 = 0x42;

/// EFI_IFR_UINT16_OP.
pub const UINT16: u8 = 0x43;

/// EFI_IFR_UINT32_OP.
pub const UINT32: u8 = 0x44;

/// EFI_IFR_UINT64_OP.
pub const UINT64: u8 = 0x45;

/// EFI_IFR_TRUE_OP.
pub const TRUE: u8 = 0x46;

/// EFI_IFR_FALSE_OP.
pub const FALSE: u8 = 0x47;

/// EFI_IFR_ZERO_OP.
pub const ZERO: u8 = 0x52;

/// EFI_IFR_ONE_OP.
pub const ONE: u8 = 0x53;

/// EFI_IFR_ONES_OP.
pub const ONES: u8 = 0x54;

/// EFI_IFR_UNDEFINED_OP.
pub const UNDEFINED: u8 = 0x55;

/// EFI_IFR_THIS_OP.
pub const THIS: u8 = 0x58;

/// EFI_IFR_VALUE_OP.
pub const VALUE: u8 = 0x5a;

/// EFI_IFR_DEFAULT_OP.
pub const DEFAULT: u8 = 0x5b;

/// EFI_IFR_DEFAULTSTORE_OP.
pub const DEFAULTSTORE: u8 = 0x5c;

/// EFI_IFR_GUID_OP.
pub const GUID: u8 = 0x5f;

/// EFI_IFR_MODAL_TAG_OP.
pub const MODAL_TAG: u8 = 0x61;

/// EFI_IFR_REFRESH_ID_OP.
pub const REFRESH_ID: u8 = 0x62;

/// EFI_IFR_WARNING_IF_OP.
pub const WARNING_IF: u8 = 0x63;
