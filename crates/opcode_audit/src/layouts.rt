//! The fields of opcodes by their numbers (UEFI 2.8, 33.3.8.3 Opcode Reference).

ghost use Rattle.std.specs.Prelude.{◌≡◌};
ghost use Rattle.opcode_audit.specs.Layouts.{fields_of};
ghost use Rattle.opcode_audit.specs.code.Columns.{fields_in};

use crate::field::Field;
use crate::standard::{
    ATTRIBUTES, DEFAULT_ID, DEFAULT_NAME, DEVICE_PATH, ERROR, FLAGS, FORM_ID, FORM_SET_ID,
    FORM_SET_TITLE, FORM_TITLE, FORMAT, GUID, HELP, ID, LIST_LENGTH, MAX_CONTAINERS, MAX_SIZE,
    MAX_SIZE_WIDE, MIN_SIZE, MIN_SIZE_WIDE, OPTION, PERMISSIONS, PROMPT, QUESTION_CONFIG,
    QUESTION_FLAGS, QUESTION_ID, QUESTION_ID1, QUESTION_ID2, REF_QUESTION_ID,
    REFRESH_EVENT_GROUP_ID, REFRESH_INTERVAL, RULE_ID, SIZE, STRING_ID, SYNTAX_TYPE, TEXT_TWO,
    TIME_OUT, TYPE, VALUE8, VALUE16, VALUE32, VALUE64, VAR_OFFSET, VAR_STORE_ID, VAR_STORE_INFO,
    VAR_STORE_TYPE, WARNING,
};

/// The fields that an opcode shares with others of its kind.
#[derive(Clone, Copy)]
pub(crate) enum Head {
    /// None.
    Nothing,
    /// Those of every statement.
    Statement,
    /// Those of every question.
    Question,
}

/// The fields of an opcode: those of its kind, and behind these up to four of its own.
#[derive(Clone, Copy)]
pub(crate) struct Layout {
    pub head: Head,
    pub first: Option<Field>,
    pub second: Option<Field>,
    pub third: Option<Field>,
    pub fourth: Option<Field>,
}

/// The fields of the opcodes of a number.
pub(crate) fn layout_of(code: u8) -> Layout
    ensures { fields_in result ≡ fields_of code }
{
    LAYOUTS[usize::from(code)]
}

/// What every statement has (33.3.8.2.3 EFI_IFR_STATEMENT_HEADER).
pub(crate) static STATEMENT: [Option<Field>; 2] = [PROMPT, HELP];

/// What every question has (33.3.8.2.2 EFI_IFR_QUESTION_HEADER).
pub(crate) static QUESTION: [Option<Field>; 6] = [
    PROMPT,
    HELP,
    QUESTION_ID,
    VAR_STORE_ID,
    VAR_OFFSET,
    QUESTION_FLAGS,
];

/// No fields.
const N: Layout = Layout {
    head: Head::Nothing,
    first: None,
    second: None,
    third: None,
    fourth: None,
};

/// FORM.
const OF_FORM: Layout = Layout {
    head: Head::Nothing,
    first: FORM_ID,
    second: FORM_TITLE,
    third: None,
    fourth: None,
};

/// SUBTITLE.
const OF_SUBTITLE: Layout = Layout {
    head: Head::Statement,
    first: FLAGS,
    second: None,
    third: None,
    fourth: None,
};

/// TEXT.
const OF_TEXT: Layout = Layout {
    head: Head::Statement,
    first: TEXT_TWO,
    second: None,
    third: None,
    fourth: None,
};

/// IMAGE and ANIMATION.
const OF_IMAGE: Layout = Layout {
    head: Head::Nothing,
    first: ID,
    second: None,
    third: None,
    fourth: None,
};

/// ONE_OF, CHECKBOX, NUMERIC, DATE and TIME.
const OF_FLAGGED: Layout = Layout {
    head: Head::Question,
    first: FLAGS,
    second: None,
    third: None,
    fourth: None,
};

/// PASSWORD.
const OF_PASSWORD: Layout = Layout {
    head: Head::Question,
    first: MIN_SIZE_WIDE,
    second: MAX_SIZE_WIDE,
    third: None,
    fourth: None,
};

/// ONE_OF_OPTION.
const OF_OPTION: Layout = Layout {
    head: Head::Nothing,
    first: OPTION,
    second: FLAGS,
    third: TYPE,
    fourth: None,
};

/// ACTION.
const OF_ACTION: Layout = Layout {
    head: Head::Question,
    first: QUESTION_CONFIG,
    second: None,
    third: None,
    fourth: None,
};

/// RESET_BUTTON.
const OF_BUTTON: Layout = Layout {
    head: Head::Statement,
    first: DEFAULT_ID,
    second: None,
    third: None,
    fourth: None,
};

/// FORM_SET.
const OF_FORM_SET: Layout = Layout {
    head: Head::Nothing,
    first: GUID,
    second: FORM_SET_TITLE,
    third: HELP,
    fourth: FLAGS,
};

/// REF.
const OF_REF: Layout = Layout {
    head: Head::Question,
    first: FORM_ID,
    second: REF_QUESTION_ID,
    third: FORM_SET_ID,
    fourth: DEVICE_PATH,
};

/// INCONSISTENT_IF and NO_SUBMIT_IF.
const OF_CHECK: Layout = Layout {
    head: Head::Nothing,
    first: ERROR,
    second: None,
    third: None,
    fourth: None,
};

/// EQ_ID_VAL.
const OF_EQ_ID_VAL: Layout = Layout {
    head: Head::Nothing,
    first: QUESTION_ID,
    second: VALUE16,
    third: None,
    fourth: None,
};

/// EQ_ID_ID.
const OF_EQ_ID_ID: Layout = Layout {
    head: Head::Nothing,
    first: QUESTION_ID1,
    second: QUESTION_ID2,
    third: None,
    fourth: None,
};

/// EQ_ID_VAL_LIST.
const OF_EQ_ID_VAL_LIST: Layout = Layout {
    head: Head::Nothing,
    first: QUESTION_ID,
    second: LIST_LENGTH,
    third: None,
    fourth: None,
};

/// RULE and RULE_REF.
const OF_RULE: Layout = Layout {
    head: Head::Nothing,
    first: RULE_ID,
    second: None,
    third: None,
    fourth: None,
};

/// STRING.
const OF_STRING: Layout = Layout {
    head: Head::Question,
    first: MIN_SIZE,
    second: MAX_SIZE,
    third: FLAGS,
    fourth: None,
};

/// REFRESH.
const OF_REFRESH: Layout = Layout {
    head: Head::Nothing,
    first: REFRESH_INTERVAL,
    second: None,
    third: None,
    fourth: None,
};

/// ORDERED_LIST.
const OF_ORDERED_LIST: Layout = Layout {
    head: Head::Question,
    first: MAX_CONTAINERS,
    second: FLAGS,
    third: None,
    fourth: None,
};

/// VARSTORE.
const OF_VARSTORE: Layout = Layout {
    head: Head::Nothing,
    first: GUID,
    second: VAR_STORE_ID,
    third: SIZE,
    fourth: None,
};

/// VARSTORE_NAME_VALUE.
const OF_NAME_VALUE: Layout = Layout {
    head: Head::Nothing,
    first: VAR_STORE_ID,
    second: GUID,
    third: None,
    fourth: None,
};

/// VARSTORE_EFI.
const OF_VARSTORE_EFI: Layout = Layout {
    head: Head::Nothing,
    first: VAR_STORE_ID,
    second: GUID,
    third: ATTRIBUTES,
    fourth: SIZE,
};

/// VARSTORE_DEVICE.
const OF_DEVICE: Layout = Layout {
    head: Head::Nothing,
    first: DEVICE_PATH,
    second: None,
    third: None,
    fourth: None,
};

/// GET and SET.
const OF_GET: Layout = Layout {
    head: Head::Nothing,
    first: VAR_STORE_ID,
    second: VAR_STORE_INFO,
    third: VAR_STORE_TYPE,
    fourth: None,
};

/// QUESTION_REF1.
const OF_QUESTION_REF1: Layout = Layout {
    head: Head::Nothing,
    first: QUESTION_ID,
    second: None,
    third: None,
    fourth: None,
};

/// UINT8.
const OF_UINT8: Layout = Layout {
    head: Head::Nothing,
    first: VALUE8,
    second: None,
    third: None,
    fourth: None,
};

/// UINT16.
const OF_UINT16: Layout = Layout {
    head: Head::Nothing,
    first: VALUE16,
    second: None,
    third: None,
    fourth: None,
};

/// UINT32.
const OF_UINT32: Layout = Layout {
    head: Head::Nothing,
    first: VALUE32,
    second: None,
    third: None,
    fourth: None,
};

/// UINT64.
const OF_UINT64: Layout = Layout {
    head: Head::Nothing,
    first: VALUE64,
    second: None,
    third: None,
    fourth: None,
};

/// TO_STRING and FIND.
const OF_FORMAT: Layout = Layout {
    head: Head::Nothing,
    first: FORMAT,
    second: None,
    third: None,
    fourth: None,
};

/// STRING_REF1.
const OF_STRING_REF1: Layout = Layout {
    head: Head::Nothing,
    first: STRING_ID,
    second: None,
    third: None,
    fourth: None,
};

/// QUESTION_REF3.
const OF_QUESTION_REF3: Layout = Layout {
    head: Head::Nothing,
    first: DEVICE_PATH,
    second: GUID,
    third: None,
    fourth: None,
};

/// SPAN.
const OF_SPAN: Layout = Layout {
    head: Head::Nothing,
    first: FLAGS,
    second: None,
    third: None,
    fourth: None,
};

/// DEFAULT.
const OF_DEFAULT: Layout = Layout {
    head: Head::Nothing,
    first: DEFAULT_ID,
    second: TYPE,
    third: None,
    fourth: None,
};

/// DEFAULTSTORE.
const OF_DEFAULTSTORE: Layout = Layout {
    head: Head::Nothing,
    first: DEFAULT_NAME,
    second: DEFAULT_ID,
    third: None,
    fourth: None,
};

/// FORM_MAP.
const OF_FORM_MAP: Layout = Layout {
    head: Head::Nothing,
    first: FORM_ID,
    second: None,
    third: None,
    fourth: None,
};

/// GUID.
const OF_VENDOR: Layout = Layout {
    head: Head::Nothing,
    first: GUID,
    second: None,
    third: None,
    fourth: None,
};

/// SECURITY.
const OF_SECURITY: Layout = Layout {
    head: Head::Nothing,
    first: PERMISSIONS,
    second: None,
    third: None,
    fourth: None,
};

/// REFRESH_ID.
const OF_REFRESH_ID: Layout = Layout {
    head: Head::Nothing,
    first: REFRESH_EVENT_GROUP_ID,
    second: None,
    third: None,
    fourth: None,
};

/// WARNING_IF.
const OF_WARNING_IF: Layout = Layout {
    head: Head::Nothing,
    first: WARNING,
    second: TIME_OUT,
    third: None,
    fourth: None,
};

/// MATCH2.
const OF_MATCH2: Layout = Layout {
    head: Head::Nothing,
    first: SYNTAX_TYPE,
    second: None,
    third: None,
    fourth: None,
};

/// The fields of the opcodes of each number of one byte.
static LAYOUTS: [Layout; 256] = [
    // 0x00
    N,
    OF_FORM,
    OF_SUBTITLE,
    OF_TEXT,
    OF_IMAGE,
    OF_FLAGGED,
    OF_FLAGGED,
    OF_FLAGGED,
    OF_PASSWORD,
    OF_OPTION,
    N,
    N,
    OF_ACTION,
    OF_BUTTON,
    OF_FORM_SET,
    OF_REF,
    // 0x10
    OF_CHECK,
    OF_CHECK,
    OF_EQ_ID_VAL,
    OF_EQ_ID_ID,
    OF_EQ_ID_VAL_LIST,
    N,
    N,
    N,
    OF_RULE,
    N,
    OF_FLAGGED,
    OF_FLAGGED,
    OF_STRING,
    OF_REFRESH,
    N,
    OF_IMAGE,
    // 0x20
    N,
    N,
    N,
    OF_ORDERED_LIST,
    OF_VARSTORE,
    OF_NAME_VALUE,
    OF_VARSTORE_EFI,
    OF_DEVICE,
    N,
    N,
    N,
    OF_GET,
    OF_GET,
    N,
    N,
    N,
    // 0x30
    N,
    N,
    N,
    N,
    N,
    N,
    N,
    N,
    N,
    N,
    N,
    N,
    N,
    N,
    N,
    OF_RULE,
    // 0x40
    OF_QUESTION_REF1,
    N,
    OF_UINT8,
    OF_UINT16,
    OF_UINT32,
    OF_UINT64,
    N,
    N,
    N,
    OF_FORMAT,
    N,
    N,
    OF_FORMAT,
    N,
    OF_STRING_REF1,
    N,
    // 0x50
    N,
    OF_QUESTION_REF3,
    N,
    N,
    N,
    N,
    N,
    N,
    N,
    OF_SPAN,
    N,
    OF_DEFAULT,
    OF_DEFAULTSTORE,
    OF_FORM_MAP,
    N,
    OF_VENDOR,
    // 0x60
    OF_SECURITY,
    N,
    OF_REFRESH_ID,
    OF_WARNING_IF,
    OF_MATCH2,
    N,
    N,
    N,
    N,
    N,
    N,
    N,
    N,
    N,
    N,
    N,
    N,
    N,
    N,
    N,
    N,
    N,
    N,
    N,
    N,
    N,
    N,
    N,
    N,
    N,
    N,
    N, // 0x70
    N,
    N,
    N,
    N,
    N,
    N,
    N,
    N,
    N,
    N,
    N,
    N,
    N,
    N,
    N,
    N, // 0x80
    N,
    N,
    N,
    N,
    N,
    N,
    N,
    N,
    N,
    N,
    N,
    N,
    N,
    N,
    N,
    N, // 0x90
    N,
    N,
    N,
    N,
    N,
    N,
    N,
    N,
    N,
    N,
    N,
    N,
    N,
    N,
    N,
    N, // 0xa0
    N,
    N,
    N,
    N,
    N,
    N,
    N,
    N,
    N,
    N,
    N,
    N,
    N,
    N,
    N,
    N, // 0xb0
    N,
    N,
    N,
    N,
    N,
    N,
    N,
    N,
    N,
    N,
    N,
    N,
    N,
    N,
    N,
    N, // 0xc0
    N,
    N,
    N,
    N,
    N,
    N,
    N,
    N,
    N,
    N,
    N,
    N,
    N,
    N,
    N,
    N, // 0xd0
    N,
    N,
    N,
    N,
    N,
    N,
    N,
    N,
    N,
    N,
    N,
    N,
    N,
    N,
    N,
    N, // 0xe0
    N,
    N,
    N,
    N,
    N,
    N,
    N,
    N,
    N,
    N,
    N,
    N,
    N,
    N,
    N,
    N, // 0xf0
];
