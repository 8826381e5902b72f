//! Fields that opcodes have (UEFI 2.8, 33.3.8.3 Opcode Reference).

use crate::field::{Field, Width};
use crate::names::Name;

pub(crate) const PROMPT: Option<Field> = Some(Field::Text(Name::Prompt));

pub(crate) const HELP: Option<Field> = Some(Field::Text(Name::Help));

pub(crate) const QUESTION_ID: Option<Field> = Some(Field::Decimal(Name::QuestionId, Width::Two));

pub(crate) const VAR_STORE_ID: Option<Field> = Some(Field::Decimal(Name::VarStoreId, Width::Two));

pub(crate) const VAR_OFFSET: Option<Field> = Some(Field::Hex(Name::VarOffset, Width::Two));

pub(crate) const QUESTION_FLAGS: Option<Field> = Some(Field::Hex(Name::QuestionFlags, Width::One));

pub(crate) const FORM_ID: Option<Field> = Some(Field::Decimal(Name::FormId, Width::Two));

pub(crate) const FORM_TITLE: Option<Field> = Some(Field::Text(Name::FormTitle));

pub(crate) const FLAGS: Option<Field> = Some(Field::Hex(Name::Flags, Width::One));

pub(crate) const TEXT_TWO: Option<Field> = Some(Field::Text(Name::TextTwo));

pub(crate) const ID: Option<Field> = Some(Field::Decimal(Name::Id, Width::Two));

pub(crate) const MIN_SIZE_WIDE: Option<Field> = Some(Field::Decimal(Name::MinSize, Width::Two));

pub(crate) const MAX_SIZE_WIDE: Option<Field> = Some(Field::Decimal(Name::MaxSize, Width::Two));

pub(crate) const OPTION: Option<Field> = Some(Field::Text(Name::Option));

pub(crate) const TYPE: Option<Field> = Some(Field::Decimal(Name::Type, Width::One));

pub(crate) const QUESTION_CONFIG: Option<Field> = Some(Field::Text(Name::QuestionConfig));

pub(crate) const DEFAULT_ID: Option<Field> = Some(Field::Decimal(Name::DefaultId, Width::Two));

pub(crate) const GUID: Option<Field> = Some(Field::Guid(Name::Guid));

pub(crate) const FORM_SET_TITLE: Option<Field> = Some(Field::Text(Name::FormSetTitle));

pub(crate) const REF_QUESTION_ID: Option<Field> = Some(Field::Decimal(
    Name::RefQuestionId,
    Width::Two,
));

pub(crate) const FORM_SET_ID: Option<Field> = Some(Field::Guid(Name::FormSetId));

pub(crate) const DEVICE_PATH: Option<Field> = Some(Field::Text(Name::DevicePath));

pub(crate) const ERROR: Option<Field> = Some(Field::Text(Name::Error));

pub(crate) const VALUE16: Option<Field> = Some(Field::Decimal(Name::Value, Width::Two));

pub(crate) const QUESTION_ID1: Option<Field> = Some(Field::Decimal(Name::QuestionId1, Width::Two));

pub(crate) const QUESTION_ID2: Option<Field> = Some(Field::Decimal(Name::QuestionId2, Width::Two));

pub(crate) const LIST_LENGTH: Option<Field> = Some(Field::Decimal(Name::ListLength, Width::Two));

pub(crate) const RULE_ID: Option<Field> = Some(Field::Decimal(Name::RuleId, Width::One));

pub(crate) const MIN_SIZE: Option<Field> = Some(Field::Decimal(Name::MinSize, Width::One));

pub(crate) const MAX_SIZE: Option<Field> = Some(Field::Decimal(Name::MaxSize, Width::One));

pub(crate) const REFRESH_INTERVAL: Option<Field> = Some(Field::Decimal(
    Name::RefreshInterval,
    Width::One,
));

pub(crate) const MAX_CONTAINERS: Option<Field> = Some(Field::Decimal(
    Name::MaxContainers,
    Width::One,
));

pub(crate) const SIZE: Option<Field> = Some(Field::Decimal(Name::Size, Width::Two));

pub(crate) const ATTRIBUTES: Option<Field> = Some(Field::Hex(Name::Attributes, Width::Four));

pub(crate) const VAR_STORE_INFO: Option<Field> = Some(Field::Hex(Name::VarStoreInfo, Width::Two));

pub(crate) const VAR_STORE_TYPE: Option<Field> = Some(Field::Decimal(
    Name::VarStoreType,
    Width::One,
));

pub(crate) const VALUE8: Option<Field> = Some(Field::Decimal(Name::Value, Width::One));

pub(crate) const VALUE32: Option<Field> = Some(Field::Decimal(Name::Value, Width::Four));

pub(crate) const VALUE64: Option<Field> = Some(Field::Decimal(Name::Value, Width::Eight));

pub(crate) const FORMAT: Option<Field> = Some(Field::Decimal(Name::Format, Width::One));

pub(crate) const STRING_ID: Option<Field> = Some(Field::Text(Name::StringId));

pub(crate) const DEFAULT_NAME: Option<Field> = Some(Field::Text(Name::DefaultName));

pub(crate) const PERMISSIONS: Option<Field> = Some(Field::Guid(Name::Permissions));

pub(crate) const REFRESH_EVENT_GROUP_ID: Option<Field> = Some(Field::Guid(
    Name::RefreshEventGroupId,
));

pub(crate) const WARNING: Option<Field> = Some(Field::Text(Name::Warning));

pub(crate) const TIME_OUT: Option<Field> = Some(Field::Decimal(Name::TimeOut, Width::One));

pub(crate) const SYNTAX_TYPE: Option<Field> = Some(Field::Guid(Name::SyntaxType));
