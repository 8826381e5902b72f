//! Opcodes and their fields.

use hii_bytes::Guid;
use ifr_opcodes::*;
use std::process::Abort;

// Opcodes, one behind the other. Every statement but that at 26 has the prompt 1 and the help 2, and every question but that the id 3,
// the store 4, the offset 5 and the flags 6. Every GUID is that at 2.
static OPCODES: [u8; 432] = [
    0x24, 26, 1, 2, 3, 4, 5, 6, 7, 8, 9, 10, 11, 12, 13, 14, 15, 16, 1, 0, 16, 0, 65, 98, 0, 9, // VARSTORE, at 0
    0x06, 14, 2, 0, 3, 0, 11, 0, 1, 0, 4, 0, 1, 2, // CHECKBOX, at 26
    0x29, 2, // END, at 40
    0x02, 7, 1, 0, 2, 0, 9, // SUBTITLE, at 42
    0x03, 8, 1, 0, 2, 0, 0x34, 0x12, // TEXT, at 49
    0x0d, 8, 1, 0, 2, 0, 0x34, 0x12, // RESET_BUTTON, at 57
    7, 20, 1, 0, 2, 0, 3, 0, 4, 0, 5, 0, 6, 0x21, 1, 2, 3, 4, 5, 6, // NUMERIC, hexadecimal, of two bytes, at 65
    5, 0xa6, 1, 0, 2, 0, 3, 0, 4, 0, 5, 0, 6, 0x33, 1, 0, 0, 0, 0, 0, 0, 0, 2, 3, 0, 0, 0, 0, 0, 0,
    4, 0, 0, 0, 0, 0, 0, 5, // ONE_OF, of eight bytes, at 85
    0x1c, 16, 1, 0, 2, 0, 3, 0, 4, 0, 5, 0, 6, 7, 8, 9, // STRING, at 123
    0x08, 17, 1, 0, 2, 0, 3, 0, 4, 0, 5, 0, 6, 7, 1, 8, 2, // PASSWORD, at 139
    0x23, 15, 1, 0, 2, 0, 3, 0, 4, 0, 5, 0, 6, 7, 2, // ORDERED_LIST, at 156
    0x1a, 14, 1, 0, 2, 0, 3, 0, 4, 0, 5, 0, 6, 7, // DATE, at 171
    0x1b, 14, 1, 0, 2, 0, 3, 0, 4, 0, 5, 0, 6, 7, // TIME, at 185
    0x0c, 15, 1, 0, 2, 0, 3, 0, 4, 0, 5, 0, 6, 7, 1, // ACTION, at 199
    0x0f, 17, 1, 0, 2, 0, 3, 0, 4, 0, 5, 0, 6, 7, 1, 8, 2, // REF to a question of a form, at 214
    0x0f, 35, 1, 0, 2, 0, 3, 0, 4, 0, 5, 0, 6, 7, 1, 8, 2, 1, 2, 3, 4, 5, 6, 7, 8, 9, 10, 11, 12,
    13, 14, 15, 16, 9, 3, // REF to one of another form set, of a device, at 231
    0x5b, 8, 1, 0, 0x0b, 7, 8, 9, // DEFAULT of a buffer, at 266
    0x5c, 6, 1, 0, 2, 0, // DEFAULTSTORE, at 274
    9, 8, 1, 0, 0x10, 1, 0x34, 0x12, // ONE_OF_OPTION, at 280
    0x26, 29, 1, 0, 1, 2, 3, 4, 5, 6, 7, 8, 9, 10, 11, 12, 13, 14, 15, 16, 4, 3, 2, 1, 16, 0, 65,
    98, 0, // VARSTORE_EFI, at 288
    0x25, 20, 2, 0, 1, 2, 3, 4, 5, 6, 7, 8, 9, 10, 11, 12, 13, 14, 15, 16, // VARSTORE_NAME_VALUE, at 317
    0x11, 0x84, 1, 2, // INCONSISTENT_IF, at 337
    0x10, 0x84, 3, 4, // NO_SUBMIT_IF, at 341
    0x63, 0x85, 5, 6, 7, // WARNING_IF, at 345
    0x18, 0x83, 7, // RULE, at 350
    0x0e, 0x97, 1, 2, 3, 4, 5, 6, 7, 8, 9, 10, 11, 12, 13, 14, 15, 16, 0x21, 0x43, 5, 0, 1, // FORM_SET, at 353
    0x01, 0x86, 7, 0, 8, 0, // FORM, at 376
    0x02, 6, 1, 0, 2, 0, // SUBTITLE without flags, at 382
    0x12, 6, 11, 0, 0x34, 0x12, // EQ_ID_VAL, at 388
    0x14, 11, 9, 0, 2, 0, 5, 0, 7, 1, 99, // EQ_ID_VAL_LIST, at 394
    0x13, 6, 1, 2, 3, 4, // EQ_ID_ID, at 405
    0x40, 0x84, 7, 0, // QUESTION_REF1, at 411
    0x3f, 3, 8, // RULE_REF, at 415
    0x44, 6, 4, 3, 2, 1, // UINT32, at 418
    0x54, 2, // ONES, at 424
    0x17, 2, // NOT, at 426
    0x3b, 2, // SUBTRACT, at 428
    0x58, 2, // THIS, at 430
];

// The opcodes come from a function without a clause, so that no proof computes with them.
fn opcodes() -> &'static [u8] {
    &OPCODES
}

fn op(rt: &impl Abort, place: u32) -> Op<'static> {
    op_at(opcodes(), place).expect(rt, "an opcode")
}

fn operator(rt: &impl Abort, place: u32) -> ExprOp<'static> {
    ExprOp::read(op(rt, place)).expect(rt, "an operator")
}

fn is_of_cases(guid: Guid<'_>) -> bool {
    opcodes().get(2..18) == Some(guid.bytes())
}

#[test]
fn form_set_and_form(rt: HostRuntime) {
    let first = op(&rt, 353);
    assert!(rt; first.code == FORM_SET && first.scope && first.len() == 23);
    let form_set = FormSetOp::read(first).expect(&rt, "FORM_SET");
    assert!(rt; is_of_cases(form_set.guid()) && form_set.title() == 0x4321);
    assert!(rt; form_set.help() == 5 && form_set.flags() == 1);
    let form = FormOp::read(op(&rt, 376)).expect(&rt, "FORM");
    assert!(rt; form.id() == 7 && form.title() == 8);
}

#[test]
fn statement_and_question(rt: HostRuntime) {
    let checkbox = op(&rt, 26);
    let statement = StatementOp::read(checkbox).expect(&rt, "a statement");
    assert!(rt; statement.prompt() == 2 && statement.help() == 3);
    let question = QuestionOp::read(checkbox).expect(&rt, "a question");
    assert!(rt; question.statement().prompt() == 2 && question.id() == 11);
    assert!(rt; question.store() == 1 && question.offset() == 4);
    assert!(rt; question.flags() == 1 && question.is_read_only());
}

#[test]
fn plain_statements(rt: HostRuntime) {
    let subtitle = SubtitleOp::read(op(&rt, 42)).expect(&rt, "SUBTITLE");
    assert!(rt; subtitle.statement().prompt() == 1 && subtitle.flags() == 9);
    let text = TextOp::read(op(&rt, 49)).expect(&rt, "TEXT");
    assert!(rt; text.statement().prompt() == 1 && text.second() == 0x1234);
    let button = ResetButtonOp::read(op(&rt, 57)).expect(&rt, "RESET_BUTTON");
    assert!(rt; button.statement().prompt() == 1 && button.default_id() == 0x1234);
}

#[test]
fn checkbox(rt: HostRuntime) {
    let view = CheckboxOp::read(op(&rt, 26)).expect(&rt, "CHECKBOX");
    assert!(rt; view.question().id() == 11 && view.flags() == 2);
    assert!(rt; !view.is_default() && view.is_manufacturing_default());
}

#[test]
fn date_and_time(rt: HostRuntime) {
    let date = DateOp::read(op(&rt, 171)).expect(&rt, "DATE");
    assert!(rt; date.question().id() == 3 && date.flags() == 7);
    let time = TimeOp::read(op(&rt, 185)).expect(&rt, "TIME");
    assert!(rt; time.question().store() == 4 && time.flags() == 7);
}

#[test]
fn numeric(rt: HostRuntime) {
    let view = NumericOp::read(op(&rt, 65)).expect(&rt, "NUMERIC");
    assert!(rt; view.question().id() == 3 && view.flags() == 0x21 && view.width() == 2);
    assert!(rt; view.minimum() == 0x201 && view.maximum() == 0x403 && view.step() == 0x605);
    assert!(rt; matches!(view.display(), Display::Hexadecimal));
}

#[test]
fn one_of(rt: HostRuntime) {
    let view = OneOfOp::read(op(&rt, 85)).expect(&rt, "ONE_OF");
    assert!(rt; view.question().offset() == 5 && view.flags() == 0x33 && view.width() == 8);
    assert!(rt; view.minimum() == 1 && view.maximum() == 0x302);
    assert!(rt; view.step() == 0x0500_0000_0000_0004);
}

#[test]
fn string_password_and_list(rt: HostRuntime) {
    let string = StringOp::read(op(&rt, 123)).expect(&rt, "STRING");
    assert!(rt; string.question().id() == 3 && string.flags() == 9);
    assert!(rt; string.minimum() == 7 && string.maximum() == 8);
    let password = PasswordOp::read(op(&rt, 139)).expect(&rt, "PASSWORD");
    assert!(rt; password.question().id() == 3);
    assert!(rt; password.minimum() == 0x107 && password.maximum() == 0x208);
    let list = OrderedListOp::read(op(&rt, 156)).expect(&rt, "ORDERED_LIST");
    assert!(rt; list.question().id() == 3 && list.max_containers() == 7);
    assert!(rt; list.flags() == 2 && !list.is_unique_set() && list.has_no_empty_set());
}

// The form that a reference leads to is one of its own form set.
#[test]
fn actions_and_references(rt: HostRuntime) {
    let action = ActionOp::read(op(&rt, 199)).expect(&rt, "ACTION");
    assert!(rt; action.question().id() == 3 && action.text() == Some(0x107));
    let inner = RefOp::read(op(&rt, 214)).expect(&rt, "REF");
    assert!(rt; inner.question().id() == 3 && inner.question_id() == Some(0x208));
    assert!(rt; inner.form_id() == Some(0x107) && inner.target() == Some(0x107));
    let outer = RefOp::read(op(&rt, 231)).expect(&rt, "REF");
    assert!(rt; outer.device_path() == Some(0x309) && outer.target().is_none());
    assert!(rt; outer.form_set().is_some_and(is_of_cases));
}

#[test]
fn option_and_defaults(rt: HostRuntime) {
    let option = OptionOp::read(op(&rt, 280)).expect(&rt, "ONE_OF_OPTION");
    assert!(rt; option.text() == 1 && option.value() == 0x1234);
    assert!(rt; option.flags() == 0x10 && option.kind() == TYPE_NUM_SIZE_16);
    assert!(rt; option.is_default() && !option.is_manufacturing_default());
    let default = DefaultOp::read(op(&rt, 266)).expect(&rt, "DEFAULT");
    assert!(rt; default.id() == 1 && default.kind() == TYPE_BUFFER);
    assert!(rt; default.value() == b"\x07\x08\x09".as_slice());
    let store = DefaultStoreOp::read(op(&rt, 274)).expect(&rt, "DEFAULTSTORE");
    assert!(rt; store.name() == 1 && store.id() == 2);
}

#[test]
fn stores_of_each_kind(rt: HostRuntime) {
    let buffer = VarstoreOp::read(op(&rt, 0)).expect(&rt, "VARSTORE");
    assert!(rt; buffer.id() == 1 && buffer.size() == 16 && is_of_cases(buffer.guid()));
    assert!(rt; buffer.name() == b"Ab".as_slice());
    let variable = VarstoreEfiOp::read(op(&rt, 288)).expect(&rt, "VARSTORE_EFI");
    assert!(rt; variable.id() == 1 && variable.size() == 16 && is_of_cases(variable.guid()));
    assert!(rt; variable.attributes() == 0x01020304 && variable.name() == b"Ab".as_slice());
    let pairs = VarstoreNameValueOp::read(op(&rt, 317)).expect(&rt, "VARSTORE_NAME_VALUE");
    assert!(rt; pairs.id() == 2 && is_of_cases(pairs.guid()));
}

#[test]
fn conditions_and_rules(rt: HostRuntime) {
    let inconsistent = InconsistentIfOp::read(op(&rt, 337)).expect(&rt, "INCONSISTENT_IF");
    let no_submit = NoSubmitIfOp::read(op(&rt, 341)).expect(&rt, "NO_SUBMIT_IF");
    assert!(rt; inconsistent.error() == 0x201 && no_submit.error() == 0x403);
    let warning = WarningIfOp::read(op(&rt, 345)).expect(&rt, "WARNING_IF");
    let rule = RuleOp::read(op(&rt, 350)).expect(&rt, "RULE");
    assert!(rt; warning.text() == 0x605 && warning.timeout() == 7 && rule.id() == 7);
}

#[test]
fn values_of_questions(rt: HostRuntime) {
    let ExprOp::Leaf(LeafOp::EqIdVal(value)) = operator(&rt, 388) else {
        panic!(rt; "no EQ_ID_VAL");
    };
    assert!(rt; value.question() == 11 && value.value() == 0x1234);
    let ExprOp::Leaf(LeafOp::EqIdValList(list)) = operator(&rt, 394) else {
        panic!(rt; "no EQ_ID_VAL_LIST");
    };
    assert!(rt; list.question() == 9 && list.count() == 2 && list.values().eq([5, 0x107]));
}

#[test]
fn names_of_questions_and_rules(rt: HostRuntime) {
    let ExprOp::Leaf(LeafOp::EqIdId(both)) = operator(&rt, 405) else {
        panic!(rt; "no EQ_ID_ID");
    };
    assert!(rt; both.first() == 0x0201 && both.second() == 0x0403);
    let ExprOp::Leaf(LeafOp::QuestionRef(question)) = operator(&rt, 411) else {
        panic!(rt; "no QUESTION_REF1");
    };
    let ExprOp::RuleRef(rule) = operator(&rt, 415) else {
        panic!(rt; "no RULE_REF");
    };
    assert!(rt; question.question() == 7 && rule.rule() == 8);
}

#[test]
fn constants_and_operators(rt: HostRuntime) {
    let ExprOp::Leaf(LeafOp::Uint(number)) = operator(&rt, 418) else {
        panic!(rt; "no UINT32");
    };
    let ExprOp::Leaf(LeafOp::Constant(ones)) = operator(&rt, 424) else {
        panic!(rt; "no ONES");
    };
    assert!(rt; number.value() == 0x01020304 && matches!(ones.constant, Constant::Ones));
    let ExprOp::Unary(not) = operator(&rt, 426) else {
        panic!(rt; "no NOT");
    };
    let ExprOp::Binary(less) = operator(&rt, 428) else {
        panic!(rt; "no SUBTRACT");
    };
    assert!(rt; matches!(not.operator, Unary::Not) && matches!(less.operator, Binary::Subtract));
    assert!(rt; operator(&rt, 430).op().code == THIS);
}

#[test]
fn kinds_of_opcodes(rt: HostRuntime) {
    assert!(rt; is_outside(op(&rt, 40)) && is_short(op(&rt, 382)));
    assert!(rt; operands(MODULO) == Some(2) && operands(FORM).is_none());
    assert!(rt; is_operator(THIS) && is_listed(FORM) && is_statement(TEXT));
    assert!(rt; is_question(CHECKBOX) && is_store(VARSTORE) && is_condition(WARNING_IF));
    assert!(rt; is_ignored(GUID) && split_opcode(opcodes(), 9).is_some());
}
