//! Questions with their fields, their answers and the values that they take.

ghost use Rattle.std.specs.Prelude.{◌≡◌, IfOk};
ghost use Rattle.hii_bytes.specs.Faults.{HasNone};
ghost use Rattle.ifr_nodes.specs.Nodes.{nodes_of};
ghost use Rattle.hii_varstore.specs.StoreNodes.{layout_of};
ghost use Rattle.hii_varstore.specs.Stores.{shape_of};
ghost use Rattle.hii_questions.specs.Faults.{IsQuestionFault};

use crate::forms::{image, read_forms};
use hii_bytes::Fault;
use hii_questions::{
    FieldRange, Input, Question, Questions, StoredItems, ValueDenial, check_value, element_width,
    read_value, shown,
};
use hii_varstore::{Layout, Stores};
use ifr_expr::{Answers, Value};
use ifr_scopes::Forms;
use std::alloc::Global;
use std::process::Abort;

// So many bytes of the store 1.
fn range(offset: u16, width: usize) -> FieldRange {
    FieldRange {
        store: 1,
        offset,
        width,
    }
}

#[test]
fn fields_meet_where_they_have_a_byte_in_common(rt: HostRuntime) {
    let field = range(4, 2);
    assert!(rt; field.meets(range(3, 2)) && !field.meets(range(2, 2)));
    assert!(rt; field.first() == 131_076 && field.behind() == 131_078);
}

fn questions_are_found(rt: &impl Abort, questions: &Questions<'_>) {
    let first = questions.all().next().expect(rt, "a question");
    assert!(rt; first.place() == 65 && first.statement().place() == 65 && first.op().id() == 7);
    assert!(rt; first.field().expect(rt, "a field").width == 1);
    assert!(rt; questions.at(162).map(Question::id) == Some(5));
    assert!(rt; questions.with_field(range(2, 1)).next().map(Question::id) == Some(5));
    let field = questions.field_of(5).expect(rt, "a field");
    assert!(rt; field.range() == range(2, 1));
    let password = questions.password_in(range(5, 1)).expect(rt, "a password");
    assert!(rt; password.id() == 9 && password.is_password());
}

// Why a question does not take a number.
fn denial_of(question: Question<'_>, number: i128) -> Option<ValueDenial> {
    check_value(question, Input::Number(number)).err()
}

// The first item of the value that a number is for a question.
fn first_item(question: Question<'_>, number: i128) -> Option<u64> {
    match check_value(question, Input::Number(number)) {
        Ok(field) => field.items().next(),
        Err(_) => None,
    }
}

fn a_choice_takes_its_options(rt: &impl Abort, questions: &Questions<'_>) {
    let choice = questions.find(5).expect(rt, "question 5");
    assert!(rt; element_width(choice.statement()) == 1);
    assert!(rt; first_item(choice, 2) == Some(2));
    let denial = denial_of(choice, 3).expect(rt, "a denial");
    assert!(rt; denial.kind.name() == "nooption" && denial.place == 162);
}

pub(crate) fn questions_are_told(rt: &impl Abort, questions: &Questions<'_>) {
    questions_are_found(rt, questions);
    a_choice_takes_its_options(rt, questions);
}

pub(crate) fn values_are_told(rt: &impl Abort, questions: &Questions<'_>, stores: &Stores) {
    let over = questions.over(stores);
    assert!(rt; matches!(over.answer(7), Value::Boolean(false)));
    let choice = questions.find(5).expect(rt, "question 5");
    assert!(rt; matches!(read_value(choice, stores), Value::Number(2)));
}

// Gives the question of an id a number, where there is one.
fn give_number(
    questions: &Questions<'_>,
    stores: &mut Stores,
    id: u16,
    number: i128,
) -> Result<(), ValueDenial>
    requires sound { HasNone (IsQuestionFault (nodes_of questions.now.ifr)) }
    requires laid { shape_of stores.old ≡ layout_of (nodes_of questions.now.ifr) }
    ensures { shape_of stores.new ≡ shape_of stores.old }
{
    if let Some(question) = questions.find(id) {
        check_value(question, Input::Number(number))?.put(stores);
    }
    Ok(())
}

// The byte 1 of the store 1.
fn byte_of(stores: &Stores) -> Option<u8> {
    stores.bytes(1)?.get(1).copied()
}

// The byte of the question 7, where it was given 1.
fn given_byte(alloc: Global, forms: &Forms<'_>) -> Result<Option<u8>, Fault> {
    let layout = Layout::read(alloc, forms)?;
    let questions = Questions::read(alloc, forms, &layout)?;
    let mut stores = Stores::read(alloc, &layout, image())?;
    match give_number(&questions, &mut stores, 7, 1) {
        Ok(()) => Ok(byte_of(&stores)),
        Err(_) => Ok(None),
    }
}

#[test]
fn a_question_is_given_a_number(rt: HostRuntime) {
    let forms = read_forms(rt.alloc()).expect(&rt, "a form set");
    assert!(rt; matches!(given_byte(rt.alloc(), &forms), Ok(Some(1))));
}

#[test]
fn numbers_in_bytes(rt: HostRuntime) {
    assert!(rt; shown(true, 1, 0x80) == -128);
    let mut items = StoredItems::new(b"\x02\x01\x00\x00", 2);
    assert!(rt; items.step() == Some(0x102));
}
