//! Laws of the definitions that the contracts cite.

ghost use Rattle.hii_questions.specs.laws.Fields.{HoldsFields, FindsQuestions, HaveTheField, ReadsBack, NamesWhatWasOffered, FillsFields, LeavesOthers};

/// Where no question has a fault, each field lies in its store.
pub fn fields_lie_in_their_stores()
    ensures { HoldsFields }
{}

/// The question of an id is a question of the package with this id.
pub fn questions_of_ids_are_questions()
    ensures { FindsQuestions }
{}

/// The questions with a field are questions of the package with exactly this field.
pub fn questions_with_a_field_have_it()
    ensures { HaveTheField }
{}

/// What a question takes it answers, once the bytes are put: a number as its two's complement, a text as its units, a list
/// filled with zeros.
pub fn a_taken_value_is_read_back()
    ensures { ReadsBack }
{}

/// What is read of the field of a question once it has taken what was offered names the values of options that were offered.
pub fn a_taken_value_names_what_was_offered()
    ensures { NamesWhatWasOffered }
{}

/// What a question takes are as many bytes as its field has.
pub fn taken_bytes_fill_the_field()
    ensures { FillsFields }
{}

/// A write leaves the value of a field that it does not meet.
pub fn a_write_leaves_other_values()
    ensures { LeavesOthers }
{}
