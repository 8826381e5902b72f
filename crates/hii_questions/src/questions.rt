//! All questions of a form set.

ghost use Rattle.std.specs.Prelude.{◌≡◌, ◌≤◌, IfOk, IfErr, IfSome, filter, length, option_and_then, option_map, vec_capacity};
ghost use Rattle.std.specs.List.{find};
ghost use Rattle.hii_bytes.specs.Faults.{HasNone, Refuses, out_of_memory};
ghost use Rattle.ifr_nodes.specs.Nodes.{nodes_of, options};
ghost use Rattle.ifr_nodes.specs.code.Checked.{IsNodeOf};
ghost use Rattle.ifr_scopes.specs.code.Lists.{statement_node};
ghost use Rattle.hii_varstore.specs.StoreNodes.{layout_of};
ghost use Rattle.hii_varstore.specs.Stores.{shape_of};
ghost use Rattle.hii_values.specs.code.OptionPlaces.{has_value};
ghost use Rattle.hii_questions.specs.Answers.{answers};
ghost use Rattle.hii_questions.specs.Faults.{IsQuestionFault};
ghost use Rattle.hii_questions.specs.Fields.{questions, asked, field_of, question_with, has_field, is_password_in};
ghost use Rattle.hii_questions.specs.Changes.{holds_others};
ghost use Rattle.hii_questions.specs.code.Entries.{IsQuestionEntry, entry_range, entry_view};
ghost use Rattle.hii_questions.specs.code.Ids.{ids_of};
ghost use Rattle.hii_questions.specs.code.Lists.{questions_left, with_field_left};
ghost use Rattle.hii_questions.specs.code.LyingIn.{LieIn};
ghost use Rattle.hii_questions.specs.code.Over.{answers_over};
ghost use Rattle.hii_questions.specs.code.PlacedLeft.{placed_left};
ghost use Rattle.hii_questions.specs.code.Ranges.{range_in};
ghost use Rattle.hii_questions.specs.code.Tables.{first_at};
ghost use Rattle.hii_questions.specs.code.Views.{question_node, question_view};

use crate::by_field::{questions_by_field, questions_with};
use crate::differing::differs;
use crate::entry::{FieldEntry, QuestionEntry};
use crate::field_range::FieldRange;
use crate::merging::Step;
use crate::over::Over;
use crate::placed_options::PlacedOptions;
use crate::question::Question;
use crate::questions_by_place::QuestionsByPlace;
use crate::questions_with_field::QuestionsWithField;
use crate::steps::{first_in, steps_among};
use crate::tables::{numbers_near, options_of, read_questions};
use hii_bytes::{Fault, IdTable};
use hii_values::OptionTable;
use hii_varstore::{Layout, Stores};
use ifr_scopes::{Forms, Statement};
use std::alloc::Global;
use std::marker::Model;

/// The questions of a form set by place, which are found by their places, by their ids and by their fields. They are seen as
/// the package.
pub struct Questions<'a> {
    ifr: &'a [u8],
    by_place: Vec<QuestionEntry>,
    // For each position of the index how many questions stand before it, to find a statement's question first there.
    near: Vec<u32>,
    by_id: IdTable,
    // The numbers of the questions in the order of their fields.
    by_field: Vec<u32>,
    passwords: Vec<QuestionEntry>,
    password_steps: Vec<Step>,
    options: OptionTable<'a>,
}

impl<'a> Drop for Questions<'a> {
    fn drop(self) {
        let Questions {
            ifr: _,
            by_place: _,
            near: _,
            by_id: _,
            by_field: _,
            passwords: _,
            password_steps: _,
            options: _,
        } = self;
    }
}

impl<'a> Model for Questions<'a> {
    ghost use Rattle.std.specs.Prelude.{◌≡◌};
    ghost use Rattle.hii_questions.specs.code.Survey.{Survey};

    ghost Value = { Survey };

    ghost use Rattle.hii_questions.specs.code.Tables.{AreQuestions};

    ghost view = { λ s. record { ifr = s.ifr.now } };

    ghost invariant = { λ s. AreQuestions s.ifr.now s.by_place.items s.by_id s.by_field.items
        s.passwords.items s.password_steps.items × (s.options ≡ s.ifr.now) };
}

impl<'a> Questions<'a> {
    /// The questions of a form set, or the least fault of their fields and options (own rule): a store that is not there,
    /// UnknownVarstore (35), or a field that reaches past the end of its store, FieldOutside (36), each at the question; the
    /// value of an option of a ONE_OF that is no number of its width, OptionRange (37), or an option of an ORDERED_LIST of
    /// another Type than the first, MixedOptions (38), each at the option. Places are in bytes from the package's header.
    /// Where an allocation fails the fault is OutOfMemory (60) at 0. The layout is that of the form set.
    pub fn read(
        alloc: Global,
        forms: &Forms<'a>,
        layout: &Layout<'_>,
    ) -> Result<Questions<'a>, Fault>
        requires { layout.now ≡ layout_of (nodes_of forms.now) }
        ensures read { IfOk result (λ questions. questions ≡ record { ifr = forms.now }) }
        ensures sound { IfOk result (λ questions. HasNone (IsQuestionFault (nodes_of forms.now))) }
        ensures refused { IfErr result (Refuses (IsQuestionFault (nodes_of forms.now))) }
        ensures accepted { HasNone (IsQuestionFault (nodes_of forms.now))
            → IfErr result (λ fault. fault ≡ out_of_memory) }
    {
        let ifr = forms.bytes();
        let (by_place, numbers, passwords) = read_questions(alloc, forms, layout)?;
        let by_field = questions_by_field(alloc, &by_place)?;
        let by_id = IdTable::of(numbers)?;
        let password_steps = steps_among(alloc, &passwords)?;
        let near = numbers_near(alloc, &by_place)?;
        let options = options_of(alloc, forms, &by_place)?;
        Ok(Questions {
            ifr,
            by_place,
            near,
            by_id,
            by_field,
            passwords,
            password_steps,
            options,
        })
    }

    /// The question of an id; there is none of the id 0.
    #[inline(always)]
    pub fn find(&self, id: u16) -> Option<Question<'a>>
        ensures { option_map question_view result
            ≡ option_map (asked (nodes_of self.now.ifr))
            (question_with (nodes_of self.now.ifr) id) }
    {
        let entry = self.entry_of(id)?;
        Some(Question::kept(self.ifr, entry))
    }

    /// Where the field of the question of an id lies, if there is this question and it has one.
    pub fn field_of(&self, id: u16) -> Option<FieldEntry>
        ensures { option_map range_in (option_map entry_range result)
            ≡ option_and_then (field_of (nodes_of self.now.ifr))
            (question_with (nodes_of self.now.ifr) id) }
    {
        let entry = self.entry_of(id)?;
        entry.field
    }

    // What is kept of the question of an id.
    #[inline(always)]
    fn entry_of(&self, id: u16) -> Option<QuestionEntry>
        ensures found { option_map (entry_view self.now.ifr) result
            ≡ option_map (asked (nodes_of self.now.ifr))
            (question_with (nodes_of self.now.ifr) id) }
        ensures kept { IfSome result (λ entry. IsQuestionEntry self.now.ifr entry) }
    {
        if id == 0 {
            return None;
        }
        let number = self.by_id.find(id)?;
        Some(self.by_place[number as usize])
    }

    /// The question at a place, in bytes from the package's header.
    pub fn at(&self, place: u32) -> Option<Question<'a>>
        ensures { option_map question_view result
            ≡ first_at (questions (nodes_of self.now.ifr)) place }
    {
        self.at_number(place, 0)
    }

    /// The question at the place of a statement, with no search where the statement comes from the index.
    #[inline(always)]
    pub fn of_statement(&self, statement: Statement<'_>) -> Option<Question<'a>>
        ensures { option_map question_view result
            ≡ first_at (questions (nodes_of self.now.ifr)) (statement_node statement.entry).place }
    {
        let number = self.near.get(statement.position() as usize);
        self.at_number(statement.place(), number.copied().unwrap_or(0))
    }

    // The question at a place, which is looked for first where it is the one of a number.
    #[inline(always)]
    fn at_number(&self, place: u32, number: u32) -> Option<Question<'a>>
        ensures { option_map question_view result
            ≡ first_at (questions (nodes_of self.now.ifr)) place }
    {
        if let Some(entry) = self.by_place.get(number as usize) {
            if entry.place == place {
                return Some(Question::kept(self.ifr, *entry));
            }
        }
        match self
            .by_place
            .binary_search_by_key(&place, |question| question.place)
        {
            Ok(at) => Some(Question::kept(self.ifr, self.by_place[at])),
            Err(_) => None,
        }
    }

    /// The options of questions that have many, by their values.
    #[inline(always)]
    pub(crate) fn options(&self) -> &OptionTable<'a>
        ensures { result.now ≡ self.now.ifr }
    {
        &self.options
    }

    /// The options of a question of the package that have a value, by place, where it has so many options that they are kept by
    /// their values.
    #[inline(always)]
    pub fn options_with(&self, question: Question<'_>, value: u64) -> Option<PlacedOptions<'_, 'a>>
        requires { IsNodeOf self.now.ifr (question_node question) }
        ensures { IfSome result (λ placed. placed_left placed
            ≡ filter (has_value value) (options (question_node question.entry))) }
    {
        let found = self.options.with(question.place(), value)?;
        let before = u32::try_from(found.before).unwrap_or(0);
        let first = question.statement.position().wrapping_add(1);
        Some(PlacedOptions {
            ifr: self.ifr,
            places: found.places,
            position: first.wrapping_add(before),
        })
    }

    /// The questions whose field is exactly this one, by place.
    pub fn with_field(&self, field: FieldRange) -> QuestionsWithField<'_, 'a>
        ensures { with_field_left result
            ≡ filter (has_field (range_in field)) (questions (nodes_of self.now.ifr)) }
    {
        let numbers = questions_with(&self.by_place, &self.by_field, field);
        QuestionsWithField::over(self.ifr, &self.by_place, numbers)
    }

    /// The first question by place that is for a password, and whose field has a byte of this one.
    pub fn password_in(&self, field: FieldRange) -> Option<Question<'a>>
        ensures { option_map question_view result
            ≡ find (is_password_in (range_in field)) (questions (nodes_of self.now.ifr)) }
    {
        let entry = first_in(&self.passwords, &self.password_steps, field)?;
        Some(Question::kept(self.ifr, entry))
    }

    /// All questions, by place.
    pub fn all(&self) -> QuestionsByPlace<'_, 'a>
        ensures { questions_left result ≡ questions (nodes_of self.now.ifr) }
    {
        QuestionsByPlace::over(self.ifr, &self.by_place)
    }

    /// How many questions there are.
    pub fn count(&self) -> usize
        ensures { result ≡ length (questions (nodes_of self.now.ifr)) }
    {
        self.by_place.len()
    }

    /// Makes a list that of the ids of the questions, by place, whose fields hold other bytes in the second stores than in the
    /// first. Both stores are of the form set, and the list has room for the ids of all questions.
    pub fn differing_into(&self, one: &Stores, other: &Stores, ids: &mut Vec<u16>)
        requires same { shape_of one.now ≡ shape_of other.now }
        requires lie { LieIn (shape_of one.now) (questions (nodes_of self.now.ifr)) }
        requires room { length (questions (nodes_of self.now.ifr)) ≤ vec_capacity ids.old }
        ensures ids { ids.new.items ≡ ids_of
            (filter (holds_others one.now other.now) (questions (nodes_of self.now.ifr))) }
        ensures room { vec_capacity ids.new ≡ vec_capacity ids.old }
    {
        ids.clear();
        for entry in &self.by_place {
            if differs(*entry, one, other) {
                ids.push_reserved(Question::kept(self.ifr, *entry).id());
            }
        }
    }

    /// What the questions answer where the stores are these.
    pub fn over<'s>(&'s self, stores: &'s Stores) -> Over<'s, 'a>
        ensures { answers_over result ≡ answers (nodes_of self.now.ifr) stores.now }
    {
        Over {
            questions: self,
            stores,
        }
    }
}
