//! What questions answer over stores.

use crate::questions::Questions;
use crate::value::{read_number, read_value};
use hii_varstore::Stores;
use ifr_expr::{Answers, Value};

/// What the questions of a form set answer over some stores, hidden or not.
#[derive(Clone, Copy)]
pub struct Over<'s, 'a> {
    pub(crate) questions: &'s Questions<'a>,
    pub(crate) stores: &'s Stores,
}

impl<'s, 'a> Answers<'s> for Over<'s, 'a> {
    ghost use Rattle.hii_questions.specs.code.Over.{answers_over};

    ghost answers = { answers_over };

    fn answer(&self, question: u16) -> Value<'s> {
        match self.questions.find(question) {
            Some(question) => read_value(question, self.stores),
            None => Value::Undefined,
        }
    }

    #[inline(always)]
    fn number(&self, question: u16) -> Option<u64> {
        read_number(self.questions.find(question)?, self.stores)
    }
}
