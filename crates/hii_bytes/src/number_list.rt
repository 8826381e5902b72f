//! Lists of decimal numbers with a comma between.

ghost use Rattle.std.specs.Prelude.{◌≡◌, ◌<◌, ◌∷◌, true, length};
ghost use Rattle.std.specs.Bool.{Decides};
ghost use Rattle.std.specs.Str.Parse.{digits_value};
ghost use Rattle.hii_bytes.specs.NumberList as lists;

use crate::bytes::first_place;
use crate::digits::number_of_digits;

// The most digits of a number in a list.
const MOST_DIGITS: usize = 20;

/// The numbers that are left of a text that is a list of numbers, from the first on.
#[derive(Clone, Copy)]
pub struct NumberList<'a> {
    rest: &'a [u8],
    ghost listed: { lists.is_number_list rest.now ≡ true },
}

impl<'a> NumberList<'a> {
    ghost use Rattle.hii_bytes.specs.code.NumbersLeft.{numbers_left};

    /// The numbers of a text that is a list of numbers.
    #[tactic(auto, using(crate::proofs::NumberListLemmas::listed))]
    pub fn of(text: &'a [u8]) -> NumberList<'a>
        requires { lists.IsList text.now }
        ensures { numbers_left result ≡ lists.numbers_of text.entry.now }
    {
        NumberList { rest: text }
    }
}

impl<'a> Iterator for NumberList<'a> {
    ghost use Rattle.std.specs.Iterator.{YieldsFirst, item_count};
    ghost use Rattle.hii_bytes.specs.code.NumbersLeft.{numbers_left};

    type Item = u64;

    ghost next_gives = { YieldsFirst numbers_left };

    ghost remaining = { item_count numbers_left };

    fn next(&mut self) -> Option<u64> {
        if self.rest.is_empty() {
            return None;
        }
        let (number, rest) = split_number(self.rest);
        self.rest = rest;
        Some(number)
    }
}

// The first number of a list that is not empty, and the list of the others.
fn split_number(text: &[u8]) -> (u64, &[u8])
    requires list { lists.is_number_list text.now ≡ true }
    requires some { 0 < length text.now }
    ensures rest { lists.is_number_list result.1.now ≡ true }
    ensures numbers { lists.numbers_of text.now ≡ result.0 ∷ lists.numbers_of result.1.now }
{
    match first_place(text, b',') {
        Some(end) => (value_of(&text[..end]), &text[end + 1..]),
        None => (value_of(text), &[]),
    }
}

fn value_of(element: &[u8]) -> u64
    requires { lists.is_element element.now ≡ true }
    ensures { result ≡ digits_value 10 element.now }
{
    number_of_digits(element, 10, MOST_DIGITS).unwrap()
}

/// Whether the text is a list of numbers: none, or numbers with a comma between, each 1 to 20 decimal digits and below
/// 2^64.
pub fn is_number_list(text: &[u8]) -> bool
    ensures list { Decides result (lists.IsList text.now) }
    // The answer is the function `is_number_list` of the text.
    ensures test { result ≡ lists.is_number_list text.now }
{
    text.is_empty() || text.split(|byte| *byte == b',').all(is_element)
}

fn is_element(text: &[u8]) -> bool
    ensures { result ≡ lists.is_element text.now }
{
    number_of_digits(text, 10, MOST_DIGITS).is_some()
}
