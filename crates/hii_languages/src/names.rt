//! Languages of string packages, found by halves, ignoring ASCII case (own rule).

ghost use Rattle.std.specs.Prelude.{◌≡◌, List, ℕ, IfOk};
ghost use Rattle.std.specs.Str.{str_eq_ignore_ascii_case};
ghost use Rattle.hii_languages.specs.code.Names.{text_order, number_of, AreOrdered};

use std::alloc::AllocError;
use std::cmp::Ordering;
use std::marker::Model;

/// A language, or the front of one, and the number of its string package.
#[derive(Clone, Copy)]
pub(crate) struct Name<'a> {
    pub(crate) text: &'a [u8],
    pub(crate) number: usize,
}

/// Names in the order of their texts. They are seen as this list.
#[derive(Drop)]
pub(crate) struct Names<'a> {
    names: Vec<Name<'a>>,
}

impl<'a> Model for Names<'a> {
    ghost use Rattle.std.specs.Prelude.{List};
    ghost use Rattle.hii_languages.specs.declared.names.Name.{Name};
    ghost use Rattle.hii_languages.specs.code.Names.{AreOrdered};

    ghost Value = { List Name };

    ghost view = { λ n. n.names.items };

    ghost invariant = { λ n. AreOrdered n.names.items };
}

// How two texts follow one another, ignoring ASCII case.
fn text_order(one: &[u8], other: &[u8]) -> Ordering
    ensures { result ≡ text_order one.now other.now }
{
    let mut at = 0;
    while at < one.len() && at < other.len() {
        let byte = one[at].to_ascii_lowercase();
        let beside = other[at].to_ascii_lowercase();
        if byte != beside {
            return byte.cmp(&beside);
        }
        at += 1;
    }
    one.len().cmp(&other.len())
}

// Whether two texts are equal, ignoring ASCII case.
fn is_same(text: &[u8], other: &[u8]) -> bool
    ensures { result ≡ str_eq_ignore_ascii_case text.now other.now }
{
    text.eq_ignore_ascii_case(other)
}

// The number of the first name that has a text.
fn first_number(names: &[Name<'_>], text: &[u8]) -> Option<usize>
    requires { AreOrdered names.now }
    ensures { result ≡ number_of names.now text.now }
{
    let first = names.partition_point(|name| text_order(name.text, text).is_lt());
    if first < names.len() && is_same(names[first].text, text) {
        return Some(names[first].number);
    }
    None
}

impl<'a> Names<'a> {
    /// These names. Of those of one text the first counts.
    pub(crate) fn of(names: Vec<Name<'a>>) -> Result<Names<'a>, AllocError>
        ensures { IfOk result (λ sorted. (text : List ℕ)
            → number_of sorted text ≡ number_of names.entry.items text) }
    {
        let mut names = names;
        names.sort_by(|one, other| text_order(one.text, other.text))?;
        Ok(Names { names })
    }

    /// The number of the first that has a text, ignoring ASCII case.
    pub(crate) fn find(&self, text: &[u8]) -> Option<usize>
        ensures { result ≡ number_of self.now text.now }
    {
        first_number(&self.names, text)
    }
}
