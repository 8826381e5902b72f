//! Defaults that are laid over the bytes of stores.

use hii_languages::{Choice, Languages};

/// A class of defaults, by its number, and the texts from which defaults are taken.
#[derive(Clone, Copy)]
pub struct Defaults<'a, 's> {
    pub class: u16,
    pub languages: &'s Languages<'a>,
    pub choice: Choice,
}
