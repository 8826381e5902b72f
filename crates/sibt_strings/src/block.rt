//! What one block of a string package says.

ghost use Rattle.std.specs.Prelude.{◌≡◌, is_some, true};
ghost use Rattle.browser_rules.specs.Strings.{cut_texts};

/// So many texts, one after the other, at the front of the bytes.
#[derive(Clone, Copy)]
pub(crate) struct Texts<'a> {
    pub(crate) count: u16,
    pub(crate) bytes: &'a [u8],
    pub(crate) ghost whole: { is_some (cut_texts count bytes.now) ≡ true },
}

/// What a block says of the string ids that follow.
#[derive(Clone, Copy)]
pub(crate) enum Block<'a> {
    Texts(Texts<'a>),
    /// One id has the text of this one.
    Duplicate(u16),
    /// So many ids have no text.
    Skip(u16),
    Extension,
}
