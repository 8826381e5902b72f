//! Why a command is denied.

ghost use Rattle.std.specs.Prelude.{◌≡◌};
ghost use Rattle.hii_values.specs.Denials.{kind_name, has_text};

/// Why a command is denied (own rule).
#[derive(Clone, Copy, Debug, PartialEq, Eq)]
pub enum DenialKind {
    /// A DISABLE_IF around it held when the form set was opened.
    DisableIf,
    /// A SUPPRESS_IF around it holds.
    SuppressIf,
    /// A GRAY_OUT_IF around it holds.
    GrayOutIf,
    /// A LOCKED stands in its scope or in one around it.
    Locked,
    /// The question has the flag READ_ONLY.
    ReadOnly,
    /// The question has no field in a store, and is no reference that leads to a form, or it is one that leads to none.
    Outside,
    /// The question takes no input of this kind: a number, a text or a list.
    Kind,
    /// The value is not among those that the question takes.
    Range,
    /// No option of the question has the value.
    NoOption,
    /// The text or list is too short or too long.
    Length,
    /// A value comes twice in a list that is a set.
    Repeat,
    /// The list is empty and must not be.
    EmptySet,
    /// The text is not UTF-8, or has a character that is no unit of UCS-2, or U+0000.
    BadText,
    /// An INCONSISTENT_IF of the question holds with the new value.
    InconsistentIf,
    /// A NO_SUBMIT_IF holds.
    NoSubmitIf,
    /// No question has the id.
    NoQuestion,
    /// The question is no reference.
    NotRef,
    /// The statement is no button.
    NotButton,
    /// The page has no such row.
    NoRow,
    /// No form was left by a reference.
    NoBack,
    /// So many forms were left by references as are kept.
    DeepHistory,
    /// No store has the GUID, name and path.
    NoStore,
    /// No question has the field; of a text that is to be extracted, a block leaves its store.
    NoField,
    /// The field is that of a password; of a text that is to be extracted, a block meets one.
    Password,
}

impl DenialKind {
    /// The name by which it is told.
    pub fn name(self) -> &'static str
        ensures { result.now ≡ kind_name self }
    {
        match self {
            DenialKind::DisableIf => "disableif",
            DenialKind::SuppressIf => "suppressif",
            DenialKind::GrayOutIf => "grayoutif",
            DenialKind::Locked => "locked",
            DenialKind::ReadOnly => "readonly",
            DenialKind::Outside => "outside",
            DenialKind::Kind => "kind",
            DenialKind::Range => "range",
            DenialKind::NoOption => "nooption",
            DenialKind::Length => "length",
            DenialKind::Repeat => "repeat",
            DenialKind::EmptySet => "emptyset",
            DenialKind::BadText => "badtext",
            DenialKind::InconsistentIf => "inconsistentif",
            DenialKind::NoSubmitIf => "nosubmitif",
            DenialKind::NoQuestion => "noquestion",
            DenialKind::NotRef => "notref",
            DenialKind::NotButton => "notbutton",
            DenialKind::NoRow => "norow",
            DenialKind::NoBack => "noback",
            DenialKind::DeepHistory => "deephistory",
            DenialKind::NoStore => "nostore",
            DenialKind::NoField => "nofield",
            DenialKind::Password => "password",
        }
    }

    /// Whether a denial of this kind is told with the text of the opcode that decides.
    pub fn has_text(self) -> bool
        ensures { result ≡ has_text self }
    {
        matches!(self, DenialKind::InconsistentIf | DenialKind::NoSubmitIf)
    }
}

/// Why a question does not take a value: the kind, and the question's place in bytes from the header of the forms package.
#[derive(Clone, Copy, Debug, PartialEq, Eq)]
pub struct ValueDenial {
    pub kind: DenialKind,
    pub place: u32,
}

impl ValueDenial {
    /// The denial of this kind at a question's place.
    pub fn by(kind: DenialKind, place: u32) -> ValueDenial
        ensures { result ≡ record { kind = kind; place = place } }
    {
        ValueDenial { kind, place }
    }
}
