//! Warnings of a forms package that is good.

ghost use Rattle.std.specs.Prelude.{◌≡◌};
ghost use Rattle.check_audit.specs.Warnings.{id_of, order_of, rank_of};

use hii_questions::DenialKind;

/// A question that is named and has no answer.
#[derive(Clone, Copy)]
pub(crate) struct Unanswered {
    pub question: u16,
    /// Whether there is a question of this id.
    pub is_there: bool,
}

/// A least and a greatest number, or how many characters a text has.
#[derive(Clone, Copy)]
pub(crate) struct Span {
    pub minimum: i128,
    pub maximum: i128,
}

/// A default that its question does not take.
#[derive(Clone, Copy)]
pub(crate) struct Refused {
    /// The id of its class.
    pub class: u16,
    pub question: u16,
    /// Why; none where a string id has no text.
    pub denial: Option<DenialKind>,
}

/// Two questions whose fields have a byte in common.
#[derive(Clone, Copy)]
pub(crate) struct Sharing {
    pub question: u16,
    pub other: u16,
}

/// What is strange.
#[derive(Clone, Copy)]
pub(crate) enum Oddity {
    /// A guard, condition, rule or value names a question that has no answer.
    Asks(Unanswered),
    /// The least is above the greatest, by its number among such bounds.
    Bounds(u32),
    /// A guard whose condition names no question, by whether it holds.
    Constant(bool),
    /// A question does not take its default.
    Default(Refused),
    /// A string package lacks texts of the first one, by its number among those that do.
    Language(u32),
    /// A field has a byte of the one before it, and is another one.
    Overlap(Sharing),
    /// A string id that is named and has no text.
    Text(u16),
    /// A form that no reference names.
    Unreached(u16),
}

impl Oddity {
    // Where its word stands among the words of warnings.
    fn rank(self) -> u128
        ensures { result ≡ rank_of self }
    {
        match self {
            Oddity::Asks(_) => 0,
            Oddity::Bounds(_) => 1,
            Oddity::Constant(_) => 2,
            Oddity::Default(_) => 3,
            Oddity::Language(_) => 4,
            Oddity::Overlap(_) => 5,
            Oddity::Text(_) => 6,
            Oddity::Unreached(_) => 7,
        }
    }

    // The id of which it is told, or its number in the list.
    fn id(self) -> u32
        ensures { result ≡ id_of self }
    {
        match self {
            Oddity::Asks(unanswered) => u32::from(unanswered.question),
            Oddity::Bounds(_) => 0,
            Oddity::Constant(_) => 0,
            Oddity::Default(refused) => u32::from(refused.question),
            Oddity::Language(number) => number,
            Oddity::Overlap(sharing) => u32::from(sharing.question),
            Oddity::Text(id) => u32::from(id),
            Oddity::Unreached(form) => u32::from(form),
        }
    }
}

/// What is strange at a place of the forms package.
#[derive(Clone, Copy)]
pub(crate) struct Warning {
    pub place: u32,
    pub oddity: Oddity,
}

// A form set may have two for each of its statements.
const _: () = prove!(size_of::<Warning>() == 12);

impl Warning {
    /// A number that rises by place, then word, then id.
    pub(crate) fn order(self) -> u128
        ensures { result ≡ order_of self }
    {
        (u128::from(self.place) * 8 + self.oddity.rank()) * 4_294_967_296
            + u128::from(self.oddity.id())
    }
}
