//! Why bytes are refused, and where.

ghost use Rattle.std.specs.Prelude.{◌≡◌};
ghost use Rattle.hii_bytes.specs.Cause.{number_of, name_of};

use std::alloc::{AllocError, AllocFailed};
use std::fmt;
use thiserror::Error;

/// Why bytes or a command are refused. The numbers are those that a user is told (own rule).
#[derive(Clone, Copy, Debug, PartialEq, Eq)]
pub enum Cause {
    /// A package list of fewer than 20 bytes.
    ListShort = 1,
    /// A list's length that is below 20 or above the number of bytes.
    ListLength = 2,
    /// A package whose header is cut, or whose length is below 4, passes the list's, or is not 4 at the end package.
    PackageLength = 3,
    /// A list without an end package.
    NoEnd = 4,
    /// Bytes of a list behind its end package.
    AfterEnd = 5,
    /// No forms package has the number that was asked for.
    NoForms = 6,
    /// A string package whose fixed part is cut, or whose blocks do not begin behind it in the package.
    StringHeader = 7,
    /// A block of strings that is unknown or cut, or no end block.
    StringBlock = 8,
    /// A text of a block of strings without a zero unit.
    StringText = 9,
    /// A language without a NUL, or with a byte above 0x7E before it.
    LanguageText = 10,
    /// An opcode whose length byte is missing, is below 2 or passes the package, or an END that is not of two bytes.
    OpLength = 20,
    /// An END where no scope is open.
    EndExtra = 21,
    /// A package that ends while a scope is open.
    ScopeOpen = 22,
    /// An opcode that opens a 65th scope.
    TooDeep = 23,
    /// No opcode, or a first one that is no form set.
    NotFormSet = 24,
    /// An opcode behind the end of the form set.
    AfterFormSet = 25,
    /// An opcode that is not listed, or is left out.
    OpOutside = 26,
    /// An opcode that is too short for its fields, or a store's name without its NUL.
    OpSize = 27,
    /// An opcode in a scope where it may not stand.
    Misplaced = 28,
    /// An opcode that opens no scope where it must, or opens one where it may not.
    ScopeBit = 29,
    /// An expression that is missing or begins with no operator, has too few operands or leaves several values.
    ExprShape = 30,
    /// An operator that gives a 65th value.
    ExprDepth = 31,
    /// A form with the id of an earlier one.
    DuplicateForm = 32,
    /// A question with the id, other than 0, of an earlier one.
    DuplicateQuestion = 33,
    /// A store with the id 0 or that of an earlier one.
    DuplicateVarstore = 34,
    /// A question of a store that is not there.
    UnknownVarstore = 35,
    /// A question whose field leaves its store.
    FieldOutside = 36,
    /// An option's value that is too large for its question.
    OptionRange = 37,
    /// An option of an ordered list with another Type than the first one.
    MixedOptions = 38,
    /// No form at all, or a reference to one that is not there.
    NoForm = 39,
    /// A rule that is too deep or too large.
    RuleTooLarge = 40,
    /// An image that does not begin with a mark.
    StoreMagic = 50,
    /// An image with another number of stores.
    StoreCount = 51,
    /// An image with another store's id.
    StoreId = 52,
    /// An image with another size of a store.
    StoreSize = 53,
    /// An image that ends inside a field.
    StoreShort = 54,
    /// Bytes of an image behind the last store.
    StoreTrailing = 55,
    /// An image with another form set's GUID.
    StoreFormSet = 56,
    /// Out of memory: an allocation fails.
    OutOfMemory = 60,
    /// A line that is no command.
    BadCommand = 70,
    /// A line of more than 4,096 bytes.
    LineTooLong = 71,
    /// A script of more than 1,048,576 bytes.
    ScriptTooLong = 72,
    /// A file of a list or an image of more than 16,777,216 bytes.
    FileTooLong = 73,
    /// A text of configuration that does not begin with a header.
    BadHeader = 80,
    /// A text of configuration with another key than the wanted one.
    BadElement = 81,
    /// A text of configuration with digits that are no number of its form.
    BadNumber = 82,
    /// A text of configuration with a value that is wider than its field.
    ValueWidth = 83,
}

impl Cause {
    /// The number by which the cause is told.
    pub fn number(self) -> u8
        ensures { result ≡ number_of self }
    {
        self as u8
    }

    /// The name by which the cause is told.
    pub fn name(self) -> &'static str
        ensures { result.now ≡ name_of self }
    {
        match self {
            Cause::ListShort => "ListShort",
            Cause::ListLength => "ListLength",
            Cause::PackageLength => "PackageLength",
            Cause::NoEnd => "NoEnd",
            Cause::AfterEnd => "AfterEnd",
            Cause::NoForms => "NoForms",
            Cause::StringHeader => "StringHeader",
            Cause::StringBlock => "StringBlock",
            Cause::StringText => "StringText",
            Cause::LanguageText => "LanguageText",
            Cause::OpLength => "OpLength",
            Cause::EndExtra => "EndExtra",
            Cause::ScopeOpen => "ScopeOpen",
            Cause::TooDeep => "TooDeep",
            Cause::NotFormSet => "NotFormSet",
            Cause::AfterFormSet => "AfterFormSet",
            Cause::OpOutside => "OpOutside",
            Cause::OpSize => "OpSize",
            Cause::Misplaced => "Misplaced",
            Cause::ScopeBit => "ScopeBit",
            Cause::ExprShape => "ExprShape",
            Cause::ExprDepth => "ExprDepth",
            Cause::DuplicateForm => "DuplicateForm",
            Cause::DuplicateQuestion => "DuplicateQuestion",
            Cause::DuplicateVarstore => "DuplicateVarstore",
            Cause::UnknownVarstore => "UnknownVarstore",
            Cause::FieldOutside => "FieldOutside",
            Cause::OptionRange => "OptionRange",
            Cause::MixedOptions => "MixedOptions",
            Cause::NoForm => "NoForm",
            Cause::RuleTooLarge => "RuleTooLarge",
            Cause::StoreMagic => "StoreMagic",
            Cause::StoreCount => "StoreCount",
            Cause::StoreId => "StoreId",
            Cause::StoreSize => "StoreSize",
            Cause::StoreShort => "StoreShort",
            Cause::StoreTrailing => "StoreTrailing",
            Cause::StoreFormSet => "StoreFormSet",
            Cause::OutOfMemory => "OutOfMemory",
            Cause::BadCommand => "BadCommand",
            Cause::LineTooLong => "LineTooLong",
            Cause::ScriptTooLong => "ScriptTooLong",
            Cause::FileTooLong => "FileTooLong",
            Cause::BadHeader => "BadHeader",
            Cause::BadElement => "BadElement",
            Cause::BadNumber => "BadNumber",
            Cause::ValueWidth => "ValueWidth",
        }
    }
}

impl fmt::Display for Cause {
    fn fmt<W: fmt::Write>(&self, f: &mut fmt::Formatter<W>) -> fmt::Result {
        write!(f, "{} {}", self.number(), self.name())
    }
}

/// The least fault of refused bytes: the cause, and its place in bytes. Places of a package list and of its string
/// packages count from the list's first byte, those of a forms package from the first byte of its header, those of an
/// image from its first byte. Out of memory has no place: there it is 0.
#[derive(Clone, Copy, Debug, PartialEq, Eq, Error)]
#[error("{cause} at {place:08x}")]
pub struct Fault {
    pub cause: Cause,
    pub place: u64,
}

impl Fault {
    ghost use Rattle.hii_bytes.specs.Faults.{out_of_memory};

    /// The fault of this cause at a place in bytes.
    pub fn at(cause: Cause, place: u64) -> Fault
        ensures { result ≡ record { cause = cause; place = place } }
    {
        Fault { cause, place }
    }

    /// Out of memory, at the place 0.
    pub fn out_of_memory() -> Fault
        ensures { result ≡ out_of_memory }
    {
        Fault::at(Cause::OutOfMemory, 0)
    }
}

impl From<AllocError> for Fault {
    ghost use Rattle.hii_bytes.specs.Faults.{out_of_memory};

    ghost from_gives = { λ _ fault. fault ≡ out_of_memory };

    fn from(_failed: AllocError) -> Fault {
        Fault::out_of_memory()
    }
}

impl<T: Drop> From<AllocFailed<T>> for Fault {
    ghost use Rattle.hii_bytes.specs.Faults.{out_of_memory};

    ghost from_gives = { λ _ fault. fault ≡ out_of_memory };

    fn from(_failed: AllocFailed<T>) -> Fault {
        Fault::out_of_memory()
    }
}
