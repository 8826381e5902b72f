//! What the command line asks for.

/// What is told or made.
#[derive(Drop)]
pub enum Task<'a> {
    /// The lists of a dump.
    Split(SplitOptions<'a>),
    /// A line for each store.
    Stores(StoresOptions<'a>),
    /// Whether setup opens the forms packages of a list, and what in them is mostly a slip.
    Check(CheckOptions<'a>),
    /// A line for each opcode.
    Opcodes(OpcodesOptions<'a>),
    /// An image of the stores.
    Image(ImageOptions<'a>),
    /// A line for each form and each question.
    Questions(FormSetOptions<'a>),
    /// What is known of one question.
    Question(QuestionOptions<'a>),
    /// What would open the questions that may not be changed.
    Unlock(UnlockOptions<'a>),
    /// What a script leaves of an image.
    Apply(ApplyOptions<'a>),
    /// What an image holds.
    Export(ExportOptions<'a>),
    /// What two images hold differently.
    Diff(DiffOptions<'a>),
    /// A page on a form set.
    Report(ReportOptions<'a>),
    /// A line for each forms package of a dump.
    Survey(SurveyOptions<'a>),
}

/// A dump, and what is told of it.
#[derive(Clone, Copy)]
pub struct SplitOptions<'a> {
    /// The file of the dump.
    pub dump: &'a str,
    /// The list that is taken; where it is none, all are told.
    pub taken: Option<TakenList<'a>>,
    /// Whether they are told as objects of JSON.
    pub json: bool,
}

/// A list that is taken out of a dump.
#[derive(Clone, Copy)]
pub struct TakenList<'a> {
    /// Its number, counted from 1.
    pub number: u64,
    /// The file into which its bytes are written.
    pub out: &'a str,
}

/// A forms package of a package list.
#[derive(Clone, Copy)]
pub struct ListOptions<'a> {
    /// The file of the list, or of a dump that has it.
    pub path: &'a str,
    /// The number of the list in the dump, counted from 1; where it is none, the file is the list.
    pub take: Option<u64>,
    /// Which forms package is opened, counted from 1.
    pub forms: u16,
}

/// The stores of a form set, and what is told of them.
#[derive(Clone, Copy)]
pub struct StoresOptions<'a> {
    pub list: ListOptions<'a>,
    /// Whether the headers of configuration texts are told.
    pub headers: bool,
    /// Whether they are told as objects of JSON.
    pub json: bool,
}

/// All forms packages of a package list, and how they are told.
#[derive(Clone, Copy)]
pub struct CheckOptions<'a> {
    /// The file of the list, or of a dump that has it.
    pub path: &'a str,
    /// The number of the list in the dump, counted from 1; where it is none, the file is the list.
    pub take: Option<u64>,
    /// Whether they are told as objects of JSON.
    pub json: bool,
}

/// The opcodes of a forms package, and how they are told.
#[derive(Clone, Copy)]
pub struct OpcodesOptions<'a> {
    pub list: ListOptions<'a>,
    /// Whether they are told as objects of JSON.
    pub json: bool,
}

/// A form set over an image of its stores, and how it is told.
#[derive(Clone, Copy)]
pub struct FormSetOptions<'a> {
    pub list: ListOptions<'a>,
    /// The file of the image.
    pub stores: &'a str,
    /// Whether it is told as objects of JSON.
    pub json: bool,
    /// The language of the texts.
    pub lang: &'a str,
}

/// A question of a form set.
#[derive(Clone, Copy)]
pub struct QuestionOptions<'a> {
    pub form_set: FormSetOptions<'a>,
    /// The question's id.
    pub id: u16,
}

/// The questions of a form set for which is told what would open them.
#[derive(Clone, Copy)]
pub struct UnlockOptions<'a> {
    pub form_set: FormSetOptions<'a>,
    /// The id of the question; where it is none, all that may not be changed are told.
    pub id: Option<u16>,
}

/// A script that is run over a form set and an image of its stores.
#[derive(Clone, Copy)]
pub struct ApplyOptions<'a> {
    pub form_set: FormSetOptions<'a>,
    /// The file of the script.
    pub script: &'a str,
    /// The file into which the image is written that it leaves.
    pub out: &'a str,
}

/// An image of the stores of a form set, and what of it is told.
#[derive(Clone, Copy)]
pub struct ExportOptions<'a> {
    pub list: ListOptions<'a>,
    /// The file of the image.
    pub stores: &'a str,
    /// What is told.
    pub part: ExportPart<'a>,
    /// Whether it is told as objects of JSON.
    pub json: bool,
}

/// What is told of an image.
#[derive(Clone, Copy)]
pub enum ExportPart<'a> {
    /// The bytes of the store of an id, into a file.
    Store { id: u16, out: &'a str },
    /// A line for each field; of those alone that differ from the image of another file, where one is given.
    Lines { with: Option<&'a str> },
}

/// Two images of the stores of a form set.
#[derive(Clone, Copy)]
pub struct DiffOptions<'a> {
    /// The form set over the first.
    pub form_set: FormSetOptions<'a>,
    /// The file of the second.
    pub with: &'a str,
}

/// A form set over an image of its stores, and the page on it, which is told in no other way.
#[derive(Clone, Copy)]
pub struct ReportOptions<'a> {
    pub form_set: FormSetOptions<'a>,
    /// The file into which the page is written.
    pub out: &'a str,
}

/// What an image is made of.
#[derive(Drop)]
pub struct ImageOptions<'a> {
    pub list: ListOptions<'a>,
    /// The file into which the image is written.
    pub out: &'a str,
    /// Where the bytes of stores come from.
    pub sources: Sources<'a>,
    /// The class of the defaults that are laid over these bytes.
    pub defaults: Option<u16>,
    /// Whether the stores are told as objects of JSON.
    pub json: bool,
    /// The language of the texts of defaults.
    pub lang: &'a str,
}

/// A dump, and what is told of its forms packages.
#[derive(Drop)]
pub struct SurveyOptions<'a> {
    /// The file of the dump.
    pub dump: &'a str,
    /// Where the bytes of stores come from. No store is given a file.
    pub sources: Sources<'a>,
    /// The text by which questions are found; where it is none, no question is told.
    pub find: Option<&'a str>,
    /// Whether they are told as objects of JSON.
    pub json: bool,
    /// The language of the texts of questions.
    pub lang: &'a str,
}

/// Where the bytes of stores come from: the first of these that has some.
#[derive(Drop)]
pub struct Sources<'a> {
    /// The files that are given to stores.
    pub files: Vec<StoreFile<'a>>,
    /// The folder with files of variables.
    pub efivars: Option<&'a str>,
    /// The file of a configuration text.
    pub config: Option<&'a str>,
    /// Whether stores that are given no bytes hold zeros.
    pub zero: bool,
}

/// A file that holds the bytes of a store.
#[derive(Clone, Copy)]
pub struct StoreFile<'a> {
    /// The store's id.
    pub id: u16,
    /// The file.
    pub path: &'a str,
}
