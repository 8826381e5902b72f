//! The string packages of a list.

ghost use Rattle.std.specs.Prelude.{◌≡◌, ◌==◌, if◌then◌else◌, ℕ, List, [], length, Some, None, IfOk, IfErr, option_map};
ghost use Rattle.browser_rules.specs.Faults.{string_faults};
ghost use Rattle.browser_rules.specs.Strings.{spoken_in, primary, chosen, shown};
ghost use Rattle.browser_rules.specs.Strings as chapter;
ghost use Rattle.hii_bytes.specs.Faults.{RefusesAmong, out_of_memory};
ghost use Rattle.sibt_strings.specs.code.Views.{units_in};
ghost use Rattle.hii_languages.specs.code.Names.{number_of, with_language, with_subtag};
ghost use Rattle.hii_languages.specs.code.Views.{choice_of, text_of, Tells};

use crate::choice::Choice;
use crate::names::{Name, Names};
use crate::shown::Shown;
use hii_bytes::{Fault, first_place};
use hii_packages::{PackageList, STRINGS};
use sibt_strings::{StringTable, Units};
use std::alloc::{AllocError, Global};
use std::marker::Model;

/// The string packages of a list, seen as what each says, in order.
pub struct Languages<'a> {
    tables: Vec<StringTable<'a>>,
    // The numbers of the string packages by their languages, and by their primary subtags.
    by_language: Names<'a>,
    by_subtag: Names<'a>,
}

impl<'a> Drop for Languages<'a> {
    fn drop(self) {
        let Languages {
            tables: _,
            by_language: _,
            by_subtag: _,
        } = self;
    }
}

impl<'a> Model for Languages<'a> {
    ghost use Rattle.std.specs.Prelude.{List};
    ghost use Rattle.browser_rules.specs.Strings.{Spoken};

    ghost Value = { List Spoken };

    ghost use Rattle.hii_languages.specs.code.Names.{AreNamed};

    ghost view = { λ s. s.tables.items };

    ghost invariant = { λ s. AreNamed s.tables.items s.by_language s.by_subtag };
}

// The part of a language before its first hyphen, or all of it.
fn primary_subtag_of(language: &[u8]) -> &[u8]
    ensures { result.now ≡ primary language.now }
{
    match first_place(language, b'-') {
        Some(hyphen) => &language[..hyphen],
        None => language,
    }
}

// The languages of string packages, each with its number.
fn languages_of<'a>(alloc: Global, tables: &[StringTable<'a>]) -> Result<Vec<Name<'a>>, AllocError>
    ensures { IfOk result (λ names. (text : List ℕ)
        → number_of names.items text ≡ with_language tables.now text) }
{
    let mut names = Vec::with_capacity(alloc, tables.len())?;
    for table in tables {
        let number = names.len();
        let text = table.language();
        names.push(Name { text, number })?;
    }
    Ok(names)
}

// The primary subtags of string packages, each with its number.
fn subtags_of<'a>(alloc: Global, tables: &[StringTable<'a>]) -> Result<Vec<Name<'a>>, AllocError>
    ensures { IfOk result (λ names. (text : List ℕ)
        → number_of names.items text ≡ with_subtag tables.now text) }
{
    let mut names = Vec::with_capacity(alloc, tables.len())?;
    for table in tables {
        let number = names.len();
        let text = primary_subtag_of(table.language());
        names.push(Name { text, number })?;
    }
    Ok(names)
}

impl<'a> Languages<'a> {
    /// The string packages of a list, or the least fault of the first that has one: StringHeader, LanguageText,
    /// StringBlock or StringText, at its place in bytes from the list's front. OutOfMemory (60) at 0 where an
    /// allocation fails.
    pub fn read(alloc: Global, list: &PackageList<'a>) -> Result<Languages<'a>, Fault>
        ensures read { IfOk result (λ spoken. spoken ≡ spoken_in list.now) }
        ensures sound { IfOk result (λ _. string_faults list.now ≡ []) }
        ensures refused { IfErr result (RefusesAmong (string_faults list.now)) }
        // Where the string packages have no fault they are read, unless an allocation fails.
        ensures accepted { string_faults list.now ≡ [] → IfErr result (λ fault. fault ≡ out_of_memory) }
    {
        let mut tables = Vec::new(alloc);
        for source in list.packages() {
            if source.kind == STRINGS {
                let table = StringTable::of_package(alloc, source)?;
                tables.push(table)?;
            }
        }
        Ok(Languages::over(alloc, tables)?)
    }

    // String packages that were read.
    fn over(alloc: Global, tables: Vec<StringTable<'a>>) -> Result<Languages<'a>, AllocError>
        ensures { IfOk result (λ spoken. spoken ≡ tables.entry.items) }
    {
        let by_language = Names::of(languages_of(alloc, &tables)?)?;
        let by_subtag = Names::of(subtags_of(alloc, &tables)?)?;
        Ok(Languages {
            tables,
            by_language,
            by_subtag,
        })
    }

    /// The string package that is chosen for a language: the first whose language is equal, ignoring ASCII case; else the
    /// first whose primary subtag (the part before the first hyphen) is equal, ignoring ASCII case; else the first (own
    /// rule).
    pub fn choose(&self, language: &[u8]) -> Choice
        ensures { choice_of result ≡ chosen self.now language.now }
    {
        Choice {
            number: self.number_for(language),
        }
    }

    // The number of the string package that is chosen for a language. It is looked for by primary subtag only where no
    // language is equal.
    fn number_for(&self, language: &[u8]) -> Option<usize>
        ensures { result ≡ chosen self.now language.now }
    {
        match self.by_language.find(language) {
            Some(number) => Some(number),
            None => self
                .by_subtag
                .find(primary_subtag_of(language))
                .or(self.first()),
        }
    }

    // The first string package.
    fn first(&self) -> Option<usize>
        ensures { result ≡ (if length self.now == 0 then None else Some 0) }
    {
        if self.tables.is_empty() {
            None
        } else {
            Some(0)
        }
    }

    // The text of a string id in the string package of a number.
    fn text_in(&self, number: Option<usize>, id: u16) -> Option<Units<'a>>
        ensures { option_map units_in result ≡ chapter.text_in self.now id number }
    {
        self.tables.get(number?)?.text(id)
    }

    /// The text of a string id: that of the chosen string package, else that of the first one (own rule), which is asked only
    /// where the chosen one has none.
    pub fn units(&self, choice: Choice, id: u16) -> Option<Units<'a>>
        ensures { option_map units_in result ≡ chapter.text_of self.now (choice_of choice) id }
    {
        match self.text_in(choice.number, id) {
            Some(units) => Some(units),
            None => self.text_in(Some(0), id),
        }
    }

    /// What is shown of a string id: nothing of the id 0; else the text of the chosen string package, else that of the
    /// first one, else the id (own rule).
    pub fn text(&self, choice: Choice, id: u16) -> Shown<'a>
        ensures kind { Tells id (chapter.text_of self.now (choice_of choice) id) result }
        ensures characters { text_of result ≡ shown self.now (choice_of choice) id }
    {
        if id == 0 {
            return Shown::Nothing;
        }
        match self.units(choice, id) {
            Some(units) => Shown::Units(units),
            None => Shown::Missing(id),
        }
    }
}
