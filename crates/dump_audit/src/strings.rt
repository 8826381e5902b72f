//! What the string packages of a list tell.

ghost use Rattle.std.specs.Prelude.{◌≡◌, codes};
ghost use Rattle.hii_bytes.specs.Watching.{Puts};

use audit_json::{put_array_end, put_before_item, put_json_bytes};
use audit_text::put_language;
use hii_bytes::{Fault, Watched};
use hii_languages::Shown;
use hii_packages::{PackageList, STRINGS};
use sibt_strings::{StringTable, Units};
use std::alloc::Global;
use std::io::Write;
use std::marker::Model;

/// The languages of the string packages of a list, in order, and the texts of the first one.
#[derive(Drop)]
pub(crate) struct ListStrings<'a> {
    languages: Vec<&'a [u8]>,
    first: Option<StringTable<'a>>,
}

impl<'a> Model for ListStrings<'a> {
    ghost use Rattle.std.specs.Prelude.{map};
    ghost use Rattle.dump_audit.specs.code.Heard.{Heard};

    ghost Value = { Heard };

    ghost view = { λ s. record {
      languages = map (λ language. language.now) s.languages.items;
      first = s.first;
    } };
}

impl<'a> ListStrings<'a> {
    ghost use Rattle.std.specs.Prelude.{◌≡◌, [], IfOk, IfErr, map, option_map};
    ghost use Rattle.browser_rules.specs.Faults.{string_faults};
    ghost use Rattle.browser_rules.specs.Strings.{spoken_in};
    ghost use Rattle.hii_bytes.specs.Faults.{RefusesAmong};
    ghost use Rattle.sibt_strings.specs.code.Views.{units_in};
    ghost use Rattle.hii_languages.specs.code.Views.{text_of};
    ghost use Rattle.audit_text.specs.Texts.{joined, language_name};
    ghost use Rattle.dump_audit.specs.Objects.{languages_member};
    ghost use Rattle.dump_audit.specs.code.Heard.{heard_of, text_in_first, shown_in_first};

    /// Reads each string package once, in memory for the texts of two at most; or gives the least fault of the first that has one,
    /// or OutOfMemory (60) at 0 where an allocation fails.
    pub(crate) fn read(alloc: Global, list: &PackageList<'a>) -> Result<ListStrings<'a>, Fault>
        ensures read { IfOk result (λ strings. strings ≡ heard_of (spoken_in list.now)) }
        ensures sound { IfOk result (λ _. string_faults list.now ≡ []) }
        ensures refused { IfErr result (RefusesAmong (string_faults list.now)) }
    {
        let mut languages = Vec::new(alloc);
        let mut first = None;
        for source in list.packages() {
            if source.kind == STRINGS {
                let table = StringTable::of_package(alloc, source)?;
                languages.push(table.language())?;
                first = first.or(Some(table));
            }
        }
        Ok(ListStrings { languages, first })
    }

    /// Writes the languages, joined by commas, or a hyphen where there are none.
    pub(crate) fn put_languages<W: Write>(&self, out: &mut Watched<W>)
        ensures { Puts W.contents out.old out.new (joined (codes ",")
            (map language_name self.now.languages)) }
    {
        let Some((first, others)) = self.languages.split_first() else {
            out.put(b"-");
            return;
        };
        put_language(out, first);
        for language in others {
            out.put(b",");
            put_language(out, language);
        }
    }

    /// Writes the member that tells the languages.
    pub(crate) fn put_languages_member<W: Write>(&self, out: &mut Watched<W>)
        ensures { Puts W.contents out.old out.new (languages_member self.now.languages) }
    {
        let mut is_first = true;
        for language in self.languages.as_slice() {
            put_before_item(b"languages", is_first, out);
            put_json_bytes(language, out);
            is_first = false;
        }
        put_array_end(is_first, out);
    }

    // The text of a string id in the first string package.
    fn text(&self, id: u16) -> Option<Units<'a>>
        ensures { option_map units_in result ≡ text_in_first self.now.first id }
    {
        self.first.as_ref()?.text(id)
    }

    /// What is shown of a string id in the language of the first string package.
    pub(crate) fn shown(&self, id: u16) -> Shown<'a>
        ensures { text_of result ≡ shown_in_first self.now.first id }
    {
        if id == 0 {
            return Shown::Nothing;
        }
        match self.text(id) {
            Some(units) => Shown::Units(units),
            None => Shown::Missing(id),
        }
    }
}
