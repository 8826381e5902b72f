//! The words of the command line.

ghost use Rattle.std.specs.Prelude.{◌≡◌, true, false, codes, IfOk};
ghost use Rattle.clap.specs.Words.{FailsBy, IsParsedFrom, app_of, fault_of, found_of, rows_of, rule_of};
ghost use Rattle.clap.specs.declared.parser.matches.ArgMatches.{ArgMatches};
ghost use Rattle.setup_options.specs.CommandLine as spec;
ghost use Rattle.setup_options.specs.CommandLine.{HasFiles, HasValuesOf, IsFile, IsOption, file_rule, forms_rule, lang_rule, has_hyphen_behind_lang, rows_on, setup_app, texts_of};

use clap::{Arg, ArgAction, ArgMatches, Command, Error};
use std::alloc::{AllocError, Global};

/// What the command line asks for.
#[derive(Clone, Copy)]
pub struct Options<'a> {
    /// The file of the package list.
    pub list: &'a str,
    /// The file of the image with which the session begins.
    pub stores: &'a str,
    /// The file into which the image is written at last.
    pub out: &'a str,
    /// Which forms package is opened, counted from 1.
    pub forms: u16,
    /// The language of the texts.
    pub lang: &'a str,
}

// What `--help` says above the options.
const ABOUT: &str = "\
Tells which settings of a UEFI setup may be seen and changed, and which opcode
forbids it, by a script of commands over a package list and its variable stores.";

// What `--help` says below the options.
const SCRIPT_AND_STATUSES: &str = "\
The script is standard input, one command a line, and the answers go to standard
output. With Q for the id of a question and R for the number of a row:
  page                 show the form
  set Q V              change a checkbox, a number or a choice
  order Q V,V..        change an ordered list
  text Q TEXT          change a text or a password
  go Q, back           follow a reference to its form, and come back
  press R              press the button in a row
  defaults D           set the form's questions to their defaults of class D
  why Q                may it be changed, and if not, which opcode forbids it
  extract TEXT         tell the kept values that a configuration request names
  route TEXT           set the values of a configuration response, all or none
  lang L               show texts in another language
  submit, discard      keep the changes, or drop them

Statuses:
  0  the whole script was run and the image is written; commands may have been
     denied or refused
  1  the list, the image or the script is refused: REFUSED on standard output
  2  wrong usage, or help
  3  a read or a write failed: FAULT on standard error
  4  out of memory: REFUSED 60 OutOfMemory on standard output";

/// Reads the words, of which the first is the program's name. An error is what `--help` and `--version` ask for, too.
pub fn read_words<'a>(
    alloc: Global,
    version: &'static str,
    words: &'a [String],
) -> Result<Options<'a>, Error>
    // Where no word that begins with a hyphen stands behind `--lang`: of a command that takes one there, the parser tells nothing.
    ensures values { has_hyphen_behind_lang false (texts_of words.entry.now) ≡ false
        → IfOk result (HasValuesOf (rows_on (texts_of words.entry.now))) }
    ensures faults { has_hyphen_behind_lang false (texts_of words.entry.now) ≡ false
        → FailsBy (fault_of setup_app (texts_of words.entry.now)) result }
{
    let command = command(alloc, version, hyphen_is_behind_lang(words))?;
    match command.try_get_matches_from(words) {
        Ok(matches) => Ok(options_of(&matches)),
        Err(e) => Err(e),
    }
}

/// Whether a word behind the first names a script, which is standard input and no file: `--script`, or a word that is neither
/// an option nor its value.
pub fn names_script(words: &[String]) -> bool
    ensures { result ≡ spec.names_script true (texts_of words.now) }
{
    // The program's name stands where a value would.
    let mut is_value = true;
    for word in words {
        let word = word.as_bytes();
        if !is_value && (word.starts_with(b"--script") || !word.starts_with(b"-")) {
            return true;
        }
        is_value = !is_value && takes_next(word);
    }
    false
}

// Whether an option takes its value from the next word.
fn takes_next(word: &[u8]) -> bool
    ensures { result ≡ spec.takes_next word.now }
{
    word.starts_with(b"--") && !word.contains(&b'=')
}

// Whether a word that begins with a hyphen stands behind a word `--lang`.
fn hyphen_is_behind_lang(words: &[String]) -> bool
    ensures { result ≡ has_hyphen_behind_lang false (texts_of words.now) }
{
    let mut is_behind = false;
    for word in words {
        if is_behind && word.as_bytes().starts_with(b"-") {
            return true;
        }
        is_behind = word.as_str() == "--lang";
    }
    false
}

// What the parser found, and the defaults of what it did not.
fn options_of<'a>(matches: &ArgMatches<'a>) -> Options<'a>
    requires { HasFiles (found_of matches.now) }
    ensures { HasValuesOf (rows_of (found_of matches.now)) result }
{
    Options {
        list: matches.get_str("list").unwrap(),
        stores: matches.get_str("stores").unwrap(),
        out: matches.get_str("out").unwrap(),
        forms: matches.get_one::<u16>("forms").unwrap_or(1),
        lang: matches.get_str("lang").unwrap_or("en-US"),
    }
}

// The options, in the order in which help lists them; the language may begin with a hyphen, where that is asked for.
fn command<'a>(
    alloc: Global,
    version: &'static str,
    hyphens: bool,
) -> Result<Command<'a>, AllocError>
    ensures app { hyphens ≡ false → IfOk result (λ command. app_of command ≡ setup_app) }
    // No parse ends well without the files.
    ensures files { IfOk result (λ command. (matches : ArgMatches)
        → IsParsedFrom command matches → HasFiles (found_of matches)) }
{
    Command::new(alloc, "setup")
        .bin_name("setup")?
        .about(ABOUT)
        .after_help(SCRIPT_AND_STATUSES)
        .version(version)
        .arg(file(
            alloc,
            "list",
            "Package list: string packages and forms packages",
        ))?
        .arg(file(
            alloc,
            "stores",
            "Image of the variable stores, to begin with",
        ))?
        .arg(file(
            alloc,
            "out",
            "Image that is written: the stores as last submitted",
        ))?
        .arg(forms(alloc))?
        .arg(lang(alloc, hyphens))
}

// The option that names this file, which must be given.
fn file(alloc: Global, name: &'static str, help: &'static str) -> Arg<'static>
    ensures rule { rule_of result ≡ file_rule name.entry.now }
    ensures file { IsFile name.entry.now result }
{
    Arg::new(alloc, name)
        .long(name)
        .value_name("F")
        .help(help)
        .required(true)
        .action(ArgAction::Set)
}

// The option that names a forms package.
fn forms(alloc: Global) -> Arg<'static>
    ensures rule { rule_of result ≡ forms_rule }
    ensures option { IsOption (codes "forms") result }
{
    Arg::new(alloc, "forms")
        .long("forms")
        .value_name("N")
        .help("Which forms package of the list is opened, counted from 1")
        .value_parser(clap::value_parser!(u16).range(1..))
        .default_value("1")
}

// The option that names the language.
fn lang(alloc: Global, hyphens: bool) -> Arg<'static>
    ensures rule { hyphens ≡ false → rule_of result ≡ lang_rule }
    ensures option { IsOption (codes "lang") result }
{
    Arg::new(alloc, "lang")
        .long("lang")
        .value_name("L")
        .help("Language of the texts, as de or en-US")
        .allow_hyphen_values(hyphens)
        .default_value("en-US")
}
