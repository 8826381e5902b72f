//! The commands and options, in the order in which help lists them.

ghost use Rattle.std.specs.Prelude.{◌++◌, IfOk, List, map};
ghost use Rattle.clap.specs.Words.{Shape};
ghost use Rattle.audit_options.specs.CommandLine as spec;
ghost use Rattle.audit_options.specs.CommandLine.{IsArg, IsCommand, IsProgram};
ghost use Rattle.audit_options.specs.code.Building.{bare, class_rule, language_rule, list_number_rule, package_number_rule, repeated_rule, row_rule, row_shape, with_commands};

use clap::{Arg, ArgAction, Command};
use std::alloc::{AllocError, Global};

// What `--help` says above the commands.
const ABOUT: &str = "\
Takes package lists of UEFI setups out of a dump, makes images of their stores for
setup, and tells of each question which opcode forbids its change.";

// What `--help` says below the commands.
const STATUSES: &str = "\
Statuses:
  0  the answers are written, and the file of --out where there is one
  1  what was given is refused: why stands on standard output
  2  wrong usage, or help
  3  a read or a write failed: FAULT on standard error
  4  out of memory: REFUSED 60 OutOfMemory on standard output";

const ABOUT_SPLIT: &str = "\
Tells the package lists of a dump, or takes one of them: a dump is lists, one
after the other, as the HII database exports them";

const ABOUT_STORES: &str = "\
Tells each store: its id, its opcode, how many bytes it holds, its attributes,
its GUID and its name";

const ABOUT_CHECK: &str = "\
Tells of each forms package of the list whether setup opens it over an image of the
right size; if not, why, and what stands there; and what in it is mostly a slip";

const ABOUT_OPCODES: &str = "\
Tells each opcode of the forms package, as far as their lengths allow: its place,
its byte in the file, its name, its fields, and its bytes; and why setup refuses
the list, where it does";

const ABOUT_IMAGE: &str = "\
Makes an image of the stores that hold bytes, and tells where the bytes of each
come from: its file, else the file of its variable, else a configuration text, else
zeros";

const ABOUT_QUESTIONS: &str = "\
Tells each form, and each of its questions: whether it may be changed over an
image of the stores, which opcode forbids it, its field, its value and its default";

const ABOUT_QUESTION: &str = "\
Tells what is known of one question: its opcode and field, its value and defaults,
each guard and check around it in words, its options, on which questions it depends
whether it may be changed, and for which questions it decides that";

const ABOUT_UNLOCK: &str = "\
Tells what would open each question that may not be changed: at most three commands,
which were tried, else a write into a store that was tried; or that none can";

const ABOUT_APPLY: &str = "\
Runs a script as setup runs it, and writes the image that it leaves, where each of
its commands was answered OK; else tells the first that was not, why, and on which
questions that depends";

const ABOUT_EXPORT: &str = "\
Writes the bytes of a store of an image into a file, or tells each field with its
bytes as one number, as NAME:0xOFFSET(WIDTH)=0xVALUE";

const ABOUT_DIFF: &str = "\
Tells what another image holds differently: the values of questions, bytes that no
question has, and verdicts";

const ABOUT_REPORT: &str = "\
Writes a page of HTML on the form set over an image of the stores: each form, and each
of its questions with its value, what forbids its change, and what depends on it";

const ABOUT_SURVEY: &str = "\
Tells of each forms package of a dump how many of its questions may be changed, over
the image that its stores would make, and why others may not; or why none is told";

// What stands behind the name of an option.
enum Takes {
    // Nothing: the option is a flag.
    Nothing,
    Word,
    // A word, without which the command is refused.
    WantedWord,
    // A word each time that the option stands there.
    Words,
    // The number of a list in a dump.
    ListNumber,
    // The number of a forms package in a list.
    PackageNumber,
    // A class of defaults.
    Class,
    // A language, which begins with a hyphen only where that is asked for.
    Language,
}

// An option: its name, what help calls its value, and what it says of it.
struct OptionRow {
    name: &'static str,
    value: &'static str,
    help: &'static str,
    takes: Takes,
}

// A command: its name, what help says of it, and its options.
struct CommandRow {
    name: &'static str,
    about: &'static str,
    options: &'static [OptionRow],
}

const DUMP: OptionRow = OptionRow {
    name: "dump",
    value: "F",
    help: "Package lists, one after the other",
    takes: Takes::WantedWord,
};

const LIST: OptionRow = OptionRow {
    name: "list",
    value: "F",
    help: "Package list with the forms package",
    takes: Takes::WantedWord,
};

const TAKEN: OptionRow = OptionRow {
    name: "take",
    value: "N",
    help: "Number of the list that is taken, counted from 1",
    takes: Takes::ListNumber,
};

const TAKE: OptionRow = OptionRow {
    name: "take",
    value: "N",
    help: "Which list of F is opened, counted from 1, where F is a dump",
    takes: Takes::ListNumber,
};

const LIST_FILE: OptionRow = OptionRow {
    name: "out",
    value: "F",
    help: "File for the list that is taken",
    takes: Takes::Word,
};

const HEADERS: OptionRow = OptionRow {
    name: "headers",
    value: "",
    help: "Tell of each store with bytes the header with which a configuration text names it",
    takes: Takes::Nothing,
};

const IMAGE_FILE: OptionRow = OptionRow {
    name: "out",
    value: "F",
    help: "Image that is written",
    takes: Takes::WantedWord,
};

const STORE_FILE: OptionRow = OptionRow {
    name: "store",
    value: "ID=F",
    help: "File of the bytes of the store with this id, as 16 or 0x10",
    takes: Takes::Words,
};

const EFIVARS: OptionRow = OptionRow {
    name: "efivars",
    value: "DIR",
    help: "Folder with a file NAME-guid for each variable: its attributes in four bytes, and its bytes",
    takes: Takes::Word,
};

const CONFIG: OptionRow = OptionRow {
    name: "config",
    value: "F",
    help: "Text of the firmware's ExportConfig, with the bytes of stores that are given no file",
    takes: Takes::Word,
};

const ZERO: OptionRow = OptionRow {
    name: "zero",
    value: "",
    help: "Fill stores that are given no bytes with zeros",
    takes: Takes::Nothing,
};

const DEFAULTS: OptionRow = OptionRow {
    name: "defaults",
    value: "D",
    help: "Class of defaults that questions take over these bytes: 0 standard, 1 manufacturing",
    takes: Takes::Class,
};

const STORES_IMAGE: OptionRow = OptionRow {
    name: "stores",
    value: "F",
    help: "Image of the variable stores",
    takes: Takes::WantedWord,
};

const QUESTION_ID: OptionRow = OptionRow {
    name: "id",
    value: "Q",
    help: "Id of the question, as 33 or 0x21",
    takes: Takes::WantedWord,
};

const QUESTION_ALONE: OptionRow = OptionRow {
    name: "id",
    value: "Q",
    help: "Id of the question that is told alone, as 33 or 0x21",
    takes: Takes::Word,
};

const SCRIPT: OptionRow = OptionRow {
    name: "script",
    value: "F",
    help: "Commands, each on a line",
    takes: Takes::WantedWord,
};

const STORE: OptionRow = OptionRow {
    name: "id",
    value: "N",
    help: "Id of the store, as 16 or 0x10",
    takes: Takes::Word,
};

const BYTES_FILE: OptionRow = OptionRow {
    name: "out",
    value: "F",
    help: "File for the bytes of the store",
    takes: Takes::Word,
};

const LINES: OptionRow = OptionRow {
    name: "lines",
    value: "",
    help: "Tell each field, but that of a password",
    takes: Takes::Nothing,
};

const DIFFERING_FROM: OptionRow = OptionRow {
    name: "with",
    value: "B",
    help: "Image: tell the fields alone that differ from it",
    takes: Takes::Word,
};

const OTHER_IMAGE: OptionRow = OptionRow {
    name: "with",
    value: "B",
    help: "The other image",
    takes: Takes::WantedWord,
};

const PAGE_FILE: OptionRow = OptionRow {
    name: "out",
    value: "F",
    help: "Page that is written",
    takes: Takes::WantedWord,
};

const FIND: OptionRow = OptionRow {
    name: "find",
    value: "TEXT",
    help: "Tell the questions whose prompt or help has this text, letters in both cases",
    takes: Takes::Word,
};

const JSON: OptionRow = OptionRow {
    name: "json",
    value: "",
    help: "Tell each as an object of JSON on a line of its own",
    takes: Takes::Nothing,
};

const FORMS: OptionRow = OptionRow {
    name: "forms",
    value: "N",
    help: "Which forms package of the list is opened, counted from 1",
    takes: Takes::PackageNumber,
};

const LANG: OptionRow = OptionRow {
    name: "lang",
    value: "L",
    help: "Language of the texts, as de or en-US",
    takes: Takes::Language,
};

const SPLIT: CommandRow = CommandRow {
    name: "split",
    about: ABOUT_SPLIT,
    options: &[DUMP, TAKEN, LIST_FILE, JSON],
};

const STORES: CommandRow = CommandRow {
    name: "stores",
    about: ABOUT_STORES,
    options: &[LIST, TAKE, HEADERS, JSON, FORMS],
};

const CHECK: CommandRow = CommandRow {
    name: "check",
    about: ABOUT_CHECK,
    options: &[LIST, TAKE, JSON],
};

const OPCODES: CommandRow = CommandRow {
    name: "opcodes",
    about: ABOUT_OPCODES,
    options: &[LIST, TAKE, JSON, FORMS],
};

const IMAGE: CommandRow = CommandRow {
    name: "image",
    about: ABOUT_IMAGE,
    options: &[
        LIST, TAKE, IMAGE_FILE, STORE_FILE, EFIVARS, CONFIG, ZERO, DEFAULTS, JSON, FORMS, LANG,
    ],
};

const QUESTIONS: CommandRow = CommandRow {
    name: "questions",
    about: ABOUT_QUESTIONS,
    options: &[LIST, TAKE, STORES_IMAGE, JSON, FORMS, LANG],
};

const QUESTION: CommandRow = CommandRow {
    name: "question",
    about: ABOUT_QUESTION,
    options: &[LIST, TAKE, STORES_IMAGE, QUESTION_ID, JSON, FORMS, LANG],
};

const UNLOCK: CommandRow = CommandRow {
    name: "unlock",
    about: ABOUT_UNLOCK,
    options: &[LIST, TAKE, STORES_IMAGE, QUESTION_ALONE, JSON, FORMS, LANG],
};

const APPLY: CommandRow = CommandRow {
    name: "apply",
    about: ABOUT_APPLY,
    options: &[
        LIST,
        TAKE,
        STORES_IMAGE,
        SCRIPT,
        IMAGE_FILE,
        JSON,
        FORMS,
        LANG,
    ],
};

const EXPORT: CommandRow = CommandRow {
    name: "export",
    about: ABOUT_EXPORT,
    options: &[
        LIST,
        TAKE,
        STORES_IMAGE,
        STORE,
        BYTES_FILE,
        LINES,
        DIFFERING_FROM,
        JSON,
        FORMS,
    ],
};

const DIFF: CommandRow = CommandRow {
    name: "diff",
    about: ABOUT_DIFF,
    options: &[LIST, TAKE, STORES_IMAGE, OTHER_IMAGE, JSON, FORMS, LANG],
};

const REPORT: CommandRow = CommandRow {
    name: "report",
    about: ABOUT_REPORT,
    options: &[LIST, TAKE, STORES_IMAGE, PAGE_FILE, FORMS, LANG],
};

const SURVEY: CommandRow = CommandRow {
    name: "survey",
    about: ABOUT_SURVEY,
    options: &[DUMP, EFIVARS, CONFIG, ZERO, FIND, JSON, LANG],
};

// The commands on lists and what their stores are to hold.
static LIST_COMMANDS: [CommandRow; 5] = [SPLIT, STORES, CHECK, OPCODES, IMAGE];

// Those on form sets and what their stores hold.
static FORM_SET_COMMANDS: [CommandRow; 8] = [
    QUESTIONS, QUESTION, UNLOCK, APPLY, EXPORT, DIFF, REPORT, SURVEY,
];

/// All commands. The word behind `--lang` may begin with a hyphen where `takes_hyphen` says so.
pub(crate) fn command<'a>(
    alloc: Global,
    version: &'static str,
    takes_hyphen: bool,
) -> Result<Command<'a>, AllocError>
    ensures { IfOk result (IsProgram (spec.program takes_hyphen)) }
{
    let command = with_list_commands(alloc, program(alloc, version)?, takes_hyphen)?;
    with_form_set_commands(alloc, command, takes_hyphen)
}

fn with_list_commands<'a>(
    alloc: Global,
    command: Command<'a>,
    takes_hyphen: bool,
) -> Result<Command<'a>, AllocError>
    requires { IsProgram bare command }
    ensures { IfOk result (IsProgram (with_commands (spec.list_commands takes_hyphen))) }
{
    with_commands(alloc, command, LIST_COMMANDS.as_slice(), takes_hyphen)
}

fn with_form_set_commands<'a>(
    alloc: Global,
    command: Command<'a>,
    takes_hyphen: bool,
) -> Result<Command<'a>, AllocError>
    requires { IsProgram (with_commands (spec.list_commands takes_hyphen)) command }
    ensures { IfOk result (IsProgram (spec.program takes_hyphen)) }
{
    with_commands(alloc, command, FORM_SET_COMMANDS.as_slice(), takes_hyphen)
}

// A program with these commands behind its others.
fn with_commands<'a>(
    alloc: Global,
    command: Command<'a>,
    rows: &'static [CommandRow],
    takes_hyphen: bool,
) -> Result<Command<'a>, AllocError>
    ensures { (others : List Shape) → IsProgram (with_commands others) command.entry
        → IfOk result (IsProgram (with_commands (others ++ map (row_shape takes_hyphen) rows.now))) }
{
    let mut command = command;
    for row in rows {
        command = command.subcommand(subcommand(alloc, row, takes_hyphen)?)?;
    }
    Ok(command)
}

// The program without its commands.
fn program<'a>(alloc: Global, version: &'static str) -> Result<Command<'a>, AllocError>
    ensures { IfOk result (IsProgram bare) }
{
    let command = Command::new(alloc, "setup_audit")
        .version(version)
        .about(ABOUT)
        .after_help(STATUSES)
        .subcommand_required(true);
    command.bin_name("setup_audit")
}

/// `split` alone, to say how it is called.
pub(crate) fn split_alone<'a>(alloc: Global) -> Result<Command<'a>, AllocError> {
    subcommand(alloc, &SPLIT, false)?.bin_name("setup_audit split")
}

fn subcommand<'a>(
    alloc: Global,
    row: &'static CommandRow,
    takes_hyphen: bool,
) -> Result<Command<'a>, AllocError>
    ensures { IfOk result (IsCommand (row_shape takes_hyphen row.now)) }
{
    let mut command = Command::new(alloc, row.name).about(row.about);
    for option in row.options {
        command = command.arg(arg(alloc, option, takes_hyphen))?;
    }
    Ok(command)
}

fn arg(alloc: Global, row: &'static OptionRow, takes_hyphen: bool) -> Arg<'static>
    ensures { IsArg (row_rule takes_hyphen row.now) result }
{
    match row.takes {
        Takes::Nothing => flag(alloc, row.name, row.help),
        Takes::Word => option(alloc, row.name, row.value, row.help),
        Takes::WantedWord => wanted(alloc, row),
        Takes::Words => repeated(alloc, row),
        Takes::ListNumber => list_number(alloc, row),
        Takes::PackageNumber => package_number(alloc, row),
        Takes::Class => class(alloc, row),
        Takes::Language => language(alloc, row, takes_hyphen),
    }
}

fn wanted(alloc: Global, row: &'static OptionRow) -> Arg<'static>
    ensures { IsArg (spec.required_option row.now.name.now) result }
{
    option(alloc, row.name, row.value, row.help).required(true)
}

fn repeated(alloc: Global, row: &'static OptionRow) -> Arg<'static>
    ensures { IsArg (repeated_rule row.now.name.now) result }
{
    option(alloc, row.name, row.value, row.help).action(ArgAction::Append)
}

fn list_number(alloc: Global, row: &'static OptionRow) -> Arg<'static>
    ensures { IsArg (list_number_rule row.now.name.now) result }
{
    option(alloc, row.name, row.value, row.help).value_parser(clap::value_parser!(u64).range(1..))
}

fn class(alloc: Global, row: &'static OptionRow) -> Arg<'static>
    ensures { IsArg (class_rule row.now.name.now) result }
{
    option(alloc, row.name, row.value, row.help).value_parser(clap::value_parser!(u16).range(0..))
}

fn language(alloc: Global, row: &'static OptionRow, takes_hyphen: bool) -> Arg<'static>
    ensures { IsArg (language_rule takes_hyphen row.now.name.now) result }
{
    option(alloc, row.name, row.value, row.help)
        .allow_hyphen_values(takes_hyphen)
        .default_value("en-US")
}

fn package_number(alloc: Global, row: &'static OptionRow) -> Arg<'static>
    ensures { IsArg (package_number_rule row.now.name.now) result }
{
    Arg::new(alloc, row.name)
        .long(row.name)
        .value_name(row.value)
        .help(row.help)
        .value_parser(clap::value_parser!(u16).range(1..))
        .default_value("1")
}

fn option(
    alloc: Global,
    name: &'static str,
    value: &'static str,
    help: &'static str,
) -> Arg<'static>
    ensures { IsArg (spec.option name.entry.now) result }
{
    Arg::new(alloc, name)
        .long(name)
        .value_name(value)
        .help(help)
        .action(ArgAction::Set)
}

fn flag(alloc: Global, name: &'static str, help: &'static str) -> Arg<'static>
    ensures { IsArg (spec.flag name.entry.now) result }
{
    Arg::new(alloc, name)
        .long(name)
        .help(help)
        .action(ArgAction::SetTrue)
}
