//! The words of a command line.

ghost use Rattle.std.specs.Prelude.{◌≡◌, ◌≢◌, List, [], codes, false, true, IfErr, IfOk, IfSome, MatchOption, map, string_bytes, unwrap_or};
ghost use Rattle.clap.specs.Words.{all_of, found_of, kind_of, rows_of, subcommand_of, subcommand_rows_of, takes};
ghost use Rattle.audit_options.specs.CommandLine as spec;
ghost use Rattle.audit_options.specs.CommandLine.{has_hyphen_language, program};
ghost use Rattle.audit_options.specs.Asked.{AreApart, AreStoreFiles, Asks, AsksApply, AsksCheck, AsksDiff, AsksExport, AsksFormSet, AsksImage, AsksList, AsksOpcodes, AsksPart, AsksQuestion, AsksReport, AsksSources, AsksSplit, AsksStores, AsksSurvey, AsksUnlock, HasBadId, HasNoId, HasNoPart, HasNoStoreFile, IsMisused, IsMisusedExport, IsStoreFile, is_list_command, kind_of_misuse};

use crate::commands::{command, split_alone};
use crate::ids::id_in;
use crate::tasks::{
    ApplyOptions, CheckOptions, DiffOptions, ExportOptions, ExportPart, FormSetOptions,
    ImageOptions, ListOptions, OpcodesOptions, QuestionOptions, ReportOptions, Sources,
    SplitOptions, StoreFile, StoresOptions, SurveyOptions, TakenList, Task, UnlockOptions,
};
use clap::error::ErrorKind;
use clap::{ArgMatches, Command, Error};
use std::alloc::{AllocError, Global};

// A command whose words do not go together.
#[derive(Clone, Copy)]
enum Misuse {
    NoCommand,
    TakeWithoutOut,
    NoStoreFile,
    NoId,
    NoStoreId,
    NoPart,
}

impl Misuse {
    ghost use Rattle.audit_options.specs.Asked.{kind_of_misuse};

    fn kind(self) -> ErrorKind
        ensures { result ≡ kind_of_misuse self }
    {
        match self {
            Misuse::NoCommand => ErrorKind::MissingSubcommand,
            Misuse::TakeWithoutOut => ErrorKind::MissingRequiredArgument,
            Misuse::NoStoreFile | Misuse::NoId | Misuse::NoStoreId => ErrorKind::ValueValidation,
            Misuse::NoPart => ErrorKind::ArgumentConflict,
        }
    }

    fn message(self) -> &'static str {
        match self {
            Misuse::NoCommand => "a command is wanted",
            Misuse::TakeWithoutOut => "--take N and --out F go together",
            Misuse::NoStoreFile => {
                "--store wants the id of a store and a file, as 16=station.bin or 0x10=station.bin"
            }
            Misuse::NoId => "--id wants the id of a question, as 33 or 0x21",
            Misuse::NoStoreId => "--id wants the id of a store, as 16 or 0x10",
            Misuse::NoPart => {
                "--id N and --out F go together, else --lines is wanted, alone or with --with B"
            }
        }
    }
}

/// Reads the words, of which the first is the program's name. An error is what `--help` and `--version` ask for, too.
pub fn read_words<'a>(
    alloc: Global,
    version: &'static str,
    words: &'a [String],
) -> Result<Task<'a>, Error>
    // Where a word behind `--lang` begins with a hyphen, clap does not say which words an option has.
    ensures asked { IfOk result (λ task.
        has_hyphen_language (map string_bytes words.entry.now) ≡ false
        → Asks (subcommand_of (program false) (map string_bytes words.entry.now)) task) }
    // What clap takes is refused by want of memory, or by options that do not go together.
    ensures taken { IfErr result (λ e.
        has_hyphen_language (map string_bytes words.entry.now) ≡ false
        → takes (program false) (map string_bytes words.entry.now) ≡ true
        → kind_of e ≢ ErrorKind.OutOfMemory
        → (misuse : Misuse) × (kind_of e ≡ kind_of_misuse misuse)
        × IsMisused (subcommand_of (program false) (map string_bytes words.entry.now)) misuse) }
{
    let mut command = command(alloc, version, has_hyphen_language(words))?;
    let matches = command.try_get_matches_from_mut(words)?;
    match task_in(alloc, &matches)? {
        Ok(task) => Ok(task),
        Err(misuse) => Err(misused(alloc, &mut command, misuse)?),
    }
}

// Says how the program is called, or the command whose options do not go together.
fn misused(alloc: Global, command: &mut Command<'_>, misuse: Misuse) -> Result<Error, AllocError>
    ensures { IfOk result (λ e. kind_of e ≡ kind_of_misuse misuse) }
{
    match misuse {
        Misuse::TakeWithoutOut => split_alone(alloc)?.error(misuse.kind(), misuse.message()),
        _ => command.error(misuse.kind(), misuse.message()),
    }
}

// Whether a word that begins with a hyphen stands behind `--lang`.
fn has_hyphen_language(words: &[String]) -> bool
    ensures { result ≡ has_hyphen_language (map string_bytes words.now) }
{
    let mut is_behind = false;
    for word in words {
        if is_behind && begins_with_hyphen(word.as_str()) {
            return true;
        }
        is_behind = word.as_str() == "--lang";
    }
    false
}

fn begins_with_hyphen(word: &str) -> bool
    ensures { result ≡ spec.begins_with_hyphen word.now }
{
    match word.as_bytes().first() {
        Some(byte) => *byte == b'-',
        None => false,
    }
}

// What the command asks for that the words name, or why its options do not go together.
fn task_in<'a>(
    alloc: Global,
    matches: &ArgMatches<'a>,
) -> Result<Result<Task<'a>, Misuse>, AllocError>
    ensures asked { IfOk result (λ read. IfOk read (Asks (subcommand_rows_of matches.now))) }
    ensures misused { IfOk result (λ read. IfErr read (IsMisused (subcommand_rows_of matches.now))) }
{
    let Some((name, options)) = matches.subcommand() else {
        return Ok(Err(Misuse::NoCommand));
    };
    match list_task_in(alloc, name, options)? {
        Some(task) => Ok(task),
        None => Ok(form_set_task_in(alloc, name, options)),
    }
}

// What a command on lists and what their stores are to hold asks for, if the name is that of one, or why its options do not go together.
fn list_task_in<'a>(
    alloc: Global,
    name: &str,
    options: &ArgMatches<'a>,
) -> Result<Option<Result<Task<'a>, Misuse>>, AllocError>
    ensures asked { IfOk result (λ met. IfSome met (λ read.
        IfOk read (Asks (Some (name.now, rows_of (found_of options.now)))))) }
    ensures misused { IfOk result (λ met. IfSome met (λ read.
        IfErr read (IsMisused (Some (name.now, rows_of (found_of options.now)))))) }
    ensures other { IfOk result (λ met. met ≡ None → is_list_command name.now ≡ false) }
{
    Ok(Some(match name {
        "split" => split_in(options).map(Task::Split),
        "stores" => Ok(Task::Stores(stores_in(options))),
        "check" => Ok(Task::Check(check_in(options))),
        "opcodes" => Ok(Task::Opcodes(opcodes_in(options))),
        "image" => image_in(alloc, options)?.map(Task::Image),
        _ => return Ok(None),
    }))
}

// What a command on form sets and what their stores hold asks for, or why its options do not go together. The name is that of no
// command on lists.
fn form_set_task_in<'a>(
    alloc: Global,
    name: &str,
    options: &ArgMatches<'a>,
) -> Result<Task<'a>, Misuse>
    ensures asked { IfOk result (Asks (Some (name.now, rows_of (found_of options.now)))) }
    ensures misused { is_list_command name.now ≡ false
        → IfErr result (IsMisused (Some (name.now, rows_of (found_of options.now)))) }
{
    match name {
        "questions" => Ok(Task::Questions(form_set_in(options))),
        "question" => question_in(options).map(Task::Question),
        "unlock" => unlock_in(options).map(Task::Unlock),
        "apply" => Ok(Task::Apply(apply_in(options))),
        "export" => export_in(options).map(Task::Export),
        "diff" => Ok(Task::Diff(diff_in(options))),
        "report" => Ok(Task::Report(report_in(options))),
        "survey" => Ok(Task::Survey(survey_in(alloc, options))),
        _ => Err(Misuse::NoCommand),
    }
}

// What is told of a dump, unless a list is to be taken into no file, or none into a file.
fn split_in<'a>(options: &ArgMatches<'a>) -> Result<SplitOptions<'a>, Misuse>
    ensures asked { IfOk result (AsksSplit (rows_of (found_of options.now))) }
    ensures misused { IfErr result (λ misuse. (misuse ≡ Misuse.TakeWithoutOut)
        × AreApart (rows_of (found_of options.now))) }
{
    let taken = match (options.get_one::<u64>("take"), options.get_str("out")) {
        (Some(number), Some(out)) => Some(TakenList { number, out }),
        (None, None) => None,
        _ => return Err(Misuse::TakeWithoutOut),
    };
    Ok(SplitOptions {
        dump: options.get_str("dump").unwrap_or(""),
        taken,
        json: options.get_flag("json"),
    })
}

fn list_in<'a>(options: &ArgMatches<'a>) -> ListOptions<'a>
    ensures { AsksList (rows_of (found_of options.now)) result }
{
    ListOptions {
        path: options.get_str("list").unwrap_or(""),
        take: options.get_one::<u64>("take"),
        forms: options.get_one::<u16>("forms").unwrap_or(1),
    }
}

fn stores_in<'a>(options: &ArgMatches<'a>) -> StoresOptions<'a>
    ensures { AsksStores (rows_of (found_of options.now)) result }
{
    StoresOptions {
        list: list_in(options),
        headers: options.get_flag("headers"),
        json: options.get_flag("json"),
    }
}

fn check_in<'a>(options: &ArgMatches<'a>) -> CheckOptions<'a>
    ensures { AsksCheck (rows_of (found_of options.now)) result }
{
    CheckOptions {
        path: options.get_str("list").unwrap_or(""),
        take: options.get_one::<u64>("take"),
        json: options.get_flag("json"),
    }
}

fn opcodes_in<'a>(options: &ArgMatches<'a>) -> OpcodesOptions<'a>
    ensures { AsksOpcodes (rows_of (found_of options.now)) result }
{
    OpcodesOptions {
        list: list_in(options),
        json: options.get_flag("json"),
    }
}

fn form_set_in<'a>(options: &ArgMatches<'a>) -> FormSetOptions<'a>
    ensures { AsksFormSet (rows_of (found_of options.now)) result }
{
    FormSetOptions {
        list: list_in(options),
        stores: options.get_str("stores").unwrap_or(""),
        json: options.get_flag("json"),
        lang: options.get_str("lang").unwrap_or("en-US"),
    }
}

// The question that is asked for, unless its id is none.
fn question_in<'a>(options: &ArgMatches<'a>) -> Result<QuestionOptions<'a>, Misuse>
    ensures asked { IfOk result (AsksQuestion (rows_of (found_of options.now))) }
    ensures misused { IfErr result (λ misuse. (misuse ≡ Misuse.NoId)
        × HasNoId (rows_of (found_of options.now))) }
{
    let Some(id) = id_in(options.get_str("id").unwrap_or("")) else {
        return Err(Misuse::NoId);
    };
    Ok(QuestionOptions {
        form_set: form_set_in(options),
        id,
    })
}

// The questions that are asked for, unless an id is given that is none.
fn unlock_in<'a>(options: &ArgMatches<'a>) -> Result<UnlockOptions<'a>, Misuse>
    ensures asked { IfOk result (AsksUnlock (rows_of (found_of options.now))) }
    ensures misused { IfErr result (λ misuse. (misuse ≡ Misuse.NoId)
        × HasBadId (rows_of (found_of options.now))) }
{
    let id = match options.get_str("id") {
        Some(word) => match id_in(word) {
            Some(id) => Some(id),
            None => return Err(Misuse::NoId),
        },
        None => None,
    };
    Ok(UnlockOptions {
        form_set: form_set_in(options),
        id,
    })
}

// What is told of an image, unless options do not go together, or the id is none.
fn export_in<'a>(options: &ArgMatches<'a>) -> Result<ExportOptions<'a>, Misuse>
    ensures asked { IfOk result (AsksExport (rows_of (found_of options.now))) }
    ensures misused { IfErr result (IsMisusedExport (rows_of (found_of options.now))) }
{
    let part = part_in(options)?;
    Ok(ExportOptions {
        list: list_in(options),
        stores: options.get_str("stores").unwrap_or(""),
        part,
        json: options.get_flag("json"),
    })
}

fn part_in<'a>(options: &ArgMatches<'a>) -> Result<ExportPart<'a>, Misuse>
    ensures asked { IfOk result (AsksPart (rows_of (found_of options.now))) }
    ensures misused { IfErr result (IsMisusedExport (rows_of (found_of options.now))) }
{
    let with = options.get_str("with");
    let lines = options.get_flag("lines");
    match (options.get_str("id"), options.get_str("out")) {
        (Some(id), Some(out)) if with.is_none() && !lines => match id_in(id) {
            Some(id) => Ok(ExportPart::Store { id, out }),
            None => Err(Misuse::NoStoreId),
        },
        (None, None) if lines => Ok(ExportPart::Lines { with }),
        _ => Err(Misuse::NoPart),
    }
}

fn apply_in<'a>(options: &ArgMatches<'a>) -> ApplyOptions<'a>
    ensures { AsksApply (rows_of (found_of options.now)) result }
{
    ApplyOptions {
        form_set: form_set_in(options),
        script: options.get_str("script").unwrap_or(""),
        out: options.get_str("out").unwrap_or(""),
    }
}

fn diff_in<'a>(options: &ArgMatches<'a>) -> DiffOptions<'a>
    ensures { AsksDiff (rows_of (found_of options.now)) result }
{
    DiffOptions {
        form_set: form_set_in(options),
        with: options.get_str("with").unwrap_or(""),
    }
}

fn report_in<'a>(options: &ArgMatches<'a>) -> ReportOptions<'a>
    ensures { AsksReport (rows_of (found_of options.now)) result }
{
    ReportOptions {
        form_set: form_set_in(options),
        out: options.get_str("out").unwrap_or(""),
    }
}

fn image_in<'a>(
    alloc: Global,
    options: &ArgMatches<'a>,
) -> Result<Result<ImageOptions<'a>, Misuse>, AllocError>
    ensures asked { IfOk result (λ read. IfOk read (AsksImage (rows_of (found_of options.now)))) }
    ensures misused { IfOk result (λ read. IfErr read (λ misuse. (misuse ≡ Misuse.NoStoreFile)
        × HasNoStoreFile (rows_of (found_of options.now)))) }
{
    let Some(files) = files_in(alloc, options)? else {
        return Ok(Err(Misuse::NoStoreFile));
    };
    Ok(Ok(ImageOptions {
        list: list_in(options),
        out: options.get_str("out").unwrap_or(""),
        sources: sources_in(options, files),
        defaults: options.get_one::<u16>("defaults"),
        json: options.get_flag("json"),
        lang: options.get_str("lang").unwrap_or("en-US"),
    }))
}

fn survey_in<'a>(alloc: Global, options: &ArgMatches<'a>) -> SurveyOptions<'a>
    ensures { AsksSurvey (rows_of (found_of options.now)) result }
{
    SurveyOptions {
        dump: options.get_str("dump").unwrap_or(""),
        sources: sources_in(options, Vec::new(alloc)),
        find: options.get_str("find"),
        json: options.get_flag("json"),
        lang: options.get_str("lang").unwrap_or("en-US"),
    }
}

// Where the bytes of stores come from that are given these files.
fn sources_in<'a>(options: &ArgMatches<'a>, files: Vec<StoreFile<'a>>) -> Sources<'a>
    ensures asked { AsksSources (rows_of (found_of options.now)) result }
    ensures files { result.files.items ≡ files.entry.items }
{
    Sources {
        files,
        efivars: options.get_str("efivars"),
        config: options.get_str("config"),
        zero: options.get_flag("zero"),
    }
}

// The files that are given to stores, unless one is not given as an id and a file.
fn files_in<'a>(
    alloc: Global,
    options: &ArgMatches<'a>,
) -> Result<Option<Vec<StoreFile<'a>>>, AllocError>
    ensures { IfOk result (λ read. MatchOption read (HasNoStoreFile (rows_of (found_of options.now)))
        (λ files. AreStoreFiles
        (unwrap_or (all_of (codes "store") (rows_of (found_of options.now))) []) files.items)) }
{
    match options.get_strs("store") {
        Some(words) => store_files(alloc, words),
        None => Ok(Some(Vec::new(alloc))),
    }
}

// The files that words give to stores, unless one is not an id and a file.
fn store_files<'a>(
    alloc: Global,
    words: &[&'a str],
) -> Result<Option<Vec<StoreFile<'a>>>, AllocError>
    ensures { IfOk result (λ read. MatchOption read
        ((files : List StoreFile) → AreStoreFiles (map (λ word. word.now) words.now) files → ⊥)
        (λ files. AreStoreFiles (map (λ word. word.now) words.now) files.items)) }
{
    let mut files = Vec::new(alloc);
    for word in words {
        match store_file(word) {
            Some(file) => files.push(file)?,
            None => return Ok(None),
        }
    }
    Ok(Some(files))
}

fn store_file(word: &str) -> Option<StoreFile<'_>>
    ensures { MatchOption result ((file : StoreFile) → IsStoreFile word.entry.now file → ⊥)
        (IsStoreFile word.entry.now) }
{
    let (id, path) = word.split_once('=')?;
    Some(StoreFile {
        id: id_in(id)?,
        path,
    })
}
