//! `survey`: each forms package of a dump, over the image that its stores would make.

ghost use Rattle.std.specs.Prelude.{◌≡◌, ◌≢◌, IfErr, IfOk, OnErr, chars, option_map};
ghost use Rattle.audit_answers.specs.Endings.{Tells};
ghost use Rattle.survey_audit.specs.Finding.{small};
ghost use Rattle.survey_commands.specs.Survey.{BreaksOff, IsSound, SaysSurvey};

use crate::asked::Asked;
use crate::lists::put_survey;
use audit_answers::{Answers, Ended, answers, finish, refuse, told};
use audit_json::Telling;
use audit_options::SurveyOptions;
use exported_config::{ExportedConfig, Unread};
use hii_bytes::Fault;
use setup_files::{Status, Terminals, WholeFile, file};
use std::alloc::{AllocError, Global};
use std::io::Write;
use std::rt::Files;
use store_commands::{StoreFiles, SystemFiles, Unsourced, check_folder, put_bad_response, text_of};
use survey_audit::small_letters;

/// Tells of each forms package of a dump how many of its questions may be changed.
pub fn run<R: Files + Print + Eprint + AllocGlobal>(
    rt: &R,
    terminals: Terminals,
    options: &SurveyOptions<'_>,
) -> Result<Status, Status>
    ensures { IfErr result (λ status. status ≢ Status.Done) }
{
    let dump = file(rt, terminals, options.dump, "read dump")?;
    if let Some(folder) = options.sources.efivars {
        check_folder(rt, terminals, folder)?;
    }
    let files = SystemFiles::new(rt, terminals, None);
    let mut answers = answers(rt, terminals)?;
    let ended = tell(rt.alloc(), options, &dump, &files, &mut answers)?;
    Ok(told(rt, terminals, ended, answers))
}

// Tells what is found of the dump that the options name. Where a file is not read this is the status with which the program ends, and what
// was told before is passed on.
fn tell<F: StoreFiles, A: Write + Drop>(
    alloc: Global,
    options: &SurveyOptions<'_>,
    dump: &WholeFile<'_>,
    files: &F,
    answers: &mut Answers<A>,
) -> Result<Ended, Status>
    requires { dump.now.path.now ≡ options.now.dump.now }
    ensures told { IfOk result (λ ended. Tells (SaysSurvey (F.known files.now) options.now dump.now.bytes.items)
        A.contents answers.old ended answers.new) }
    ensures unread { OnErr result (BreaksOff A.contents (F.known files.now) options.now dump.now.bytes.items
        answers.old answers.new) }
    ensures err { IfErr result (λ status. status ≢ Status.Done) }
{
    let telling = Telling::of(options.json);
    let text = match text_of(alloc, files, &options.sources) {
        Ok(text) => text,
        Err(Unsourced::NoMemory) => return Ok(refuse(telling, Fault::out_of_memory(), answers)),
        Err(Unsourced::Unread(status)) => return Err(status),
    };
    match ExportedConfig::read(alloc, &[], &text) {
        Ok(_) => tell_over(alloc, options, &dump.bytes, files, &text, answers),
        Err(Unread::NoMemory) => Ok(refuse(telling, Fault::out_of_memory(), answers)),
        Err(Unread::Bad(bad)) => {
            put_bad_response(telling, bad, answers);
            Ok(finish(Ended::Refused, answers))
        }
    }
}

// The small letters by which questions are found, if a text is asked for.
fn letters_of(alloc: Global, find: Option<&str>) -> Result<Option<Vec<char>>, AllocError>
    ensures { IfOk result (λ letters. option_map (λ letters. letters.items) letters
        ≡ option_map (λ words. small (chars words.now)) find.entry) }
{
    match find {
        Some(words) => Ok(Some(small_letters(alloc, words)?)),
        None => Ok(None),
    }
}

// These letters, if there are some.
fn slice_of(letters: &Option<Vec<char>>) -> Option<&[char]>
    ensures { option_map (λ letters. letters.now) result ≡ option_map (λ letters. letters.items) letters.entry.now }
{
    match letters {
        Some(letters) => Some(letters.as_slice()),
        None => None,
    }
}

// Tells what is found of the dump over a configuration text that has no fault, where questions are found by these letters.
fn tell_found<'s, F: StoreFiles, A: Write + Drop>(
    alloc: Global,
    options: &'s SurveyOptions<'_>,
    dump: &[u8],
    files: &'s F,
    text: &'s [u8],
    letters: Option<&'s [char]>,
    answers: &mut Answers<A>,
) -> Result<Ended, Status>
    requires text { IsSound (F.known files.now) options.now text.now }
    requires letters { option_map (λ letters. letters.now) letters
        ≡ option_map (λ words. small (chars words.now)) options.now.find }
    ensures told { IfOk result (λ ended. Tells (SaysSurvey (F.known files.now) options.now dump.now)
        A.contents answers.old ended answers.new) }
    ensures unread { OnErr result (BreaksOff A.contents (F.known files.now) options.now dump.now
        answers.old answers.new) }
    ensures err { IfErr result (λ status. status ≢ Status.Done) }
{
    let telling = Telling::of(options.json);
    let asked = Asked {
        telling,
        files,
        options,
        text,
        letters,
    };
    match put_survey(alloc, &asked, dump, answers) {
        Ok(true) => Ok(finish(Ended::Done, answers)),
        Ok(false) => Ok(finish(Ended::Refused, answers)),
        Err(Unsourced::NoMemory) => Ok(refuse(telling, Fault::out_of_memory(), answers)),
        Err(Unsourced::Unread(status)) => {
            finish(Ended::Refused, answers);
            Err(status)
        }
    }
}

// Tells what is found of the dump over a configuration text that has no fault.
fn tell_over<F: StoreFiles, A: Write + Drop>(
    alloc: Global,
    options: &SurveyOptions<'_>,
    dump: &[u8],
    files: &F,
    text: &[u8],
    answers: &mut Answers<A>,
) -> Result<Ended, Status>
    requires { IsSound (F.known files.now) options.now text.now }
    ensures told { IfOk result (λ ended. Tells (SaysSurvey (F.known files.now) options.now dump.now)
        A.contents answers.old ended answers.new) }
    ensures unread { OnErr result (BreaksOff A.contents (F.known files.now) options.now dump.now
        answers.old answers.new) }
    ensures err { IfErr result (λ status. status ≢ Status.Done) }
{
    let Ok(letters) = letters_of(alloc, options.find) else {
        return Ok(refuse(Telling::of(options.json), Fault::out_of_memory(), answers));
    };
    let letters = slice_of(&letters);
    tell_found(alloc, options, dump, files, text, letters, answers)
}
