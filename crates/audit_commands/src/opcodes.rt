//! `opcodes`: each opcode of a forms package.

ghost use Rattle.std.specs.Prelude.{◌≡◌, ◌≢◌, IfErr};
ghost use Rattle.audit_json.specs.Telling.{asked};
ghost use Rattle.audit_answers.specs.Endings.{Tells};
ghost use Rattle.audit_answers.specs.Listing.{SaysOfList};
ghost use Rattle.audit_commands.specs.Opcodes.{SaysOpcodes};

use crate::judged::JudgedPackage;
use audit_answers::{
    Answers, Ended, GivenList, answers, finish, given_list, refuse, refuse_list, told,
};
use audit_json::Telling;
use audit_options::OpcodesOptions;
use opcode_audit::put_opcodes;
use setup_files::{Status, Terminals, WholeFile, file};
use std::alloc::Global;
use std::io::Write;
use std::rt::Files;

/// Tells the opcodes of a forms package of a list, and by which fault setup refuses the list.
pub fn run<R: Files + Print + Eprint + AllocGlobal>(
    rt: &R,
    terminals: Terminals,
    options: OpcodesOptions<'_>,
) -> Result<Status, Status>
    ensures { IfErr result (λ status. status ≢ Status.Done) }
{
    let list = file(rt, terminals, options.list.path, "read list")?;
    let mut answers = answers(rt, terminals)?;
    let ended = tell(rt.alloc(), options, &list, &mut answers);
    Ok(told(rt, terminals, ended, answers))
}

// Tells the opcodes of the list that the options name.
fn tell<A: Write + Drop>(
    alloc: Global,
    options: OpcodesOptions<'_>,
    file: &WholeFile<'_>,
    answers: &mut Answers<A>,
) -> Ended
    requires { file.now.path.now ≡ options.list.path.now }
    ensures { Tells (SaysOfList (asked options.entry.json) options.entry.list.take file.now.bytes.items
        (λ list. SaysOpcodes (asked options.entry.json) list.bytes options.entry.list.forms list.origin.place))
        A.contents answers.old result answers.new }
{
    let telling = Telling::of(options.json);
    match given_list(file.bytes.as_slice(), options.list.take) {
        Ok(list) => tell_list(alloc, telling, list, options.list.forms, answers),
        Err(none) => refuse_list(telling, none, answers),
    }
}

// Tells the opcodes of a forms package of a list.
fn tell_list<A: Write + Drop>(
    alloc: Global,
    telling: Telling,
    list: GivenList<'_>,
    forms: u16,
    answers: &mut Answers<A>,
) -> Ended
    ensures { Tells (SaysOpcodes telling list.entry.bytes.now forms list.entry.origin.place)
        A.contents answers.old result answers.new }
{
    match JudgedPackage::read(alloc, list.bytes, usize::from(forms)) {
        Ok(judged) => {
            let base = list.origin.place + judged.source.place;
            put_opcodes(telling, &judged.strings, base, judged.source, answers);
            match judged.fault {
                Some(fault) => refuse(telling, fault, answers),
                None => finish(Ended::Done, answers),
            }
        }
        Err(fault) => refuse(telling, fault, answers),
    }
}
