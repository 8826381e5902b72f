//! `stores`: a line for each store of a form set.

ghost use Rattle.std.specs.Prelude.{◌≡◌, ◌≢◌, ℕ, List, IfErr, OnErr, OnOk};
ghost use Rattle.hii_bytes.specs.Faults.{Refuses};
ghost use Rattle.hii_bytes.specs.Watching.{Puts};
ghost use Rattle.ifr_nodes.specs.Nodes.{nodes_of};
ghost use Rattle.store_audit.specs.Declaring.{IsDeclaredFault};
ghost use Rattle.audit_json.specs.Telling.{asked};
ghost use Rattle.audit_answers.specs.Endings.{Tells};
ghost use Rattle.audit_answers.specs.Listing.{SaysOfList};
ghost use Rattle.store_commands.specs.Storing.{IsDeclaredBy, SaysStores, lines_told};

use audit_answers::{Answers, Ended, answers, finish, given_list, refuse, refuse_list, told};
use audit_json::Telling;
use audit_options::StoresOptions;
use hii_bytes::{Fault, Watched};
use setup_files::{Status, Terminals, WholeFile, file};
use std::alloc::Global;
use std::io::Write;
use std::rt::Files;
use store_audit::{Declared, device_path, put_headers, put_stores};

/// Tells the stores that a list declares.
pub fn run<R: Files + Print + Eprint + AllocGlobal>(
    rt: &R,
    terminals: Terminals,
    options: StoresOptions<'_>,
) -> Result<Status, Status>
    ensures { IfErr result (λ status. status ≢ Status.Done) }
{
    let list = file(rt, terminals, options.list.path, "read list")?;
    let mut answers = answers(rt, terminals)?;
    let ended = tell(rt.alloc(), options, &list, &mut answers);
    Ok(told(rt, terminals, ended, answers))
}

// Tells the stores of the list that the options name.
fn tell<A: Write + Drop>(
    alloc: Global,
    options: StoresOptions<'_>,
    file: &WholeFile<'_>,
    answers: &mut Answers<A>,
) -> Ended
    requires { file.now.path.now ≡ options.list.path.now }
    ensures { Tells (SaysOfList (asked options.entry.json) options.entry.list.take file.now.bytes.items
        (λ list. SaysStores (asked options.entry.json) options.entry.headers list.bytes options.entry.list.forms))
        A.contents answers.old result answers.new }
{
    match given_list(file.bytes.as_slice(), options.list.take) {
        Ok(list) => tell_of(alloc, options, list.bytes, answers),
        Err(none) => refuse_list(Telling::of(options.json), none, answers),
    }
}

// Tells the stores that a list declares.
fn tell_of<A: Write + Drop>(
    alloc: Global,
    options: StoresOptions<'_>,
    list: &[u8],
    answers: &mut Answers<A>,
) -> Ended
    ensures { Tells (SaysStores (asked options.entry.json) options.entry.headers list.now options.entry.list.forms)
        A.contents answers.old result answers.new }
{
    match put_lines(alloc, options, list, answers) {
        Ok(()) => finish(Ended::Done, answers),
        Err(fault) => refuse(Telling::of(options.json), fault, answers),
    }
}

// Tells each store that a list declares, or the header of each that holds bytes; or gives the least fault by which the list
// is refused, or that an allocation failed. Then nothing is written.
fn put_lines<W: Write>(
    alloc: Global,
    options: StoresOptions<'_>,
    list: &[u8],
    out: &mut Watched<W>,
) -> Result<(), Fault>
    ensures told { OnOk result ((ifr : List ℕ) × IsDeclaredBy list.now options.entry.list.forms ifr
        × Puts W.contents out.old out.new (lines_told (asked options.entry.json) options.entry.headers list.now (nodes_of ifr))) }
    ensures refused { IfErr result (Refuses (IsDeclaredFault list.now options.entry.list.forms)) }
    ensures nothing { OnErr result (out.new ≡ out.old) }
{
    let path = device_path(list)?;
    let declared = Declared::read(alloc, list, usize::from(options.list.forms))?;
    let telling = Telling::of(options.json);
    if options.headers {
        put_headers(telling, declared.forms(), path, out);
    } else {
        put_stores(telling, declared.forms(), out);
    }
    Ok(())
}
