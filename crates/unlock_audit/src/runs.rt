//! How commands are run.

ghost use Rattle.std.specs.Prelude.{◌≡◌, None, Some, IfErr, IfOk, if◌then◌else◌};
ghost use Rattle.hii_bytes.specs.Faults.{out_of_memory};
ghost use Rattle.hii_commands.specs.Meaning.{HasList, command_meant};
ghost use Rattle.session_steps.specs.Step.{step};
ghost use Rattle.unlock_audit.specs.Moves.{command};
ghost use Rattle.unlock_audit.specs.Tries as spec;
ghost use Rattle.unlock_audit.specs.Tries.{begun_over, discarded};

use crate::moves::Move;
use browser_commands::Browser;
use guard_policy::{Policy, Removed};
use hii_bytes::{Fault, Watched};
use hii_commands::Command;
use hii_questions::{Input, check_value};
use hii_varstore::Stores;
use session_steps::Reply;
use std::alloc::Global;
use std::io;

// Carries a command out, and tells whether it is answered with OK.
fn carries_out(browser: &mut Browser<'_>, command: Command<'_>) -> bool
    requires { HasList command }
    ensures state { browser.new.state ≡ (step browser.old.state (command_meant command.entry)).state }
    ensures answered { result ≡ spec.is_accepted (step browser.old.state (command_meant command.entry)).reply }
{
    let reply = browser.carry_out(command, &mut Watched::new(io::sink()));
    match reply {
        Reply::Accepted => true,
        _ => false,
    }
}

/// Goes back to the committed stores.
pub(crate) fn discard(browser: &mut Browser<'_>)
    ensures { browser.new.state ≡ discarded browser.old.state }
{
    carries_out(browser, Command::Discard);
}

// Whether `why` of the question of an id is answered with OK.
fn is_open(browser: &mut Browser<'_>, id: u16) -> bool
    ensures opened { result ≡ spec.is_open browser.old.state id }
    ensures same { browser.new.state ≡ browser.old.state }
{
    carries_out(browser, Command::Why(id))
}

// Gives a question a value, and tells whether this is answered with OK.
fn is_set(browser: &mut Browser<'_>, each: Move) -> bool
    ensures left { spec.left_if_accepted (step browser.old.state (command each))
        ≡ (if result then Some browser.new.state else None) }
    ensures back { discarded browser.new.state ≡ discarded browser.old.state }
{
    let command = Command::Set {
        question: each.id,
        value: each.value,
    };
    carries_out(browser, command)
}

// Runs commands up to the first that is not answered with OK, and tells whether there is none.
fn run(browser: &mut Browser<'_>, list: &[Move]) -> bool
    ensures left { spec.run browser.old.state list.now ≡ (if result then Some browser.new.state else None) }
    ensures back { discarded browser.new.state ≡ discarded browser.old.state }
{
    for each in list {
        if !is_set(browser, *each) {
            return false;
        }
    }
    true
}

/// Whether commands are answered with OK. The session is left as it was.
pub(crate) fn are_answered(browser: &mut Browser<'_>, list: &[Move]) -> bool
    requires { discarded browser.old.state ≡ browser.old.state }
    ensures answered { result ≡ spec.is_answered browser.old.state list.now }
    ensures same { browser.new.state ≡ browser.old.state }
{
    let answered = run(browser, list);
    discard(browser);
    answered
}

/// Whether `why` of the question of an id is answered with OK in a new run over these stores.
pub(crate) fn is_open_anew(
    alloc: Global,
    browser: &Browser<'_>,
    id: u16,
    stores: &Stores,
) -> Result<bool, Fault>
    ensures opened { IfOk result (λ opened. opened ≡ spec.is_open (begun_over browser.now.state stores.now) id) }
    ensures refused { IfErr result (λ fault. fault ≡ out_of_memory) }
{
    let page = browser.page();
    let forms = page.policy().forms();
    let Some(question) = page.questions().find(id) else {
        return Ok(false);
    };
    // The package is accepted.
    forms.bytes();
    let removed = Removed::at_open(alloc, forms, page.questions(), stores)?;
    let policy = Policy::new(forms, page.questions(), &removed);
    Ok(policy.changeable(question.statement(), stores).is_ok())
}

// The same over the stores that a `submit` leaves, where it is answered with OK.
fn is_open_submitted(alloc: Global, browser: &Browser<'_>, id: u16) -> Result<bool, Fault>
    ensures opened { IfOk result (λ opened. opened
        ≡ spec.is_open_anew browser.now.state id (spec.submits (Some browser.now.state))) }
    ensures refused { IfErr result (λ fault. fault ≡ out_of_memory) }
{
    let page = browser.page();
    match page.policy().may_submit(page.stores()) {
        Ok(()) => is_open_anew(alloc, browser, id, page.stores()),
        Err(_) => Ok(false),
    }
}

// Whether commands that were run open the question of an id: at once, or in a new run behind a `submit`.
fn is_open_behind(
    alloc: Global,
    browser: &mut Browser<'_>,
    id: u16,
    again: bool,
) -> Result<bool, Fault>
    ensures opened { IfOk result (λ opened. opened
        ≡ spec.opens_behind again browser.old.state id (Some browser.old.state)) }
    ensures same { browser.new.state ≡ browser.old.state }
    ensures refused { IfErr result (λ fault. fault ≡ out_of_memory) }
{
    if again {
        is_open_submitted(alloc, browser, id)
    } else {
        Ok(is_open(browser, id))
    }
}

// The same of commands that are still to be run.
fn open_by_run(
    alloc: Global,
    browser: &mut Browser<'_>,
    id: u16,
    again: bool,
    list: &[Move],
) -> Result<bool, Fault>
    ensures opened { IfOk result (λ opened. opened
        ≡ spec.opens again browser.old.state id (spec.commands list.now)) }
    ensures back { discarded browser.new.state ≡ discarded browser.old.state }
    ensures refused { IfErr result (λ fault. fault ≡ out_of_memory) }
{
    if run(browser, list) {
        is_open_behind(alloc, browser, id, again)
    } else {
        Ok(false)
    }
}

/// Whether commands open the question of an id. The session is left as it was.
pub(crate) fn commands_open(
    alloc: Global,
    browser: &mut Browser<'_>,
    id: u16,
    again: bool,
    list: &[Move],
) -> Result<bool, Fault>
    requires { discarded browser.old.state ≡ browser.old.state }
    ensures opened { IfOk result (λ opened. opened
        ≡ spec.opens again browser.old.state id (spec.commands list.now)) }
    ensures same { browser.new.state ≡ browser.old.state }
    ensures refused { IfErr result (λ fault. fault ≡ out_of_memory) }
{
    let opened = open_by_run(alloc, browser, id, again, list);
    discard(browser);
    opened
}

/// The stores with the field of a question that has a value, as far as it takes this.
pub(crate) fn with_written(
    alloc: Global,
    browser: &Browser<'_>,
    each: Move,
) -> Result<Option<Stores>, Fault>
    requires { discarded browser.now.state ≡ browser.now.state }
    ensures written { IfOk result (λ stores. stores ≡ spec.with_written browser.now.state each) }
    ensures refused { IfErr result (λ fault. fault ≡ out_of_memory) }
{
    let page = browser.page();
    // The package is accepted.
    page.policy().forms().bytes();
    let Some(question) = page.questions().find(each.id) else {
        return Ok(None);
    };
    let Ok(field) = check_value(question, Input::Number(each.value)) else {
        return Ok(None);
    };
    let mut stores = page.stores().copy(alloc)?;
    field.put(&mut stores);
    Ok(Some(stores))
}

/// Whether a field that is written opens the question of an id in a new run.
pub(crate) fn write_opens(
    alloc: Global,
    browser: &Browser<'_>,
    id: u16,
    each: Move,
) -> Result<bool, Fault>
    requires { discarded browser.now.state ≡ browser.now.state }
    ensures opened { IfOk result (λ opened. opened
        ≡ spec.is_open_anew browser.now.state id (spec.with_written browser.now.state each)) }
    ensures refused { IfErr result (λ fault. fault ≡ out_of_memory) }
{
    match with_written(alloc, browser, each)? {
        Some(stores) => is_open_anew(alloc, browser, id, &stores),
        None => Ok(false),
    }
}
