//! A script that is run as a whole.

ghost use Rattle.std.specs.Prelude.{◌≡◌, None, Some, IfErr, IfOk, OnErr, if◌then◌else◌};
ghost use Rattle.hii_bytes.specs.Faults.{out_of_memory};
ghost use Rattle.hii_bytes.specs.Watching.{Puts, pen_of};
ghost use Rattle.hii_varstore.specs.Stores.{StoreMap};
ghost use Rattle.question_audit.specs.code.Beginnings.{Begins};
ghost use Rattle.script_audit.specs.Apply as spec;
ghost use Rattle.script_audit.specs.Apply.{applied};

use crate::changes::put_changes;
use crate::script::{is_wide, without_mark, without_returns};
use crate::spelling::put_error;
use crate::stop::put_stop;
use crate::unsubmitted::{are_same, put_unsubmitted};
use crate::walk::walk_lines;
use audit_json::Telling;
use browser_commands::Browser;
use hii_bytes::{Fault, Watched};
use hii_varstore::Stores;
use std::alloc::Global;
use std::io::Write;

// Writes the questions that a script has changed, or those that it has not submitted, and tells whether there are none of these.
fn put_end<W: Write>(
    telling: Telling,
    browser: &Browser<'_>,
    first: &Stores,
    out: &mut Watched<W>,
) -> bool
    ensures told { Puts W.contents out.old out.new
        (spec.end_of telling first.now browser.now.state (spec.unsubmitted browser.now.state)).told }
    ensures left { (spec.end_of telling first.now browser.now.state (spec.unsubmitted browser.now.state)).left
        ≡ (if result then Some browser.now.state else None) }
{
    let page = browser.page();
    let committed = browser.committed();
    if are_same(page.questions(), committed, page.stores()) {
        put_changes(telling, page, first, committed, out);
        true
    } else {
        put_unsubmitted(telling, page.questions(), committed, page.stores(), out);
        false
    }
}

/// Runs the lines of a script as a session does, up to the first that is not answered with OK, and tells whether all were, and all
/// that they changed was submitted: then the image of the committed stores is what the script leaves. It writes the warnings on the way;
/// then the questions that were changed, or the line that is not answered with OK, its answer and why, or the questions that are not
/// submitted. The bytes of opcodes in the file count from the place at which the forms package stands there. A byte order mark in front
/// and CRs are dropped, empty lines and those that begin with a number sign passed over; UTF-16 is refused. Where an allocation
/// fails, the beginning of this may be written.
pub fn apply<W: Write>(
    alloc: Global,
    telling: Telling,
    browser: &mut Browser<'_>,
    package_place: u64,
    script: &[u8],
    out: &mut Watched<W>,
) -> Result<bool, Fault>
    ensures told { IfOk result (λ is_done. Puts W.contents out.old out.new
        (applied telling package_place browser.old.state script.now).told) }
    ensures left { IfOk result (λ is_done. (applied telling package_place browser.old.state script.now).left
        ≡ (if is_done then Some browser.new.state else None)) }
    ensures begun { OnErr result (Begins (pen_of W.contents out.old) (pen_of W.contents out.new)
        (applied telling package_place browser.old.state script.now).told) }
    ensures refused { IfErr result (λ fault. fault ≡ out_of_memory) }
{
    if is_wide(script) {
        put_error(telling, b"script: UTF-16, where UTF-8 is wanted", out);
        return Ok(false);
    }
    let text = without_returns(alloc, without_mark(script))?;
    let first = browser.committed().copy(alloc)?;
    match walk_lines(telling, browser, text.as_slice(), out) {
        Some(stop) => {
            put_stop(alloc, telling, browser.page(), package_place, stop, out)?;
            Ok(false)
        }
        None => Ok(put_end(telling, browser, &first, out)),
    }
}
