//! An audit over bytes that are given.

ghost use Rattle.std.specs.Prelude.{◌≡◌, ◌≢◌, ◌+◌, ◌<◌, ◌^◌, ℕ, List, IfOk, OnOk, OnErr, IfErr, length};
ghost use Rattle.hii_bytes.specs.Faults.{Refuses, out_of_memory};
ghost use Rattle.hii_bytes.specs.Watching.{Puts};
ghost use Rattle.session_steps.specs.Opening.{IsOpenFault};
ghost use Rattle.audit_commands.specs.Auditing.{Asked, Audits, AuditsQuestion, BeginsAudits, BeginsAuditsQuestion};
ghost use Rattle.audit_commands.specs.code.Givens.{given_asked};
ghost use Rattle.audit_commands.specs.code.Opened.{IsOpened};

use crate::opened::Opened;
use audit_json::Telling;
use hii_bytes::{Cause, Fault, Watched};
use question_audit::{Origin, put_question_with_id, put_questions};
use question_objects::{put_question_object, put_questions_objects};
use setup_files::Given;
use std::alloc::Global;
use std::io::Write;

/// Tells each form of the form set, and each of its questions with what forbids its change, over the image; or gives the least fault
/// of what is given, by which a session over it is refused, or that an allocation failed. Then nothing is written, but where an
/// allocation failed the beginning of objects may be. The list begins at a place of the file.
pub fn put_audit<W: Write>(
    telling: Telling,
    alloc: Global,
    given: Given<'_>,
    origin: Origin,
    out: &mut Watched<W>,
) -> Result<(), Fault>
    requires { origin.place + length given.list.now < 2 ^ 64 }
    ensures told { OnOk result ((text : List ℕ) × Audits telling (given_asked given.entry) origin text
        × Puts W.contents out.old out.new text) }
    ensures refused { IfErr result (Refuses (IsOpenFault given.entry.list.now given.entry.forms given.entry.stores.now)) }
    ensures nothing { IfErr result (λ fault. fault.cause ≢ Cause.OutOfMemory → out.new ≡ out.old) }
    ensures begun { OnErr result ((text : List ℕ) × BeginsAudits telling (given_asked given.entry) origin text
        × Puts W.contents out.old out.new text) }
{
    let opened = Opened::read(alloc, given, origin)?;
    put_forms(telling, alloc, &opened, out)
}

// Tells the forms of a form set and their questions.
fn put_forms<W: Write>(
    telling: Telling,
    alloc: Global,
    opened: &Opened<'_>,
    out: &mut Watched<W>,
) -> Result<(), Fault>
    ensures told { (asked : Asked) → (origin : Origin) → IsOpened asked origin opened.now
        → OnOk result ((text : List ℕ) × Audits telling asked origin text × Puts W.contents out.old out.new text) }
    ensures begun { (asked : Asked) → (origin : Origin) → IsOpened asked origin opened.now
        → OnErr result ((text : List ℕ) × BeginsAudits telling asked origin text × Puts W.contents out.old out.new text) }
    ensures memory { IfErr result (λ fault. fault ≡ out_of_memory) }
{
    match telling {
        Telling::Lines => put_questions(alloc, opened.browser.page(), out),
        Telling::Objects => put_questions_objects(alloc, opened.browser.page(), opened.place, out),
    }
}

/// Tells what is known of the question of an id over the image, with its byte in the file in which the list begins at a place, or that
/// there is none, and answers whether there is one; or gives the
/// least fault of what is given, by which a session over it is refused, or that an allocation failed. Then nothing is written, but where an
/// allocation failed the beginning of what is known may be.
pub fn put_question_audit<W: Write>(
    telling: Telling,
    alloc: Global,
    given: Given<'_>,
    origin: Origin,
    id: u16,
    out: &mut Watched<W>,
) -> Result<bool, Fault>
    requires { origin.place + length given.list.now < 2 ^ 64 }
    ensures told { IfOk result (λ is_there. (text : List ℕ) × AuditsQuestion telling is_there (given_asked given.entry) origin id text
        × Puts W.contents out.old out.new text) }
    ensures refused { IfErr result (Refuses (IsOpenFault given.entry.list.now given.entry.forms given.entry.stores.now)) }
    ensures nothing { IfErr result (λ fault. fault.cause ≢ Cause.OutOfMemory → out.new ≡ out.old) }
    ensures begun { OnErr result ((text : List ℕ) × BeginsAuditsQuestion telling (given_asked given.entry) origin id text
        × Puts W.contents out.old out.new text) }
{
    let opened = Opened::read(alloc, given, origin)?;
    put_question(telling, alloc, &opened, id, out)
}

// Tells what is known of the question of an id, or that there is none.
fn put_question<W: Write>(
    telling: Telling,
    alloc: Global,
    opened: &Opened<'_>,
    id: u16,
    out: &mut Watched<W>,
) -> Result<bool, Fault>
    ensures told { (asked : Asked) → (origin : Origin) → IsOpened asked origin opened.now
        → IfOk result (λ is_there. (text : List ℕ) × AuditsQuestion telling is_there asked origin id text
        × Puts W.contents out.old out.new text) }
    ensures begun { (asked : Asked) → (origin : Origin) → IsOpened asked origin opened.now
        → OnErr result ((text : List ℕ) × BeginsAuditsQuestion telling asked origin id text
        × Puts W.contents out.old out.new text) }
    ensures memory { IfErr result (λ fault. fault ≡ out_of_memory) }
{
    match telling {
        Telling::Lines => {
            put_question_with_id(alloc, opened.browser.page(), opened.place, id, out)
        }
        Telling::Objects => {
            put_question_object(alloc, opened.browser.page(), opened.place, id, out)
        }
    }
}
