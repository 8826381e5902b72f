//! Which questions depend on another one where it is asked whether they may be changed.

ghost use Rattle.std.specs.Prelude.{◌≡◌, ◌++◌, ℕ, OnOk, OnErr, length};
ghost use Rattle.hii_bytes.specs.Watching.{Puts};
ghost use Rattle.ifr_opcodes.specs.Fields.{question_id};
ghost use Rattle.ifr_nodes.specs.Guards.{guards_among};
ghost use Rattle.ifr_nodes.specs.Nodes.{nodes_of};
ghost use Rattle.hii_questions.specs.code.Views.{question_node};
ghost use Rattle.guard_policy.specs.code.Views.{bytes_of};
ghost use Rattle.question_audit.specs.code.Naming.{naming};
ghost use Rattle.question_audit.specs.declared.when.When.TheVariants.{AtCommands, AtOpening};
ghost use Rattle.question_objects.specs.Dependences.{decides_key, decides_member};

use audit_json::{put_array_end, put_before_item};
use form_page::Page;
use guard_policy::Conditions;
use hii_bytes::Watched;
use hii_questions::Question;
use question_audit::{When, guards_naming, is_decided};
use std::alloc::{AllocError, Global};
use std::io::Write;

// The key for the questions that are decided then.
fn key_of(when: When) -> &'static [u8]
    ensures { result.now ≡ decides_key when }
{
    match when {
        When::AtCommands => b"decides",
        When::AtOpening => b"decidesAtOpening",
    }
}

// Writes the ids of the questions of which it depends then whether they may be changed, by place, where these are the guards whose
// conditions name the question that decides.
fn put_decided<'a, C: Conditions, W: Write>(
    page: Page<'a, '_, C>,
    flags: &[bool],
    when: When,
    out: &mut Watched<W>,
)
    requires { length flags.now ≡ length (guards_among (nodes_of (bytes_of page.policy))) }
    ensures { (id : ℕ) → flags.now ≡ naming (nodes_of (bytes_of page.entry.policy)) id
        → Puts W.contents out.old out.new
        (decides_member when (nodes_of (bytes_of page.entry.policy)) id) }
{
    let policy = page.policy();
    let key = key_of(when);
    let mut questions = page.questions().all();
    let mut is_first = true;
    while let Some(other) = questions.next() {
        if !is_decided(policy, flags, other, when) {
            continue;
        }
        put_before_item(key, is_first, out);
        out.put_decimal(u64::from(other.id()));
        is_first = false;
    }
    put_array_end(is_first, out);
}

/// Writes the ids of the questions whose changing depends on the answer to a question, by place: of those at commands, then of those at
/// opening. Where an allocation fails nothing is written.
pub(crate) fn put_decides<'a, C: Conditions, W: Write>(
    alloc: Global,
    page: Page<'a, '_, C>,
    question: Question<'a>,
    out: &mut Watched<W>,
) -> Result<(), AllocError>
    ensures told { OnOk result (Puts W.contents out.old out.new
        (decides_member AtCommands (nodes_of (bytes_of page.entry.policy)) (question_id (question_node question.entry).op)
        ++ decides_member AtOpening (nodes_of (bytes_of page.entry.policy)) (question_id (question_node question.entry).op))) }
    ensures nothing { OnErr result (out.new ≡ out.old) }
{
    let flags = guards_naming(alloc, page.policy().forms(), question.id())?;
    put_decided(page, &flags, When::AtCommands, out);
    put_decided(page, &flags, When::AtOpening, out);
    Ok(())
}
