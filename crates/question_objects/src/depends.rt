//! On which questions it depends whether a question may be changed.

ghost use Rattle.std.specs.Prelude.{◌≡◌, ◌++◌, OnOk, OnErr, codes, decimal, ℕ, if◌then◌else◌, [], map};
ghost use Rattle.hii_bytes.specs.Watching.{Puts};
ghost use Rattle.audit_json.specs.Objects.{array_member};
ghost use Rattle.ifr_nodes.specs.Nodes.{nodes_of};
ghost use Rattle.ifr_nodes.specs.code.Checked.{IsNodeOf};
ghost use Rattle.ifr_scopes.specs.code.Lists.{statement_node};
ghost use Rattle.guard_policy.specs.code.Views.{bytes_of};
ghost use Rattle.question_audit.specs.Dependences.{depends_word};
ghost use Rattle.question_objects.specs.Dependences.{depends_member};

use audit_json::{put_array_end, put_before_item};
use guard_policy::Policy;
use hii_bytes::Watched;
use ifr_scopes::Statement;
use question_audit::{When, support_of};
use std::alloc::{AllocError, Global};
use std::collections::BTreeSet;
use std::io::Write;

// The key for the questions that decide then.
fn key_of(when: When) -> &'static [u8]
    ensures { result.now ≡ depends_word when }
{
    match when {
        When::AtCommands => b"depends",
        When::AtOpening => b"opening",
    }
}

// Writes a member that is an array of ids, rising.
fn put_ids<W: Write>(key: &[u8], ids: &BTreeSet<u16>, out: &mut Watched<W>)
    ensures { Puts W.contents out.old out.new (array_member key.now (map decimal ids.now.keys)) }
{
    let mut left = ids.iter();
    let mut is_first = true;
    while let Some(id) = left.next() {
        put_before_item(key, is_first, out);
        out.put_decimal(u64::from(*id));
        is_first = false;
    }
    put_array_end(is_first, out);
}

/// Writes the ids of the questions on whose answers it depends then whether a statement may be changed, rising. Where an allocation
/// fails nothing is written.
pub(crate) fn put_depends<'a, W: Write>(
    alloc: Global,
    policy: Policy<'a, '_>,
    statement: Statement<'a>,
    when: When,
    out: &mut Watched<W>,
) -> Result<(), AllocError>
    requires { IsNodeOf (bytes_of policy) (statement_node statement) }
    ensures told { OnOk result (Puts W.contents out.old out.new
        (depends_member when (nodes_of (bytes_of policy.entry)) (statement_node statement.entry))) }
    ensures nothing { OnErr result (out.new ≡ out.old) }
{
    let ids = support_of(alloc, policy, statement, when)?;
    put_ids(key_of(when), &ids, out);
    Ok(())
}
