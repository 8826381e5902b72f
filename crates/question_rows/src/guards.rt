//! The guards around questions.

ghost use Rattle.std.specs.Prelude.{◌≡◌, ℕ, List, OnOk, OnErr};
ghost use Rattle.hii_bytes.specs.Watching.{Puts, pen_of};
ghost use Rattle.ifr_nodes.specs.Nodes.{nodes_of};
ghost use Rattle.ifr_nodes.specs.code.Checked.{IsNodeOf};
ghost use Rattle.ifr_opcodes.specs.Opcode.{number};
ghost use Rattle.ifr_scopes.specs.code.Lists.{guard_node, statement_node};
ghost use Rattle.guard_policy.specs.code.RuleValues.{AreRuleValues};
ghost use Rattle.guard_policy.specs.code.Views.{bytes_of};
ghost use Rattle.question_audit.specs.code.Pages.{audited};
ghost use Rattle.question_audit.specs.code.Beginnings.{Begins};
ghost use Rattle.question_rows.specs.Conditions.{guard_class, guard_kind, guard_part, guards_part, is_in_force, stated};

use crate::buffers::words_text;
use crate::referring::put_linked_code;
use audit_text::opcode_name;
use form_page::Page;
use guard_policy::Conditions;
use hii_bytes::Watched;
use hii_questions::DenialKind;
use ifr_expr::RuleValues;
use ifr_opcodes::{DISABLE_IF, SUPPRESS_IF};
use ifr_scopes::{Guard, Statement};
use question_audit::{guard_state_by, rule_values};
use std::alloc::{AllocError, Global};
use std::io::Write;

/// Whether a condition that stands in this way decides.
pub(crate) fn is_in_force(state: &[u8]) -> bool
    ensures { result ≡ is_in_force state.now }
{
    state == b"holds".as_slice() || state == b"removed".as_slice()
}

/// Writes how a condition stands, and what it says.
pub(crate) fn put_stated<C: Conditions, W: Write>(
    page: Page<'_, '_, C>,
    state: &[u8],
    words: &[u8],
    out: &mut Watched<W>,
)
    ensures { Puts W.contents out.old out.new
        (stated (nodes_of (bytes_of page.entry.policy)) state.now words.now) }
{
    out.put(b" ");
    out.put(state);
    out.put(b": ");
    put_linked_code(page, words, out);
}

// What a guard of an opcode's number denies by.
fn guard_kind(code: u8) -> DenialKind
    ensures { (op : List ℕ) → code ≡ number op → result ≡ guard_kind op }
{
    match code {
        DISABLE_IF => DenialKind::DisableIf,
        SUPPRESS_IF => DenialKind::SuppressIf,
        _ => DenialKind::GrayOutIf,
    }
}

// The class of a guard that stands in this way.
fn guard_class(code: u8, state: &[u8]) -> &'static [u8]
    ensures { (op : List ℕ) → code ≡ number op → result.now ≡ guard_class op state.now }
{
    if is_in_force(state) {
        guard_kind(code).name().as_bytes()
    } else {
        b"dim"
    }
}

// Writes a guard, by values of rules over the stores of the page. Where an allocation fails nothing is written.
fn put_guard<'a, C: Conditions, W: Write>(
    alloc: Global,
    page: Page<'a, '_, C>,
    guard: Guard<'a>,
    rules: &mut RuleValues,
    out: &mut Watched<W>,
) -> Result<(), AllocError>
    requires { AreRuleValues (bytes_of page.policy) page.stores.now rules.old }
    ensures kept { OnOk result (AreRuleValues (bytes_of page.entry.policy) page.entry.stores.now rules.new) }
    ensures told { OnOk result (Puts W.contents out.old out.new
        (guard_part (audited page.entry) (guard_node guard.entry))) }
    ensures nothing { OnErr result (out.new ≡ out.old) }
{
    let words = words_text(alloc, guard.condition())?;
    let state = guard_state_by(page, guard, rules);
    let code = guard.code();
    out.put(b"<p class=\"small\">");
    out.put(b"<span class=\"");
    out.put(guard_class(code, state));
    out.put(b"\">");
    out.put(opcode_name(code));
    out.put(b"</span>");
    put_stated(page, state, &words, out);
    out.put(b"</p>");
    Ok(())
}

/// Writes the guards around a statement, the outermost first. Where an allocation fails, the beginning of these may be written.
pub(crate) fn put_guards<'a, C: Conditions, W: Write>(
    alloc: Global,
    page: Page<'a, '_, C>,
    statement: Statement<'a>,
    out: &mut Watched<W>,
) -> Result<(), AllocError>
    requires { IsNodeOf (bytes_of page.policy) (statement_node statement) }
    ensures told { OnOk result (Puts W.contents out.old out.new
        (guards_part (audited page.entry) (statement_node statement.entry))) }
    ensures begun { OnErr result (Begins (pen_of W.contents out.old) (pen_of W.contents out.new)
        (guards_part (audited page.entry) (statement_node statement.entry))) }
{
    let forms = page.policy().forms();
    let mut rules = rule_values(alloc, forms)?;
    let mut guards = forms.guards_at(statement.place());
    while let Some(guard) = guards.step() {
        put_guard(alloc, page, guard, &mut rules, out)?;
    }
    Ok(())
}
