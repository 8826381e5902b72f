//! Where references lead.

ghost use Rattle.std.specs.Prelude.{option_map};
ghost use Rattle.hii_bytes.specs.Watching.{Puts};
ghost use Rattle.ifr_opcodes.specs.Fields.{ref_target};
ghost use Rattle.ifr_opcodes.specs.code.Ops.{bytes_of as op_bytes};
ghost use Rattle.ifr_nodes.specs.ReferenceFaults.{form_with};
ghost use Rattle.ifr_scopes.specs.code.Lists.{statement_node};
ghost use Rattle.question_audit.specs.code.Pages.{audited};
ghost use Rattle.question_rows.specs.Leads.{form_part, leads_part, led_part, set_part};

use crate::links::put_form_title;
use audit_html::put_link;
use audit_text::{Case, put_guid};
use form_page::Page;
use guard_policy::Conditions;
use hii_bytes::{Guid, Watched};
use ifr_opcodes::RefOp;
use ifr_scopes::{Statement, StatementKind};
use std::io::Write;

// What names no form set.
const NO_FORM_SET: [u8; 16] = [0; 16];

// Writes a link to the form of an id, if there is one.
fn put_form<C: Conditions, W: Write>(page: Page<'_, '_, C>, id: u16, out: &mut Watched<W>)
    ensures { Puts W.contents out.old out.new
        (form_part (audited page.entry) id (form_with (audited page.entry).world.nodes id)) }
{
    if let Some(form) = page.policy().forms().form(id) {
        out.put(b"<p>to ");
        put_link(b"f", form.place(), out);
        put_form_title(page, form, out);
        out.put(b"</a> <span class=\"dim\">form ");
        out.put_decimal(u64::from(id));
        out.put(b"</span></p>");
    }
}

// Writes the form set that a reference names, if it names one.
fn put_form_set<W: Write>(guid: Option<Guid<'_>>, out: &mut Watched<W>)
    ensures { Puts W.contents out.old out.new
        (set_part (option_map (λ guid. guid.bytes.now) guid.entry)) }
{
    if let Some(guid) = guid {
        if guid.bytes() == &NO_FORM_SET[..] {
            return;
        }
        out.put(b"<p class=\"small\">");
        out.put(b"form set <code>");
        put_guid(out, guid, Case::Upper);
        out.put(b"</code>");
        out.put(b"</p>");
    }
}

// Writes where a reference leads.
fn put_led<C: Conditions, W: Write>(page: Page<'_, '_, C>, op: RefOp<'_>, out: &mut Watched<W>)
    ensures { Puts W.contents out.old out.new
        (led_part (audited page.entry) (op_bytes op.entry.op) (ref_target (op_bytes op.entry.op))) }
{
    match op.target() {
        Some(id) => put_form(page, id, out),
        None => put_form_set(op.form_set(), out),
    }
}

/// Writes where a statement leads, if it is a reference.
pub(crate) fn put_leads<C: Conditions, W: Write>(
    page: Page<'_, '_, C>,
    statement: Statement<'_>,
    out: &mut Watched<W>,
)
    ensures { Puts W.contents out.old out.new
        (leads_part (audited page.entry) (statement_node statement.entry)) }
{
    if let StatementKind::Ref(op) = statement.kind() {
        put_led(page, op, out);
    }
}
