//! The lines of a script, one after the other.

ghost use Rattle.std.specs.Prelude.{◌≡◌, None, Some, option_map};
ghost use Rattle.std.specs.List.{flat_map};
ghost use Rattle.hii_bytes.specs.Watching.{Puts};
ghost use Rattle.hii_commands.specs.Meaning.{HasList, command_meant};
ghost use Rattle.ifr_nodes.specs.Nodes.{nodes_of};
ghost use Rattle.hii_questions.specs.Fields.{question_with};
ghost use Rattle.guard_policy.specs.code.Views.{bytes_of};
ghost use Rattle.guard_policy.specs.code.WarningsLeft.{warnings_left};
ghost use Rattle.session_steps.specs.Step.{step, step_line};
ghost use Rattle.script_audit.specs.Script.{lines_from};
ghost use Rattle.script_audit.specs.Walk as spec;
ghost use Rattle.script_audit.specs.Walk.{seen, walk};
ghost use Rattle.script_audit.specs.code.Pages.{seen_in};
ghost use Rattle.script_audit.specs.code.LinesLeft.{line_run};
ghost use Rattle.script_audit.specs.code.Stops.{stop_meant};

use crate::lines::{cut_line, is_passed_over};
use crate::spelling::{put_back, put_numbered_front, put_spelled};
use crate::stop::Stop;
use audit_json::Telling;
use browser_commands::Browser;
use form_page::Page;
use guard_policy::{Conditions, Warning, Warnings};
use hii_bytes::Watched;
use hii_commands::{Command, is_blank, read_line};
use hii_questions::Question;
use session_steps::Reply;
use std::io;
use std::io::Write;

// Writes a warning of a line.
fn put_warning<'a, C: Conditions, W: Write>(
    telling: Telling,
    number: u64,
    page: Page<'a, '_, C>,
    warning: Warning,
    out: &mut Watched<W>,
)
    ensures { Puts W.contents out.old out.new (spec.warning_told telling number (seen_in page.entry) warning) }
{
    put_numbered_front(telling, number, b"warned", b"warning", out);
    out.put(b"WARNING at ");
    out.put_place(u64::from(warning.place));
    out.put(b" ");
    put_spelled(telling, page.text(warning.message).chars(), out);
    put_back(telling, out);
}

// Writes the warnings that are left of a question.
fn put_left<'a, C: Conditions, W: Write>(
    telling: Telling,
    number: u64,
    page: Page<'a, '_, C>,
    warnings: Warnings<'a, '_>,
    out: &mut Watched<W>,
)
    ensures { Puts W.contents out.old out.new
        (flat_map (spec.warning_told telling number (seen_in page.entry)) (warnings_left warnings.entry)) }
{
    let mut warnings = warnings;
    while let Some(warning) = warnings.next() {
        put_warning(telling, number, page, warning, out);
    }
}

// Writes the warnings of a question that took a value.
fn put_warnings<'a, C: Conditions, W: Write>(
    telling: Telling,
    number: u64,
    page: Page<'a, '_, C>,
    id: u16,
    out: &mut Watched<W>,
)
    ensures { Puts W.contents out.old out.new
        (spec.warnings_of telling number (seen_in page.entry)
        (question_with (nodes_of (bytes_of page.entry.policy)) id)) }
{
    let Some(question) = page.questions().find(id) else {
        return;
    };
    let warnings = page.policy().warnings(question, page.stores());
    put_left(telling, number, page, warnings, out);
}

// Writes the warnings behind a command.
fn put_behind<'a, C: Conditions, W: Write>(
    telling: Telling,
    number: u64,
    page: Page<'a, '_, C>,
    command: Command<'_>,
    out: &mut Watched<W>,
)
    ensures { Puts W.contents out.old out.new
        (spec.warnings_behind telling number (seen_in page.entry) (command_meant command.entry)) }
{
    match command {
        Command::Set { question, .. } => put_warnings(telling, number, page, question, out),
        Command::Order { question, .. } => put_warnings(telling, number, page, question, out),
        Command::Text { question, .. } => put_warnings(telling, number, page, question, out),
        _ => {}
    }
}

// Carries a command out, and writes the warnings behind it where it is answered with OK.
fn obey<W: Write>(
    telling: Telling,
    browser: &mut Browser<'_>,
    number: u64,
    command: Command<'_>,
    out: &mut Watched<W>,
) -> Reply
    requires { HasList command }
    ensures state { browser.new.state ≡ (step browser.old.state (command_meant command.entry)).state }
    ensures reply { result ≡ (step browser.old.state (command_meant command.entry)).reply }
    ensures told { Puts W.contents out.old out.new
        (spec.warnings_if (spec.is_accepted result)
        (spec.warnings_behind telling number (seen browser.new.state) (command_meant command.entry))) }
{
    let reply = browser.carry_out(command, &mut Watched::new(io::sink()));
    if let Reply::Accepted = reply {
        put_behind(telling, number, browser.page(), command, out);
    }
    reply
}

// Runs a line, and writes the warnings behind it where it is answered with OK.
fn run_line<W: Write>(
    telling: Telling,
    browser: &mut Browser<'_>,
    number: u64,
    line: &[u8],
    out: &mut Watched<W>,
) -> Reply
    ensures state { browser.new.state ≡ (step_line browser.old.state line.now).state }
    ensures reply { result ≡ (step_line browser.old.state line.now).reply }
    ensures told { Puts W.contents out.old out.new
        (spec.warnings_if (spec.is_accepted result)
        (spec.line_warnings telling (seen browser.new.state) record {
          number = number;
          bytes = line.now;
        })) }
{
    if is_blank(line) {
        return Reply::Accepted;
    }
    match read_line(line) {
        Ok(command) => obey(telling, browser, number, command, out),
        Err(bad) => Reply::Refused(bad.cause()),
    }
}

// Runs a line that is not passed over, and gives its answer where this is not OK.
fn walk_line<'t, W: Write>(
    telling: Telling,
    browser: &mut Browser<'_>,
    number: u64,
    line: &'t [u8],
    out: &mut Watched<W>,
) -> Option<Stop<'t>>
    ensures state { browser.new.state ≡ (walk telling browser.old.state (line_run number line.now)).state }
    ensures stop { option_map stop_meant result ≡ (walk telling browser.old.state (line_run number line.now)).stop }
    ensures told { Puts W.contents out.old out.new
        (walk telling browser.old.state (line_run number line.now)).told }
{
    if is_passed_over(line) {
        return None;
    }
    match run_line(telling, browser, number, line, out) {
        Reply::Accepted => None,
        reply => Some(Stop {
            number,
            line,
            reply,
        }),
    }
}

/// Runs the lines of a text up to the first that is not answered with OK, which it gives, and writes the warnings behind those before
/// it.
pub(crate) fn walk_lines<'t, W: Write>(
    telling: Telling,
    browser: &mut Browser<'_>,
    text: &'t [u8],
    out: &mut Watched<W>,
) -> Option<Stop<'t>>
    ensures state { browser.new.state ≡ (walk telling browser.old.state (lines_from 1 text.now)).state }
    ensures stop { option_map stop_meant result
        ≡ (walk telling browser.old.state (lines_from 1 text.now)).stop }
    ensures told { Puts W.contents out.old out.new
        (walk telling browser.old.state (lines_from 1 text.now)).told }
{
    let mut number = 1;
    let mut left = Some(text);
    while let Some(rest) = left {
        let cut = cut_line(rest);
        let stop = walk_line(telling, browser, number, cut.line, out);
        if stop.is_some() {
            return stop;
        }
        left = cut.behind;
        number += 1;
    }
    None
}
