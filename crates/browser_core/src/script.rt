//! The lines of a script, one after the other.

ghost use Rattle.std.specs.Prelude.{◌≡◌, ◌++◌, ◌∷◌, ℕ, List, [], length, IfOk, OnOk, IsErr, MatchOption, true, false, not, Err, is_err};
ghost use Rattle.std.specs.List.{before_first, position};
ghost use Rattle.std.specs.Io.{ReadsAtMost};
ghost use Rattle.std.specs.Io.KnownBytes.{ReadConsumes};
ghost use Rattle.hii_bytes.specs.Watching.{Pen, pen_of, inner_of, has_failed, has_passed_on, Flushes};
ghost use Rattle.hii_commands.specs.code.Lines.{whole_lines, ends_line};
ghost use Rattle.browser_core.specs.Shown.{Shown};
ghost use Rattle.browser_core.specs.Run.{Runs, StopsAtLine};
ghost use Rattle.browser_core.specs.code.Reading.{Stands};

use crate::browsed::Browsed;
use browser_commands::put_refusal;
use hii_bytes::{Cause, Watched};
use hii_commands::{LineBuffer, SCRIPT_LIMIT};
use memchr::memchr_iter;
use session_steps::{End, RunFault};
use std::io;
use std::io::{Read, Write};

// The most bytes that a script may have.
const LIMIT: usize = SCRIPT_LIMIT as usize;

// The most bytes of one read.
const PIECE: usize = 512;

/// Runs the lines of a script. A line that is not empty at the script's end needs no LF. The answers are passed on before
/// each read and at the end.
pub(crate) fn run_all<R: Read, W: Write>(
    core: &mut Browsed<'_>,
    line: &mut LineBuffer,
    script: &mut Watched<R>,
    out: &mut Watched<W>,
) -> Result<End, RunFault>
    ensures run { Runs core.old (pen_of W.contents out.old)
        (R.remaining (inner_of script.old)) result
        core.new (pen_of W.contents out.new) (R.remaining (inner_of script.new)) }
    ensures reads { result ≡ Err RunFault.Read → has_failed script.new ≡ true }
    ensures writes { result ≡ Err RunFault.Write → has_failed out.new ≡ true }
    ensures sound { IfOk result (λ end. has_failed script.new ≡ false) }
    ensures passed_on { OnOk result (has_passed_on out.new ≡ true) }
    ensures passed_on_before_reads { result ≡ Err RunFault.Read → has_passed_on out.new ≡ true }
{
    line.clear();
    if !passes_on(out) {
        return Err(RunFault::Write);
    }
    let mut piece = [0u8; PIECE];
    let mut count = 0usize;
    while count <= LIMIT {
        let room = (LIMIT + 1 - count).min(PIECE);
        let buf = &mut piece[..room];
        let Ok(n) = read_piece(script, buf, out) else {
            return Err(RunFault::Read);
        };
        if n == 0 {
            core.run_line(line, out);
            return if passes_on(out) {
                Ok(End::Done)
            } else {
                Err(RunFault::Write)
            };
        }
        let within = n.min(LIMIT - count);
        run_piece(core, line, &buf[..within], out);
        if !passes_on(out) {
            return Err(RunFault::Write);
        }
        count += n;
    }
    put_refusal(Cause::ScriptTooLong, out);
    if passes_on(out) {
        Ok(End::TooLong)
    } else {
        Err(RunFault::Write)
    }
}

// Passes on what the writer holds back, and answers whether the writer has not failed.
fn passes_on<W: Write>(out: &mut Watched<W>) -> bool
    ensures flushes { Flushes (pen_of W.contents out.old) (pen_of W.contents out.new) }
    ensures fault { has_failed out.new ≡ not result }
    ensures passed_on { result ≡ true → has_passed_on out.new ≡ true }
{
    out.flush().is_ok()
}

// Reads a piece of the script, where all answers to what was read before are passed on. Nothing else reads the script.
fn read_piece<R: Read, W: Write>(
    script: &mut Watched<R>,
    buf: &mut [u8],
    _answers: &Watched<W>,
) -> io::Result<usize>
    requires { has_passed_on _answers.now ≡ true }
    ensures bound { ReadsAtMost result buf.new }
    ensures bytes { ReadConsumes (R.remaining (inner_of script.old))
        (R.remaining (inner_of script.new)) result buf.new }
    ensures fault { has_failed script.new ≡ is_err result }
    ensures stays { has_failed script.old ≡ true → IsErr result }
{
    script.read(buf)
}

// Runs each line that the piece ends, unless the writer fails, and holds what stands behind its last LF. Only the first of these
// lines may have begun before the piece: the others are run from the piece itself.
fn run_piece<W: Write>(
    core: &mut Browsed<'_>,
    line: &mut LineBuffer,
    piece: &[u8],
    out: &mut Watched<W>,
)
    ensures stands { (start : Shown) (pen : Pen) (bytes : List ℕ)
        → Stands start pen bytes core.old line.old (pen_of W.contents out.old)
        → has_failed out.new ≡ false
        → Stands start pen (bytes ++ piece.now) core.new line.new (pen_of W.contents out.new) }
    ensures stops { (start : Shown) (pen : Pen) (bytes : List ℕ)
        → Stands start pen bytes core.old line.old (pen_of W.contents out.old)
        → has_failed out.new ≡ true
        → StopsAtLine start pen (length (whole_lines bytes)) (whole_lines (bytes ++ piece.now))
        core.new (pen_of W.contents out.new) }
{
    let fed = line.feed(piece);
    if !fed.complete {
        return;
    }
    core.run_line(line, out);
    line.clear();
    if out.failed() {
        return;
    }
    let mut rest = &piece[fed.taken..];
    while let Some((whole, behind)) = split_line(rest) {
        core.run_bytes(whole, out);
        if out.failed() {
            return;
        }
        rest = behind;
    }
    line.feed(rest);
}

// The bytes before the first LF and those behind it, or none where no line ends.
#[inline(always)]
fn split_line(bytes: &[u8]) -> Option<(&[u8], &[u8])>
    ensures { MatchOption result (before_first ends_line bytes.now ≡ bytes.now)
        (λ parts. (parts.0.now ≡ before_first ends_line bytes.now)
        × (bytes.now ≡ (parts.0.now ++ 10 ∷ []) ++ parts.1.now)) }
{
    let end = first_end(bytes)?;
    Some((&bytes[..end], &bytes[end + 1..]))
}

// The place of the first LF, which is likely to be near.
#[inline(always)]
fn first_end(bytes: &[u8]) -> Option<usize>
    ensures { result ≡ position ends_line bytes.now }
{
    memchr_iter(b'\n', bytes).next()
}
