//! One list of a dump, taken by its number.

ghost use Rattle.std.specs.Prelude.{◌≡◌, [], true, false, Option, IfOk, OnErr, option_map};
ghost use Rattle.std.specs.Io.Buffered.{writer_buffer, writer_contents};
ghost use Rattle.hii_bytes.specs.Watching.{has_failed, inner_of, pen_of};
ghost use Rattle.hii_dumps.specs.Dumps.{Entry};
ghost use Rattle.hii_dumps.specs.code.Lists.{entry_of};
ghost use Rattle.dump_audit.specs.Taking.{IsNth, TellsList, TakesBytes};

use crate::lines::{put_list, put_no_list};
use audit_json::Telling;
use hii_bytes::Watched;
use hii_dumps::{Dump, DumpedList};
use std::alloc::{AllocError, Global};
use std::io::{BufWriter, Write};

/// The list of a number in a dump, counted from 1, with its place in bytes from the dump's first one. Of what the list is nothing is
/// asked (own rule).
pub fn nth_list(dump: &[u8], number: u64) -> Option<DumpedList<'_>>
    ensures { IsNth dump.entry.now number (option_map entry_of result) }
{
    Dump::read(dump).list(number)
}

/// Tells the list of a number, counted from 1, passes that on, and then writes the list's bytes into a file; or writes
/// that there is no such list, and does not pass that on. Tells whether there is one (own rule). The file is not written where there
/// is none, where the answers fail, or where an allocation fails, and then no answer is written either.
pub fn put_taken<W: Write + Drop, F: Write>(
    telling: Telling,
    alloc: Global,
    dump: &[u8],
    number: u64,
    out: &mut Watched<BufWriter<W>>,
    file: &mut Watched<F>,
) -> Result<bool, AllocError>
    ensures taken { IfOk result (λ is_there. (list : Option Entry) × IsNth dump.now number list
        × TellsList telling number list is_there
        (pen_of (writer_contents W.contents) out.old)
        (pen_of (writer_contents W.contents) out.new)
        × TakesBytes list (has_failed out.new) F.contents file.old file.new) }
    ensures none_held { IfOk result (λ is_there. is_there ≡ true → has_failed out.new ≡ false
        → writer_buffer (inner_of out.new) ≡ []) }
    ensures nothing_told { OnErr result (out.new ≡ out.old) }
    ensures nothing_taken { OnErr result (file.new ≡ file.old) }
{
    let Some(list) = nth_list(dump, number) else {
        put_no_list(telling, number, out);
        return Ok(false);
    };
    put_list(telling, alloc, number, list, out)?;
    if out.pass_on().is_ok() {
        file.put(list.bytes);
    }
    Ok(true)
}
