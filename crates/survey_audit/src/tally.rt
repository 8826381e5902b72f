//! How many questions stand so.

ghost use Rattle.std.specs.Prelude.{◌≡◌, ◌+◌, ◌<◌, ◌^◌, []};
ghost use Rattle.hii_bytes.specs.Watching.{Puts};
ghost use Rattle.survey_audit.specs.Lines.{tally_members, tally_words};
ghost use Rattle.survey_audit.specs.code.Room.{HasRoom, added, counted};

use crate::standing::Standing;
use audit_json::put_number;
use hii_bytes::Watched;
use std::io::Write;

/// How many questions stand so (own rule).
#[derive(Clone, Copy)]
pub struct Tally {
    /// Those that may be changed.
    pub changeable: usize,
    /// Those whose change a GRAY_OUT_IF forbids.
    pub grayed: usize,
    /// Those whose change a SUPPRESS_IF forbids.
    pub hidden: usize,
    /// Those whose change a DISABLE_IF forbids.
    pub disabled: usize,
    /// Those whose change no condition forbids.
    pub fixed: usize,
    /// Those whose change a guard forbids whose condition names no question.
    pub constant: usize,
}

impl Tally {
    ghost use Rattle.survey_audit.specs.Counts.{tally_of};
    ghost use Rattle.guard_policy.specs.World.{World};

    /// None.
    pub(crate) fn none() -> Tally
        ensures { (w : World) → result ≡ tally_of w [] }
    {
        Tally {
            changeable: 0,
            grayed: 0,
            hidden: 0,
            disabled: 0,
            fixed: 0,
            constant: 0,
        }
    }

    /// These and one more that stands so, whose guard names a question or none.
    pub(crate) fn with(self, standing: Standing, is_constant: bool) -> Tally
        requires { HasRoom self }
        ensures { result ≡ added self standing is_constant }
    {
        Tally {
            changeable: counted(self.changeable, standing.is_open()),
            grayed: counted(self.grayed, standing.is_grayed()),
            hidden: counted(self.hidden, standing.is_hidden()),
            disabled: counted(self.disabled, standing.is_disabled()),
            fixed: counted(self.fixed, standing.is_fixed()),
            constant: counted(self.constant, is_constant),
        }
    }
}

// A count, and one more where it is one of them.
fn counted(count: usize, is_one: bool) -> usize
    requires { count + 1 < 2 ^ 64 }
    ensures { result ≡ counted is_one count }
{
    if is_one { count + 1 } else { count }
}

/// Writes how many questions stand so in words.
pub(crate) fn put_tally_words<W: Write>(tally: Tally, out: &mut Watched<W>)
    ensures { Puts W.contents out.old out.new (tally_words tally) }
{
    out.put(b"open ");
    out.put_decimal(tally.changeable as u64);
    out.put(b", grayed ");
    out.put_decimal(tally.grayed as u64);
    out.put(b", hidden ");
    out.put_decimal(tally.hidden as u64);
    out.put(b", disabled ");
    out.put_decimal(tally.disabled as u64);
    out.put(b", fixed ");
    out.put_decimal(tally.fixed as u64);
    out.put(b", constant ");
    out.put_decimal(tally.constant as u64);
}

/// Writes this as members of an object.
pub(crate) fn put_tally_members<W: Write>(tally: Tally, out: &mut Watched<W>)
    ensures { Puts W.contents out.old out.new (tally_members tally) }
{
    put_number(b"open", tally.changeable as u64, out);
    put_number(b"grayed", tally.grayed as u64, out);
    put_number(b"hidden", tally.hidden as u64, out);
    put_number(b"disabled", tally.disabled as u64, out);
    put_number(b"fixed", tally.fixed as u64, out);
    put_number(b"constant", tally.constant as u64, out);
}
