//! Members that objects of questions share.

ghost use Rattle.std.specs.Prelude.{◌≡◌, ◌+◌, ◌<◌, ◌^◌};
ghost use Rattle.hii_bytes.specs.Watching.{Puts};
ghost use Rattle.hii_languages.specs.code.Views.{text_of};
ghost use Rattle.ifr_opcodes.specs.Forest.{Node as Placed};
ghost use Rattle.question_objects.specs.Members.{denial_members, member_where, place_members, shown_member};

use audit_json::{put_number, put_shown, put_true, put_word};
use guard_policy::Denial;
use hii_bytes::Watched;
use hii_languages::Shown;
use std::io::Write;

/// Writes a member that is a text of a list as it is shown, if it has a character.
pub fn put_text<W: Write>(key: &[u8], text: Shown<'_>, out: &mut Watched<W>)
    ensures { Puts W.contents out.old out.new (shown_member key.now (text_of text.entry)) }
{
    if text.chars().next().is_some() {
        put_shown(key, text.chars(), out);
    }
}

/// Writes a member for a fact, where it is so.
pub(crate) fn put_where<W: Write>(holds: bool, key: &[u8], out: &mut Watched<W>)
    ensures { Puts W.contents out.old out.new (member_where holds key.now) }
{
    if holds {
        put_true(key, out);
    }
}

/// Writes the place of an opcode in its forms package, which stands at a place of the file, and its byte in this.
pub(crate) fn put_places<W: Write>(package_place: u64, place: u32, out: &mut Watched<W>)
    requires { package_place + place < 2 ^ 64 }
    ensures { (n : Placed) → place ≡ n.place
        → Puts W.contents out.old out.new (place_members package_place n) }
{
    let place = u64::from(place);
    put_number(b"at", place, out);
    put_number(b"byte", package_place + place, out);
}

/// Writes what forbids, and where.
pub(crate) fn put_denial<W: Write>(
    key: &[u8],
    place_key: &[u8],
    denial: Denial,
    out: &mut Watched<W>,
)
    ensures { Puts W.contents out.old out.new (denial_members key.now place_key.now denial) }
{
    put_word(key, denial.kind.name().as_bytes(), out);
    put_number(place_key, u64::from(denial.place), out);
}
