//! Conditions, and what they say.

ghost use Rattle.std.specs.Prelude.{◌≡◌, ◌+◌, ◌<◌, ◌^◌, codes};
ghost use Rattle.hii_bytes.specs.Watching.{Puts};
ghost use Rattle.audit_json.specs.Objects.{word_member};
ghost use Rattle.condition_text.specs.code.Conditions.{words_of};
ghost use Rattle.ifr_opcodes.specs.Forest.{Node as Placed};
ghost use Rattle.ifr_opcodes.specs.Opcode.{number};
ghost use Rattle.question_audit.specs.ConditionFacts.{condition_words};
ghost use Rattle.question_objects.specs.Conditions.{condition_members, named_condition};

use crate::members::put_places;
use audit_json::{put_first_member, put_member, put_word};
use audit_text::opcode_name;
use condition_text::ConditionText;
use hii_bytes::Watched;
use std::io::Write;

/// How a condition is told, beside what it says.
#[derive(Clone, Copy)]
pub(crate) struct Heading<'t> {
    /// The number of its opcode.
    pub code: u8,
    /// Where its opcode stands in the forms package, in bytes.
    pub place: u32,
    /// Where the forms package stands in the file, in bytes.
    pub package_place: u64,
    /// How it stands.
    pub state: &'t [u8],
}

/// Writes what a condition says.
pub(crate) fn put_words<W: Write>(text: &ConditionText<'_>, out: &mut Watched<W>)
    ensures { Puts W.contents out.old out.new (word_member (codes "condition") (words_of text.now)) }
{
    put_member(b"condition", out);
    out.put(b"\"");
    text.put(out);
    out.put(b"\"");
}

/// Writes the places of a condition, how it stands, and what it says.
pub(crate) fn put_condition<W: Write>(
    heading: Heading<'_>,
    text: &ConditionText<'_>,
    out: &mut Watched<W>,
)
    requires { heading.package_place + heading.place < 2 ^ 64 }
    ensures { (c : Placed) → heading.entry.place ≡ c.place → words_of text.now ≡ condition_words c
        → Puts W.contents out.old out.new
        (condition_members heading.entry.package_place c heading.entry.state.now) }
{
    put_places(heading.package_place, heading.place, out);
    put_word(b"state", heading.state, out);
    put_words(text, out);
}

/// Writes this behind the name of the condition's opcode.
pub(crate) fn put_named<W: Write>(
    heading: Heading<'_>,
    text: &ConditionText<'_>,
    out: &mut Watched<W>,
)
    requires { heading.package_place + heading.place < 2 ^ 64 }
    ensures { (c : Placed) → heading.entry.place ≡ c.place → heading.entry.code ≡ number c.op
        → words_of text.now ≡ condition_words c
        → Puts W.contents out.old out.new
        (named_condition heading.entry.package_place c heading.entry.state.now) }
{
    put_first_member(b"opcode", out);
    out.put(b"\"");
    out.put(opcode_name(heading.code));
    out.put(b"\"");
    put_condition(heading, text, out);
}
