//! What stands before a place of a forms package.

ghost use Rattle.std.specs.Prelude.{◌≡◌, ◌≤◌, drop, length, option_map, take};
ghost use Rattle.check_audit.specs.Behind.{form_in, opcode_at, question_in, seen_before, seen_with};

use hii_bytes::u16_at;
use ifr_opcodes::{FORM, is_question};
use opcode_audit::split_front;

/// A form with the string id of its title, or a question with that of its prompt.
#[derive(Clone, Copy)]
pub(crate) struct Named {
    pub id: u16,
    pub text: u16,
}

/// The last form of some opcodes, and the last question behind it.
#[derive(Clone, Copy)]
pub(crate) struct Seen {
    pub form: Option<Named>,
    pub question: Option<Named>,
}

impl Seen {
    // What is seen with one more opcode.
    fn with(self, opcode: &[u8]) -> Seen
        requires { 2 ≤ length opcode.now }
        ensures { result ≡ seen_with self opcode.now }
    {
        if let Some(form) = form_in(opcode) {
            return Seen {
                form: Some(form),
                question: None,
            };
        }
        match question_in(opcode) {
            Some(question) if self.form.is_some() => Seen {
                form: self.form,
                question: Some(question),
            },
            _ => self,
        }
    }
}

// The form that an opcode is, if none of its fields is cut.
fn form_in(opcode: &[u8]) -> Option<Named>
    requires { 2 ≤ length opcode.now }
    ensures { result ≡ form_in opcode.now }
{
    if opcode[0] != FORM || opcode.len() < 6 {
        return None;
    }
    Some(Named {
        id: u16_at(opcode, 2)?,
        text: u16_at(opcode, 4)?,
    })
}

// The question that an opcode is, if its header is not cut.
fn question_in(opcode: &[u8]) -> Option<Named>
    requires { 2 ≤ length opcode.now }
    ensures { result ≡ question_in opcode.now }
{
    if !is_question(opcode[0]) || opcode.len() < 13 {
        return None;
    }
    Some(Named {
        id: u16_at(opcode, 6)?,
        text: u16_at(opcode, 2)?,
    })
}

// The opcodes of a forms package before a place.
fn opcodes_before(ifr: &[u8], place: u64) -> &[u8]
    ensures { result.now ≡ drop 4 (take place ifr.entry.now) }
{
    let end = ifr.len().min(place as usize);
    ifr[..end].get(4..).unwrap_or(&[])
}

/// The last form of the opcodes before a place of a forms package, as far as their lengths allow, and the last question behind it.
pub(crate) fn seen_before(ifr: &[u8], place: u64) -> Seen
    ensures { result ≡ seen_before ifr.now place }
{
    let mut rest = opcodes_before(ifr, place);
    let mut seen = Seen {
        form: None,
        question: None,
    };
    while let Some((opcode, behind)) = split_front(rest) {
        seen = seen.with(opcode);
        rest = behind;
    }
    seen
}

/// The bytes of the opcode at a place of a forms package, of those that are there, where its header is.
pub(crate) fn opcode_at(ifr: &[u8], place: u64) -> Option<&[u8]>
    ensures { option_map (λ op. op.now) result ≡ opcode_at ifr.entry.now place }
{
    let rest = ifr.get(place as usize..)?;
    let [_, sized, ..] = rest else {
        return None;
    };
    let length = usize::from(*sized & 0x7f).max(2);
    Some(&rest[..length.min(rest.len())])
}
