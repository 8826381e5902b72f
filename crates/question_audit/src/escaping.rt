//! How characters are written.

ghost use Rattle.std.specs.Prelude.{◌≡◌};
ghost use Rattle.hii_bytes.specs.Watching.{Puts};
ghost use Rattle.hii_languages.specs.code.Views.{chars_left};
ghost use Rattle.question_audit.specs.code.Escaped.{escaped, escaped_text};

use audit_json::put_json_char;
use audit_text::put_safe_char;
use hii_bytes::Watched;
use hii_languages::ShownChars;
use std::io::Write;

/// What the characters of a text are written for.
#[derive(Clone, Copy)]
pub(crate) enum Escaping {
    /// A line.
    Line,
    /// A string of JSON.
    Json,
}

impl Escaping {
    /// Writes a character.
    pub fn put_char<W: Write>(self, c: char, out: &mut Watched<W>)
        ensures { Puts W.contents out.old out.new (escaped self c) }
    {
        match self {
            Escaping::Line => put_safe_char(out, c),
            Escaping::Json => put_json_char(out, c),
        }
    }

    /// Writes the characters of a text of a list as it is shown.
    pub fn put_shown<W: Write>(self, text: ShownChars<'_>, out: &mut Watched<W>)
        ensures { Puts W.contents out.old out.new (escaped_text self (chars_left text.entry)) }
    {
        let mut text = text;
        while let Some(c) = text.next() {
            self.put_char(c, out);
        }
    }
}
