//! The form set of the cases, and what is read of it.

ghost use Rattle.std.specs.Prelude.{◌≡◌, IfOk, IfSome};
ghost use Rattle.ifr_nodes.specs.Accepted.{IsAccepted};
ghost use Rattle.ifr_nodes.specs.code.Checked.{IsNodeOf};
ghost use Rattle.ifr_scopes.specs.code.Lists.{form_node};

use hii_bytes::{Cause, Fault};
use hii_languages::Languages;
use hii_packages::{FORMS, Package, PackageList};
use hii_questions::Questions;
use hii_varstore::{Layout, Stores};
use ifr_scopes::laws::a_node_is_that_of_its_place;
use ifr_scopes::{Form, Forms};
use std::alloc::Global;

static PACKAGE: [u8; 224] = [
    0, 0, 0, 2, // the package's header
    0x0e, 0x97, 0x22, 0x22, 0x22, 0x22, 0x22, 0x22, 0x22, 0x22, 0x22, 0x22, 0x22, 0x22, 0x22, 0x22,
    0x22, 0x22, 1, 0, 2, 0, 0, // FORM_SET, at 4
    0x24, 24, 1, 2, 3, 4, 5, 6, 7, 8, 9, 10, 11, 12, 13, 14, 15, 16, 1, 0, 6, 0, b'A', 0, // VARSTORE of the id 1 and 6 bytes, at 27
    0x0a, 0x82, // SUPPRESS_IF, at 51
    0x12, 0x06, 7, 0, 1, 0, // question 7 answers 1, at 53
    0x01, 0x86, 1, 0, 2, 0, // a form of the id 1 with the title 2, at 59
    0x06, 0x8e, 3, 0, 2, 0, 7, 0, 1, 0, 1, 0, 0, 1, // a checkbox of the id 7, byte 1, whose default is 1, at 65
    0x11, 0x84, 4, 0, // INCONSISTENT_IF with the text 4, at 79
    0x12, 0x06, 5, 0, 2, 0, // question 5 answers 2, at 83
    0x29, 0x02, // END, at 89
    0x10, 0x84, 5, 0, // NO_SUBMIT_IF with the text 5, at 91
    0x12, 0x06, 5, 0, 2, 0, // question 5 answers 2, at 95
    0x29, 0x02, // END, at 101
    0x63, 0x85, 6, 0, 0, // WARNING_IF with the text 6, at 103
    0x12, 0x06, 5, 0, 2, 0, // question 5 answers 2, at 108
    0x29, 0x02, // END, at 114
    0x29, 0x02, // END, at 116
    0x0a, 0x82, // SUPPRESS_IF, at 118
    0x12, 0x06, 7, 0, 0, 0, // question 7 answers 0, at 120
    0x06, 0x0e, 3, 0, 2, 0, 6, 0, 1, 0, 0, 0, 0, 0, // a checkbox of the id 6, byte 0, at 126
    0x29, 0x02, // END, at 140
    0x1e, 0x82, // DISABLE_IF, at 142
    0x46, 0x02, // TRUE, at 144
    0x06, 0x0e, 3, 0, 2, 0, 4, 0, 1, 0, 0, 0, 0, 0, // a checkbox of the id 4, byte 0, at 146
    0x29, 0x02, // END, at 160
    0x05, 0x91, 3, 0, 2, 0, 5, 0, 1, 0, 2, 0, 0, 0, 0, 9, 0, // ONE_OF of the id 5, byte 2, at 162
    0x19, 0x82, // GRAY_OUT_IF, at 179
    0x46, 0x02, // TRUE, at 181
    0x09, 0x07, 2, 0, 0, 0, 1, // an option of the value 1, at 183
    0x29, 0x02, // END, at 190
    0x09, 0x07, 3, 0, 0, 0, 2, // an option of the value 2, at 192
    0x29, 0x02, // END, at 199
    0x08, 17, 3, 0, 2, 0, 9, 0, 1, 0, 4, 0, 0, 0, 0, 1, 0, // a password of the id 9, bytes 4 and 5, at 201
    0x29, 0x02, // END, at 218
    0x29, 0x02, // END, at 220
    0x29, 0x02, // END, at 222
];

// A list with a string package, in which the text 3 is `Box`.
static STRINGS: &[u8] =
    b"\x11\x11\x11\x11\x11\x11\x11\x11\x11\x11\x11\x11\x11\x11\x11\x11\x55\0\0\0\
\x3d\0\0\x04\x2f\0\0\0\x31\0\0\0\0\0\0\0\0\0\0\0\0\0\0\0\0\0\0\0\0\0\0\0\0\0\0\0\0\0\0\0\0\0\0\0\x01\0\
en\0\x22\x02\x14B\0o\0x\0\0\0\0\
\x04\0\0\xdf";

// An image in which question 5 is 2, and all others are 0.
static IMAGE: &[u8] =
    b"HVS2\"\"\"\"\"\"\"\"\"\"\"\"\"\"\"\"\x01\x00\x01\x00\x06\x00\x00\x00\x02\x00\x00\x00";

// The bytes of the cases come from functions without clauses, so that no proof computes with them.

fn package() -> &'static [u8] {
    &PACKAGE
}

fn string_list() -> &'static [u8] {
    STRINGS
}

pub(crate) fn image() -> &'static [u8] {
    IMAGE
}

pub(crate) fn read_forms(alloc: Global) -> Result<Forms<'static>, Fault>
    ensures { IfOk result IsAccepted }
{
    let bytes = package();
    if bytes.len() < 4 || bytes.len() >= 1 << 24 {
        return Err(Fault {
            cause: Cause::PackageLength,
            place: 0,
        });
    }
    let source = Package {
        place: 0,
        kind: FORMS,
        bytes,
    };
    Forms::read(alloc, source)
}

pub(crate) fn read_questions<'a>(alloc: Global, forms: &Forms<'a>) -> Result<Questions<'a>, Fault>
    ensures { IfOk result (λ questions. questions.ifr ≡ forms.now) }
{
    let layout = Layout::read(alloc, forms)?;
    Questions::read(alloc, forms, &layout)
}

pub(crate) fn read_stores(alloc: Global, forms: &Forms<'_>) -> Result<Stores, Fault> {
    let layout = Layout::read(alloc, forms)?;
    Stores::read(alloc, &layout, image())
}

pub(crate) fn read_languages(alloc: Global) -> Result<Languages<'static>, Fault> {
    let list = PackageList::read(string_list())?;
    Languages::read(alloc, &list)
}

pub(crate) fn first_form<'a>(forms: &Forms<'a>) -> Option<Form<'a>>
    ensures { IfSome result (λ form. IsNodeOf forms.now (form_node form)) }
{
    a_node_is_that_of_its_place();
    // The package is accepted.
    forms.bytes();
    forms.forms().next()
}
