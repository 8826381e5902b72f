//! A form set is read once, and what is told of it is looked at part by part.

use crate::conditions::condition_is_told;
use crate::questions::questions_are_told;
use crate::scopes::{form_set_and_form_are_told, guards_and_locks_are_told, rules_are_told};
use crate::stores::stores_are_told;
use hii_packages::{FORMS, Package};
use ifr_scopes::Forms;
use std::process::Abort;

static PACKAGE: [u8; 318] = [
    0, 0, 0, 2, // the package's header
    0x0e, 0x97, 1, 2, 3, 4, 5, 6, 7, 8, 9, 10, 11, 12, 13, 14, 15, 16, 0x21, 0x43, 5, 0, 1, // FORM_SET, at 4
    0x24, 24, 1, 2, 3, 4, 5, 6, 7, 8, 9, 10, 11, 12, 13, 14, 15, 16, 1, 0, 2, 0, b'A', 0, // VARSTORE, at 27
    0x26, 27, 2, 0, 1, 2, 3, 4, 5, 6, 7, 8, 9, 10, 11, 12, 13, 14, 15, 16, 0, 0, 0, 0, 9, 0, 0, // VARSTORE_EFI, at 51
    0x25, 20, 3, 0, 1, 2, 3, 4, 5, 6, 7, 8, 9, 10, 11, 12, 13, 14, 15, 16, // VARSTORE_NAME_VALUE, at 78
    0x0a, 0x82, // SUPPRESS_IF, at 98
    0x12, 0x86, 9, 0, 0, 0, // question 9 answers 0, at 100
    0x13, 6, 1, 0, 2, 0, // questions 1 and 2 answer the same, at 106
    0x15, 2, // AND, at 112
    0x14, 6, 7, 0, 0, 0, // question 7 answers one of none, at 114
    0x15, 2, // AND, at 120
    0x40, 4, 8, 0, // question 8, at 122
    0x15, 2, // AND, at 126
    0x3f, 3, 5, // RULE_REF of 5, at 128
    0x15, 2, // AND, at 131
    0x3f, 3, 6, // RULE_REF of 6, at 133
    0x15, 2, // AND, at 136
    0x58, 2, // THIS, at 138
    0x15, 2, // AND, at 140
    0x17, 2, // NOT, at 142
    0x29, 2, // END, at 144
    0x01, 0x86, 7, 0, 8, 0, // a form of the id 7 with the title 8, at 146
    0x0a, 0x82, 0x46, 2, // SUPPRESS_IF with TRUE, at 152
    0x06, 0x8e, 3, 0, 0, 0, 1, 0, 0, 0, 0, 0, 0, 0, // a checkbox of the id 1, at 156
    0x10, 0x84, 9, 0, 0x46, 2, 0x29, 2, // NO_SUBMIT_IF with TRUE and the text 9, at 170
    0x11, 0x84, 10, 0, 0x46, 2, 0x29, 2, // INCONSISTENT_IF with TRUE and the text 10, at 178
    0x63, 0x85, 11, 0, 0, 0x46, 2, 0x29, 2, // WARNING_IF with TRUE and the text 11, at 186
    0x29, 2, 0x29, 2, // END, at 195 and 197
    0x05, 0x91, 3, 0, 0, 0, 2, 0, 1, 0, 0, 0, 0, 0x10, 0, 0, 0, // ONE_OF of the id 2, of bytes, at 199
    0x09, 7, 5, 0, 0x10, 0, 4, // the option 4, the default, at 216
    0x0a, 0x82, 0x46, 2, // SUPPRESS_IF with TRUE, at 223
    0x09, 7, 6, 0, 0, 0, 5, // the option 5, at 227
    0x29, 2, // END, at 234
    0x5b, 6, 0, 0, 0, 5, // a default 5 of the class 0, at 236
    0x5b, 0x85, 1, 0, 8, // a default of the class 1, at 242
    0x5a, 0x82, // VALUE, at 247
    0x42, 0x83, 2, 0x42, 3, 3, 0x3a, 2, 0x29, 2, // 2 + 3, at 249
    0x29, 2, 0x29, 2, 0x29, 2, // END, at 259, 261 and 263
    0x0b, 2, // LOCKED, at 265
    0x0a, 0x82, 0x3f, 3, 5, 0x29, 2, // SUPPRESS_IF with RULE_REF of 5, at 267
    0x18, 0x83, 5, 0x46, 2, 0x29, 2, // the rule 5: TRUE, at 274
    0x0a, 0x82, 0x3f, 3, 5, 0x29, 2, // SUPPRESS_IF with RULE_REF of 5, at 281
    0x18, 0x83, 6, 0x12, 6, 7, 0, 1, 0, 0x29, 2, // the rule 6: question 7 answers 1, at 288
    0x0a, 0x82, // SUPPRESS_IF, at 299
    0x3f, 0x83, 6, 0x58, 2, 0x15, 2, 0x29, 2, // RULE_REF of 6 and THIS, at 301
    0x29, 2, // END, at 310
    0x29, 2, 0x29, 2, 0x29, 2, // END, at 312, 314 and 316
];

// The package, of whose bytes proofs know nothing.
fn bytes() -> &'static [u8] {
    &PACKAGE
}

fn package(rt: &impl Abort) -> Package<'static> {
    let bytes = bytes();
    assert!(rt; bytes.len() == 318);
    Package {
        place: 0,
        kind: FORMS,
        bytes,
    }
}

// Each of what follows looks at one part, and has no clause, so that no test carries the contracts of two views.
#[test]
fn a_form_set_is_read(rt: HostRuntime) {
    let forms = Forms::read(rt.alloc(), package(&rt)).expect(&rt, "a form set");
    stores_are_told(&rt, &forms);
    form_set_and_form_are_told(&rt, &forms);
    condition_is_told(&rt, &forms);
    questions_are_told(&rt, &forms);
    guards_and_locks_are_told(&rt, &forms);
    rules_are_told(&rt, &forms);
}
