//! Conditions in words.

use condition_text::ConditionText;
use hii_bytes::Watched;
use ifr_expr::Expr;
use std::io::Write;

/// EQ_ID_VAL of question 7 and the value 1.
const CONDITION: [u8; 6] = [0x12, 6, 7, 0, 1, 0];

/// What it says.
const WORDS: &[u8] = b"ideqval q7 == 1";

#[test]
fn a_condition_is_said_in_words(rt: HostRuntime) {
    let condition = Expr::check(&CONDITION, 0, 6).expect(&rt, "a condition");
    assert!(rt; condition.operators().next().is_some());
    let said = ConditionText::of(condition);
    let mut out = Watched::new(Vec::new(rt.alloc()));
    said.put(&mut out);
    assert!(rt; out.into_inner().as_slice() == WORDS);
}
