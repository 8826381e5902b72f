//! That decoding an object of JSON gives its facts back: `Reading` says what a text of JSON says, and what audits write in their
//! objects is read as these facts (RFC 8259). Laws alone, no code that runs.
#![tactic(auto)]

pub mod members;
pub mod objects;
pub mod values;
