//! Facts of audits as objects of JSON, one a line (RFC 8259; which members stand in one, and in which order, is an own rule).
#![tactic(auto)]

mod objects;
mod strings;
mod telling;

pub use objects::{
    end_object, put_array_end, put_before_item, put_error, put_fault_member, put_first_member,
    put_guid_member, put_kind, put_member, put_number, put_refused, put_refused_at, put_shown,
    put_string, put_true, put_word,
};
pub use strings::{put_escaped_name, put_json_bytes, put_json_char, put_json_shown, put_json_str};
pub use telling::Telling;
