//! Configuration texts: requests and responses, read and written (UEFI 2.8, 34.2.1 String Grammar; the limits, the faults and
//! how a response is written where the grammar leaves a choice are own rules).
#![tactic(auto)]

mod block;
mod blocks;
mod digits;
mod elements;
mod groups;
mod header;
mod kind;
pub mod laws;
mod parts;
mod put_digits;
mod read;
mod request;
mod response;
mod write;

pub use block::Block;
pub use blocks::Blocks;
pub use header::Header;
pub use read::{read_request, read_response};
pub use request::Request;
pub use response::Response;
pub use write::{put_response, write_response};
