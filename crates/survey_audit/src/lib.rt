//! What is told of each forms package of a dump: how many of its questions may be changed over its stores, and those that are found by a
//! text of theirs; or by which fault it is refused (own rule; questions are those of UEFI 2.8, 33.2.5.4).
#![tactic(auto)]

mod counts;
mod faults;
mod finding;
mod found;
mod heading;
mod opened;
mod standing;
mod tally;
mod unfit;

pub use counts::Counts;
pub use faults::{put_fault, put_list_fault};
pub use finding::small_letters;
pub use heading::Heading;
pub use opened::put_opened;
pub use standing::Standing;
pub use tally::Tally;
pub use unfit::put_unfit;
