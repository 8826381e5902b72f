//! An index of a forms package whose nodes have no fault: its tables, how one walk checks the nodes and makes them, and how they are
//! searched (UEFI 2.8, 33.3.8 Forms Package; what a LOCKED locks and what is a fault are own rules).
#![tactic(auto)]

mod giving;
mod index;
mod indexing;
mod level;
mod locking;
mod references;
mod ruling;
mod soundness;
mod tables;

pub use index::{
    ConditionEntry, Entry, GuardEntry, Index, condition_at, conditions_behind, entries_behind,
    entry_at, guard_at, guards_behind, number_of, places_behind,
};
pub use indexing::index_of;
pub use ruling::rules_of;
