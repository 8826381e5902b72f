//! Values of conditions that are kept while bytes of stores are written (own rule).
#![tactic(auto)]

mod cache;
mod collection;
mod decisions;
mod dependents;
mod differences;
mod index;
mod invalidation;
pub mod laws;

pub use cache::{Kept, KeptStores};
pub use invalidation::Ranges;
