//! Worked cases over stores, questions, decisions, pages, sessions, files and audits, and the calls that take memory, each refused for
//! want of it in turn; by public calls alone.
#![tactic(auto)]

#[cfg(test)]
mod broken;
#[cfg(test)]
mod calls;
#[cfg(test)]
mod conditions;
#[cfg(test)]
mod defaults;
#[cfg(test)]
mod dumps;
#[cfg(test)]
mod endings;
#[cfg(test)]
mod forms;
#[cfg(test)]
mod images;
#[cfg(test)]
mod lists;
#[cfg(test)]
mod objects;
#[cfg(test)]
mod opcodes;
#[cfg(test)]
mod opened;
#[cfg(test)]
mod pages;
#[cfg(test)]
mod pieces;
#[cfg(test)]
mod policies;
#[cfg(test)]
mod questions;
#[cfg(test)]
mod replacing;
#[cfg(test)]
mod sessions;
#[cfg(test)]
mod stores;
