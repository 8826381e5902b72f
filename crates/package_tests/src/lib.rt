//! Worked cases over numbers, streams, packages, strings, commands, configuration texts and opcodes, by public calls alone.
#![tactic(auto)]

#[cfg(test)]
mod commands;
#[cfg(test)]
mod conditions;
#[cfg(test)]
mod configuration_texts;
#[cfg(test)]
mod form_packages;
#[cfg(test)]
mod numbers;
#[cfg(test)]
mod opcodes;
#[cfg(test)]
mod packages;
#[cfg(test)]
mod questions;
#[cfg(test)]
mod scopes;
#[cfg(test)]
mod stores;
#[cfg(test)]
mod streams;
#[cfg(test)]
mod strings;
