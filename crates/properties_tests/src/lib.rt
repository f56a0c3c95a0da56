//! What no table of rows shows: what items borrow, the parts of the library from outside, sources that are read and
//! written whole, and values as they are compared, copied, printed and debugged.
#![tactic(auto)]

#[cfg(test)]
mod failure;
#[cfg(test)]
mod key_edits;
pub mod last_number;
#[cfg(test)]
mod parts;
#[cfg(test)]
mod printed;
#[cfg(test)]
mod random_edits;
#[cfg(test)]
mod reading;
#[cfg(test)]
mod renaming;
#[cfg(test)]
mod same;
#[cfg(test)]
mod script;
#[cfg(test)]
mod streams;
#[cfg(test)]
mod values;
