//! What the programs `propfilter` and `propedit` do that rows of `program_vectors` don't show: over streams that fail, in
//! place of files, and by the calls of the library below them.
//!
//! The tests are tables. A row is a run: its arguments, its input, its status, and what it prints.
#![tactic(auto)]

#[cfg(test)]
mod comparing;
#[cfg(test)]
mod faults;
#[cfg(test)]
mod filtering;
#[cfg(test)]
mod in_place;
#[cfg(test)]
mod merging;
#[cfg(test)]
mod propfilter;
#[cfg(test)]
mod runs;
#[cfg(test)]
mod same;
#[cfg(test)]
mod streams;
#[cfg(test)]
mod two_sources;
