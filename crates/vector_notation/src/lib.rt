//! Runs the rows of tables of examples, and prints how many of each table hold, and those that don't.
//!
//! ```text
//! # Open lines are joined.
//! read windows-1252
//! "a=b\nc=d\\\ne=f"                 | pair 1 "a" "b"; pair 2 "c" "de=f"
//! "a\\\n"; fault TimedOut           | Io in line 2 by TimedOut
//! write utf-8
//! prefix "!"; comment "x"           | "!x\n"
//! sink 3 fault 2 Other; comment "x" | 1: Io in line 1 by Other; "# x"; faults 1
//! edit windows-1252 utf-8
//! "a=1\na=2\n"; put "a" "9"         | "a=1\na=9\n"
//! ```
//!
//! A heading says what the rows below it are of, and in which encodings each is run. What comes of the left side is
//! printed in this notation, and compared with the right side letter by letter.
//!
//! A program has its kinds of rows, as [`table::Rows`], and [`run::run_tables`] runs the tables that its arguments name.
//!
//! The expected values come from the rules of the format, and from the tests of the Rust crate that this is a port of.
#![tactic(auto)]

pub mod calls;
pub mod items;
pub mod notation;
pub mod outcome;
pub mod run;
pub mod sinks;
pub mod table;
