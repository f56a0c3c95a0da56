//! The definitions of the properties format, and the mathematics about them.
//!
//! Nothing runs from here. The pages in `specs/` say what a properties file is and what a writer prints, one topic a
//! page, in the order in which data flows. The pages in `proofs/` prove that each definition has exactly one result.
#![tactic(auto)]
