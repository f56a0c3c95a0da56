//! What the reader and the editor of `.properties` files share: errors, lines and what ends them, what a logical line
//! is, and what is found about lines.
//!
//! `java_properties` re-exports the types that its callers need. The functions here are for the crates above, and so
//! are the modules: `java_properties` doesn't re-export them.
#![tactic(auto)]

pub mod borrowed;
pub mod error;
pub mod findings;
pub mod found;
pub mod line;
