//! What callers write. docs/CALLING.md shows these texts and explains them.
#![tactic(auto)]

pub mod catalogue;
pub mod compare;
pub mod convert;
pub mod copy;
pub mod count;
pub mod document;
pub mod edit;
pub mod find;
pub mod greetings;
pub mod lint;
pub mod load;
pub mod lookup;
pub mod migrate;
pub mod ordered;
pub mod pairs;
pub mod replace;
pub mod settings;
pub mod translators;
pub mod value;

// How tests compare: a call of `same` is proved in no time, and an `assert_eq!` in the body of a test with all that the
// test holds.
#[cfg(test)]
mod same {
    use std::fmt::Debug;
    use std::process::Abort;

    /// Fails the test unless what was found is what was wanted.
    pub fn same<T: PartialEq + Debug + Copy>(rt: &impl Abort, found: T, wanted: T) {
        assert_eq!(*rt; found, wanted);
    }
}
