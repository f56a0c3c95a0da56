// Comparisons for the bodies of tests. The prover is done with a call of one of these at once, and with an assertion
// in the body of a test in a second or more. So bodies are tables, and loops that call these.

use std::alloc::AllocError;
use std::fmt::Debug;
use std::process::Abort;

/// Fails the test unless what was found is what was wanted.
pub fn same<T: PartialEq + Debug + Copy>(rt: &impl Abort, found: T, wanted: T) {
    assert_eq!(*rt; found, wanted);
}

/// Fails the test unless a text was made and is the one that was wanted.
pub fn shows(rt: &impl Abort, found: Result<String, AllocError>, wanted: &str) {
    match found {
        Ok(text) => same(rt, text.as_str(), wanted),
        Err(_) => panic!(*rt; "no memory for {wanted:?}"),
    }
}
