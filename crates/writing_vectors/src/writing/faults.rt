// Sinks that take little and fail at each of the writes that calls make.

use super::lists::check_lists;
use super::{Words, Written, shown, shown_with, write};
use vector_notation::notation::{Clause, Halt, Row};
use vector_notation::outcome::Outcome;
use vector_notation::sinks::{Failing, failing_writes};

/// The line in which a write fails is named, and after it no call touches the sink.
pub fn check_faults(calls: Row<'_>, whole: &Written, outcome: &mut Outcome) -> Result<(), Halt> {
    let alloc = calls.alloc;
    for failing in &failing_writes(alloc, whole.ends.as_slice())? {
        let written = write(calls, failing.sink, Words::Parts)?;
        let came = shown(alloc, written.answers.as_slice(), &written.sink)?;
        let wanted = wanted(calls, whole, *failing)?;
        let came = (came.as_str(), &written.sink);
        failing.check("call by call", came, &wanted, outcome)?;
        check_lists(calls, failing.sink, &written, outcome)?;
    }
    Ok(())
}

// What comes of the calls if a write fails there, reckoned from what came when none failed.
fn wanted(calls: Row<'_>, whole: &Written, failing: Failing) -> Result<String, Halt> {
    let mut answers = Vec::new(calls.alloc);
    for (place, (clause, answer)) in calls.clauses.iter().zip(&whole.answers).enumerate() {
        answers.push(if place == failing.place {
            Some(failing.text(calls.alloc)?)
        } else if place > failing.place && is_send(clause) {
            Some(String::from_str(calls.alloc, "Failed")?)
        } else {
            answer.clone()?
        })?;
    }
    let taken = failing.taken_of(whole.sink.bytes());
    Ok(shown_with(calls.alloc, answers.as_slice(), taken, 1)?)
}

// Whether the call is one that a writer refuses once a write failed.
fn is_send(clause: &Clause) -> bool {
    matches!(
        clause.word.as_str(),
        "pair" | "comment" | "flush" | "finish"
    )
}
