// Calls as a list, which goes on after a refusal and ends at a fault.

use super::{Written, shown};
use java_properties::run_calls;
use std::alloc::{AllocError, Global};
use vector_notation::calls::{call_of, writer_to};
use vector_notation::items::error_text;
use vector_notation::notation::{Halt, Row};
use vector_notation::outcome::Outcome;
use vector_notation::sinks::Sink;

/// The list comes to what its calls came to one by one. Where it ends at a fault, the calls after that are run as the
/// next list.
pub fn check_lists(
    row: Row<'_>,
    sink: Sink,
    single: &Written,
    outcome: &mut Outcome,
) -> Result<(), Halt> {
    let alloc = row.alloc;
    let mut calls = Vec::new(alloc);
    for clause in row.clauses {
        calls.push(call_of(alloc, clause)?)?;
    }
    let singles = single.answers.as_slice();
    let mut writer = writer_to(alloc, row.encoding, sink.open(alloc))?;
    let mut answers = Vec::new(alloc);
    for _ in 0..=calls.len() {
        let rest = calls.get(answers.len()..).unwrap_or(&[]);
        match run_calls(alloc, rest, &mut writer) {
            Ok(accepted) => {
                for is_accepted in accepted.as_slice() {
                    let single = singles.get(answers.len());
                    answers.push(accepted_answer(alloc, *is_accepted, single)?)?;
                }
                break;
            }
            Err(error) => {
                // A list that ends says nothing of the calls before the fault.
                for single in singles.get(answers.len()..).unwrap_or(&[]) {
                    if is_fault(single) {
                        break;
                    }
                    answers.push(single.clone()?)?;
                }
                answers.push(Some(error_text(alloc, &error)?))?;
            }
        }
    }
    let sink = writer.into_inner();
    let wanted = shown(alloc, singles, &single.sink)?;
    let came = shown(alloc, answers.as_slice(), &sink)?;
    let (count, all) = (answers.len(), singles.len());
    if came != wanted || count != all {
        outcome.fail(format!(in alloc; "as a list, {count} of {all} calls: {came}")?);
    }
    Ok(())
}

// What a call that was accepted or refused was answered: of a refusal, a list says no more.
fn accepted_answer(
    alloc: Global,
    is_accepted: bool,
    single: Option<&Option<String>>,
) -> Result<Option<String>, AllocError> {
    if is_accepted {
        return Ok(None);
    }
    match single {
        Some(answer) if answer.is_some() && !is_fault(answer) => answer.clone(),
        _ => Ok(Some(String::from_str(alloc, "refused")?)),
    }
}

fn is_fault(answer: &Option<String>) -> bool {
    match answer {
        Some(text) => !matches!(
            text.as_str(),
            "BadCommentPrefix" | "BadKvSeparator" | "EmptyKey"
        ),
        None => false,
    }
}
