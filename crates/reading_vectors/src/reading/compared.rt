// Lines as values: which of two comes first, and what copies of one are.

use java_properties::{Line, read_lines};
use std::cmp::Ordering;
use vector_notation::notation::{Clause, Halt, Row};
use vector_notation::outcome::Outcome;

/// The first lines of two inputs are compared, and their contents, and copies of both.
pub fn check_compared(row: Row<'_>, outcome: &mut Outcome) -> Result<(), Halt> {
    let [first, second] = row.clauses else {
        return Err(Halt::Unreadable);
    };
    let first = first_line(row, first)?;
    let second = first_line(row, second)?;
    for (way, left, right) in [
        ("as they are", &first, &second),
        ("the first copied", &first.clone()?, &second),
        ("the second copied", &first, &second.clone()?),
    ] {
        let lines = order(left, right);
        let contents = order(left.content(), right.content());
        let came = format!(in row.alloc; "line {lines}, content {contents}")?;
        outcome.compare(way, &came)?;
    }
    Ok(())
}

fn first_line(row: Row<'_>, clause: &Clause) -> Result<Line, Halt> {
    let mut input = clause.bytes()?;
    match read_lines(row.alloc, &mut input, row.encoding) {
        Ok(lines) => lines.into_iter().next().ok_or(Halt::Unreadable),
        Err(_) => Err(Halt::Unreadable),
    }
}

// What each way to compare says.
fn order<T: Ord>(left: &T, right: &T) -> &'static str {
    let is_more = left > right && right < left;
    let is_less = left < right && right > left;
    match left.cmp(right) {
        Ordering::Less if is_less && !is_more && left != right => "less",
        Ordering::Equal if !is_less && !is_more && left == right => "equal",
        Ordering::Greater if is_more && !is_less && left != right => "more",
        _ => "unsure",
    }
}
