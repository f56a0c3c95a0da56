//! Runs the rows of tables of what is read: items, pairs that are copied, and labels of encodings.
#![tactic(auto)]

mod copying;
mod labels;
mod reading;
mod script;

use copying::check_copying;
use labels::check_label;
use reading::{check_compared, check_printed, check_reading};
use std::process::ExitCode;
use vector_notation::items::Reading;
use vector_notation::notation::{Halt, Row};
use vector_notation::outcome::Outcome;
use vector_notation::run::run_tables;
use vector_notation::table::Rows;

fn main(rt: HostRuntime) -> ExitCode {
    ExitCode::from(run_tables::<Kind>(&rt).unwrap_or(2))
}

// What the rows below a heading are of.
#[derive(Clone, Copy)]
enum Kind {
    Read(Reading),
    ReadPrint,
    Compare,
    Copy,
    Label,
}

impl Rows for Kind {
    fn of_word(word: &str) -> Option<Kind> {
        match word {
            "read" => Some(Kind::Read(Reading::Items)),
            "read-pairs" => Some(Kind::Read(Reading::Pairs)),
            "read-map" => Some(Kind::Read(Reading::Map)),
            "read-print" => Some(Kind::ReadPrint),
            "compare" => Some(Kind::Compare),
            "copy" => Some(Kind::Copy),
            "label" => Some(Kind::Label),
            _ => None,
        }
    }

    fn check(self, row: Row<'_>, outcome: &mut Outcome) -> Result<(), Halt> {
        match self {
            Kind::Read(reading) => check_reading(row, reading, outcome),
            Kind::ReadPrint => check_printed(row, outcome),
            Kind::Compare => check_compared(row, outcome),
            Kind::Copy => check_copying(row, outcome),
            Kind::Label => check_label(row, outcome),
        }
    }
}
