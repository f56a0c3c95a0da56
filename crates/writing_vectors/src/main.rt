//! Runs the rows of tables of what writers and maps write.
#![tactic(auto)]

mod writing;

use std::process::ExitCode;
use vector_notation::notation::{Halt, Row};
use vector_notation::outcome::Outcome;
use vector_notation::run::run_tables;
use vector_notation::table::Rows;
use writing::maps::check_maps;
use writing::{Words, check_writing};

fn main(rt: HostRuntime) -> ExitCode {
    ExitCode::from(run_tables::<Kind>(&rt).unwrap_or(2))
}

// What the rows below a heading are of.
#[derive(Clone, Copy)]
enum Kind {
    Write(Words),
    WriteMap,
}

impl Rows for Kind {
    fn of_word(word: &str) -> Option<Kind> {
        match word {
            "write" => Some(Kind::Write(Words::Parts)),
            "write-print" => Some(Kind::Write(Words::Printed)),
            "write-map" => Some(Kind::WriteMap),
            _ => None,
        }
    }

    fn check(self, row: Row<'_>, outcome: &mut Outcome) -> Result<(), Halt> {
        match self {
            Kind::Write(words) => check_writing(row, words, outcome),
            Kind::WriteMap => check_maps(row, outcome),
        }
    }
}
