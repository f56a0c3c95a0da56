//! Runs the rows of tables of sources in memory: how they are edited, looked up, converted and viewed.
#![tactic(auto)]

mod converting;
mod editing;
mod views;

use converting::check_converting;
use editing::check_edit;
use editing::pairs::{check_edit_pairs, check_get_pairs};
use std::process::ExitCode;
use vector_notation::notation::{Halt, Row};
use vector_notation::outcome::Outcome;
use vector_notation::run::run_tables;
use vector_notation::table::Rows;
use views::check_view;

fn main(rt: HostRuntime) -> ExitCode {
    ExitCode::from(run_tables::<Kind>(&rt).unwrap_or(2))
}

// What the rows below a heading are of.
#[derive(Clone, Copy)]
enum Kind {
    Edit,
    EditPairs,
    GetPairs,
    Convert,
    View,
}

impl Rows for Kind {
    fn of_word(word: &str) -> Option<Kind> {
        match word {
            "edit" => Some(Kind::Edit),
            "edit-pairs" => Some(Kind::EditPairs),
            "get-pairs" => Some(Kind::GetPairs),
            "convert" => Some(Kind::Convert),
            "view" => Some(Kind::View),
            _ => None,
        }
    }

    fn check(self, row: Row<'_>, outcome: &mut Outcome) -> Result<(), Halt> {
        match self {
            Kind::Edit => check_edit(row, outcome),
            Kind::EditPairs => check_edit_pairs(row, outcome),
            Kind::GetPairs => check_get_pairs(row, outcome),
            Kind::Convert => check_converting(row, outcome),
            Kind::View => check_view(row, outcome),
        }
    }
}
