mod many;
mod of_acpi_names;
mod of_name_checks;
mod of_name_entries;
mod of_name_notes;
mod of_name_spelling;
mod words;

use std::alloc::{AllocError, Global};

/// What is told of a text.
#[derive(Clone, Copy)]
enum Outcome {
    /// A letter for each mention of a name.
    Mentions,
    /// What used names denote.
    Entries,
    /// The errors of names and of their kinds.
    Errors,
    /// The terms as they are spelled, with short names or not.
    Spelled { shorten: bool },
}

fn told(alloc: Global, outcome: Outcome, text: &str) -> Result<String, AllocError> {
    match outcome {
        Outcome::Mentions => of_acpi_names::letters(alloc, text),
        Outcome::Entries => of_name_entries::entries_told(alloc, text),
        Outcome::Errors => of_name_checks::errors(alloc, text),
        Outcome::Spelled { shorten } => of_name_spelling::spelled_text(alloc, shorten, text),
    }
}

/// The first row of a table that does not hold, with what is told instead; no text where each row holds. A row is a line
/// `TEXT => WHAT IS TOLD`; a line without `=>` is a comment.
fn wrong_row(alloc: Global, outcome: Outcome, table: &str) -> Result<String, AllocError> {
    for row in table.lines() {
        if let Some((text, want)) = row.split_once("=>") {
            let seen = told(alloc, outcome, text.trim())?;
            if seen.as_str().trim_end() != want.trim() {
                return Ok(format!(in alloc; "{row}: {seen}")?);
            }
        }
    }
    Ok(String::new(alloc))
}
