//! The calls that the words of the program ask for: one for each FILE.

use iasl_options::task::{Task, task_of};
use std::alloc::{AllocError, Global};

/// The words of one call.
pub(crate) type Words = Vec<String>;

// Whether the next word is this option's value.
fn opens(word: &str) -> bool {
    matches!(word, "-p" | "-I" | "-D" | "-vw")
}

// Of each word whether it is a FILE: it begins with no hyphen and is no option's value.
fn files_among(alloc: Global, words: &[String]) -> Result<Vec<bool>, AllocError> {
    let mut marks = Vec::new(alloc);
    let mut waits = false;
    for word in words {
        marks.push(!waits && word.as_bytes().first() != Some(&b'-'))?;
        waits = !waits && opens(word);
    }
    Ok(marks)
}

// The words without the FILEs but the one at this place.
fn words_for(
    alloc: Global,
    words: &[String],
    marks: &[bool],
    place: usize,
) -> Result<Words, AllocError> {
    let mut call = Vec::new(alloc);
    for (number, (word, is_file)) in words.iter().zip(marks).enumerate() {
        if !*is_file || number == place {
            call.push(String::from_str(alloc, word)?)?;
        }
    }
    Ok(call)
}

/// The words of the call for each FILE, in order, where there are several and the other words are good with each alone. Else there is one
/// call, which has all words, and it is `None` (docs/OPTIONS.md).
pub(crate) fn calls_of(alloc: Global, words: &[String]) -> Result<Option<Vec<Words>>, AllocError> {
    let marks = files_among(alloc, words)?;
    if marks.iter().filter(|is_file| **is_file).count() < 2 {
        return Ok(None);
    }
    let mut calls = Vec::new(alloc);
    for (place, is_file) in marks.iter().enumerate() {
        if !*is_file {
            continue;
        }
        let call = words_for(alloc, words, &marks, place)?;
        match task_of(alloc, &call) {
            Ok(Task::Compile(_)) => calls.push(call)?,
            _ => return Ok(None),
        }
    }
    Ok(Some(calls))
}
