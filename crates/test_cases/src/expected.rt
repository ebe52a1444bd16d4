//! What a case expects.

use std::alloc::{AllocError, Global};

/// A text that a case expects.
#[derive(Clone, Copy)]
pub struct Expected<'a> {
    /// The number of the line that says so.
    pub place: usize,
    /// The number of the line that it replies to, where it belongs to one.
    pub line: Option<usize>,
    pub text: &'a str,
}

/// The program passes over a line without a word, and over one whose first word begins with `#`.
pub fn is_passed_over(line: &str) -> bool {
    match line.split_whitespace().next() {
        Some(word) => word.starts_with('#'),
        None => true,
    }
}

/// The texts that stand after the mark, each with the line above it that the program replies to.
pub fn replies<'a>(alloc: Global, script: &'a str) -> Result<Vec<Expected<'a>>, AllocError> {
    let mut expected = Vec::new(alloc);
    let mut answered = None;
    let mut place = 0usize;
    for line in script.lines() {
        place = place.saturating_add(1);
        if let Some(text) = line.strip_prefix("#> ") {
            expected.push(Expected {
                place,
                line: answered,
                text,
            })?;
        } else if !is_passed_over(line) {
            answered = Some(place);
        }
    }
    Ok(expected)
}

/// The texts after the mark, which are expected of the run as a whole.
pub fn marked<'a>(
    alloc: Global,
    script: &'a str,
    mark: &str,
) -> Result<Vec<Expected<'a>>, AllocError> {
    let mut expected = Vec::new(alloc);
    let mut place = 0usize;
    for line in script.lines() {
        place = place.saturating_add(1);
        if let Some(text) = line.strip_prefix(mark) {
            expected.push(Expected {
                place,
                line: None,
                text,
            })?;
        }
    }
    Ok(expected)
}
