//! A run or a check of a script over memory.

use crate::opening::Opening;
use crate::script::{Replies, Script};
use pfl_base::Std;
use pfl_run::check_lab;
use std::alloc::{AllocError, Allocator, Global};
use std::cell::Cell;

/// What is done with a script.
#[derive(Clone, Copy)]
pub enum Action {
    Run,
    Check,
}

/// What a run or a check of a script gave.
#[derive(Drop)]
pub struct Trial {
    /// The text that it wrote.
    pub replies: String,
    /// For each line of that text the number of the script's line that was read last.
    pub lines: Vec<usize>,
    /// The faults that it reported.
    pub faults: String,
    /// Its exit status.
    pub status: String,
    /// The number of the script's line that was read last.
    pub last: usize,
}

/// The bytes as text. What the program writes is ASCII.
fn text_of(alloc: Global, bytes: &[u8]) -> Result<String, AllocError> {
    match str::from_utf8(bytes) {
        Ok(text) => String::from_str(alloc, text),
        Err(_) => String::from_str(alloc, "bytes that are no text"),
    }
}

impl Trial {
    /// Runs or checks a script, which takes its memory from `memory`. What came of it is kept on the heap.
    pub fn of<A: Allocator + Copy>(
        heap: Global,
        memory: A,
        action: Action,
        script: &str,
    ) -> Result<Trial, AllocError> {
        let opening = Opening::of(script);
        let begun = Cell::new(0);
        let mut reader = Std::new(Script::new(script, &begun));
        let mut writer = Std::new(Replies::new(heap, &begun));
        let mut faults = Std::new(Vec::new(heap));
        let status = match action {
            Action::Run => opening.run(memory, &mut reader, &mut writer, &mut faults),
            Action::Check => check_lab(memory, &mut reader, &mut writer, &mut faults),
        };
        let Replies { bytes, lines, .. } = writer.into_inner();
        Ok(Trial {
            replies: text_of(heap, bytes.as_slice())?,
            lines,
            faults: text_of(heap, faults.into_inner().as_slice())?,
            status: format!(in heap; "{status}")?,
            last: begun.get(),
        })
    }

    /// The text replies to the line of the script with the number.
    pub fn is_reply_to(&self, number: usize, reply: &str) -> bool {
        let answered = self.replies.as_str().lines().zip(self.lines.iter());
        let wanted = answered
            .filter(|(_, line)| **line == number)
            .map(|(text, _)| text);
        reply.lines().eq(wanted)
    }

    /// The line of the script with the number is refused, or faulty: its reply begins so. One that explains a refused event has the
    /// refusal further down.
    pub fn is_refused(&self, number: usize) -> bool {
        let mut answered = self.replies.as_str().lines().zip(self.lines.iter());
        match answered.find(|(_, line)| **line == number) {
            Some((text, _)) => text.starts_with("refused ") || text.starts_with("bad "),
            None => false,
        }
    }

    /// How many lines of the text answer lines of the script above the one with the number.
    pub fn answers_above(&self, line: usize) -> usize {
        self.lines
            .iter()
            .filter(|answered| **answered < line)
            .count()
    }
}
