//! Cases whose lines have their replies one by one, each tried again while its first request of memory is refused, then its second one, and
//! so on. Where memory was wanting there is no reply, all that the branches show is as it was before the line, and every event can
//! be taken back. The reply to the line in the end is the one that it has where memory is there. A line that is refused wants no
//! memory.

use crate::expected::is_passed_over;
use crate::opening::Opening;
use crate::script::Script;
use crate::trial::Trial;
use pfl_base::Std;
use pfl_run::{EngineFault, LineReader, Timeline, run_lines};
use std::alloc::{Allocator, Global};
use std::cell::Cell;
use std::fmt::Write;
use test_devices::{RefusesOne, Try, requests_of};

/// The lines whose replies show all that stands: the names, and of each branch what it shows and its log, and what it shows with all
/// its events taken back, which then happen again.
fn questions<A: Allocator>(heap: Global, timeline: &Timeline<A>) -> Option<String> {
    let mut lines = String::from_str(heap, "names\n").ok()?;
    for branch in timeline.branches() {
        let name = str::from_utf8(branch.name().bytes()).ok()?;
        let cursor = branch.cursor();
        write!(
            lines,
            "show {name}\nlog {name}\nback {name} {cursor}\nshow {name}\nforward {name} {cursor}\n"
        )
        .ok()?;
    }
    Some(lines)
}

/// All that stands.
fn all_of<A: Allocator + Copy>(heap: Global, timeline: &mut Timeline<A>) -> Option<Vec<u8>> {
    let lines = questions(heap, timeline)?;
    let mut reader = LineReader::new(Std::new(lines.as_str().as_bytes()));
    let mut writer = Std::new(Vec::new(heap));
    run_lines(heap, &mut reader, &mut writer, timeline).ok()?;
    Some(writer.into_inner())
}

/// A line of a script, and what stands before it.
#[derive(Drop)]
struct Turn<'a> {
    heap: Global,
    memory: &'a RefusesOne,
    line: &'a str,
    is_refused: bool,
    before: Vec<u8>,
}

impl Turn<'_> {
    /// Replies to the line while its `n`-th request is refused. It has its reply in the end where that is as `is_wanted` says.
    fn try_without<A: Allocator + Copy, F: Fn(&str) -> bool>(
        &self,
        timeline: &mut Timeline<A>,
        is_wanted: F,
        n: u64,
    ) -> Option<Try>
        requires { F.IsAlwaysCallable is_wanted }
    {
        let mut reader = LineReader::new(Std::new(self.line.as_bytes()));
        let mut writer = Std::new(Vec::new(self.heap));
        self.memory.refuse(n);
        let ran = run_lines(self.memory, &mut reader, &mut writer, timeline);
        let came = self.memory.relent();
        let reply = writer.into_inner();
        match (ran, came) {
            (Ok(_), _) if is_wanted(str::from_utf8(reply.as_slice()).ok()?) => Some(Try::Whole),
            (Err(EngineFault::NoMemory), true) if reply.is_empty() && !self.is_refused => {
                let after = all_of(self.heap, timeline)?;
                if after.as_slice() == self.before.as_slice() {
                    Some(Try::Wanting)
                } else {
                    None
                }
            }
            _ => None,
        }
    }
}

/// The number of the first line after the setup that has another reply.
pub fn unlike_line(heap: Global, script: &str, whole: &Trial) -> Option<usize> {
    let memory = RefusesOne::new(heap);
    let begun = Cell::new(0);
    let mut reader = LineReader::new(Std::new(Script::new(script, &begun)));
    let Ok(mut timeline) = Opening::of(script).set_up(&memory, &mut reader) else {
        // After a setup with a fault no line has a reply.
        return if whole.faults.is_empty() {
            Some(begun.get())
        } else {
            None
        };
    };
    let mut number = 0usize;
    for line in script.lines() {
        number = number.saturating_add(1);
        if number <= begun.get() || is_passed_over(line) {
            continue;
        }
        let turn = Turn {
            heap,
            memory: &memory,
            line,
            is_refused: whole.is_refused(number),
            before: all_of(heap, &mut timeline).unwrap_or(Vec::new(heap)),
        };
        let is_wanted = |reply: &str| whole.is_reply_to(number, reply);
        if requests_of(|n| turn.try_without(&mut timeline, is_wanted, n)).is_none() {
            return Some(number);
        }
    }
    None
}
