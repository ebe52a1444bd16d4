//! Where a run or a check gives other than its case expects.

use crate::expected::{Expected, marked, replies};
use crate::trial::Trial;
use std::alloc::{AllocError, Global};
use std::fmt;

/// The first place where a run or a check gives other than its case expects.
#[derive(Clone, Copy)]
pub struct Difference<'a> {
    /// What differs.
    pub kind: &'static str,
    /// The number of the line, where there is one.
    pub line: Option<usize>,
    pub wanted: Option<&'a str>,
    pub came: Option<&'a str>,
}

/// Writes a text, or that there is none.
fn show<W: fmt::Write>(f: &mut fmt::Formatter<W>, text: Option<&str>) -> fmt::Result {
    match text {
        Some(text) => write!(f, "`{text}`"),
        None => f.write_str("nothing"),
    }
}

impl fmt::Display for Difference<'_> {
    fn fmt<W: fmt::Write>(&self, f: &mut fmt::Formatter<W>) -> fmt::Result {
        if let Some(line) = self.line {
            write!(f, ":{line}")?;
        }
        write!(f, ": {}\n  wanted: ", self.kind)?;
        show(f, self.wanted)?;
        f.write_str("\n  came:   ")?;
        show(f, self.came)
    }
}

/// A line that came, and the number of the script's line that it replies to, where it belongs to one.
type Came<'a> = (Option<usize>, &'a str);

/// The difference where a text is expected and this came, or nothing.
fn between<'a>(
    kind: &'static str,
    wanted: &Expected<'a>,
    came: Option<Came<'a>>,
) -> Difference<'a> {
    match came {
        Some((line, text)) if line < wanted.line => Difference {
            kind,
            line,
            wanted: None,
            came: Some(text),
        },
        Some((line, text)) if line == wanted.line => Difference {
            kind,
            line: Some(wanted.place),
            wanted: Some(wanted.text),
            came: Some(text),
        },
        _ => Difference {
            kind,
            line: Some(wanted.place),
            wanted: Some(wanted.text),
            came: None,
        },
    }
}

/// The first difference between what is expected and the lines of a text, which reply to the lines of the script with these
/// numbers.
fn first_of<'a>(
    kind: &'static str,
    expected: &[Expected<'a>],
    text: &'a str,
    lines: &[usize],
) -> Option<Difference<'a>> {
    let mut wanted = expected.iter();
    let mut answered = lines.iter();
    for text in text.lines() {
        let line = answered.next().copied();
        match wanted.next() {
            Some(next) if next.line == line && next.text == text => {}
            Some(next) => return Some(between(kind, next, Some((line, text)))),
            None => {
                return Some(Difference {
                    kind,
                    line,
                    wanted: None,
                    came: Some(text),
                });
            }
        }
    }
    match wanted.next() {
        Some(next) => Some(between(kind, next, None)),
        None => None,
    }
}

/// The difference between a status and the one that is expected: 0 where the script names none.
fn of_status<'a>(
    kind: &'static str,
    expected: &[Expected<'a>],
    status: &'a str,
) -> Option<Difference<'a>> {
    if expected.is_empty() && status != "0" {
        return Some(Difference {
            kind,
            line: None,
            wanted: Some("0"),
            came: Some(status),
        });
    }
    if expected.is_empty() {
        return None;
    }
    first_of(kind, expected, status, &[])
}

/// The first difference between a check and what its script expects. What the script says of faults and of the status is
/// about its run and its check alike; what the check writes is compared where the script says anything of it, or
/// expects a fault.
fn of_check<'a>(
    told: &[Expected<'a>],
    faults: &[Expected<'a>],
    statuses: &[Expected<'a>],
    check: &'a Trial,
) -> Option<Difference<'a>> {
    let of_told = if told.is_empty() && faults.is_empty() {
        None
    } else {
        first_of("check", told, check.replies.as_str(), &[])
    };
    let of_faults = first_of("fault of the check", faults, check.faults.as_str(), &[]);
    let of_status = of_status("status of the check", statuses, check.status.as_str());
    of_told.or(of_faults).or(of_status)
}

impl<'a> Difference<'a> {
    /// A script that expects neither a reply nor a fault.
    const SILENT: Difference<'static> = Difference {
        kind: "it expects neither a reply nor a fault",
        line: None,
        wanted: None,
        came: None,
    };

    /// The first difference between a run and a check and what their script expects: of the replies, the faults and the
    /// status of the run, and then of the check.
    pub fn first(
        alloc: Global,
        script: &'a str,
        run: &'a Trial,
        check: &'a Trial,
    ) -> Result<Option<Difference<'a>>, AllocError> {
        let answers = replies(alloc, script)?;
        let faults = marked(alloc, script, "#! ")?;
        let statuses = marked(alloc, script, "#= ")?;
        let told = marked(alloc, script, "#? ")?;
        if answers.is_empty() && faults.is_empty() {
            return Ok(Some(Difference::SILENT));
        }
        let lines = run.lines.as_slice();
        let of_replies = first_of("reply", answers.as_slice(), run.replies.as_str(), lines);
        let of_faults = first_of("fault", faults.as_slice(), run.faults.as_str(), &[]);
        let of_status = of_status("status", statuses.as_slice(), run.status.as_str());
        let of_check = of_check(
            told.as_slice(),
            faults.as_slice(),
            statuses.as_slice(),
            check,
        );
        Ok(of_replies.or(of_faults).or(of_status).or(of_check))
    }
}
