//! The lines that show what became of records. Each part prints as its words.

ghost use Rattle.std.specs.Prelude.{◌≡◌, Some};
ghost use Rattle.pfl_script.specs.Reasons.{record_text, bad_record_text, ends_text, taken_text, record_fate_text, record_line};

use pfl_timeline::{BadRecord, RecordFate, TakenEnds, TakenRecord};
use pfl_wire::Message;
use std::fmt;

/// A record, by its kind and its name.
#[derive(Clone, Copy)]
pub(crate) struct RecordWords<'a>(pub(crate) &'a Message);

impl fmt::Display for RecordWords<'_> {
    ghost output = { λ w. Some (record_text w.0.now) };

    fn fmt<W: fmt::Write>(&self, f: &mut fmt::Formatter<W>) -> fmt::Result {
        match *self.0 {
            Message::Clear { creator, bound } => write!(f, "clr {creator} {bound}"),
            Message::Insert(state) => write!(f, "ins {}", state.name),
            Message::InsertAck(name) => write!(f, "iack {name}"),
            Message::Update(state) => write!(f, "upd {}", state.name),
            Message::UpdateShort(update) => write!(f, "updc {}", update.name),
            Message::UpdateRequest(name) => write!(f, "req {name}"),
            Message::Delete(state) => write!(f, "del {}", state.name),
            Message::DeleteShort(name) => write!(f, "delc {name}"),
            Message::Bulk { status, .. } => write!(f, "bus {}", status.number()),
        }
    }
}

/// Why a record cannot be used.
#[derive(Clone, Copy)]
struct BadWords(BadRecord);

impl fmt::Display for BadWords {
    ghost output = { λ w. Some (bad_record_text w.0) };

    fn fmt<W: fmt::Write>(&self, f: &mut fmt::Formatter<W>) -> fmt::Result {
        match self.0 {
            BadRecord::Unknown => f.write_str("unknown"),
            BadRecord::Known => f.write_str("known"),
            BadRecord::NotGiven => f.write_str("notgiven"),
            BadRecord::Deleting => f.write_str("deleting"),
            BadRecord::WireInUse(name) => write!(f, "wire {name}"),
            BadRecord::StackInUse(name) => write!(f, "stack {name}"),
            BadRecord::Full => f.write_str("full"),
        }
    }
}

/// The ends of a record of which something is so.
fn ends_word(src: bool, dst: bool) -> &'static str
    ensures { result.now ≡ ends_text src dst }
{
    match (src, dst) {
        (true, true) => "both",
        (true, false) => "src",
        (false, true) => "dst",
        (false, false) => "-",
    }
}

/// The ends of a record that are taken, after a blank, where that is shown.
#[derive(Clone, Copy)]
struct TakenWords(Option<TakenEnds>);

impl fmt::Display for TakenWords {
    ghost output = { λ w. Some (taken_text w.0) };

    fn fmt<W: fmt::Write>(&self, f: &mut fmt::Formatter<W>) -> fmt::Result {
        let Some(ends) = self.0 else {
            return Ok(());
        };
        let word = ends_word(ends.src, ends.dst);
        write!(f, " {word}")
    }
}

/// What becomes of a record.
#[derive(Clone, Copy)]
struct FateWords(RecordFate);

impl fmt::Display for FateWords {
    ghost output = { λ w. Some (record_fate_text w.0) };

    fn fmt<W: fmt::Write>(&self, f: &mut fmt::Formatter<W>) -> fmt::Result {
        match self.0 {
            RecordFate::Bad(why) => {
                let why = BadWords(why);
                write!(f, "bad {why}")
            }
            RecordFate::Imported { last } => write!(f, "imported {last}"),
            RecordFate::Merged {
                stale_src,
                stale_dst,
                last,
                taken,
            } => {
                let stale = ends_word(stale_src, stale_dst);
                let taken = TakenWords(taken);
                write!(f, "merged {stale} {last}{taken}")
            }
            RecordFate::Asked => f.write_str("asked"),
            RecordFate::Queued => f.write_str("queued"),
            RecordFate::Bulk { begins: true } => f.write_str("bulk begins"),
            RecordFate::Bulk { begins: false } => f.write_str("bulk ends"),
            RecordFate::Acknowledged => f.write_str("acknowledged"),
            RecordFate::Deleted => f.write_str("deleted"),
            RecordFate::Cleared(states) => write!(f, "cleared {states}"),
            RecordFate::Heard => f.write_str("heard"),
            RecordFate::Nothing => f.write_str("nothing"),
        }
    }
}

/// A record with its fate, as a line.
#[derive(Clone, Copy)]
pub struct RecordLine<'a>(pub &'a TakenRecord);

impl fmt::Display for RecordLine<'_> {
    ghost output = { λ l. Some (record_line l.0.now) };

    fn fmt<W: fmt::Write>(&self, f: &mut fmt::Formatter<W>) -> fmt::Result {
        let record = RecordWords(&self.0.message);
        let fate = FateWords(self.0.fate);
        writeln!(f, "record {record} {fate}")
    }
}
