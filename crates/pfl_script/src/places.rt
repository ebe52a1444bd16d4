//! The line of an excision. It is written in pieces and takes no memory, since by then the excision has been made.

ghost use Rattle.std.specs.Prelude.{◌≡◌, ◌≤◌, ℕ, true, length, take, OnOk, OnErr, IfErr};
ghost use Rattle.std.specs.Io.KnownBytes.{Appends};
ghost use Rattle.arrayvec.specs.ArrayString.{array_string_len};
ghost use Rattle.pfl_timeline.specs.Replies.{Excised};
ghost use Rattle.pfl_script.specs.Replies.{reply_text};
ghost use Rattle.pfl_script.specs.inner.Texts.{WritesAllBut};

use crate::fault::EngineFault;
use crate::output::write_text;
use crate::short_line::{ShortLine, plain_line, push_number};
use pfl_base::Output;

/// The most that a place takes with the space before it, 21 bytes, and the line feed.
const ROOM: usize = 22;

/// Writes the piece and empties it, unless it has room for one more place.
fn make_room<W: Output>(writer: &mut W, piece: &mut ShortLine) -> Result<(), EngineFault>
    ensures room { OnOk result (array_string_len piece.new ≤ 170) }
    ensures whole { OnOk result (WritesAllBut (W.written writer.old) (W.written writer.new) piece.old.bytes piece.new.bytes) }
    ensures stays { OnOk result (W.has_failed writer.new ≡ W.has_failed writer.old) }
    ensures part { OnErr result ((n : ℕ) × (n ≤ length piece.old.bytes) × Appends (W.written writer.old) (W.written writer.new) (take n piece.old.bytes)) }
    ensures fails { OnErr result (W.has_failed writer.new ≡ true) }
    ensures fault { IfErr result (λ e. e ≡ EngineFault.Write) }
{
    if piece.remaining_capacity() >= ROOM {
        return Ok(());
    }
    match write_text(writer, piece.as_str().as_bytes()) {
        Ok(()) => {
            piece.clear();
            Ok(())
        }
        Err(fault) => Err(fault),
    }
}

/// Writes the line that lists the places of the events that fell out, or the first part of it.
pub fn write_excised<W: Output>(writer: &mut W, places: &[usize]) -> Result<(), EngineFault>
    ensures whole { OnOk result (Appends (W.written writer.old) (W.written writer.new) (reply_text (Excised places.now))) }
    ensures stays { OnOk result (W.has_failed writer.new ≡ W.has_failed writer.old) }
    ensures part { OnErr result ((n : ℕ) × Appends (W.written writer.old) (W.written writer.new) (take n (reply_text (Excised places.now)))) }
    ensures fails { OnErr result (W.has_failed writer.new ≡ true) }
    ensures fault { IfErr result (λ e. e ≡ EngineFault.Write) }
{
    let mut piece = plain_line("excised");
    for place in places {
        make_room(writer, &mut piece)?;
        piece.push_str(" ");
        push_number(&mut piece, *place as u64);
    }
    piece.push_str("\n");
    write_text(writer, piece.as_str().as_bytes())
}
