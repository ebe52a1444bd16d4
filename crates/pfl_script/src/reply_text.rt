//! Texts of replies.

ghost use Rattle.std.specs.Prelude.{◌≡◌, ℕ, true, take, OnOk, OnErr, IfErr};
ghost use Rattle.std.specs.Io.KnownBytes.{Appends};
ghost use Rattle.pfl_script.specs.inner.Texts.{bytes_of};

use crate::fault::EngineFault;
use crate::output::write_text;
use crate::places::write_excised;
use crate::short_line::ShortLine;
use pfl_base::Output;
use std::alloc::Allocator;

/// The text of a reply: only a long one takes memory.
#[derive(Drop)]
pub enum ReplyText<'a, A: Allocator> {
    Short(ShortLine),
    Long(Vec<u8, A>),
    /// The line that lists these places.
    Excised(&'a [usize]),
}

impl<'a, A: Allocator> ReplyText<'a, A> {
    /// Writes it, or the first part of it.
    pub fn write<W: Output>(&self, writer: &mut W) -> Result<(), EngineFault>
        ensures whole { OnOk result (Appends (W.written writer.old) (W.written writer.new) (bytes_of self.now)) }
        ensures stays { OnOk result (W.has_failed writer.new ≡ W.has_failed writer.old) }
        ensures part { OnErr result ((n : ℕ) × Appends (W.written writer.old) (W.written writer.new) (take n (bytes_of self.now))) }
        ensures fails { OnErr result (W.has_failed writer.new ≡ true) }
        ensures fault { IfErr result (λ e. e ≡ EngineFault.Write) }
    {
        match self {
            ReplyText::Short(line) => write_text(writer, line.as_str().as_bytes()),
            ReplyText::Long(text) => write_text(writer, text.as_slice()),
            ReplyText::Excised(places) => write_excised(writer, places),
        }
    }
}
