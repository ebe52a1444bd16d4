//! The lines of the link. Each part prints as its words.

ghost use Rattle.std.specs.Prelude.{Some};
ghost use Rattle.pfl_base.specs.Texts.{hex_byte};
ghost use Rattle.pfl_script.specs.Shows.{link_line, hex_text, frame_text};

use pfl_base::NodeId;
use std::fmt;

/// The next ticket and the next boot number, as a line.
#[derive(Clone, Copy)]
pub struct LinkLine {
    pub next: u32,
    pub boot: u32,
}

impl fmt::Display for LinkLine {
    ghost output = { λ l. Some (link_line l.next l.boot) };

    fn fmt<W: fmt::Write>(&self, f: &mut fmt::Formatter<W>) -> fmt::Result {
        let LinkLine { next, boot } = *self;
        writeln!(f, "link next {next} boot {boot}")
    }
}

/// A byte as two hexadecimal digits.
#[derive(Clone, Copy)]
pub struct HexByte(pub u8);

impl fmt::Display for HexByte {
    ghost output = { λ b. Some (hex_byte b.0) };

    #[tactic(auto, using(std::proofs::lemmas::Fmt::hex_byte))]
    fn fmt<W: fmt::Write>(&self, f: &mut fmt::Formatter<W>) -> fmt::Result {
        let byte = self.0;
        write!(f, "{byte:02x}")
    }
}

/// Bytes in hexadecimal digits, or a dash for none.
#[derive(Clone, Copy)]
pub struct Hex<'a>(pub &'a [u8]);

impl fmt::Display for Hex<'_> {
    ghost output = { λ h. Some (hex_text h.0.now) };

    fn fmt<W: fmt::Write>(&self, f: &mut fmt::Formatter<W>) -> fmt::Result {
        if self.0.is_empty() {
            return f.write_str("-");
        }
        for byte in self.0 {
            let byte = HexByte(*byte);
            write!(f, "{byte}")?;
        }
        Ok(())
    }
}

/// A frame in flight, as a line: its ticket, its receiver and its bytes.
#[derive(Clone, Copy)]
pub struct FrameLine<'a> {
    pub ticket: u32,
    pub to: NodeId,
    pub bytes: &'a [u8],
}

impl fmt::Display for FrameLine<'_> {
    ghost output = { λ l. Some (frame_text l.ticket l.to l.bytes.now) };

    fn fmt<W: fmt::Write>(&self, f: &mut fmt::Formatter<W>) -> fmt::Result {
        let ticket = self.ticket;
        let to = self.to;
        let bytes = Hex(self.bytes);
        writeln!(f, "frame {ticket} {to} {bytes}")
    }
}
