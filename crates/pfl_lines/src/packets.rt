//! Packets.

ghost use Rattle.std.specs.Prelude.{◌≡◌};
ghost use Rattle.pfl_lines.specs.Words.{words};
ghost use Rattle.pfl_lines.specs.inner.Readings.{Gives};
ghost use Rattle.pfl_lines.specs.Packets.{plain_at, last_scale, scale_at, tcp_at, segment_at, fields_at};

use crate::draft::Segment;
use crate::fault::LineFault;
use crate::parts::{end_at, flags_at, number_at, proto_at};
use crate::words::{try_read, word_at};
use pfl_base::{GREATEST_NUMBER, PacketFields, Proto, TcpFlags};

/// `LEN`, with nothing of TCP.
#[tactic(auto, unfolding(crate::specs::Packets::plain_at))]
fn plain_at(line: &[u8]) -> Result<(Segment, &[u8]), LineFault>
    ensures { Gives (λ x. (x.0, words x.1.now)) result (plain_at (words line.now)) }
{
    let (len, rest) = number_at(line, 65535)?;
    let segment = Segment {
        flags: TcpFlags::NONE,
        seq: 0,
        ack: 0,
        window: 0,
        len: len as u16,
        scale: None,
    };
    Ok((segment, rest))
}

/// A scale that is there.
#[tactic(auto, unfolding(crate::specs::Packets::last_scale))]
fn last_scale(line: &[u8]) -> Result<(Option<u8>, &[u8]), LineFault>
    ensures { Gives (λ x. (x.0, words x.1.now)) result (last_scale (words line.now)) }
{
    let (scale, rest) = number_at(line, 255)?;
    Ok((Some(scale as u8), rest))
}

/// `[SCALE]`.
fn scale_at(line: &[u8]) -> Result<(Option<u8>, &[u8]), LineFault>
    ensures { Gives (λ x. (x.0, words x.1.now)) result (scale_at (words line.now)) }
{
    match word_at(line) {
        Err(_) => Ok((None, line)),
        Ok(_) => last_scale(line),
    }
}

/// `FLAGS SEQ ACK WINDOW LEN [SCALE]`.
#[tactic(auto, unfolding(crate::specs::Packets::tcp_at))]
fn tcp_at(line: &[u8]) -> Result<(Segment, &[u8]), LineFault>
    ensures { Gives (λ x. (x.0, words x.1.now)) result (tcp_at (words line.now)) }
{
    let (flags, rest) = try_read!(flags_at(line));
    let (seq, rest) = number_at(rest, GREATEST_NUMBER)?;
    let (ack, rest) = number_at(rest, GREATEST_NUMBER)?;
    let (window, rest) = number_at(rest, 65535)?;
    let (len, rest) = number_at(rest, 65535)?;
    let (scale, rest) = scale_at(rest)?;
    let segment = Segment {
        flags,
        seq: seq as u32,
        ack: ack as u32,
        window: window as u16,
        len: len as u16,
        scale,
    };
    Ok((segment, rest))
}

/// What the protocol has after the ends.
fn segment_at<'a>(proto: &Proto, line: &'a [u8]) -> Result<(Segment, &'a [u8]), LineFault>
    ensures { Gives (λ x. (x.0, words x.1.now)) result (segment_at proto.now (words line.now)) }
{
    match proto {
        Proto::Tcp => tcp_at(line),
        _ => plain_at(line),
    }
}

/// `PROTO SRC DST`, and what the protocol has after them.
#[tactic(auto, unfolding(crate::specs::Packets::fields_at))]
pub fn fields_at(line: &[u8]) -> Result<(PacketFields, &[u8]), LineFault>
    ensures { Gives (λ x. (x.0, words x.1.now)) result (fields_at (words line.now)) }
{
    let (proto, rest) = try_read!(proto_at(line));
    let (src, rest) = end_at(rest)?;
    let (dst, rest) = end_at(rest)?;
    let (segment, rest) = try_read!(segment_at(&proto, rest));
    let fields = PacketFields {
        seq: segment.seq,
        ack: segment.ack,
        window: segment.window,
        len: segment.len,
        proto,
        src,
        dst,
        flags: segment.flags,
        scale: segment.scale,
    };
    Ok((fields, rest))
}
