//! Levels of ends, and the classes that follow from them (pf.c; the levels of TCP have the names of RFC 9293, 3.3.2).

ghost use Rattle.std.specs.Prelude.{◌≡◌, ◌≤◌, max, ◌==◌, if◌then◌else◌};
ghost use Rattle.pfl_track.specs.Levels as meant;

use pfl_base::{Class, Packet, Proto, TcpFlags};

/// The level at which an end of TCP has begun.
pub const SYN_SENT: u8 = 2;

const ESTABLISHED: u8 = 4;

pub(crate) const CLOSING: u8 = 7;

pub(crate) const FIN_WAIT_2: u8 = 9;

pub(crate) const TIME_WAIT: u8 = 10;

/// UDP and other protocols: the end was heard.
pub(crate) const SINGLE: u8 = 1;

/// The end was heard, and answered since.
const MULTIPLE: u8 = 2;

/// The class of a state at its creation (pf.conf(5)).
pub fn first_class(proto: Proto) -> Class
    ensures { result ≡ meant.first_class proto }
{
    match proto {
        Proto::Tcp => Class::TcpFirst,
        Proto::Udp => Class::UdpFirst,
        Proto::Icmp => Class::IcmpFirst,
        Proto::Other(_) => Class::OtherFirst,
    }
}

/// The class of a state after a later packet, from the levels of its ends. ICMP has `icmp.error` at all levels.
pub fn class_after(proto: Proto, src: u8, dst: u8) -> Class
    ensures { result ≡ meant.class_after proto src dst }
{
    match proto {
        Proto::Tcp => tcp_class(src, dst),
        Proto::Udp if both_multiple(src, dst) => Class::UdpMultiple,
        Proto::Udp => Class::UdpSingle,
        Proto::Icmp => Class::IcmpError,
        Proto::Other(_) if both_multiple(src, dst) => Class::OtherMultiple,
        Proto::Other(_) => Class::OtherSingle,
    }
}

fn both_multiple(src: u8, dst: u8) -> bool
    ensures { result ≡ meant.both_multiple src dst }
{
    src == MULTIPLE && dst == MULTIPLE
}

/// The class of a TCP connection: the first line that applies.
fn tcp_class(src: u8, dst: u8) -> Class
    ensures { result ≡ meant.tcp_class src dst }
{
    if src >= FIN_WAIT_2 && dst >= FIN_WAIT_2 {
        Class::TcpClosed
    } else if src >= CLOSING && dst >= CLOSING {
        Class::TcpFinWait
    } else if src < ESTABLISHED || dst < ESTABLISHED {
        Class::TcpOpening
    } else if src >= CLOSING || dst >= CLOSING {
        Class::TcpClosing
    } else {
        Class::TcpEstablished
    }
}

/// The level of the end that sent the packet, after it.
pub(crate) fn sender_level(packet: &Packet, level: u8) -> u8
    requires { level ≤ 10 }
    ensures after { result ≡ meant.sender_level packet.now level }
    ensures known { result ≤ 10 }
{
    let flags = packet.flags();
    let with_syn = if flags.contains(TcpFlags::SYN) {
        level.max(SYN_SENT)
    } else {
        level
    };
    let with_fin = if flags.contains(TcpFlags::FIN) {
        with_syn.max(CLOSING)
    } else {
        with_syn
    };
    if flags.contains(TcpFlags::RST) {
        TIME_WAIT
    } else {
        with_fin
    }
}

/// The level of the other end, after it.
pub(crate) fn receiver_level(packet: &Packet, level: u8) -> u8
    requires { level ≤ 10 }
    ensures after { result ≡ meant.receiver_level packet.now level }
    ensures known { result ≤ 10 }
{
    if packet.flags().contains(TcpFlags::RST) {
        TIME_WAIT
    } else if packet.flags().contains(TcpFlags::ACK) {
        acknowledged(level)
    } else {
        level
    }
}

/// What an acknowledgement makes of the other end's level.
fn acknowledged(level: u8) -> u8
    requires { level ≤ 10 }
    ensures after { result ≡ meant.acknowledged level }
    ensures known { result ≤ 10 }
{
    match level {
        SYN_SENT => ESTABLISHED,
        CLOSING => FIN_WAIT_2,
        _ => level,
    }
}

/// The level of the end that sent a packet of another protocol than TCP, after it.
pub(crate) fn heard(level: u8) -> u8
    requires { level ≤ 10 }
    ensures after { result ≡ max level 1 }
    ensures known { result ≤ 10 }
{
    level.max(SINGLE)
}

/// The level of the other end, after it.
pub(crate) fn answered(level: u8) -> u8
    requires { level ≤ 10 }
    ensures after { result ≡ (if level == 1 then 2 else level) }
    ensures known { result ≤ 10 }
{
    if level == SINGLE { MULTIPLE } else { level }
}
