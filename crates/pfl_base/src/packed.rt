//! Ends and flows as they are kept, in few bytes.

ghost use Rattle.std.specs.Prelude.{◌≡◌, nat_eq};
ghost use Rattle.std.specs.Cmp.{partial_equiv_from_equiv};
ghost use Rattle.std.specs.Cmp.Lexicographic.{on_texts_equal, pointwise};
ghost use Rattle.std.specs.Ordering.{on};
ghost use Rattle.pfl_base.specs.inner.Packed.{end_numbers, is_key, is_key_equiv};

use crate::addr::{Addr, End};
use crate::addr_bytes::{Ipv4, Ipv6};
use crate::flow::Key;
use crate::proto::Proto;
use std::marker::Model;

/// An address, 17 bytes.
#[derive(Clone, Copy, Debug)]
pub(crate) enum AddrBytes {
    V4(Ipv4),
    V6(Ipv6),
}

impl AddrBytes {
    ghost use Rattle.pfl_base.specs.inner.Packed.{address_numbers, kept, known};

    fn of(addr: Addr) -> AddrBytes
        ensures { result ≡ kept addr }
    {
        match addr {
            Addr::V4(number) => AddrBytes::V4(Ipv4::of(number)),
            Addr::V6(number) => AddrBytes::V6(Ipv6::of(number)),
        }
    }

    fn addr(self) -> Addr
        ensures { result ≡ known self }
    {
        match self {
            AddrBytes::V4(bytes) => Addr::V4(bytes.number()),
            AddrBytes::V6(bytes) => Addr::V6(bytes.number()),
        }
    }

    fn same(self, other: AddrBytes) -> bool
        ensures { result ≡ pointwise nat_eq (address_numbers (known self)) (address_numbers (known other)) }
    {
        match (self.addr(), other.addr()) {
            (Addr::V4(own), Addr::V4(others)) => own == others,
            (Addr::V6(own), Addr::V6(others)) => own == others,
            _ => false,
        }
    }
}

/// An end in 20 bytes, where an [`End`] takes 48.
#[derive(Clone, Copy, Debug)]
pub struct PackedEnd {
    addr: AddrBytes,
    port: u16,
}

impl Model for PackedEnd {
    ghost use Rattle.std.specs.Prelude.{refl};
    ghost use Rattle.pfl_base.specs.declared.addr.End.{End};
    ghost use Rattle.pfl_base.specs.inner.Packed.{kept, known, known_kept};

    ghost Value = { End };

    ghost view = { λ e. record { addr = known e.addr; port = e.port } };

    ghost inverse = { λ e. record { addr = kept e.addr; port = e.port } };

    ghost inverse_ok = { λ e h. λ i. record { addr = known_kept e.addr i; port = e.port } };
}

// Not derived: a comparison of numbers is a short clause.
impl PartialEq for PackedEnd {
    ghost eq = { on end_numbers (pointwise nat_eq) };

    ghost laws = { partial_equiv_from_equiv (on_texts_equal end_numbers) };

    fn eq(&self, other: &PackedEnd) -> bool {
        self.addr.same(other.addr) && self.port == other.port
    }
}

impl Eq for PackedEnd {
    ghost laws = { on_texts_equal end_numbers };
}

impl PackedEnd {
    /// The end in few bytes.
    pub fn of(end: End) -> PackedEnd
        ensures { result ≡ end }
    {
        PackedEnd {
            addr: AddrBytes::of(end.addr),
            port: end.port,
        }
    }

    /// The end itself.
    pub fn end(self) -> End
        ensures { result ≡ self }
    {
        End {
            addr: self.addr.addr(),
            port: self.port,
        }
    }
}

/// A flow in 42 bytes, where a [`Key`] takes 112.
#[derive(Clone, Copy, Debug)]
pub struct PackedKey {
    proto: Proto,
    far: PackedEnd,
    near: PackedEnd,
}

impl Model for PackedKey {
    ghost use Rattle.pfl_base.specs.declared.flow.Key.{Key};

    ghost Value = { Key };

    ghost view = { λ k. record { proto = k.proto; far = k.far; near = k.near } };

    ghost inverse = { λ k. record { proto = k.proto; far = k.far; near = k.near } };
}

impl PartialEq for PackedKey {
    ghost eq = { is_key };

    ghost laws = { partial_equiv_from_equiv is_key_equiv };

    fn eq(&self, other: &PackedKey) -> bool {
        self.proto.number() == other.proto.number()
            && self.far == other.far
            && self.near == other.near
    }
}

impl Eq for PackedKey {
    ghost laws = { is_key_equiv };
}

impl PackedKey {
    /// The flow in few bytes.
    pub fn of(key: Key) -> PackedKey
        ensures { result ≡ key }
    {
        PackedKey {
            proto: key.proto,
            far: PackedEnd::of(key.far),
            near: PackedEnd::of(key.near),
        }
    }

    /// The flow's protocol.
    pub fn proto(&self) -> Proto
        ensures { result ≡ self.now.proto }
    {
        self.proto
    }

    /// The flow itself.
    pub fn key(self) -> Key
        ensures { result ≡ self }
    {
        Key {
            proto: self.proto,
            far: self.far.end(),
            near: self.near.end(),
        }
    }
}
