//! Keys beside one another, and what translation makes of them.

ghost use Rattle.std.specs.Prelude.{◌≡◌, true};
ghost use Rattle.pfl_track.specs.Keys as meant;
ghost use Rattle.pfl_track.specs.Keys.{AreKeys};

use pfl_base::{End, Key, Proto};

/// Whether the two may be the keys of a state.
pub(crate) fn are_keys(wire: &Key, stack: &Key) -> bool
    ensures test { result ≡ meant.are_keys wire.now stack.now }
    ensures known { result ≡ true → AreKeys wire.now stack.now }
{
    // The contract of `number` says that each protocol is written one way.
    let (number, other_number) = (wire.proto.number(), stack.proto.number());
    let (far, stack_far) = (wire.far.addr, stack.far.addr);
    other_number == number
        && far.same_family(wire.near.addr)
        && stack_far.same_family(stack.near.addr)
        && far.same_family(stack_far)
}

/// The key on the wire, where the end `nat` takes the place of the near end.
pub(crate) fn wire_key(stack: &Key, nat: Option<End>) -> Key
    ensures { result ≡ meant.wire_key stack.now nat }
{
    match nat {
        None => *stack,
        Some(end) => translated_to(stack, end),
    }
}

fn translated_to(stack: &Key, end: End) -> Key
    ensures { result ≡ meant.translated_to stack.now end stack.now.proto }
{
    match stack.proto {
        Proto::Icmp => {
            let far = End {
                port: end.port,
                ..stack.far
            };
            Key {
                far,
                near: end,
                ..*stack
            }
        }
        Proto::Other(_) => Key {
            near: End { port: 0, ..end },
            ..*stack
        },
        Proto::Tcp | Proto::Udp => Key {
            near: end,
            ..*stack
        },
    }
}
