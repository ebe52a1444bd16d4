//! The merge, and what is behind.

ghost use Rattle.std.specs.Prelude.{◌≡◌, ◌≤◌, ◌<◌, ◌+◌, ◌*◌, ◌^◌, true, false};
ghost use Rattle.pfl_merge.specs.Merging.{is_ahead as is_further, stale_source, stale_destination, stale_src as behind_src, stale_dst as behind_dst};
ghost use Rattle.pfl_merge.specs.Merging.{imported_use as used_by_import, last_use as used_last, merged, merged_use as used_by_merge};
ghost use Rattle.pfl_track.specs.States.{IsState};
ghost use Rattle.pfl_merge.specs.Laws.{Keeps, Rises, SourceInOrder, DestinationInOrder, DestinationStays};

use crate::merged::Merged;
use crate::received::Received;
use pfl_base::{Kernel, Millis, Proto, seq_gt};
use pfl_track::{Peer, SYN_SENT, State};

/// The held end is further than the received one.
fn is_ahead(held: &Peer, received: &Peer) -> bool
    ensures { result ≡ is_further held.now received.now }
{
    received.level() < held.level()
}

/// TCP: the received source end is behind in level, or in sequence at one level.
fn is_stale_source(held: &Peer, received: &Peer) -> bool
    ensures { result ≡ stale_source held.now received.now }
{
    is_ahead(held, received)
        || (held.level() == received.level() && seq_gt(held.lo(), received.lo()))
}

/// TCP: the received destination end is behind in level, or in sequence once the held one has begun.
fn is_stale_destination(held: &Peer, received: &Peer) -> bool
    ensures { result ≡ stale_destination held.now received.now }
{
    is_ahead(held, received) || (SYN_SENT <= held.level() && seq_gt(held.lo(), received.lo()))
}

/// The received source end is behind.
fn is_source_behind(held: &State, received: &Received) -> bool
    ensures { result ≡ behind_src held.now received.now }
{
    match held.proto() {
        Proto::Tcp => is_stale_source(&held.src(), &received.src),
        Proto::Udp | Proto::Icmp | Proto::Other(_) => is_ahead(&held.src(), &received.src),
    }
}

/// The received destination end is behind.
fn is_destination_behind(held: &State, received: &Received) -> bool
    ensures { result ≡ behind_dst held.now received.now }
{
    match held.proto() {
        Proto::Tcp => is_stale_destination(&held.dst(), &received.dst),
        Proto::Udp | Proto::Icmp | Proto::Other(_) => is_ahead(&held.dst(), &received.dst),
    }
}

/// When a state was last used that has `remaining` seconds left of its timeout; not before the clock began.
pub fn last_use(remaining: u32, timeout: u32, now: Millis) -> Millis
    ensures { result ≡ used_last remaining timeout now }
{
    let spent = timeout - remaining.min(timeout);
    now.saturating_sub(u64::from(spent) * 1000)
}

/// When a state was last used whose class is taken, with `remaining` seconds left of its timeout. With `expiry` it is used now
/// (if_pfsync.c, as far as we know it).
fn merged_use(kernel: Kernel, remaining: u32, timeout: u32, now: Millis) -> Millis
    ensures { result ≡ used_by_merge kernel remaining timeout now }
{
    if kernel.expiry {
        now
    } else {
        last_use(remaining, timeout, now)
    }
}

/// When a state was last used that is taken over with `remaining` seconds left. With `expiry` they are left of `timeout` though they
/// be more, so that the last use may lie ahead; where none are left it is used now (if_pfsync.c, as far as we know it). `timeout` is
/// the state's here, in seconds: with `expiry` as the rules say it, and by the profile as it is scaled. What is left of it fits the
/// 32 bits that a record has for it (`fits`).
pub fn imported_use(kernel: Kernel, remaining: u32, timeout: u32, now: Millis) -> Millis
    requires within { now ≤ 2 ^ 63 }
    ensures used { result ≡ used_by_import kernel remaining timeout now }
    ensures past { kernel.expiry ≡ false → result ≤ now }
    ensures left { kernel.expiry ≡ true → 0 < remaining → timeout * 1000 ≤ now + remaining * 1000
        → result + timeout * 1000 ≡ now + remaining * 1000 }
    ensures fits { result + timeout * 1000 ≤ now + 4294967295000 }
{
    if !kernel.expiry {
        return last_use(remaining, timeout, now);
    }
    if remaining == 0 {
        return now;
    }
    let end = now + u64::from(remaining) * 1000;
    end.saturating_sub(u64::from(timeout) * 1000)
}

/// The held state with what the peer sends of it: each end is the received one where that is not behind; the class and
/// the last use go with them. With `merge` the other end is taken though it is behind, unless both are (if_pfsync.c, as far as
/// we know it): it may fall then, and only where the end that sent the first packet was not behind. With `expiry` the last use is
/// now, where the class is taken (the same). `timeout` is the state's here, in seconds, for the received class.
pub fn merge(kernel: Kernel, held: &State, received: &Received, timeout: u32, now: Millis) -> Merged
    ensures merged { result ≡ merged kernel held.now received.now timeout now }
    ensures state { IsState result.state }
    ensures keeps { Keeps held.now result.state }
    ensures source_rises { held.now.src.level ≤ result.state.src.level }
    ensures source_in_order { SourceInOrder held.now received.now result.state }
    ensures rises { kernel.merge ≡ false → Rises held.now result.state }
    ensures destination_in_order { kernel.merge ≡ false → DestinationInOrder held.now result.state }
    ensures destination_falls { behind_src held.now received.now ≡ true → DestinationStays held.now result.state }
{
    let stale_src = is_source_behind(held, received);
    let stale_dst = is_destination_behind(held, received);
    let src = if stale_src { held.src() } else { received.src };
    let keeps_dst = stale_dst && (!kernel.merge || stale_src);
    let dst = if keeps_dst { held.dst() } else { received.dst };
    let told = held.with_ends(src, dst).with_peer_change(Some(now));
    let state = if stale_src && stale_dst {
        told
    } else {
        let used = merged_use(kernel, received.remaining, timeout, now);
        told.refreshed(received.class, used)
    };
    Merged {
        state,
        stale_src,
        stale_dst,
    }
}
