//! What becomes of one record, read off the node that it comes to: what is shown of the decision about it.

ghost use Rattle.std.specs.Prelude.{◌≡◌};
ghost use Rattle.pfl_reasons.specs.Records as meant;

use crate::cleared::count_cleared;
use crate::record_fate::{RecordFate, TakenEnds};
use pfl_base::Kernel;
use pfl_wire::Message;
use pfl_world::{Decision, Parts, decide};
use std::alloc::Allocator;

/// What becomes of a record that comes to the node. `same_rules` says that the peer's rules are the node's own.
pub(crate) fn record_fate<A: Allocator>(
    node: &Parts<A>,
    message: &Message,
    same_rules: bool,
) -> RecordFate
    ensures { result ≡ meant.record_fate node.now same_rules message.now }
{
    shown(node, &decide(node, message, same_rules))
}

/// What is shown of a decision about a record at the node.
fn shown<A: Allocator>(node: &Parts<A>, decision: &Decision) -> RecordFate
    ensures { result ≡ meant.shown_of node.now decision.now }
{
    match decision {
        Decision::Bad(why) => RecordFate::Bad(*why),
        Decision::Import { state, .. } => RecordFate::Imported { last: state.last() },
        Decision::Merge(merged) => RecordFate::Merged {
            stale_src: merged.stale_src,
            stale_dst: merged.stale_dst,
            last: merged.state.last(),
            taken: ends_taken(node.kernel(), merged.stale_src, merged.stale_dst),
        },
        Decision::Ask(_) => RecordFate::Asked,
        Decision::Queue(_) => RecordFate::Queued,
        Decision::Serve { begins } => RecordFate::Bulk { begins: *begins },
        Decision::Release(_) => RecordFate::Acknowledged,
        Decision::Delete(_) => RecordFate::Deleted,
        Decision::Clear { creator, bound } => {
            RecordFate::Cleared(count_cleared(node, *creator, *bound))
        }
        Decision::Hear(_) => RecordFate::Heard,
        Decision::Nothing => RecordFate::Nothing,
    }
}

/// Which ends are taken, where the rule `merge` is the kernel's: the other end goes with the one that sent the first packet.
fn ends_taken(kernel: Kernel, stale_src: bool, stale_dst: bool) -> Option<TakenEnds>
    ensures { result ≡ meant.ends_taken kernel stale_src stale_dst }
{
    if kernel.merge {
        Some(TakenEnds {
            src: !stale_src,
            dst: !(stale_dst && stale_src),
        })
    } else {
        None
    }
}
