//! Held packets whose time has come go out (ifconfig(8), `defer`; if_pfsync.c: the time).

ghost use Rattle.std.specs.List.{slice_get};
ghost use Rattle.std.specs.Prelude.{◌≡◌, ◌≤◌, ◌*◌, ◌==◌, [], ◌∷◌, false, IfOk, OnOk, length};
ghost use Rattle.pfl_base.specs.declared.refusal.Refusal.TheVariants as refusal;
ghost use Rattle.pfl_language.specs.declared.node_event.NodeOutcome.TheVariants as outcome;
ghost use Rattle.pfl_node.specs.Releasing as releasing;
ghost use Rattle.pfl_node.specs.inner.Carried.{Carries, IsIdle};
ghost use Rattle.pfl_receive.specs.desk.Drafts.{Writes};
ghost use Rattle.pfl_receive.specs.desk.inner.Judging.{judged_as};
ghost use Rattle.pfl_receive.specs.desk.Nodes.{Node as Whole, AreParts, is_overcounted, refused_by};

use pfl_base::{Refusal, StateName};
use pfl_receive::{Desk, Parts};
use std::alloc::Allocator;

/// Lets the packets go out that are held for long enough, the oldest first, and returns how many. Their states wait no more.
pub(crate) fn release<A: Allocator>(desk: &mut Desk<A>) -> Result<usize, Refusal>
    requires idle { IsIdle desk.old }
    ensures { Carries (releasing.release_edits desk.old.node) (releasing.release_meaning desk.old.node) outcome.Released result desk.old desk.new }
{
    if desk.parts().held().is_empty() {
        return Err(Refusal::NothingPending);
    }
    let count = release_due(desk);
    judge(desk, count)
}

/// Lets the packets go out whose time has come, and returns how many.
fn release_due<A: Allocator>(desk: &mut Desk<A>) -> usize
    requires parts { AreParts desk.old.node }
    requires room { 3 * length (releasing.due_names desk.old.node) ≤ desk.old.edits.spare }
    ensures node { desk.new.node ≡ releasing.released_due desk.old.node }
    ensures count { result ≡ length (releasing.due_names desk.old.node) }
    ensures writes { Writes (3 * length (releasing.due_names desk.old.node)) desk.old desk.new }
{
    let mut count = 0;
    while let Some(name) = first_due(desk.parts()) {
        desk.release(name);
        count += 1;
    }
    count
}

/// Of the packets whose time has come, the name of the oldest.
fn first_due<A: Allocator>(parts: &Parts<A>) -> Option<StateName>
    ensures first { result ≡ slice_get (releasing.due_names parts.now) 0 }
    ensures parts { AreParts parts.now }
{
    let wait = u64::from(parts.limits().defer_ms);
    let held = parts.held().due(parts.clock(), wait).first()?;
    Some(held.name)
}

/// What becomes of a release of this many packets: at least one has to go out, and no number may be too high.
fn judge<A: Allocator>(desk: &Desk<A>, count: usize) -> Result<usize, Refusal>
    ensures refused { judged_as result ≡ refused_by ((count == 0, refusal.TooEarly) ∷ (is_overcounted desk.now.node, refusal.CountFull) ∷ []) }
    ensures count { IfOk result (λ c. c ≡ count) }
    ensures counted { OnOk result (is_overcounted desk.now.node ≡ false) }
{
    if count == 0 {
        Err(Refusal::TooEarly)
    } else if desk.is_overcounted() {
        Err(Refusal::CountFull)
    } else {
        Ok(count)
    }
}
