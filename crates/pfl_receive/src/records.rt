//! A record from the peer: it is decided what it comes to, and then that is done.

ghost use Rattle.std.specs.Prelude.{◌≡◌, ◌≤◌, ◌<◌, ◌+◌, ◌*◌, true, OnOk, OnErr, if◌then◌else◌};
ghost use Rattle.pfl_edits.specs.Maps as maps;
ghost use Rattle.pfl_desk.specs.Changes as to;
ghost use Rattle.pfl_desk.specs.Drafts.{Writes};
ghost use Rattle.pfl_desk.specs.inner.Kept.{MayMark, MayReplace};
ghost use Rattle.pfl_desk.specs.Nodes.{is_overfull};
ghost use Rattle.pfl_desk.specs.queue.declared.Kind.TheVariants.{InsertAck, Update as Whole};
ghost use Rattle.pfl_desk.specs.Weights.{forgotten_edits};
ghost use Rattle.pfl_receive.specs.inner.Deciding.{MayDo, MayTakeOver, cleared_in, done_edits};
ghost use Rattle.pfl_receive.specs.inner.Delivering.{IsPaid, paid_edits};
ghost use Rattle.pfl_receive.specs.Delivering.{cleared_by, record_edits};
ghost use Rattle.pfl_receive.specs.Receiving as receiving;
ghost use Rattle.pfl_receive.specs.Receiving.{taken};
ghost use Rattle.pfl_wire.specs.declared.message.BulkStatus.TheVariants.{Start, End as Finish};

use crate::clear::clear_states;
use crate::deciding::decide;
use crate::decision::Decision;
use pfl_base::StateName;
use pfl_desk::{Counter, Desk, Kind, Overfull, Slot};
use pfl_merge::Merged;
use pfl_track::State;
use pfl_wire::{BulkStatus, Message};
use std::alloc::Allocator;

/// What a record from the peer does at a node. `same_rules` says that the peer's rules are the node's own. It stops where too much
/// would be pending; what was done till then is recorded: at most eight edits, and four for each state that is cleared.
pub fn take_record<A: Allocator>(
    desk: &mut Desk<A>,
    message: &Message,
    same_rules: bool,
) -> Result<(), Overfull>
    requires room { forgotten_edits * maps.len desk.old.node.states + record_edits ≤ desk.old.edits.spare }
    ensures full { OnErr result (is_overfull (taken desk.old.node same_rules message.now) ≡ true) }
    ensures node { OnOk result (desk.new.node ≡ taken desk.old.node same_rules message.now) }
    ensures paid { OnOk result (IsPaid (paid_edits message.now) desk.old desk.new) }
    ensures writes { Writes (record_edits + forgotten_edits * cleared_by desk.old.node message.now) desk.old desk.new }
{
    let decision = decide(desk.parts(), message, same_rules);
    carry_out(desk, &decision)
}

/// Does what was decided.
#[tactic(auto, unfolding(crate::specs::Receiving::does))]
fn carry_out<A: Allocator>(desk: &mut Desk<A>, decision: &Decision) -> Result<(), Overfull>
    requires room { forgotten_edits * maps.len desk.old.node.states + record_edits ≤ desk.old.edits.spare }
    requires may { MayDo desk.old.node decision.now }
    ensures full { OnErr result (is_overfull (receiving.does desk.old.node decision.now) ≡ true) }
    ensures node { OnOk result (desk.new.node ≡ receiving.does desk.old.node decision.now) }
    ensures paid { OnOk result (IsPaid (done_edits decision.now) desk.old desk.new) }
    ensures writes { Writes (record_edits + forgotten_edits * cleared_in desk.old.node decision.now) desk.old desk.new }
{
    desk.known();
    match decision {
        Decision::Bad(_) => {
            desk.count(Counter::Bad);
            Ok(())
        }
        Decision::Import { state, ack_wanted } => take_over(desk, state, *ack_wanted),
        Decision::Merge(merged) => put_merged(desk, merged),
        Decision::Ask(name) => desk.ask(*name),
        Decision::Queue(name) => queue(desk, *name),
        Decision::Serve { begins } => serve(desk, *begins),
        Decision::Release(name) => {
            desk.release(*name);
            Ok(())
        }
        Decision::Delete(name) => {
            desk.forget(*name);
            Ok(())
        }
        Decision::Clear { creator, bound } => {
            clear_states(desk, *creator, *bound);
            Ok(())
        }
        Decision::Hear(status) => {
            hear(desk, *status);
            Ok(())
        }
        Decision::Nothing => Ok(()),
    }
}

/// Adds a state of the peer's, and has it acknowledged, if that is wanted.
fn take_over<A: Allocator>(
    desk: &mut Desk<A>,
    state: &State,
    ack_wanted: bool,
) -> Result<(), Overfull>
    requires room { 3 ≤ desk.old.edits.spare }
    requires may { MayTakeOver desk.old.node state.now }
    ensures full { OnErr result (is_overfull (receiving.taken_over desk.old.node state.now ack_wanted) ≡ true) }
    ensures node { OnOk result (desk.new.node ≡ receiving.taken_over desk.old.node state.now ack_wanted) }
    ensures writes { Writes 3 desk.old desk.new }
{
    desk.add_state(*state);
    if !ack_wanted {
        return Ok(());
    }
    acknowledge(desk, state.name())?;
    desk.push_if(true);
    Ok(())
}

/// Has the name acknowledged, but a pending deletion stays.
fn acknowledge<A: Allocator>(desk: &mut Desk<A>, name: StateName) -> Result<(), Overfull>
    requires room { 1 ≤ desk.old.edits.spare }
    requires may { MayMark desk.old.node name InsertAck }
    ensures full { OnErr result (is_overfull (receiving.acknowledged desk.old.node name) ≡ true) }
    ensures node { OnOk result (desk.new.node ≡ receiving.acknowledged desk.old.node name) }
    ensures writes { Writes 1 desk.old desk.new }
{
    if desk.parts().keeps_deletion(name) {
        return Ok(());
    }
    desk.mark(name, Kind::InsertAck)
}

/// Puts what a merge gave in the state's place. The peer knows of the state, so that a held packet of it is dropped. Where an end was
/// stale, the state is sent back, unless its deletion is pending.
fn put_merged<A: Allocator>(desk: &mut Desk<A>, merged: &Merged) -> Result<(), Overfull>
    requires room { 7 ≤ desk.old.edits.spare }
    requires known { MayReplace (to.lost desk.old.node merged.now.state.name) merged.now.state }
    ensures full { OnErr result (is_overfull (receiving.merged_into (to.lost desk.old.node merged.now.state.name) merged.now) ≡ true) }
    ensures node { OnOk result (desk.new.node ≡ receiving.merged_into (to.lost desk.old.node merged.now.state.name) merged.now) }
    ensures writes { Writes 7 desk.old desk.new }
{
    desk.drop_held(merged.state.name());
    let state = merged.state.with_ack_wanted(false);
    if !merged.stale_src && !merged.stale_dst {
        desk.replace_state(Slot::UNKNOWN, state);
        return Ok(());
    }
    desk.count(Counter::Stale);
    desk.change_state(Slot::UNKNOWN, state)?;
    desk.push_if(true);
    Ok(())
}

/// Sends the peer the whole state, soon.
fn queue<A: Allocator>(desk: &mut Desk<A>, name: StateName) -> Result<(), Overfull>
    requires room { 2 ≤ desk.old.edits.spare }
    requires may { MayMark desk.old.node name Whole }
    ensures full { OnErr result (is_overfull (to.push_if true (to.mark desk.old.node name Whole)) ≡ true) }
    ensures node { OnOk result (desk.new.node ≡ to.push_if true (to.mark desk.old.node name Whole)) }
    ensures writes { Writes 2 desk.old desk.new }
{
    desk.mark(name, Kind::Update)?;
    desk.push_if(true);
    Ok(())
}

/// Begins to send all states, or says that there are none.
fn serve<A: Allocator>(desk: &mut Desk<A>, begins: bool) -> Result<(), Overfull>
    requires room { 3 ≤ desk.old.edits.spare }
    ensures full { OnErr result (is_overfull (receiving.served desk.old.node begins) ≡ true) }
    ensures node { OnOk result (desk.new.node ≡ receiving.served desk.old.node begins) }
    ensures writes { Writes 3 desk.old desk.new }
{
    desk.known();
    let parts = desk.parts();
    let server = parts.server().start(begins, parts.clock());
    desk.announce_status(status_of(begins))?;
    desk.set_server(server);
    Ok(())
}

/// A bulk update begins, or is done at once where there is no state.
fn status_of(begins: bool) -> BulkStatus
    ensures { result ≡ (if begins then Start else Finish) }
{
    if begins {
        BulkStatus::Start
    } else {
        BulkStatus::End
    }
}

/// The bulk update that the node waits for has begun, or is done.
fn hear<A: Allocator>(desk: &mut Desk<A>, status: BulkStatus)
    requires room { 0 < desk.old.edits.spare }
    ensures node { desk.new.node ≡ receiving.heard_of desk.old.node status }
    ensures writes { Writes 1 desk.old desk.new }
{
    let parts = desk.parts();
    let client = parts.client().status(status, parts.clock());
    desk.set_client(client);
}
