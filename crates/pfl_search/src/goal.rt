//! Whether worlds meet goals.

ghost use Rattle.std.specs.Prelude.{◌≡◌, IfOk};
ghost use Rattle.pfl_search.specs.Goals.{answer, is_asked, is_idle, is_landed, is_quiet, is_split};

use crate::differing::are_differing;
use crate::fate::{fate_after, is_admitted, is_dropped, is_passed};
use crate::names::are_apart;
use pfl_base::NodeId;
use pfl_bulk::{BulkClient, BulkServer};
use pfl_edits::NoMemory;
use pfl_language::{Event, NodeEvent, Question, Scope};
use pfl_world::{World, WorldTape};
use std::alloc::Allocator;

/// Whether the packet would be dropped at the node, and admitted at the other.
fn is_split<A: Allocator + Copy>(
    world: &mut World<A>,
    tape: &mut WorldTape<A>,
    node: NodeId,
    event: &NodeEvent,
) -> Result<bool, NoMemory>
    ensures world { world.new ≡ world.old }
    ensures tape { tape.new.list ≡ tape.old.list }
    ensures split { IfOk result (λ yes. yes ≡ is_split node event.now world.old) }
{
    let here = Event::At {
        node,
        event: *event,
    };
    let fate = fate_after(world, tape, &here)?;
    if !is_dropped(&fate) {
        return Ok(false);
    }
    let there = Event::At {
        node: node.other(),
        event: *event,
    };
    let other = fate_after(world, tape, &there)?;
    Ok(is_admitted(&other))
}

/// The answer to a question in the world.
pub(crate) fn answer<A: Allocator + Copy>(
    world: &mut World<A>,
    tape: &mut WorldTape<A>,
    question: &Question,
) -> Result<bool, NoMemory>
    ensures world { world.new ≡ world.old }
    ensures tape { tape.new.list ≡ tape.old.list }
    ensures answer { IfOk result (λ yes. yes ≡ answer question.now world.old) }
{
    match question {
        Question::Apart => Ok(are_apart(world)),
        Question::Differ => Ok(are_differing(world)),
        Question::Passed(event) => {
            let fate = fate_after(world, tape, event)?;
            Ok(is_passed(&fate))
        }
        Question::Unpassed(event) => {
            let fate = fate_after(world, tape, event)?;
            Ok(!is_passed(&fate))
        }
        Question::Dropped(event) => {
            let fate = fate_after(world, tape, event)?;
            Ok(is_dropped(&fate))
        }
        Question::Admitted(event) => {
            let fate = fate_after(world, tape, event)?;
            Ok(is_admitted(&fate))
        }
        Question::Split { node, event } => is_split(world, tape, *node, event),
    }
}

/// Whether no frame is in flight.
fn is_landed<A: Allocator>(world: &World<A>) -> bool
    ensures { result ≡ is_landed world.now }
{
    world.link().len() == 0
}

/// Whether nothing is pending at the node, which serves no bulk update.
fn is_quiet<A: Allocator>(world: &World<A>, id: NodeId) -> bool
    ensures { result ≡ is_quiet world.now id }
{
    let node = world.node(id).parts();
    let serves = !matches!(node.server(), BulkServer::Idle);
    node.queue().is_empty() && !serves
}

/// Whether nothing is pending at the node, which neither serves a bulk update nor waits for one.
fn is_idle<A: Allocator>(world: &World<A>, id: NodeId) -> bool
    ensures { result ≡ is_idle world.now id }
{
    let waits = !matches!(world.node(id).parts().client(), BulkClient::Idle);
    is_quiet(world, id) && !waits
}

/// Whether a question of this scope is asked in the world.
pub(crate) fn is_asked<A: Allocator>(world: &World<A>, scope: Scope) -> bool
    ensures { result ≡ is_asked scope world.now }
{
    match scope {
        Scope::Everywhere => true,
        Scope::Landed => is_landed(world),
        Scope::Quiet => {
            is_landed(world) && is_quiet(world, NodeId::A) && is_quiet(world, NodeId::B)
        }
        Scope::Settled => {
            is_landed(world) && is_idle(world, NodeId::A) && is_idle(world, NodeId::B)
        }
    }
}
