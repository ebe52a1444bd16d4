//! A client of a bulk update asks again, or gives up (if_pfsync.c).

ghost use Rattle.std.specs.Prelude.{◌≡◌, ◌≤◌, true, IfOk, OnErr, OnOk};
ghost use Rattle.pfl_bulk.specs.Bulk.{asks_again, retried};
ghost use Rattle.pfl_language.specs.declared.node_event.NodeOutcome.TheVariants as outcome;
ghost use Rattle.pfl_node.specs.Retrying as retrying;
ghost use Rattle.pfl_node.specs.Weights.{retried_edits};
ghost use Rattle.pfl_node.specs.inner.Carried.{Carries, IsIdle};
ghost use Rattle.pfl_receive.specs.desk.Drafts.{Writes};
ghost use Rattle.pfl_receive.specs.desk.Nodes.{Node as Whole, is_overfull};

use pfl_base::{Refusal, StateName};
use pfl_bulk::Retry;
use pfl_language::Retried;
use pfl_receive::{Desk, Overfull};
use std::alloc::Allocator;

/// Asks for all states again where the last try was long enough ago, or gives up after the twelfth; returns which.
pub(crate) fn retry<A: Allocator>(desk: &mut Desk<A>) -> Result<Retried, Refusal>
    requires idle { IsIdle desk.old }
    ensures { Carries retried_edits (retrying.retry_meaning desk.old.node) outcome.Tried result desk.old desk.new }
{
    let parts = desk.parts();
    let wait = u64::from(parts.limits().bulk_ms);
    let retry = parts.client().retry(wait, parts.clock())?;
    let tried = ask_again(desk, retry);
    desk.judge(tried)
}

/// Does what a client does whose time has come.
fn ask_again<A: Allocator>(desk: &mut Desk<A>, retry: Retry) -> Result<Retried, Overfull>
    requires room { 3 ≤ desk.old.edits.spare }
    requires asks { retry.asks ≡ asks_again desk.old.node.client }
    requires client { retry.client ≡ retried desk.old.node.client desk.old.node.clock }
    ensures full { OnErr result (is_overfull (retrying.retried_client desk.old.node) ≡ true) }
    ensures node { OnOk result (desk.new.node ≡ retrying.retried_client desk.old.node) }
    ensures answer { IfOk result (λ answer. answer ≡ retrying.retry_answer desk.old.node) }
    ensures writes { Writes 3 desk.old desk.new }
{
    if !retry.asks {
        desk.set_client(retry.client);
        return Ok(Retried::Served);
    }
    desk.ask(StateName::NONE)?;
    desk.set_client(retry.client);
    Ok(Retried::Asked(retry.client.tries()))
}
