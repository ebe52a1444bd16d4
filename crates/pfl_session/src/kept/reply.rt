//! Replies in few bytes.

ghost use Rattle.std.specs.Prelude.{◌≡◌, IfErr, IfOk, IsTrue};
ghost use Rattle.pfl_timeline.specs.Replies.{reply_of};
ghost use Rattle.pfl_timeline.specs.Sizes.{is_large};
ghost use Rattle.pfl_session.specs.inner.Kept.{reply_in};

use crate::kept::outcome::KeptOutcome;
use pfl_base::StateName;
use pfl_language::{BranchWord, Fate, NodeOutcome, Outcome, Refused};
use pfl_timeline::{Explanation, FrameTrace, Reply};
use std::alloc::Allocator;

/// A reply in 32 bytes, where a [`Reply`] takes 72.
#[derive(Drop)]
pub(crate) enum KeptReply<A: Allocator> {
    /// The packet went on, by this state.
    Passed {
        dropped: usize,
        state: StateName,
    },
    /// The packet is held until the peer knows of this state.
    Held {
        dropped: usize,
        state: StateName,
    },
    /// Another outcome.
    Stepped {
        dropped: usize,
        outcome: KeptOutcome,
    },
    At(usize),
    Forked,
    Removed,
    Names(Vec<BranchWord, A>),
    Excised(Vec<usize, A>),
    Restored(usize),
    Explained(Box<Explanation<A>, A>),
    Traced(Box<FrameTrace<A>, A>),
    Refused(Refused),
}

/// The packet went on, by the state.
fn passed(state: StateName) -> Outcome
    ensures { result ≡ Outcome.At (NodeOutcome.Handled (Fate.Pass (Some state))) }
{
    Outcome::At(NodeOutcome::Handled(Fate::Pass(Some(state))))
}

/// The packet is held until the peer knows of the state.
fn held(state: StateName) -> Outcome
    ensures { result ≡ Outcome.At (NodeOutcome.Handled (Fate.Held state)) }
{
    Outcome::At(NodeOutcome::Handled(Fate::Held(state)))
}

impl<A: Allocator> KeptReply<A> {
    /// The reply that says what became of a packet.
    fn handled(fate: Fate, dropped: usize) -> KeptReply<A>
        ensures { reply_in result ≡ Reply.Stepped (Outcome.At (NodeOutcome.Handled fate)) dropped }
    {
        match fate {
            Fate::Pass(Some(state)) => KeptReply::Passed { dropped, state },
            Fate::Pass(None) => KeptReply::Stepped {
                dropped,
                outcome: KeptOutcome::Free,
            },
            Fate::Held(state) => KeptReply::Held { dropped, state },
            Fate::Dropped(reason) => KeptReply::Stepped {
                dropped,
                outcome: KeptOutcome::Dropped(reason),
            },
        }
    }

    /// The reply with an outcome at a node.
    fn at_node(outcome: NodeOutcome, dropped: usize) -> KeptReply<A>
        ensures { reply_in result ≡ Reply.Stepped (Outcome.At outcome) dropped }
    {
        let outcome = match outcome {
            NodeOutcome::Handled(fate) => return KeptReply::handled(fate, dropped),
            NodeOutcome::Clock(ms) => KeptOutcome::Clock(ms),
            NodeOutcome::Purged(count) => KeptOutcome::Purged(count),
            NodeOutcome::Released(count) => KeptOutcome::Released(count),
            NodeOutcome::Killed => KeptOutcome::Killed,
            NodeOutcome::Cleared(count) => KeptOutcome::Cleared(count),
            NodeOutcome::Queued(count) => KeptOutcome::Queued(count),
            NodeOutcome::Tried(retried) => KeptOutcome::Tried(retried),
        };
        KeptReply::Stepped { dropped, outcome }
    }

    /// The reply with an outcome.
    fn stepped(outcome: Outcome, dropped: usize) -> KeptReply<A>
        ensures { reply_in result ≡ Reply.Stepped outcome dropped }
    {
        let outcome = match outcome {
            Outcome::At(outcome) => return KeptReply::at_node(outcome, dropped),
            Outcome::Sent { ticket, len } => KeptOutcome::Sent { ticket, len },
            Outcome::Taken(records) => KeptOutcome::Taken(records),
            Outcome::Broken(fault) => KeptOutcome::Broken(fault),
            Outcome::Lost => KeptOutcome::Lost,
            Outcome::CutTo(len) => KeptOutcome::CutTo(len),
            Outcome::Boot(boot) => KeptOutcome::Boot(boot),
        };
        KeptReply::Stepped { dropped, outcome }
    }

    /// The same reply, unless it shows a branch or lists its events. That one is given back.
    pub(crate) fn of(reply: Reply<A>) -> Result<KeptReply<A>, Reply<A>>
        ensures kept { IfOk result (λ kept. reply_in kept ≡ reply) }
        ensures given_back { IfErr result (λ given. given ≡ reply) }
        ensures large { IfErr result (λ given. IsTrue (is_large (reply_of reply))) }
    {
        match reply {
            Reply::Stepped { outcome, dropped } => Ok(KeptReply::stepped(outcome, dropped)),
            Reply::At(cursor) => Ok(KeptReply::At(cursor)),
            Reply::Forked => Ok(KeptReply::Forked),
            Reply::Removed => Ok(KeptReply::Removed),
            Reply::Shown {
                name,
                events,
                cursor,
                world,
            } => Err(Reply::Shown {
                name,
                events,
                cursor,
                world,
            }),
            Reply::Names(names) => Ok(KeptReply::Names(names)),
            Reply::Excised(places) => Ok(KeptReply::Excised(places)),
            Reply::Restored(cursor) => Ok(KeptReply::Restored(cursor)),
            Reply::Logged {
                name,
                events,
                cursor,
            } => Err(Reply::Logged {
                name,
                events,
                cursor,
            }),
            Reply::Explained(explanation) => Ok(KeptReply::Explained(explanation)),
            Reply::Traced(trace) => Ok(KeptReply::Traced(trace)),
            Reply::Refused(why) => Ok(KeptReply::Refused(why)),
        }
    }

    /// The same reply.
    pub(crate) fn reply(self) -> Reply<A>
        ensures { result ≡ reply_in self }
    {
        match self {
            KeptReply::Passed { dropped, state } => Reply::Stepped {
                outcome: passed(state),
                dropped,
            },
            KeptReply::Held { dropped, state } => Reply::Stepped {
                outcome: held(state),
                dropped,
            },
            KeptReply::Stepped { dropped, outcome } => Reply::Stepped {
                outcome: outcome.outcome(),
                dropped,
            },
            KeptReply::At(cursor) => Reply::At(cursor),
            KeptReply::Forked => Reply::Forked,
            KeptReply::Removed => Reply::Removed,
            KeptReply::Names(names) => Reply::Names(names),
            KeptReply::Excised(places) => Reply::Excised(places),
            KeptReply::Restored(cursor) => Reply::Restored(cursor),
            KeptReply::Explained(explanation) => Reply::Explained(explanation),
            KeptReply::Traced(trace) => Reply::Traced(trace),
            KeptReply::Refused(why) => Reply::Refused(why),
        }
    }
}
