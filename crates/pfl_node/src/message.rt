//! One record of the peer's comes in by itself (if_pfsync.c).

ghost use Rattle.std.specs.Prelude.{◌≡◌, ◌≤◌, ◌<◌, ◌+◌, OnOk, length};
ghost use Rattle.pfl_node.specs.Calls.{NodeGives, NodeSteps, Any};
ghost use Rattle.pfl_node.specs.Delivering as delivering;
ghost use Rattle.pfl_node.specs.inner.Carried.{Does, IsIdle};
ghost use Rattle.pfl_receive.specs.desk.Nodes.{Node as Whole};

use crate::node::Node;
use pfl_base::Refusal;
use pfl_edits::{Change, OfPart, Recorder};
use pfl_receive::{Desk, NodeEdit, Parts, take_record};
use pfl_wire::Message;
use std::alloc::Allocator;

impl<A: Allocator + Copy> Node<A> {
    /// Takes one record of a peer whose rules have this checksum. It is refused where after it too much would be pending, and else
    /// where after it a number would be too high.
    #[tactic(auto, using(crate::proofs::Ready::alone))]
    pub fn take_message(
        &mut self,
        message: &Message,
        print: &[u8; 16],
    ) -> Result<((), Change<NodeEdit, A>), Refusal>
        ensures { NodeGives (delivering.message_edits self.old message.now) (delivering.message_refusal self.old message.now print.now)
            (delivering.message_taken self.old message.now print.now) Any result self.old self.new }
    {
        let mut edits = Change::new(self.alloc);
        self.take_message_on(message, print, (), &mut edits)?;
        Ok(((), edits))
    }

    /// As `take_message`, with its edits recorded in `to`, as edits of a part.
    pub fn take_message_on<W: OfPart<NodeEdit>, R: Recorder<W>>(
        &mut self,
        message: &Message,
        print: &[u8; 16],
        part: W::Part,
        to: &mut R,
    ) -> Result<(), Refusal>
        ensures steps { NodeSteps (W.of part) (delivering.message_edits self.old message.now)
            (delivering.message_refusal self.old message.now print.now) (delivering.message_taken self.old message.now print.now) Any
            result self.old self.new (R.list to.old) (R.list to.new) }
        ensures one_more { OnOk result (0 < R.spare to.new) }
        ensures total { R.spare to.old + length (R.list to.old) ≤ R.spare to.new + length (R.list to.new) }
    {
        let done = take_one(&mut self.desk, message, print);
        self.desk.conclude(done, part, to)
    }
}

/// Takes one record of a peer whose rules have this checksum.
fn take_one<A: Allocator>(
    desk: &mut Desk<A>,
    message: &Message,
    print: &[u8; 16],
) -> Result<(), Refusal>
    requires idle { IsIdle desk.old }
    ensures { Does (delivering.message_edits desk.old.node message.now) (delivering.message_refusal desk.old.node message.now print.now)
        (delivering.message_taken desk.old.node message.now print.now) Any result desk.old desk.new }
{
    let same_rules = has_print(desk.parts(), print);
    let tried = take_record(desk, message, same_rules);
    desk.judge(tried)
}

/// Whether the node's rules have the checksum.
fn has_print<A: Allocator>(parts: &Parts<A>, print: &[u8; 16]) -> bool
    ensures same { result ≡ delivering.has_print parts.now print.now }
{
    *print == parts.rules().print()
}
