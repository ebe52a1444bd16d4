//! What a revision counts.

ghost use Rattle.std.specs.Prelude.{◌≡◌, ◌≤◌, length};
ghost use Rattle.std.specs.List.{AllByRecursion};
ghost use Rattle.pfl_session.specs.Totals.{counts_of_branch, counts_of_branches, added, no_counts, AreAtMost, HasAtMost};

use pfl_base::NodeId;
use pfl_timeline::Branch;
use std::alloc::Allocator;

/// What is counted over all branches.
#[derive(Clone, Copy, Debug)]
pub struct Counts {
    /// Their events.
    pub events: u64,
    /// Their cursors.
    pub cursors: u64,
    /// The states of the first node.
    pub states_a: u64,
    /// The states of the second node.
    pub states_b: u64,
    /// The frames on the link.
    pub frames: u64,
    /// What is pending at both nodes.
    pub pending: u64,
}

impl Counts {
    /// Nothing is counted.
    const NONE: Counts = Counts {
        events: 0,
        cursors: 0,
        states_a: 0,
        states_b: 0,
        frames: 0,
        pending: 0,
    };

    /// The counts of one branch.
    fn of_branch<A: Allocator>(branch: &Branch<A>) -> Counts
        requires few { HasAtMost 8589934592 branch.now }
        ensures counts { result ≡ counts_of_branch branch.now }
        ensures small { AreAtMost 8589934592 result }
    {
        branch.known();
        let world = branch.world();
        world.known();
        let a = world.node(NodeId::A).parts();
        let b = world.node(NodeId::B).parts();
        Counts {
            events: branch.events().len() as u64,
            cursors: branch.cursor() as u64,
            states_a: a.states().len() as u64,
            states_b: b.states().len() as u64,
            frames: world.link().len() as u64,
            pending: (a.queue().len() + b.queue().len()) as u64,
        }
    }

    /// Both added up.
    fn plus(self, other: Counts) -> Counts
        requires small { AreAtMost 1099511627776 self }
        requires other { AreAtMost 1099511627776 other }
        ensures { result ≡ added self other }
    {
        Counts {
            events: self.events + other.events,
            cursors: self.cursors + other.cursors,
            states_a: self.states_a + other.states_a,
            states_b: self.states_b + other.states_b,
            frames: self.frames + other.frames,
            pending: self.pending + other.pending,
        }
    }

    /// The counts of all branches, added up.
    pub(crate) fn of_branches<A: Allocator>(branches: &[Branch<A>]) -> Counts
        requires few { AllByRecursion (HasAtMost 8589934592) branches.now }
        requires short { length branches.now ≤ 16 }
        ensures { result ≡ counts_of_branches branches.now }
    {
        let mut counts = Counts::NONE;
        for branch in branches {
            counts = counts.plus(Counts::of_branch(branch));
        }
        counts
    }
}
