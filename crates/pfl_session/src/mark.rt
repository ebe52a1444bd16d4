//! What a revision stands for.
use crate::entry::Entry;
use crate::kept::KeptEntry;
use pfl_publish::Naming;
use pfl_timeline::Timeline;
use std::alloc::Allocator;

/// The opening, or an entry. Values of this type stand in contracts alone.
pub enum Mark<A: Allocator> {
    /// The opening timeline.
    Start(Timeline<A>),
    /// The entry after which the revision was published.
    Call(Entry<A>),
}

/// Names revision 0 by the opening.
#[derive(Drop)]
pub(crate) struct AtOpening<'a, A: Allocator> {
    pub(crate) timeline: &'a Timeline<A>,
}

impl<A: Allocator> Naming<Mark<A>> for AtOpening<'_, A> {
    ghost use Rattle.pfl_session.specs.declared.mark.Mark.TheVariants.{Start};

    ghost named = { λ o. Start o.timeline.now };
}

/// Names a revision by its entry.
#[derive(Drop)]
pub(crate) struct Called<'a, A: Allocator> {
    pub(crate) entry: &'a KeptEntry<A>,
}

impl<A: Allocator> Naming<Mark<A>> for Called<'_, A> {
    ghost use Rattle.pfl_session.specs.declared.mark.Mark.TheVariants.{Call};

    ghost named = { λ c. Call c.entry.now };
}
