//! What ends an event that was carried out: its edits are recorded where they are kept, or it is taken back.

ghost use Rattle.std.specs.Prelude.{◌≡◌, ◌≤◌, ◌<◌, ◌+◌, ◌++◌, false, [], Ok, IfOk, IfErr, OnOk, OnErr, length, map};
ghost use Rattle.pfl_desk.specs.Drafts.{AllRecorded, began};
ghost use Rattle.pfl_desk.specs.inner.Judging.{end_judgement, judged_as};
ghost use Rattle.pfl_desk.specs.Nodes.{AreParts, IsRefusal, is_overcounted, is_overfull};

use crate::desk::Desk;
use crate::edit::NodeEdit;
use crate::parts::judge::Overfull;
use pfl_base::Refusal;
use pfl_edits::{NoMemory, OfPart, Recorder, take_back};
use std::alloc::Allocator;

impl<A: Allocator> Desk<A> {
    /// The next id, the next queueing number or a counter is past the greatest.
    pub fn is_overcounted(&self) -> bool
        ensures counted { result ≡ is_overcounted self.now.node }
        ensures room { is_overfull self.now.node ≡ false }
    {
        self.parts.is_overcounted()
    }

    /// Judges an event that was carried out and that goes through no point before its end: `tried` is its answer, or that it stopped
    /// where too much was pending.
    pub fn judge<T: Copy>(&self, tried: Result<T, Overfull>) -> Result<T, Refusal>
        ensures refused { judged_as result ≡ end_judgement tried self.now.node }
        ensures answer { IfOk result (λ answer. tried ≡ Ok answer) }
        ensures fits { is_overfull self.now.node ≡ false }
    {
        let is_overcounted = self.is_overcounted();
        match tried {
            Ok(answer) if !is_overcounted => Ok(answer),
            Ok(_) => Err(Refusal::CountFull),
            Err(Overfull) => Err(Refusal::QueueFull),
        }
    }

    /// Ends an event that was carried out: its edits are recorded in `to`, as edits of a part; where it is refused, or `to` has no
    /// memory for them and one more, they are taken back.
    pub fn conclude<T: Drop, W: OfPart<NodeEdit>, R: Recorder<W>>(
        &mut self,
        judged: Result<T, Refusal>,
        part: W::Part,
        to: &mut R,
    ) -> Result<T, Refusal>
        requires counted { OnOk judged (is_overcounted self.old.node ≡ false) }
        ensures refused { IfErr result (IsRefusal (judged_as judged)) }
        ensures undone { OnErr result (self.new.node ≡ began self.old) }
        ensures untaken { OnErr result (R.list to.new ≡ R.list to.old) }
        ensures stands { IfOk result (λ answer. judged ≡ Ok answer) }
        ensures kept { OnOk result (self.new.node ≡ self.old.node) }
        ensures parts { OnOk result (AreParts self.new.node) }
        ensures recorded { OnOk result (AllRecorded (W.of part) self.old self.new.node (R.list to.old) (R.list to.new)) }
        ensures list { OnOk result (R.list to.new ≡ R.list to.old ++ map (W.of part) self.old.edits.list) }
        ensures one_more { OnOk result (0 < R.spare to.new) }
        ensures total { R.spare to.old + length (R.list to.old) ≤ R.spare to.new + length (R.list to.new) }
        ensures none { self.new.edits.list ≡ [] }
        ensures room { self.new.edits.spare ≡ self.old.edits.spare + length self.old.edits.list }
    {
        self.parts.known();
        let refusal = match judged {
            Ok(answer) => match self.record(part, to) {
                Ok(()) => return Ok(answer),
                Err(NoMemory) => Refusal::NoMemory,
            },
            Err(refusal) => refusal,
        };
        take_back(&mut self.parts, &mut self.edits);
        Err(refusal)
    }

    /// Records the edits in `to`, as edits of a part, if it has room or memory for them and one more. The room that they had here is
    /// given back.
    fn record<W: OfPart<NodeEdit>, R: Recorder<W>>(
        &mut self,
        part: W::Part,
        to: &mut R,
    ) -> Result<(), NoMemory>
        requires counted { is_overcounted self.old.node ≡ false }
        ensures unchanged { OnErr result (self.new ≡ self.old) }
        ensures untaken { OnErr result (R.list to.new ≡ R.list to.old) }
        ensures node { self.new.node ≡ self.old.node }
        ensures list { OnOk result (R.list to.new ≡ R.list to.old ++ map (W.of part) self.old.edits.list) }
        ensures one_more { OnOk result (0 < R.spare to.new) }
        ensures total { R.spare to.old + length (R.list to.old) ≤ R.spare to.new + length (R.list to.new) }
        ensures none { OnOk result (self.new.edits.list ≡ []) }
        ensures room { OnOk result (self.new.edits.spare ≡ self.old.edits.spare + length self.old.edits.list) }
    {
        to.reserve(self.edits.len() + 1)?;
        self.edits.record_in(part, to);
        self.give_up_edits();
        Ok(())
    }

    /// Gives up what was recorded, so that it can no longer be taken back. Its room is given back.
    pub fn give_up_edits(&mut self)
        requires counted { is_overcounted self.old.node ≡ false }
        ensures node { self.new.node ≡ self.old.node }
        ensures none { self.new.edits.list ≡ [] }
        ensures room { self.new.edits.spare ≡ self.old.edits.spare + length self.old.edits.list }
    {
        self.edits.clear();
    }
}
