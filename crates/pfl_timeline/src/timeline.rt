//! Timelines.

ghost use Rattle.std.specs.Prelude.{◌≡◌, length, map, is_some, IfOk, IfErr, IsSomeAnd, IsTrue, OnErr, OnOk, Some};
ghost use Rattle.std.specs.List.{AllByRecursion};
ghost use Rattle.pfl_timeline.specs.Commands.{replied, back_command, command_step, fork_refusal, past_command, show_command};
ghost use Rattle.pfl_timeline.specs.Memory.{IsAccepted, MayWantMemory};
ghost use Rattle.pfl_timeline.specs.Looks.{IsNotSeen};
ghost use Rattle.pfl_timeline.specs.Replies.{reply_of, Reply as Replying, Refused as Refusing, Shown};
ghost use Rattle.pfl_timeline.specs.Rooted.{shown};
ghost use Rattle.pfl_timeline.specs.Searches.{IsAnswer, finding, finding_of, sought};
ghost use Rattle.pfl_timeline.specs.Timelines.{Branch as Branched, IsTimeline, branch_of, new_timeline, world_of};
ghost use Rattle.pfl_search.specs.world.Worlds.{World as Pair};

use crate::branch::Branch;
use crate::finding::Finding;
use crate::look::{Look, NotSeen};
use crate::reply::Reply;
use indexmap::IndexMap;
use pfl_edits::NoMemory;
use pfl_language::{Ask, BranchWord, Choice, Command, Goal, Refused};
use pfl_search::World;
use std::alloc::Allocator;
use std::hash::{BuildHasherDefault, FoldHasher};
use std::marker::Model;

/// Branches by their names, in the order of their making.
type Branches<A> = IndexMap<BranchWord, Branch<A>, BuildHasherDefault<FoldHasher>, A>;

/// Branches of events over one opening world.
pub struct Timeline<A: Allocator> {
    branches: Branches<A>,
}

// Written by hand: see docs/ARCHITECTURE.md, "What the prover asks of the code".
impl<A: Allocator> Drop for Timeline<A> {
    fn drop(self) {
        let Timeline { branches: _ } = self;
    }
}

impl<A: Allocator> Model for Timeline<A> {
    ghost use Rattle.pfl_timeline.specs.Timelines.{Timeline};
    ghost use Rattle.pfl_timeline.specs.Codes.{coded_timeline};

    ghost Value = { Timeline };

    ghost coded = { coded_timeline };

    ghost use Rattle.indexmap.specs.IndexMap.{values};
    ghost use Rattle.pfl_timeline.specs.Kept.{StandByName, timeline_of};

    ghost view = { λ t. timeline_of (values t.branches) };

    ghost invariant = { λ t. StandByName t.branches.entries };
}

/// The most branches of a timeline.
const MOST_BRANCHES: usize = 16;

impl<A: Allocator> Timeline<A> {
    /// The branches, in the order of their making. Each begins from the timeline's opening.
    pub fn branches(&self) -> &[Branch<A>]
        ensures branches { map (λ r. r.branch) result.now ≡ self.now.branches }
        ensures openings { AllByRecursion (λ r. r.opening ≡ self.now.opening) result.now }
    {
        self.branches.values().as_slice()
    }

    /// The branch that `show` shows, where it stands, or why it shows none.
    pub fn shown(&self, name: &BranchWord) -> Result<&Branch<A>, Refused>
        ensures branch { IfOk result (λ r. IsSomeAnd (shown r.now)
            (λ world. show_command self.now name.now
            ≡ replied self.now (Shown r.now.branch.name (length r.now.branch.events) r.now.branch.cursor world))) }
        ensures refused { IfErr result (λ why. show_command self.now name.now ≡ replied self.now (Refusing why)) }
    {
        match self.branches.get(name) {
            Some(branch) => {
                // What it ensures says that the branch shows a world.
                let _world = branch.world();
                Ok(branch)
            }
            None => Err(Refused::NoBranch),
        }
    }

    /// States for proofs what is true of each timeline. It does nothing.
    pub fn known(&self)
        ensures timeline { IsTimeline self.now }
    {
        let _branches = &self.branches;
    }

    /// Removes a branch. It takes no memory.
    fn remove(&mut self, name: &BranchWord) -> Reply<A>
        ensures step { command_step self.old (Command.Drop name.now) ≡ replied self.new (reply_of result) }
    {
        if !self.branches.contains_key(name) {
            return Reply::Refused(Refused::NoBranch);
        }
        if self.branches.len() <= 1 {
            return Reply::Refused(Refused::LastBranch);
        }
        self.branches.shift_remove(name);
        Reply::Removed
    }
}

impl<A: Allocator + Copy> Timeline<A> {
    /// The timeline that opens over a world: the one branch `main`, without events.
    pub fn new(alloc: A, world: World<A>) -> Result<Self, NoMemory>
        ensures new { IfOk result (λ t. t ≡ new_timeline world) }
    {
        world.known();
        let mut branches = IndexMap::with_capacity(alloc, 1)?;
        let name = BranchWord::main();
        let main = Branch::new(alloc, name, world)?;
        branches.insert(name, main).unwrap();
        Ok(Timeline { branches })
    }

    /// What the branch of the name answers. Where there is no memory, nothing changes.
    fn ask(&mut self, name: &BranchWord, ask: &Ask) -> Result<Reply<A>, NoMemory>
        ensures step { IfOk result (λ reply. command_step self.old (Command.On name.now ask.now) ≡ replied self.new (reply_of reply)) }
        ensures memory { OnErr result (MayWantMemory self.old (Command.On name.now ask.now)) }
        ensures unchanged { OnErr result (self.new ≡ self.old) }
    {
        let Some(branch) = self.branches.get_mut(name) else {
            return Ok(Reply::Refused(Refused::NoBranch));
        };
        let answered = branch.answer(ask);
        branch.known();
        answered
    }

    /// Undoes the last `n` events before the branch's cursor; they stay in the branch. A refusal changes nothing, and it
    /// takes no memory.
    pub fn back(&mut self, name: BranchWord, n: u32) -> Reply<A>
        ensures step { back_command self.old name n ≡ replied self.new (reply_of result) }
    {
        match self.ask(&name, &Ask::Back { n }) {
            Ok(reply) => reply,
            Err(NoMemory) => unreachable!(),
        }
    }

    /// Why a branch of the first `place` events of another one is not made under this name, if there is a reason.
    fn fork_refusal(&self, from: &Branch<A>, place: usize, name: &BranchWord) -> Option<Refused>
        ensures { result ≡ fork_refusal self.now place name.now from.now.branch }
    {
        if self.branches.contains_key(name) {
            Some(Refused::NameTaken)
        } else if !name.is_name() {
            Some(Refused::BadName)
        } else if from.events().len() < place {
            Some(Refused::NothingForward)
        } else if self.branches.len() >= MOST_BRANCHES {
            Some(Refused::BranchesFull)
        } else {
            None
        }
    }

    /// Makes a branch of the first `place` events of another one, after all branches.
    fn fork(
        &mut self,
        from: &BranchWord,
        place: u32,
        name: BranchWord,
    ) -> Result<Reply<A>, NoMemory>
        ensures step { IfOk result (λ reply. command_step self.old (Command.Fork from.now place name) ≡ replied self.new (reply_of reply)) }
        ensures memory { OnErr result (IsAccepted (command_step self.old (Command.Fork from.now place name))) }
        ensures unchanged { OnErr result (self.new ≡ self.old) }
    {
        let Some(from) = self.branches.get(from) else {
            return Ok(Reply::Refused(Refused::NoBranch));
        };
        let place = place as usize;
        if let Some(why) = self.fork_refusal(from, place, &name) {
            return Ok(Reply::Refused(why));
        }
        let branch = from.forked(place, name)?;
        branch.known();
        self.branches.reserve(1)?;
        self.branches.insert(name, branch).unwrap();
        Ok(Reply::Forked)
    }

    /// The names of the branches.
    fn names(&self) -> Result<Reply<A>, NoMemory>
        ensures step { IfOk result (λ reply. command_step self.now Command.Names ≡ replied self.now (reply_of reply)) }
    {
        let alloc = *self.branches.allocator();
        let names = Vec::from_slice(alloc, self.branches.keys().as_slice())?;
        Ok(Reply::Names(names))
    }

    /// Looks at the world that the branch's first `place` events give, those after the cursor too. No pair is copied, and the timeline
    /// stays as it was, whatever there is to be seen.
    pub fn past<L: Look<A, W>, W>(
        &mut self,
        name: &BranchWord,
        place: u32,
        look: &L,
        writer: &mut W,
    ) -> Result<L::Seen, NotSeen>
        ensures seen { IfOk result (λ seen. (told : Replying) × (past_command self.old name.now place ≡ replied self.old told)
            × L.sees look.now told writer.old writer.new seen) }
        ensures accepted { OnOk result (IsAccepted (past_command self.old name.now place)) }
        ensures refused { IfErr result (IsNotSeen self.old (past_command self.old name.now place)) }
        ensures still { (past_command self.old name.now place).timeline ≡ self.old }
        ensures untouched { OnErr result (writer.new ≡ writer.old) }
        ensures unchanged { self.new ≡ self.old }
    {
        let Some(branch) = self.branches.get_mut(name) else {
            return Err(NotSeen::Refused(Refused::NoBranch));
        };
        let seen = branch.look_at(place, look, writer);
        branch.known();
        match seen? {
            Some(seen) => Ok(seen),
            None => Err(NotSeen::Refused(Refused::NothingForward)),
        }
    }

    /// Searches for a shortest run to the goal from where the branch stands: a run of events of the choices, at most `depth` of them.
    /// At most `most` runs are tried. The timeline stays as it was, whatever the answer, and where there is no memory, too.
    pub fn search(
        &mut self,
        name: &BranchWord,
        choices: &[Choice],
        depth: u32,
        goal: &Goal,
        most: u64,
    ) -> Result<Finding<A>, NoMemory>
        ensures finding { IfOk result (λ f. finding_of f ≡ finding self.old name.now (sought goal.now depth choices.now most)) }
        ensures means { IfOk result (λ f. (b : Branched) (w : Pair) → branch_of self.old name.now ≡ Some b → world_of self.old b ≡ Some w
            → IsAnswer (sought goal.now depth choices.now most) w (finding_of f)) }
        ensures memory { OnErr result (IsTrue (is_some (branch_of self.old name.now))) }
        ensures unchanged { self.new ≡ self.old }
    {
        let Some(branch) = self.branches.get_mut(name) else {
            return Ok(Finding::Refused(Refused::NoBranch));
        };
        let searched = branch.search(choices, depth, goal, most);
        branch.known();
        searched
    }

    /// Carries a command out: the reply and the timeline are those of its definition, so a refusal changes nothing. Where
    /// there is no memory, nothing changes either. Memory is wanted last: by no way back, no drop and no restoration, and by no
    /// command that is refused.
    pub fn command(&mut self, command: Command) -> Result<Reply<A>, NoMemory>
        ensures step { IfOk result (λ reply. command_step self.old command ≡ replied self.new (reply_of reply)) }
        ensures memory { OnErr result (MayWantMemory self.old command) }
        ensures unchanged { OnErr result (self.new ≡ self.old) }
    {
        match command {
            Command::On { branch, ask } => self.ask(&branch, &ask),
            Command::Fork { from, place, name } => self.fork(&from, place, name),
            Command::Drop { branch } => Ok(self.remove(&branch)),
            Command::Names => self.names(),
        }
    }
}
