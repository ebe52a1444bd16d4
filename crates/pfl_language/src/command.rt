//! What is asked of a timeline.

ghost use Rattle.std.specs.Prelude.{◌≡◌};

use crate::ask::Ask;
use crate::branch_word::BranchWord;
use crate::event::Event;

/// What is asked of a timeline.
#[derive(Clone, Copy, Debug)]
pub enum Command {
    /// Asks something of the branch of the name.
    On {
        branch: BranchWord,
        ask: Ask,
    },
    /// Makes a branch of the first `place` events of another one. All of them stand.
    Fork {
        from: BranchWord,
        place: u32,
        name: BranchWord,
    },
    /// Removes the branch.
    Drop {
        branch: BranchWord,
    },
    /// Asks for the names of the branches, in the order of their making.
    Names,
}

impl Command {
    /// Puts an event after those before the branch's cursor.
    pub fn step(branch: BranchWord, event: Event) -> Command
        ensures { result ≡ Command.On branch (Ask.Step event) }
    {
        Command::On {
            branch,
            ask: Ask::Step { event },
        }
    }

    /// Undoes the last `n` events before the cursor.
    pub fn back(branch: BranchWord, n: u32) -> Command
        ensures { result ≡ Command.On branch (Ask.Back n) }
    {
        Command::On {
            branch,
            ask: Ask::Back { n },
        }
    }

    /// Lets the next `n` events after the cursor happen again.
    pub fn forward(branch: BranchWord, n: u32) -> Command
        ensures { result ≡ Command.On branch (Ask.Forward n) }
    {
        Command::On {
            branch,
            ask: Ask::Forward { n },
        }
    }

    /// Asks for the branch's world.
    pub fn show(branch: BranchWord) -> Command
        ensures { result ≡ Command.On branch Ask.Show }
    {
        Command::On {
            branch,
            ask: Ask::Show,
        }
    }

    /// Asks for the world that the branch's first `place` events give.
    pub fn past(branch: BranchWord, place: u32) -> Command
        ensures { result ≡ Command.On branch (Ask.Past place) }
    {
        Command::On {
            branch,
            ask: Ask::Past { place },
        }
    }

    /// Asks what came of the branch's event at the place, and why.
    pub fn why(branch: BranchWord, place: u32) -> Command
        ensures { result ≡ Command.On branch (Ask.Why place) }
    {
        Command::On {
            branch,
            ask: Ask::Why { place },
        }
    }

    /// Asks what would come of the event where the branch stands, and why.
    pub fn why_step(branch: BranchWord, event: Event) -> Command
        ensures { result ≡ Command.On branch (Ask.WhyStep event) }
    {
        Command::On {
            branch,
            ask: Ask::WhyStep { event },
        }
    }

    /// Asks for the frame that an event of the branch sent under the ticket.
    pub fn frame(branch: BranchWord, ticket: u32) -> Command
        ensures { result ≡ Command.On branch (Ask.Frame ticket) }
    {
        Command::On {
            branch,
            ask: Ask::Frame { ticket },
        }
    }

    /// Takes an event out of the branch.
    pub fn excise(branch: BranchWord, place: u32) -> Command
        ensures { result ≡ Command.On branch (Ask.Excise place) }
    {
        Command::On {
            branch,
            ask: Ask::Excise { place },
        }
    }

    /// Brings back what the branch had before its newest excision.
    pub fn restore(branch: BranchWord) -> Command
        ensures { result ≡ Command.On branch Ask.Restore }
    {
        Command::On {
            branch,
            ask: Ask::Restore,
        }
    }

    /// Asks for the branch's events and its cursor.
    pub fn log(branch: BranchWord) -> Command
        ensures { result ≡ Command.On branch Ask.Log }
    {
        Command::On {
            branch,
            ask: Ask::Log,
        }
    }
}
