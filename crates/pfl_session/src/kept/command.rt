//! Commands in few bytes.

ghost use Rattle.std.specs.Prelude.{◌≡◌, IsTrue, MatchOption};
ghost use Rattle.pfl_session.specs.inner.Fitting.{is_long, has_long_word};
ghost use Rattle.pfl_session.specs.inner.Kept.{ask_in, asked_in, command_in};

use crate::kept::event::JournalEvent;
use crate::kept::short_word::ShortWord;
use pfl_language::{Ask, BranchWord, Command};

/// What is asked of a branch, where no event is part of it.
#[derive(Drop)]
pub(crate) enum KeptAsk {
    Back { n: u32 },
    Forward { n: u32 },
    Show,
    Past { place: u32 },
    Why { place: u32 },
    Frame { ticket: u32 },
    Excise { place: u32 },
    Restore,
    Log,
}

/// What a command says beside the branch's name, where no event is part of it.
#[derive(Drop)]
pub(crate) enum KeptCommand {
    On(KeptAsk),
    Fork { place: u32, name: ShortWord },
    Drop,
    Names,
}

/// A command whose words are short: the branch's name, and what is asked of it.
#[derive(Drop)]
pub(crate) enum Asked {
    Step {
        name: ShortWord,
        event: JournalEvent,
    },
    WhyStep {
        name: ShortWord,
        event: JournalEvent,
    },
    Plain {
        name: ShortWord,
        command: KeptCommand,
    },
}

/// What is said of the branch, unless its word is too long.
fn plain(branch: &BranchWord, command: KeptCommand) -> Option<Asked>
    ensures { MatchOption result (IsTrue (is_long branch.now)) (λ asked. asked ≡ Asked.Plain branch.now command) }
{
    let name = ShortWord::of(branch)?;
    Some(Asked::Plain { name, command })
}

impl Asked {
    /// What is asked of the branch of the name.
    fn on(name: ShortWord, ask: &Ask) -> Asked
        ensures { asked_in result ≡ Command.On name ask.now }
    {
        let ask = match ask {
            Ask::Step { event } => {
                let event = JournalEvent::of(event);
                return Asked::Step { name, event };
            }
            Ask::WhyStep { event } => {
                let event = JournalEvent::of(event);
                return Asked::WhyStep { name, event };
            }
            Ask::Back { n } => KeptAsk::Back { n: *n },
            Ask::Forward { n } => KeptAsk::Forward { n: *n },
            Ask::Show => KeptAsk::Show,
            Ask::Past { place } => KeptAsk::Past { place: *place },
            Ask::Why { place } => KeptAsk::Why { place: *place },
            Ask::Frame { ticket } => KeptAsk::Frame { ticket: *ticket },
            Ask::Excise { place } => KeptAsk::Excise { place: *place },
            Ask::Restore => KeptAsk::Restore,
            Ask::Log => KeptAsk::Log,
        };
        let command = KeptCommand::On(ask);
        Asked::Plain { name, command }
    }

    /// The same command, unless a word of it has more than 16 bytes.
    pub(crate) fn of(command: &Command) -> Option<Asked>
        ensures { MatchOption result (IsTrue (has_long_word command.now)) (λ asked. asked_in asked ≡ command.now) }
    {
        match command {
            Command::On { branch, ask } => {
                let name = ShortWord::of(branch)?;
                Some(Asked::on(name, ask))
            }
            Command::Fork { from, place, name } => {
                let place = *place;
                let name = ShortWord::of(name)?;
                plain(from, KeptCommand::Fork { place, name })
            }
            Command::Drop { branch } => plain(branch, KeptCommand::Drop),
            Command::Names => Some(Asked::Plain {
                name: ShortWord::none(),
                command: KeptCommand::Names,
            }),
        }
    }
}

impl KeptAsk {
    /// The same.
    fn ask(&self) -> Ask
        ensures { result ≡ ask_in self.now }
    {
        match self {
            KeptAsk::Back { n } => Ask::Back { n: *n },
            KeptAsk::Forward { n } => Ask::Forward { n: *n },
            KeptAsk::Show => Ask::Show,
            KeptAsk::Past { place } => Ask::Past { place: *place },
            KeptAsk::Why { place } => Ask::Why { place: *place },
            KeptAsk::Frame { ticket } => Ask::Frame { ticket: *ticket },
            KeptAsk::Excise { place } => Ask::Excise { place: *place },
            KeptAsk::Restore => Ask::Restore,
            KeptAsk::Log => Ask::Log,
        }
    }
}

impl KeptCommand {
    /// The same command of the branch with this name.
    pub(crate) fn command(&self, name: &ShortWord) -> Command
        ensures { result ≡ command_in name.now self.now }
    {
        let branch = name.word();
        match self {
            KeptCommand::On(ask) => Command::On {
                branch,
                ask: ask.ask(),
            },
            KeptCommand::Fork { place, name } => Command::Fork {
                from: branch,
                place: *place,
                name: name.word(),
            },
            KeptCommand::Drop => Command::Drop { branch },
            KeptCommand::Names => Command::Names,
        }
    }
}
