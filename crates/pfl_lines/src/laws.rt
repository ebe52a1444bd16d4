//! Laws of lines. They have no code: each is a theorem over the definitions, which a function's contract names.

ghost use Rattle.pfl_lines.specs.Laws.{CommandsReadBack, EventWordsAreNoNumbers, NamesAreWords, StepsReadBack, WhysReadBack};

/// The line that steps an event on a branch is read as that command, whatever the event.
pub fn steps_read_back()
    ensures { StepsReadBack }
{}

/// The line that asks why of an event on a branch is read as that command, whatever the event; and no event's word is a number,
/// so a line that asks of a place is read so.
pub fn whys_read_back()
    ensures events { WhysReadBack }
    ensures places { EventWordsAreNoNumbers }
{}

/// The line of a command is read as that command, whatever the command, with any words that a line may have for branches; the names
/// of branches are such words.
pub fn commands_read_back()
    ensures commands { CommandsReadBack }
    ensures names { NamesAreWords }
{}
