//! Room for the places that a reply lists. The command that lists them changes the timeline, so what their copy wants has to be
//! there before it is carried out.

ghost use Rattle.std.specs.Prelude.{◌≡◌, ◌≤◌, [], length, find, if◌then◌else◌, vec_capacity};
ghost use Rattle.std.specs.Option.{option_map_or};
ghost use Rattle.pfl_language.specs.BranchWords.{same_name};
ghost use Rattle.pfl_session.specs.Listings.{most_places, takes_out};

use pfl_language::{Ask, BranchWord, Command};
use pfl_timeline::{Branch, Timeline};
use std::alloc::Allocator;

/// Whether this is the branch's name.
fn is_named<A: Allocator>(branch: &Branch<A>, name: &BranchWord) -> bool
    ensures named { result ≡ same_name branch.now.branch.name name.now }
{
    branch.name().bytes() == name.bytes()
}

/// How many events the branch of the name has; none where there is no such branch.
fn events_of<A: Allocator>(branches: &[Branch<A>], name: &BranchWord) -> usize
    ensures { result ≡ option_map_or (λ r. length r.branch.events) (find (λ r. same_name r.branch.name name.now) branches.now) 0 }
{
    for branch in branches {
        if is_named(branch, name) {
            return branch.events().len();
        }
    }
    0
}

/// The most places that the answer of the branch of the name lists: no more events fall out of it than it has.
fn most_listed<A: Allocator>(branches: &[Branch<A>], name: &BranchWord, ask: &Ask) -> usize
    ensures { result ≡ if takes_out ask.now then option_map_or (λ r. length r.branch.events) (find (λ r. same_name r.branch.name name.now) branches.now) 0 else 0 }
{
    match ask {
        Ask::Excise { .. } => events_of(branches, name),
        _ => 0,
    }
}

/// The most places that the reply to the command lists.
pub(crate) fn most_places<A: Allocator>(timeline: &Timeline<A>, command: &Command) -> usize
    ensures { result ≡ most_places timeline.now command.now }
{
    match command {
        Command::On { branch, ask } => most_listed(timeline.branches(), branch, ask),
        _ => 0,
    }
}

/// The places, in the room that was made for them.
pub(crate) fn filled<A: Allocator>(mut room: Vec<usize, A>, places: &[usize]) -> Vec<usize, A>
    requires empty { room.items ≡ [] }
    requires enough { length places.now ≤ vec_capacity room }
    ensures { result.items ≡ places.now }
{
    room.extend_from_slice(places).unwrap();
    room
}
