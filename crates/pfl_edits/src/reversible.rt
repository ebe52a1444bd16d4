//! Values whose edits can be taken back.
ghost use Rattle.std.specs.Prelude.{◌≡◌, ◌+◌, [], length};
ghost use Rattle.pfl_edits.specs.Changes.{back, Fits, LeadsBothWays};
ghost use Rattle.pfl_edits.specs.Redoing.{IsUndone};

use crate::changes::Change;
use std::alloc::Allocator;

/// A value whose operations give an edit for each change of it.
///
/// An edit names one place, its former value and its new one, whatever the code of it keeps.
pub trait Reversible {
    /// What is kept of one change: a place, its former value and its new one.
    type Edit;

    /// The edit finds its new value in its place.
    ghost finds: { Self.Edit → Self → Type 0 };

    /// The edit finds its former value in its place.
    ghost finds_former: { Self.Edit → Self → Type 0 };

    /// The value with the edit's former value in the edit's place.
    ghost put_back: { Self.Edit → Self → Self };

    /// The value with the edit's new value in the edit's place.
    ghost redone: { Self.Edit → Self → Self };

    /// The value is one that its type may have.
    ghost allows: { Self → Type 0 };

    /// Puts the edit's former value back. It returns nothing, so it cannot want memory.
    fn undo(&mut self, edit: Self::Edit)
        requires found { finds edit self.old }
        requires allowed { allows (put_back edit self.old) }
        ensures undone { self.new ≡ put_back edit self.old };

    /// What an edit put back can be redone, and the other way round: it knows both values of its place, and nothing is
    /// lost on either way. That it leaves the rest alone is for `put_back` itself to say, which is read with each layer.
    ghost both_ways: { (e : Self.Edit) → LeadsBothWays (finds_former e) (finds e) (put_back e) (redone e) };
}

/// A value whose edits can be taken back for a while, and redone.
///
/// Neither way takes memory: what an edit owns moves into the value and back.
pub trait Redoable: Reversible {
    /// What is kept of an edit that is taken back.
    type Undone;

    /// What is kept of the edit.
    ghost undone: { Self.Edit → Self.Undone };

    /// Puts the edit's former value back, and keeps what it takes to redo the edit.
    fn set_aside(&mut self, edit: Self::Edit) -> Self::Undone
        requires found { Self.finds edit self.old }
        requires allowed { Self.allows (Self.put_back edit self.old) }
        ensures value { self.new ≡ Self.put_back edit self.old }
        ensures kept { result ≡ undone edit };

    /// Puts the new value of an edit that was taken back into its place again, and returns the edit.
    fn redo(&mut self, kept: Self::Undone) -> Self::Edit
        requires undone { IsUndone Self.finds_former Self.allows Self.redone undone kept self.old }
        ensures value { (of : IsUndone Self.finds_former Self.allows Self.redone undone kept self.old) → self.new ≡ Self.redone of.edit self.old }
        ensures edit { (of : IsUndone Self.finds_former Self.allows Self.redone undone kept self.old) → result ≡ of.edit };
}

/// Takes the edits of a change back, the newest first, without memory, and gives the change up.
pub fn undo_all<T: Reversible, A: Allocator>(value: &mut T, mut change: Change<T::Edit, A>)
    requires fits { Fits T.finds T.allows T.put_back change.list value.old }
    ensures value { value.new ≡ back T.put_back change.list value.old }
{
    take_back(value, &mut change);
    change.destroy_empty();
}

/// Takes the edits of a change back, the newest first, without memory. The room that they had is given back.
pub fn take_back<T: Reversible, A: Allocator>(value: &mut T, change: &mut Change<T::Edit, A>)
    requires fits { Fits T.finds T.allows T.put_back change.old.list value.old }
    ensures value { value.new ≡ back T.put_back change.old.list value.old }
    ensures none_left { change.new.list ≡ [] }
    ensures room { change.new.spare ≡ change.old.spare + length change.old.list }
{
    while let Some(edit) = change.pop() {
        value.undo(edit);
    }
}
