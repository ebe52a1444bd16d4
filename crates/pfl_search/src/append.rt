//! A list that grows.

ghost use Rattle.std.specs.Prelude.{◌≡◌, ◌++◌, ◌∷◌, [], OnOk};

use pfl_edits::NoMemory;
use std::alloc::Allocator;

/// Puts a value at the end of a list.
pub(crate) fn append<T: Copy, A: Allocator>(list: &mut Vec<T, A>, value: T) -> Result<(), NoMemory>
    ensures { OnOk result (list.new.items ≡ list.old.items ++ value ∷ []) }
{
    list.reserve(1)?;
    list.push(value).unwrap();
    Ok(())
}
