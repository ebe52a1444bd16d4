//! Laws of the pair. They have no code: each is a theorem over the definitions, which a function's contract names.

ghost use Rattle.pfl_world.specs.Laws.{NewWorldsAreWorlds, LateWorldsAreWorlds};

/// The pair before any event keeps all that is true of each pair, whatever number it begins to count from.
pub fn new_worlds_are_worlds()
    ensures opening { NewWorldsAreWorlds }
    ensures late { LateWorldsAreWorlds }
{}
