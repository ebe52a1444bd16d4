//! Laws of nodes. They have no code: each is a theorem over the definitions, which a function's contract names.

ghost use Rattle.pfl_node.specs.Laws.{RecordsKeepKeysApart, PacketsKeepKeysApart, RecordsLeaveTheRest};

/// No record that a node takes, and no packet that comes to it, gives two of its states one wire key or one stack key (pf.c).
pub fn one_state_per_key()
    ensures records { RecordsKeepKeysApart }
    ensures packets { PacketsKeepKeysApart }
{}

/// No record changes a node's limits, rules, clock, creator or next id.
pub fn records_leave_the_rest()
    ensures { RecordsLeaveTheRest }
{}
