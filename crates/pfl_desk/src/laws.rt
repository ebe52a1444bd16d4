//! A law of nodes. It has no code: it is a theorem over the definitions, which the function's contract names.

ghost use Rattle.pfl_desk.specs.Laws.{NewNodesAreNodes};

/// A node that has seen nothing keeps all that is true of each node.
pub fn new_nodes_are_nodes()
    ensures { NewNodesAreNodes }
{}
