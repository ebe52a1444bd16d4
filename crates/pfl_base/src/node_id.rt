//! The two nodes.

ghost use Rattle.std.specs.Prelude.{◌≡◌, Some};

use std::fmt;

/// A node of the pair. It prints as `a` or `b`.
#[derive(Clone, Copy, Debug, PartialEq, Eq)]
pub enum NodeId {
    A,
    B,
}

impl NodeId {
    ghost use Rattle.std.specs.Prelude.{IfSome};
    ghost use Rattle.pfl_base.specs.Nodes.{other_node};
    ghost use Rattle.pfl_base.specs.Texts.{node_text};
    ghost use Rattle.pfl_base.specs.Words.{node_at_word};

    /// Both nodes.
    pub const ALL: [NodeId; 2] = [NodeId::A, NodeId::B];

    /// The other node of the pair.
    pub fn other(self) -> NodeId
        ensures { result ≡ other_node self }
    {
        match self {
            NodeId::A => NodeId::B,
            NodeId::B => NodeId::A,
        }
    }

    /// The node's word in lines, which the other node does not have.
    pub fn word(self) -> &'static str
        ensures word { result.now ≡ node_text self }
        ensures read_again { node_at_word result.now ≡ Some self }
    {
        match self {
            NodeId::A => "a",
            NodeId::B => "b",
        }
    }

    /// The node with the word, if there is one.
    pub fn of_word(word: &[u8]) -> Option<NodeId>
        ensures found { result ≡ node_at_word word.now }
        ensures word { IfSome result (λ node. node_text node ≡ word.now) }
    {
        NodeId::ALL
            .iter()
            .copied()
            .find(|node| node.word().as_bytes() == word)
    }
}

impl fmt::Display for NodeId {
    ghost use Rattle.pfl_base.specs.Texts.{node_text};

    ghost output = { λ node. Some (node_text node) };

    fn fmt<W: fmt::Write>(&self, f: &mut fmt::Formatter<W>) -> fmt::Result {
        f.write_str(self.word())
    }
}
