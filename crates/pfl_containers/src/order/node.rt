//! Nodes of trees, which stand in one array and name one another by their places in it.
ghost use Rattle.std.specs.Prelude.{◌≡◌, slice_get, slice_set};
ghost use Rattle.std.specs.Option.{option_copied};
ghost use Rattle.pfl_containers.specs.inner.Balances.{height_of};

/// The place of no node, which names a tree without any.
pub(crate) const NO_PLACE: u32 = u32::MAX;

/// An entry, the places of the trees below it, and how many levels they have together with it.
#[derive(Clone, Copy)]
pub(crate) struct Node<K, V> {
    pub(crate) key: K,
    pub(crate) value: V,
    pub(crate) left: u32,
    pub(crate) right: u32,
    pub(crate) height: u8,
}

/// The node that stands at a place.
#[inline]
pub(crate) fn node_at<K: Copy, V: Copy>(nodes: &[Node<K, V>], place: u32) -> Option<&Node<K, V>>
    ensures node { option_copied result ≡ slice_get nodes.now place }
{
    nodes.get(place as usize)
}

/// How many levels the tree there has, as its node says.
#[inline]
pub(crate) fn height<K: Copy, V: Copy>(nodes: &[Node<K, V>], link: u32) -> u8
    ensures height { result ≡ height_of nodes.now link }
{
    match node_at(nodes, link) {
        Some(node) => node.height,
        None => 0,
    }
}

/// Puts a node in its place.
#[inline]
pub(crate) fn put<K: Copy, V: Copy>(nodes: &mut [Node<K, V>], place: u32, node: Node<K, V>)
    ensures put { nodes.new ≡ slice_set nodes.old place node }
{
    if (place as usize) < nodes.len() {
        nodes[place as usize] = node;
    }
}
