//! Trees with an entry more, and with one less. Each function goes down at most `steps` nodes, and writes those alone whose trees
//! stand elsewhere or are of another height then.
ghost use Rattle.pfl_containers.specs.inner.Changes.{Inserts, Parts, Merges, Removes};

use crate::order::joins::{balanced, linked, with_left, with_right};
use crate::order::node::{Node, height, node_at, put};
use crate::order::ordered::Ordered;
use std::cmp::Ordering;

/// The first node of a tree, and what is left without it.
#[derive(Clone, Copy)]
pub(crate) struct Parted<K, V> {
    pub(crate) place: u32,
    pub(crate) node: Node<K, V>,
    pub(crate) rest: u32,
}

/// A tree with an entry, and what stood under its key.
#[derive(Clone, Copy)]
pub(crate) struct Grown<V> {
    pub(crate) link: u32,
    pub(crate) former: Option<V>,
}

/// The tree with the entry of an item. A node that has its key takes its value; if there is none, the item stands at the place.
pub(crate) fn inserted<K: Ordered, V: Copy>(
    nodes: &mut [Node<K, V>],
    link: u32,
    place: u32,
    item: &Node<K, V>,
    steps: usize,
) -> Grown<V>
    ensures inserts { Inserts K.order nodes.old nodes.new link place item.now steps result }
{
    let Some(node) = node_at(nodes, link) else {
        let link = linked(nodes, place, *item);
        return Grown { link, former: None };
    };
    if steps == 0 {
        return Grown { link, former: None };
    }
    match item.key.compare(node.key) {
        Ordering::Less => {
            let left = node.left;
            let was = height(nodes, left);
            let below = inserted(nodes, left, place, item, steps - 1);
            let link = with_left(nodes, link, below.link, was);
            Grown { link, ..below }
        }
        Ordering::Equal => {
            let former = Some(node.value);
            let node = Node {
                value: item.value,
                ..*node
            };
            put(nodes, link, node);
            Grown { link, former }
        }
        Ordering::Greater => {
            let right = node.right;
            let was = height(nodes, right);
            let below = inserted(nodes, right, place, item, steps - 1);
            let link = with_right(nodes, link, below.link, was);
            Grown { link, ..below }
        }
    }
}

/// The tree's first node, and the tree without it.
pub(crate) fn without_first<K: Copy, V: Copy>(
    nodes: &mut [Node<K, V>],
    link: u32,
    steps: usize,
) -> Option<Parted<K, V>>
    ensures parts { Parts nodes.old nodes.new link steps result }
{
    let Some(node) = node_at(nodes, link) else {
        return None;
    };
    if steps == 0 {
        return None;
    }
    let node = *node;
    let was = height(nodes, node.left);
    let Some(mut parted) = without_first(nodes, node.left, steps - 1) else {
        return Some(Parted {
            place: link,
            node,
            rest: node.right,
        });
    };
    parted.rest = with_left(nodes, link, parted.rest, was);
    Some(parted)
}

/// One tree of the entries of two.
pub(crate) fn merged<K: Copy, V: Copy>(
    nodes: &mut [Node<K, V>],
    left: u32,
    right: u32,
    steps: usize,
) -> u32
    ensures merges { Merges nodes.old nodes.new left right steps result }
{
    let Some(parted) = without_first(nodes, right, steps) else {
        return left;
    };
    let mut node = parted.node;
    node.left = left;
    node.right = parted.rest;
    balanced(nodes, parted.place, node)
}

/// A node that was taken out of a tree.
#[derive(Clone, Copy)]
pub(crate) struct Taken<V> {
    pub(crate) place: u32,
    pub(crate) value: V,
}

/// A tree without a key, and the node of it.
#[derive(Clone, Copy)]
pub(crate) struct Remaining<V> {
    pub(crate) link: u32,
    pub(crate) taken: Option<Taken<V>>,
}

/// The tree without the node of this key, and that node.
pub(crate) fn removed<K: Ordered, V: Copy>(
    nodes: &mut [Node<K, V>],
    link: u32,
    key: &K,
    steps: usize,
) -> Remaining<V>
    ensures removes { Removes K.order nodes.old nodes.new link key.now steps result }
{
    let Some(node) = node_at(nodes, link) else {
        return Remaining { link, taken: None };
    };
    if steps == 0 {
        return Remaining { link, taken: None };
    }
    let (left, right, value) = (node.left, node.right, node.value);
    match key.compare(node.key) {
        Ordering::Less => {
            let was = height(nodes, left);
            let below = removed(nodes, left, key, steps - 1);
            let link = with_left(nodes, link, below.link, was);
            Remaining { link, ..below }
        }
        Ordering::Equal => {
            let taken = Some(Taken { place: link, value });
            let link = merged(nodes, left, right, steps - 1);
            Remaining { link, taken }
        }
        Ordering::Greater => {
            let was = height(nodes, right);
            let below = removed(nodes, right, key, steps - 1);
            let link = with_right(nodes, link, below.link, was);
            Remaining { link, ..below }
        }
    }
}
